// Refusal 35: every child is numbered above its parent; every node but a root is a child once, and no root is.
#![tactic(auto)]

ghost use Rattle.std.specs.Prelude.{◌≡◌, List, true, ℕ, ◌<◌, ◌≤◌, length, take};
ghost use Rattle.formula.specs.Nodes.{Proof};
ghost use Rattle.tree.specs.Owners.{unowned, Ownerless, OneChild, Taken, children_judged, orphans_judged, tree_judged};
ghost use Rattle.tree.specs.Columned.{TakenIn, ParentJudged, StageTaken, Filled};
ghost use Rattle.tree.specs.Stamps.{RootsPlaced, Stamped};
ghost use Rattle.verdict.specs.Shown.{shown};

use bits::wide;
use formula::{LinkColumns, Rule};
use verdict::{Refusal, Verdict};

// Stands for each root while the owners are looked for: no owner has this number.
const ROOT: u16 = 65535;

// Whether w is a node above v that no parent has yet.
fn child_fits(owners: &[u16], nodes: usize, v: usize, w: usize) -> bool
    requires { nodes ≤ length owners.now }
    ensures { result ≡ unowned owners.now nodes v w }
{
    if w <= v {
        return false;
    }
    if nodes <= w {
        return false;
    }
    owners[w] == 0
}

// Marks w as a child of v, if it fits.
fn take_child(owners: &mut [u16], nodes: usize, v: usize, w: usize) -> bool
    requires { (v < nodes) × (nodes ≤ 1024) × (nodes ≤ length owners.old) }
    ensures { OneChild owners.old nodes v w result owners.new }
{
    if !child_fits(owners, nodes, v, w) {
        return false;
    }
    owners[w] = (v + 1) as u16;
    true
}

// Takes the children of v, the first before the second: a second that is the same node is used already.
fn adopt(tree: &LinkColumns, v: usize, owners: &mut [u16]) -> bool
    requires { (tree.now.nodes ≤ length owners.old) × (v < tree.now.nodes) }
    ensures { (roots : List ℕ) → TakenIn roots tree.now v owners.old → ParentJudged roots tree.now v result owners.new }
{
    let rule = tree.rules[v];
    if !Rule::has_first(rule) {
        return true;
    }
    if !take_child(owners, tree.nodes, v, wide(tree.links[4 * v + 1])) {
        return false;
    }
    if !Rule::has_second(rule) {
        return true;
    }
    take_child(owners, tree.nodes, v, wide(tree.links[4 * v + 2]))
}

// The children of all nodes, by rising parent.
fn adopt_all(tree: &LinkColumns, owners: &mut [u16]) -> Verdict
    requires { tree.now.nodes ≤ length owners.old }
    ensures { (roots : List ℕ) → TakenIn roots tree.now 0 owners.old → StageTaken children_judged roots tree.now result owners.new }
{
    for v in 0..tree.nodes {
        if !adopt(tree, v, owners) {
            return Err(Refusal {
                number: 35,
                place: v as u16,
            });
        }
    }
    Ok(())
}

// Every node is a root or a child: by rising orphan.
fn find_orphan(owners: &[u16], nodes: usize) -> Verdict
    requires { (nodes ≤ 1024) × (nodes ≤ length owners.now) }
    ensures { (roots : List ℕ) (p : Proof) → length p ≡ nodes → Taken roots p nodes owners.now → shown result ≡ orphans_judged roots p }
{
    for node in 0..nodes {
        if owners[node] == 0 {
            return Err(Refusal {
                number: 35,
                place: node as u16,
            });
        }
    }
    Ok(())
}

// The children, then the orphans, in a table where the roots are marked.
fn take_all(tree: &LinkColumns, owners: &mut [u16]) -> Verdict
    requires { tree.now.nodes ≤ length owners.old }
    ensures { (roots : List ℕ) → TakenIn roots tree.now 0 owners.old → StageTaken tree_judged roots tree.now result owners.new }
{
    adopt_all(tree, owners)?;
    find_orphan(owners, tree.nodes)
}

// Writes one number at each root.
fn stamp(owners: &mut [u16], roots: &[u16; 16], goals: usize, number: u16)
    requires { RootsPlaced roots.now goals (length owners.old) }
    ensures { Stamped roots.now goals number owners.old owners.new }
{
    for i in 0..goals {
        owners[wide(roots[i])] = number;
    }
}

// Refusal 35, and the table of owners, one more than the number of each node's parent and 0 for a root, in a table of zeros.
pub fn fill_owners(
    tree: &LinkColumns,
    roots: &[u16; 16],
    goals: usize,
    owners: &mut [u16],
) -> Verdict
    requires { (tree.now.nodes ≤ length owners.old) × RootsPlaced roots.now goals tree.now.nodes × Ownerless owners.old tree.now.nodes }
    ensures { Filled (take goals roots.now) tree.now result owners.new }
{
    stamp(owners, roots, goals, ROOT);
    let found = take_all(tree, owners);
    stamp(owners, roots, goals, 0);
    found
}
