// The loop path from a back leaf's companion down to it (39), told in one step by two tables of the trees.
#![tactic(auto)]

ghost use Rattle.std.specs.Prelude.{◌≡◌, ◌<◌, ◌≤◌, length, get_or};
ghost use Rattle.verdict.specs.Shown.{shown};
ghost use Rattle.formula.specs.Columned.{nodes};
ghost use Rattle.tree.specs.Owners.{Owned};
ghost use Rattle.loops.specs.Paths.{nearest_at, Tabled, Filled, LeafJudged, LeavesJudged, Linked, loops_judged};

use formula::{LinkColumns, NodeColumns, Rule};
use loop_nodes::may_loop;
use spans::Owners;
use verdict::{Refusal, Verdict};

// One more than the number of the nearest marked node at or above v, or 0; the table has that of v's parent, if it has one.
fn nearest(owners: &Owners, table: &[u16], v: usize, marked: bool) -> u16
    requires { (v < owners.now.nodes) × (get_or owners.now.table.now v 0 ≤ length table.now) }
    ensures { result ≡ nearest_at owners.now.table.now table.now v marked }
{
    if marked {
        return (v + 1) as u16;
    }
    owners.at_parent(table, v)
}

// For each node the nearest one at or above it that may not lie on a loop path, and the nearest box: the codes are looked at once.
fn fill_paths(proof: &NodeColumns, owners: &Owners, bars: &mut [u16], boxes: &mut [u16])
    requires { Tabled proof.now owners.now bars.old boxes.old }
    ensures { Filled proof.now owners.now bars.new boxes.new }
{
    for v in 0..proof.tree.nodes {
        let barred = !may_loop(proof, v);
        bars[v] = nearest(owners, bars, v, barred);
        boxes[v] = nearest(owners, boxes, v, proof.tree.rules[v] == Rule::BOX);
    }
}

// Whether v is no back leaf, or its loop path is good: from its companion down to it no node is barred and one is a box.
fn path_good(tree: &LinkColumns, bars: &[u16], boxes: &[u16], v: usize) -> bool
    requires { (v < tree.now.nodes) × (v < length bars.now) × (v < length boxes.now) }
    ensures { LeafJudged tree.now.rules.now tree.now.links.now bars.now boxes.now v result }
{
    if tree.rules[v] != Rule::BACK {
        return true;
    }
    let link = tree.links[4 * v + 3];
    (bars[v] <= link) & (link < boxes[v])
}

// 39 by rising leaf.
fn judge_paths(tree: &LinkColumns, bars: &[u16], boxes: &[u16]) -> Verdict
    requires { (tree.now.nodes ≤ length bars.now) × (tree.now.nodes ≤ length boxes.now) }
    ensures { LeavesJudged tree.now.rules.now tree.now.links.now tree.now.nodes bars.now boxes.now (shown result) }
{
    for v in 0..tree.nodes {
        if !path_good(tree, bars, boxes, v) {
            return Err(Refusal {
                number: 39,
                place: v as u16,
            });
        }
    }
    Ok(())
}

// 39, once no node has earned 38; in two tables of any content.
pub fn judge_loops(
    proof: &NodeColumns,
    owners: &Owners,
    bars: &mut [u16],
    boxes: &mut [u16],
) -> Verdict
    requires tabled { Tabled proof.now owners.now bars.old boxes.old }
    requires linked { Owned (nodes proof.now) proof.now.tree.nodes owners.now.table.now × Linked (nodes proof.now) }
    ensures { shown result ≡ loops_judged (nodes proof.now) }
{
    fill_paths(proof, owners, bars, boxes);
    judge_paths(&proof.tree, bars, boxes)
}
