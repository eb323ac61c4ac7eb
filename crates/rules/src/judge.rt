// Refusals 35 to 39 over tables in plain numbers, in document 01's order: 35; 36; 37 or 38 by rising node; 39 by rising leaf.
ghost use Rattle.std.specs.Prelude.{◌≡◌, List, ℕ, ◌<◌, ◌≤◌};
ghost use Rattle.verdict.specs.Shown.{shown};
ghost use Rattle.formula.specs.Rule.{BACK};
ghost use Rattle.formula.specs.Claim.{Form};
ghost use Rattle.formula.specs.Columned.{nodes};
ghost use Rattle.calculus.specs.View.{plain};
ghost use Rattle.calculus.specs.Judge.{keeps, judge as judged};
ghost use Rattle.sequents.specs.Columned.{numbered};
ghost use Rattle.goals.specs.Columned.{GoalsIn, claim_in};
ghost use Rattle.principal_rules.specs.Columned.{JudgedIn};
ghost use Rattle.rules.specs.JudgeStages.{Fresh, rules_judged, nodes_judged, tree_rules_judged};
ghost use Rattle.rules.specs.Columned.{LaidIn, ReadyIn, OwnedIn, claim_over, derivation_in};
ghost use Rattle.spans.specs.Spans.{CountedOnce};

use bits::wide;
use companions::companion;
use formula::{NodeColumns, Rule};
use goals::columns::GoalColumns;
use goals::judge_goals;
use kept::kept::kept;
use loops::judge_loops;
use sequents::numbered::NumberedTable;
use sequents::sets::same_sequent;
use spans::{Owners, SpanColumns, fill_spans};
use tree::fill_owners;
use verdict::{Refusal, Verdict};

// Whether node v keeps its rule, back leaves included.
fn node_keeps(table: &NumberedTable, proof: &NodeColumns, spans: &SpanColumns, v: usize) -> bool
    requires { ReadyIn table.now proof.now spans.now.entries.now spans.now.exits.now × (v < proof.now.tree.nodes) }
    ensures { (f : Form) (gs ms : List ℕ) (k : ℕ) → result ≡ keeps (claim_over table.now f gs ms k) (plain (nodes proof.now)) v }
{
    let rules = proof.tree.rules;
    if rules[v] != Rule::BACK {
        return kept(table, proof, v);
    }
    if !companion(&proof.tree, spans, v) {
        return false;
    }
    same_sequent(table, proof, v, wide(proof.tree.links[4 * v + 3]))
}

// The number that a node earns which does not keep its rule.
fn refusal_of(rule: u8) -> u16
    ensures { (rule ≡ BACK → result ≡ 38) × ((rule ≡ BACK → ⊥) → result ≡ 37) }
{
    if rule == Rule::BACK {
        return 38;
    }
    37
}

// 37 or 38, by rising node.
fn judge_nodes(table: &NumberedTable, proof: &NodeColumns, spans: &SpanColumns) -> Verdict
    requires { ReadyIn table.now proof.now spans.now.entries.now spans.now.exits.now }
    ensures { (f : Form) (gs ms : List ℕ) (k : ℕ) → shown result ≡ rules_judged (claim_over table.now f gs ms k) (nodes proof.now) }
{
    let rules = proof.tree.rules;
    for v in 0..proof.tree.nodes {
        if !node_keeps(table, proof, spans, v) {
            return Err(Refusal {
                number: refusal_of(rules[v]),
                place: v as u16,
            });
        }
    }
    Ok(())
}

// 37 to 39 over a tree whose owners are known, in two tables that count each node once: they hold the numbers that tell the ancestors,
// and once no node has earned 37 or 38, what tells the loop paths.
fn judge_rules(
    table: &NumberedTable,
    proof: &NodeColumns,
    owners: &Owners,
    entries: &mut [u16],
    exits: &mut [u16],
) -> Verdict
    requires judged { JudgedIn table.now proof.now }
    requires owned { OwnedIn proof.now owners.now × CountedOnce proof.now.tree.nodes entries.old exits.old }
    ensures { (f : Form) (gs ms : List ℕ) (k : ℕ) → shown result ≡ nodes_judged (claim_over table.now f gs ms k) (nodes proof.now) }
{
    fill_spans(owners, entries, exits);
    judge_nodes(table, proof, &SpanColumns { entries, exits })?;
    judge_loops(proof, owners, entries, exits)
}

// 36 to 39 over a tree whose owners are known.
fn judge_tree(
    table: &NumberedTable,
    goals: &GoalColumns,
    proof: &NodeColumns,
    owners: &Owners,
    entries: &mut [u16],
    exits: &mut [u16],
) -> Verdict
    requires judged { JudgedIn table.now proof.now × GoalsIn table.now.columns.count goals.now proof.now.tree.nodes }
    requires owned { OwnedIn proof.now owners.now × CountedOnce proof.now.tree.nodes entries.old exits.old }
    ensures { (f : Form) → shown result ≡ tree_rules_judged (claim_in f (numbered table.now) goals.now) (derivation_in proof.now goals.now) }
{
    judge_goals(table, goals, proof.starts, proof.codes, proof.tree.nodes)?;
    judge_rules(table, proof, owners, entries, exits)
}

// 35 to 39, in tables of its own that have room for the nodes: no node has an owner yet, and each counts for one.
fn judge_in(
    table: &NumberedTable,
    goals: &GoalColumns,
    proof: &NodeColumns,
    owners: &mut [u16],
    entries: &mut [u16],
    exits: &mut [u16],
) -> Verdict
    requires { LaidIn table.now proof.now × GoalsIn table.now.columns.count goals.now proof.now.tree.nodes ×
        Fresh proof.now.tree.nodes owners.old entries.old exits.old }
    ensures { (f : Form) → shown result ≡ judged (claim_in f (numbered table.now) goals.now) (derivation_in proof.now goals.now) }
{
    fill_owners(&proof.tree, goals.roots, goals.count, owners)?;
    let owners = Owners {
        table: owners,
        nodes: proof.tree.nodes,
    };
    judge_tree(table, goals, proof, &owners, entries, exits)
}

// Tables for so many nodes: a small proof clears no more than it needs.
fn judge_sized<const NODES: usize>(
    table: &NumberedTable,
    goals: &GoalColumns,
    proof: &NodeColumns,
) -> Verdict
    requires { LaidIn table.now proof.now × GoalsIn table.now.columns.count goals.now proof.now.tree.nodes × (proof.now.tree.nodes ≤ NODES) × (NODES ≤ 1024) }
    ensures { (f : Form) → shown result ≡ judged (claim_in f (numbered table.now) goals.now) (derivation_in proof.now goals.now) }
{
    let mut owners = [0u16; NODES];
    let mut entries = [0u16; NODES];
    let mut exits = [1u16; NODES];
    judge_in(table, goals, proof, &mut owners, &mut entries, &mut exits)
}

// 35 to 39: the first fault of a decoded proof, or acceptance.
pub fn judge(table: &NumberedTable, goals: &GoalColumns, proof: &NodeColumns) -> Verdict
    requires laid { LaidIn table.now proof.now }
    requires goals { GoalsIn table.now.columns.count goals.now proof.now.tree.nodes }
    ensures { (f : Form) → shown result ≡ judged (claim_in f (numbered table.now) goals.now) (derivation_in proof.now goals.now) }
{
    if proof.tree.nodes <= 32 {
        judge_sized::<32>(table, goals, proof)
    } else {
        judge_sized::<1024>(table, goals, proof)
    }
}
