// The rules with a principal (2 to 9), at a node: the sequent that the rule asks of a child, and the child's, are compared as sets. The tests
// of 2 and 3 are in the crate operand_rules, that of 4 in modal, those of 5 to 9 in side_rules.
#![tactic(auto)]

ghost use Rattle.std.specs.Prelude.{◌≡◌, ◌*◌, ◌<◌, ◌≤◌, get_or};
ghost use Rattle.formula.specs.Rule.{OR, U};
ghost use Rattle.formula.specs.Columned.{nodes};
ghost use Rattle.sequents.specs.Keys.{IsMember};
ghost use Rattle.sequents.specs.Columned.{numbered};
ghost use Rattle.calculus.specs.View.{plain};
ghost use Rattle.calculus.specs.Judge.{step_kept};
ghost use Rattle.principal_rules.specs.Columned.{JudgedIn};

use bits::wide;
use formula::{NodeColumns, Rule};
use modal::box_kept;
use operand_rules::{and_kept, or_kept};
use sequents::numbered::NumberedTable;
use sequents::principal::is_formula;
use sequents::sets::{codes_of, has, put_part, put_sequent, take};
use side_rules::side_kept;

// The rules with a principal that is a formula, 2 to 9, and given as a member too: it belongs to the node's sequent, and the side is what it leaves there.
fn formula_kept(table: &NumberedTable, proof: &NodeColumns, v: usize, member: u16) -> bool
    requires { JudgedIn table.now proof.now × (v < proof.now.tree.nodes) × (OR ≤ get_or proof.now.tree.rules.now v 0) × (get_or proof.now.tree.rules.now v 0 ≤ U) ×
        IsMember table.now.columns.kinds.now table.now.canon.now table.now.columns.count (get_or proof.now.tree.links.now (4 * v) 0) member }
    ensures { result ≡ step_kept (numbered table.now) (plain (nodes proof.now)) v }
{
    let links = proof.tree.links;
    let rule = proof.tree.rules[v];
    let principal = links[4 * v];
    let codes = codes_of(proof, v);
    let mut side = [0u64; 8];
    put_part(&mut side, table, codes);
    if !has(&side, member) {
        return false;
    }
    take(&mut side, member);
    let mut first = [0u64; 8];
    put_sequent(&mut first, table, proof, wide(links[4 * v + 1]));
    match rule {
        Rule::OR => or_kept(table, principal, &mut side, &first),
        Rule::AND => {
            let mut second = [0u64; 8];
            put_sequent(&mut second, table, proof, wide(links[4 * v + 2]));
            and_kept(table, principal, &side, &first, &second)
        }
        Rule::BOX => box_kept(table, principal, codes, &first),
        _ => side_kept(table, rule, principal, &side, &first),
    }
}

// The rules with a principal, 2 to 9. One that is a name or out of range is none, and nothing is indexed by it.
pub fn principal_kept(table: &NumberedTable, proof: &NodeColumns, v: usize) -> bool
    requires { JudgedIn table.now proof.now × (v < proof.now.tree.nodes) × (OR ≤ get_or proof.now.tree.rules.now v 0) × (get_or proof.now.tree.rules.now v 0 ≤ U) }
    ensures { result ≡ step_kept (numbered table.now) (plain (nodes proof.now)) v }
{
    let principal = proof.tree.links[4 * v];
    if !is_formula(&table.columns, principal) {
        return false;
    }
    let member = table.key_of(principal);
    formula_kept(table, proof, v, member)
}
