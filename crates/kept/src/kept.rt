// The test of each rule (refusal 37). Those of 2 to 9 are in the crate principal_rules, those of 0 and 1 in axioms.
ghost use Rattle.std.specs.Prelude.{◌≡◌, ◌<◌};
ghost use Rattle.formula.specs.Columned.{nodes};
ghost use Rattle.calculus.specs.View.{plain};
ghost use Rattle.calculus.specs.Judge.{step_kept};
ghost use Rattle.sequents.specs.Columned.{numbered};
ghost use Rattle.principal_rules.specs.Columned.{JudgedIn};

use axioms::{ax1_kept, ax2_kept};
use bits::wide;
use formula::{NodeColumns, Rule};
use principal_rules::principal_kept;
use sequents::numbered::NumberedTable;
use sequents::sets::same_sequent;

// Whether node v keeps what it owes its children (refusal 37); a back leaf owes them nothing that it keeps.
pub fn kept(table: &NumberedTable, proof: &NodeColumns, v: usize) -> bool
    requires { JudgedIn table.now proof.now × (v < proof.now.tree.nodes) }
    ensures { result ≡ step_kept (numbered table.now) (plain (nodes proof.now)) v }
{
    match proof.tree.rules[v] {
        Rule::AX1 => ax1_kept(table, proof, v),
        Rule::AX2 => ax2_kept(table, proof, v),
        Rule::OR..=Rule::U => principal_kept(table, proof, v),
        Rule::D => same_sequent(table, proof, wide(proof.tree.links[4 * v + 1]), v),
        _ => false,
    }
}
