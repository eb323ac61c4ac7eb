// Refusal 36: each root's members are its goal's, all in focus.
#![tactic(auto)]

ghost use Rattle.std.specs.Prelude.{ℕ, ◌<◌, ◌≡◌, List, take};
ghost use Rattle.verdict.specs.Shown.{shown};
ghost use Rattle.formula.specs.Table.{Table};
ghost use Rattle.formula.specs.Claim.{Form};
ghost use Rattle.formula.specs.PlainNodes.{proof_of};
ghost use Rattle.sequents.specs.Placed.{Placed};
ghost use Rattle.goals.specs.Goals.{goals_judged};
ghost use Rattle.goals.specs.Columned.{GoalsIn, OverIn, claim_in};

use crate::columns::GoalColumns;
use bits::wide;
use sequents::numbered::NumberedTable;
use sequents::sets::root_is_goal;
use verdict::{Refusal, Verdict};

pub mod columns; // columns.rt: goals and roots as columns

// 36 goal by goal, which is by rising root.
pub fn judge_goals(
    table: &NumberedTable,
    goals: &GoalColumns,
    starts: &[u16],
    codes: &[u16],
    nodes: usize,
) -> Verdict
    requires goals { GoalsIn 256 goals.now nodes }
    requires by_index { (v : ℕ) → v < nodes → Placed starts.now codes.now v }
    ensures { (t : Table) → OverIn t table.now goals.now starts.now codes.now nodes → (f : Form) (rs ls : List ℕ) → shown result ≡ goals_judged
        (claim_in f t goals.now) (take goals.now.count goals.now.roots.now) (proof_of rs ls starts.now codes.now nodes) }
{
    for i in 0..goals.count {
        let root = goals.roots[i];
        if !root_is_goal(
            table,
            goals.members,
            wide(goals.bounds[i]),
            wide(goals.bounds[i + 1]),
            starts,
            codes,
            wide(root),
        ) {
            return Err(Refusal {
                number: 36,
                place: root,
            });
        }
    }
    Ok(())
}
