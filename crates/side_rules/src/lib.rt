// The rules with one child, which has the side and at most one code more (5 to 9): what the rule asks of the child, and the child's sequent,
// are compared as sets.
#![tactic(auto)]

ghost use Rattle.std.specs.Prelude.{◌≡◌, ◌<◌, ◌≤◌, length};
ghost use Rattle.formula.specs.Rule.{MU, U};
ghost use Rattle.formula.specs.Table.{Table};
ghost use Rattle.formula.specs.Codes.{entry_of_lem};
ghost use Rattle.sequents.specs.Keys.{Numbers};
ghost use Rattle.sequents.specs.Placed.{OneChild};
ghost use Rattle.sequents.specs.Columned.{numbered, CodedIn};
ghost use Rattle.calculus.specs.Judge.{focus_kept_lem as FocusKept};
ghost use Rattle.side_rules.specs.Tested.{tested};

use formula::{Kind, Rule};
use operand_rules::fixpoint_kept;
use sequents::numbered::NumberedTable;
use sequents::principal::is_side_plus;
use sequents::sets::{entry_of, key, same};

// 8 F and 9 U: side plus the principal, put from one focus into the other.
fn focus_kept(
    table: &NumberedTable,
    principal: u16,
    side: &[u64; 8],
    first: &[u64; 8],
    from: u16,
    to: u16,
) -> bool
    requires { (principal < 512) × (to < 2) }
    ensures { (t : Table) → Numbers t table.now.canon.now → entry_of_lem principal < length t →
        OneChild t side.now principal first.now (λ t q. result ≡ FocusKept t q from to 0) }
{
    principal % 2 == from && is_side_plus(side, key(table.canon, entry_of(principal), to), first)
}

// The rules 5 to 9, by their number.
pub fn side_kept(
    table: &NumberedTable,
    rule: u8,
    principal: u16,
    side: &[u64; 8],
    first: &[u64; 8],
) -> bool
    requires { CodedIn table.now principal × (MU ≤ rule) × (rule ≤ U) }
    ensures { OneChild (numbered table.now) side.now principal first.now (λ t q. result ≡ tested t rule q) }
{
    // mu leaves the focus, nu keeps it
    let left = 0;
    let kept = principal % 2;
    match rule {
        Rule::MU => fixpoint_kept(table, principal, side, first, Kind::MU, left),
        Rule::NU => fixpoint_kept(table, principal, side, first, Kind::NU, kept),
        Rule::W => same(first, side),
        Rule::F => focus_kept(table, principal, side, first, 0, 1),
        Rule::U => focus_kept(table, principal, side, first, 1, 0),
        _ => false,
    }
}
