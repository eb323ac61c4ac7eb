// The rules that put operands of the principal in its place (2, 3, 5, 6): the sequent that the rule asks of a child, and the child's, are
// compared as sets.
#![tactic(auto)]

ghost use Rattle.std.specs.Prelude.{◌≡◌, ◌<◌};
ghost use Rattle.sequents.specs.Placed.{OneChild, TwoChildren};
ghost use Rattle.sequents.specs.Columned.{numbered, CodedIn};
ghost use Rattle.calculus.specs.Judge.{or_kept as OrKept, and_kept as AndKept};
ghost use Rattle.operand_rules.specs.Fixpoint.{IsFixpoint, fixpoint_kept_lem as FixpointKept};

use formula::Kind;
use sequents::numbered::NumberedTable;
use sequents::principal::is_side_plus;
use sequents::sets::{entry_of, put, same};

// 2 or: side plus both targets, focus kept. Both are put into the side, which nobody reads afterwards.
pub fn or_kept(table: &NumberedTable, principal: u16, side: &mut [u64; 8], first: &[u64; 8]) -> bool
    requires { CodedIn table.now principal }
    ensures { OneChild (numbered table.now) side.old principal first.now (λ t q. result ≡ OrKept t q 0) }
{
    if table.columns.kinds[entry_of(principal)] != Kind::OR {
        return false;
    }
    let left = table.operand_key(table.columns.a, principal, principal % 2);
    let right = table.operand_key(table.columns.b, principal, principal % 2);
    put(side, left);
    put(side, right);
    same(first, side)
}

// 3 and: side plus A's target for the first child, B's for the second, focus kept.
pub fn and_kept(
    table: &NumberedTable,
    principal: u16,
    side: &[u64; 8],
    first: &[u64; 8],
    second: &[u64; 8],
) -> bool
    requires { CodedIn table.now principal }
    ensures { TwoChildren (numbered table.now) side.now principal first.now second.now (λ t q. result ≡ AndKept t q 0) }
{
    if table.columns.kinds[entry_of(principal)] != Kind::AND {
        return false;
    }
    let of_a = table.operand_key(table.columns.a, principal, principal % 2);
    let of_b = table.operand_key(table.columns.b, principal, principal % 2);
    is_side_plus(side, of_a, first) && is_side_plus(side, of_b, second)
}

// 5 mu and 6 nu: side plus the body's target, out of focus or with its focus kept.
pub fn fixpoint_kept(
    table: &NumberedTable,
    principal: u16,
    side: &[u64; 8],
    first: &[u64; 8],
    kind: u8,
    focus: u16,
) -> bool
    requires { CodedIn table.now principal × IsFixpoint kind × (focus < 2) }
    ensures { OneChild (numbered table.now) side.now principal first.now (λ t q. result ≡ FixpointKept t q kind focus 0) }
{
    if table.columns.kinds[entry_of(principal)] != kind {
        return false;
    }
    let body = table.operand_key(table.columns.a, principal, focus);
    is_side_plus(side, body, first)
}
