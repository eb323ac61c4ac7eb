// Refusals 20 and 71 in one walk over all entries: a letter, operand or name out of its bounds, or a name of no fixpoint; then an action
// above 15.
#![tactic(auto)]

ghost use Rattle.std.specs.Prelude.{◌≡◌, ◌<◌};
ghost use Rattle.verdict.specs.Shown.{earned, shown};
ghost use Rattle.formula.specs.Columned.{entries};
ghost use Rattle.conditions.specs.Judge.{far};
ghost use Rattle.conditions.specs.KindShapes.{plain_shape};
ghost use Rattle.operands.specs.OperandBounds.{out_of, operands_out_lem, name_out_lem, number_at_lem, FirstRefused};

use bits::wide;
use formula::{EntryColumns, Kind};
use verdict::{Refusal, Verdict};

// Whether a letter is 32 or more, or an operand or body does not lie below entry e. A name has neither.
fn operands_out(kind: u8, first: usize, second: usize, e: usize) -> bool
    ensures { result ≡ operands_out_lem e (plain_shape kind first second) }
{
    match kind {
        Kind::LETTER | Kind::NEGATED => 32 <= first,
        Kind::OR | Kind::AND => e <= first || e <= second,
        Kind::DIAMOND | Kind::BOX | Kind::MU | Kind::NU => e <= first,
        _ => false,
    }
}

// Whether the fixpoint of the name e does not lie above it, or lies outside the table, or is none.
fn name_out(table: &EntryColumns, e: usize, fixpoint: usize) -> bool
    ensures { result ≡ name_out_lem table.now.kinds.now table.now.count e fixpoint }
{
    fixpoint <= e || table.count <= fixpoint || !Kind::is_fixpoint(table.kinds[fixpoint])
}

// Whether entry e earns 20.
fn out(table: &EntryColumns, e: usize) -> bool
    requires { e < table.now.count }
    ensures { result ≡ out_of (entries table.now) e }
{
    let kind = table.kinds[e];
    let first = wide(table.a[e]);
    if kind == Kind::NAME {
        return name_out(table, e, first);
    }
    operands_out(kind, first, wide(table.b[e]), e)
}

// Whether a box or diamond has an action above 15.
fn acts_far(kind: u8, first: u16, action: u16) -> bool
    ensures { result ≡ far (plain_shape kind first action) }
{
    match kind {
        Kind::DIAMOND | Kind::BOX => 16 <= action,
        _ => false,
    }
}

// 20 or 71, the first that entry e earns.
fn number_at(table: &EntryColumns, e: usize) -> Option<u16>
    requires { e < table.now.count }
    ensures { result ≡ earned (number_at_lem (entries table.now) e) }
{
    if out(table, e) {
        return Some(20);
    }
    if acts_far(table.kinds[e], table.a[e], table.b[e]) {
        return Some(71);
    }
    None
}

// Refused where an entry earns 20 or 71, at the first that does.
pub fn first_fault(table: &EntryColumns) -> Verdict
    ensures { FirstRefused (entries table.now) table.now.count (shown result) }
{
    for e in 0..table.count {
        if let Some(number) = number_at(table, e) {
            return Err(Refusal {
                number,
                place: e as u16,
            });
        }
    }
    Ok(())
}
