// One entry's names, from those of its operands, and the refusal that it earns: 21, 22 or 23.
ghost use Rattle.std.specs.Prelude.{◌≡◌, ℕ, ◌<◌, ◌≤◌};
ghost use Rattle.verdict.specs.Shown.{earned};
ghost use Rattle.formula.specs.Table.{Table};
ghost use Rattle.conditions.specs.Judge.{free_row, open_row};
ghost use Rattle.scopes.specs.RowMarks.{Made};
ghost use Rattle.scopes.specs.Faults.{Seen, fault_at, opposite_of};
ghost use Rattle.scopes.specs.EntryRows.{PlacesOf};

use bits::wide;
use formula::{EntryColumns, Kind};
use name_sets::Names;

// The first if it is below the second, else the second.
fn smaller(x: usize, y: usize) -> usize
    ensures { (result ≤ y) × (x < y → result ≡ x) }
{
    if x < y { x } else { y }
}

// Field A of an entry, and where its operands' rows stand: at the operand, or at the entry itself where no operand lies below.
#[derive(Clone, Copy)]
pub struct Places {
    pub first: usize,
    pub left: usize,
    pub right: usize,
}

pub fn places_of(table: &EntryColumns, e: usize) -> Places
    requires { e < 256 }
    ensures { PlacesOf table.now.a.now table.now.b.now e result }
{
    let first = wide(table.a[e]);
    Places {
        first,
        left: smaller(first, e),
        right: smaller(wide(table.b[e]), e),
    }
}

// The free names of entry e, from those of its operands.
pub fn free_names(kind: u8, first: usize, e: usize, x: Names, y: Names) -> Names
    ensures { Made free_row kind first e x y result }
{
    match kind {
        Kind::OR | Kind::AND => name_sets::union(x, y),
        Kind::DIAMOND | Kind::BOX => x,
        Kind::MU | Kind::NU => name_sets::less(x, name_sets::only(e)),
        Kind::NAME => name_sets::only(first),
        _ => name_sets::none(),
    }
}

// The names reached from entry e through no box or diamond, from those of its operands.
pub fn open_names(kind: u8, first: usize, e: usize, x: Names, y: Names) -> Names
    ensures { Made open_row kind first e x y result }
{
    match kind {
        Kind::OR | Kind::AND => name_sets::union(x, y),
        Kind::MU | Kind::NU => x,
        Kind::NAME => name_sets::only(first),
        _ => name_sets::none(),
    }
}

// The fixpoints that a fixpoint of the kind may not have free: nu entries for a mu, mu entries for a nu.
fn opposite(kind: u8, mus: Names, nus: Names) -> Names
    ensures { result ≡ opposite_of kind mus nus }
{
    if kind == Kind::MU { nus } else { mus }
}

// The refusal that entry e earns first, 21, 22 or 23: from its free names, its body's open names, the entries up to it, and the
// fixpoint entries.
pub fn fault(
    kind: u8,
    e: usize,
    free: Names,
    body: Names,
    passed: Names,
    mus: Names,
    nus: Names,
) -> Option<u16>
    ensures { (t : Table) (a b : ℕ) → Seen t e kind a b free body passed mus nus → result ≡ earned (fault_at t e) }
{
    if name_sets::meet(free, passed) {
        return Some(21);
    }
    if !Kind::is_fixpoint(kind) {
        return None;
    }
    if name_sets::meet(free, opposite(kind, mus, nus)) {
        return Some(22);
    }
    if name_sets::meet(body, name_sets::only(e)) {
        return Some(23);
    }
    None
}
