// The rounds that fill the table of numbers. In the first every entry gets the number that it has with all its free names bound; then, for
// each fixpoint from the highest down, every entry in which it is free gets that with one name fewer bound: the fixpoint is written out.
// `hints` only guide the search, and nothing depends on them.
#![tactic(auto)]

ghost use Rattle.std.specs.Prelude.{◌≡◌, ◌||◌, ◌+◌, ◌*◌, ◌<◌, ◌≤◌, eqb, length, get_or};
ghost use Rattle.name_sets.specs.NameSets.{holds, Marks};
ghost use Rattle.name_sets.specs.RowWords.{row_of};
ghost use Rattle.rounds.specs.Shaped.{BetweenIn, RoundIn, PlacedIn};

use formula::{EntryColumns, Kind};
use name_sets::{Names, meet, only, row};
use one_level::{Shapes, as_index};
use searching::choose;

// One number more: for entry e with one name fewer bound than before.
fn place(
    shapes: &Shapes,
    bound: &mut [u16; 256],
    numbers: &mut [u8],
    marks: &mut [u64],
    hints: &mut [u8; 512],
    e: usize,
)
    requires e_lt_count { (e < shapes.now.table.count) × (0 < get_or bound.old e 0) × (get_or bound.old e 0 ≤ shapes.now.table.count) ×
        (8 * shapes.now.table.count ≤ length marks.old) }
    requires cells { 256 * shapes.now.table.count ≤ length numbers.old }
    ensures { PlacedIn shapes.now bound.old numbers.old marks.old bound.new numbers.new marks.new e }
{
    let k = as_index(bound[e]) - 1;
    let v = choose(shapes, bound, numbers, marks, hints, k, e);
    numbers[256 * k + e] = v;
    bound[e] = k as u16;
}

// A name, and the set that has it alone.
#[derive(Clone, Copy)]
struct OneName {
    q: usize,
    own: Names,
    ghost alone: { Marks own (λ n. eqb n q) },
}

// Whether entry e gets a number more in the round of q: every entry in the first, that of count, and then those in which q is free.
fn due(shapes: &Shapes, name: OneName, e: usize) -> bool
    requires { (e < shapes.now.table.count) × (name.q ≤ shapes.now.table.count) }
    ensures { result ≡ (eqb name.q shapes.now.table.count || holds (row_of shapes.now.free.now e) name.q) }
{
    name.q == shapes.table.count || meet(row(shapes.free, e), name.own)
}

// Entry e in the round of q.
fn visit(
    shapes: &Shapes,
    bound: &mut [u16; 256],
    numbers: &mut [u8],
    marks: &mut [u64],
    hints: &mut [u8; 512],
    name: OneName,
    e: usize,
)
    requires e_lt_q { e < name.q }
    requires round { RoundIn shapes.now numbers.old bound.old marks.old name.q e }
    ensures { RoundIn shapes.now numbers.new bound.new marks.new name.q (e + 1) }
{
    if due(shapes, name, e) {
        place(shapes, bound, numbers, marks, hints, e);
    }
}

// The round of q: only entries below it can have it free.
fn round(
    shapes: &Shapes,
    bound: &mut [u16; 256],
    numbers: &mut [u8],
    marks: &mut [u64],
    hints: &mut [u8; 512],
    q: usize,
)
    requires { BetweenIn shapes.now numbers.old bound.old marks.old (q + 1) }
    ensures { BetweenIn shapes.now numbers.new bound.new marks.new q }
{
    let name = OneName { q, own: only(q) };
    for e in 0..q {
        visit(shapes, bound, numbers, marks, hints, name, e);
    }
}

// The round of q where there is one: no entry has a name free that is no fixpoint's.
fn turn(
    shapes: &Shapes,
    bound: &mut [u16; 256],
    numbers: &mut [u8],
    marks: &mut [u64],
    hints: &mut [u8; 512],
    q: usize,
)
    requires { BetweenIn shapes.now numbers.old bound.old marks.old (q + 1) }
    ensures { BetweenIn shapes.now numbers.new bound.new marks.new q }
{
    let EntryColumns { kinds, count, .. } = shapes.table;
    if q < count && !Kind::is_fixpoint(kinds[q]) {
        return;
    }
    round(shapes, bound, numbers, marks, hints, q);
}

// All rounds: the first, and then from the highest fixpoint down.
pub fn fill(
    shapes: &Shapes,
    bound: &mut [u16; 256],
    numbers: &mut [u8],
    marks: &mut [u64],
    hints: &mut [u8; 512],
)
    requires { BetweenIn shapes.now numbers.old bound.old marks.old (shapes.now.table.count + 1) }
    ensures { BetweenIn shapes.now numbers.new bound.new marks.new 0 }
{
    for q in (0..=shapes.table.count).rev() {
        turn(shapes, bound, numbers, marks, hints, q);
    }
}
