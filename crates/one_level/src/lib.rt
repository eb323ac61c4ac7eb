// Whether two entries, with the same number of names bound in each, are the same form one level down: their shapes, which of the bound
// names each operand has, and the numbers that the operands' forms have got. What lies deeper is told by these numbers.
#![tactic(auto)]

ghost use Rattle.std.specs.Prelude.{◌≡◌, ◌*◌, ◌<◌, ◌≤◌, length, get_or};
ghost use Rattle.verdict.specs.Tells.{Tells};
ghost use Rattle.name_sets.specs.RowWords.{row_of};
ghost use Rattle.one_level.specs.Agree.{Agree, Alike};
ghost use Rattle.one_level.specs.Fit.{cell, InRows};

use bits::wide;
use formula::{EntryColumns, Kind};
use name_sets::{Names, below, less, meet, row};

// Whether two sets have the same of the numbers in a third.
fn agree(x: Names, y: Names, among: Names) -> bool
    ensures { Tells result (Alike x y among) }
{
    !meet(less(x, y), among) && !meet(less(y, x), among)
}

// As `bits::wide`, and that the number is one of two bytes.
pub fn as_index(number: u16) -> usize
    ensures { (result ≡ number) × (result < 65536) }
{
    wide(number)
}

// Place x of a column, 0 beyond its end.
pub fn at(column: &[u16; 256], x: u16) -> usize
    ensures { (result ≡ get_or column.now x 0) × (result < 65536) }
{
    let place = as_index(x);
    if place < 256 {
        as_index(column[place])
    } else {
        0
    }
}

// The number of entry x with k names bound, 0 beyond the table.
pub fn number(numbers: &[u8], k: usize, x: u16) -> u8
    requires { k < 65536 }
    ensures { result ≡ cell numbers.now k x }
{
    numbers.get(256 * k + as_index(x)).copied().unwrap_or(0)
}

// Whether rows e and f have the same of the numbers below k.
fn rows_agree(rows: &[u64], k: usize, e: usize, f: usize) -> bool
    requires { (k ≤ 256) × InRows e rows.now × InRows f rows.now }
    ensures { Tells result (Agree (row_of rows.now f) (row_of rows.now e) k) }
{
    agree(row(rows, f), row(rows, e), below(k))
}

// A table with what the numbering goes by, prepared from it and then only read: the rows of the entries' free names, how many each entry has,
// and the marks of the operands.
#[derive(Clone, Copy)]
pub struct Shapes<'a> {
    pub table: EntryColumns<'a>,
    pub free: &'a [u64],
    pub totals: &'a [u16; 256],
    pub firsts: &'a [u64],
    pub seconds: &'a [u64],
    pub ghost free_room: { 4 * table.count ≤ length free.now },
    pub ghost first_room: { 4 * table.count ≤ length firsts.now },
    pub ghost second_room: { 4 * table.count ≤ length seconds.now },
}

// An entry e that others are compared with, k names bound in each, i in its first operand and j in its second. Of the numbers those of the
// operands are read.
#[derive(Clone, Copy)]
pub struct Sought<'a> {
    pub shapes: &'a Shapes<'a>,
    pub numbers: &'a [u8],
    pub k: usize,
    pub i: usize,
    pub j: usize,
    pub e: usize,
    pub ghost k_small: { k ≤ 256 },
    pub ghost i_small: { i < 65536 },
    pub ghost j_small: { j < 65536 },
    pub ghost e_inside: { e < shapes.now.table.count },
}

impl Sought<'_> {
    ghost use Rattle.one_level.specs.Shaped.{FitHere, FitTwoHere, FitFixHere};

    // Or, and: the numbers of the second operands, and the same of the bound names in both operands of each.
    fn fit_two(&self, f: usize) -> bool
        requires { f < self.now.shapes.now.table.count }
        ensures { Tells result (FitTwoHere self.now f) }
    {
        let Sought {
            shapes,
            numbers,
            k,
            j,
            e,
            ..
        } = *self;
        number(numbers, j, shapes.table.b[f]) == number(numbers, j, shapes.table.b[e])
            && rows_agree(shapes.firsts, k, e, f)
            && rows_agree(shapes.seconds, k, e, f)
    }

    // Mu, nu: each has its own name in its body, or neither. The body then has one free name more than the fixpoint, so the counts tell.
    fn fit_fix(&self, f: usize) -> bool
        requires { f < self.now.shapes.now.table.count }
        ensures { Tells result (FitFixHere self.now f) }
    {
        let Sought { shapes, e, .. } = *self;
        let Shapes { table, totals, .. } = *shapes;
        at(totals, table.a[f]) + as_index(totals[e]) == at(totals, table.a[e]) + as_index(totals[f])
    }

    // Whether f fits. The field b of a diamond or box is its action. Of two names no more than the kind is compared: they get their numbers in
    // another way.
    pub fn fit(&self, f: usize) -> bool
        requires { f < self.now.shapes.now.table.count }
        ensures { Tells result (FitHere self.now f) }
    {
        let Sought {
            shapes,
            numbers,
            i,
            e,
            ..
        } = *self;
        let EntryColumns { kinds, a, b, .. } = shapes.table;
        let kind = kinds[e];
        if kinds[f] != kind {
            false
        } else if kind < Kind::LETTER {
            true
        } else if kind < Kind::OR {
            a[f] == a[e]
        } else if Kind::NU < kind {
            true
        } else if number(numbers, i, a[f]) != number(numbers, i, a[e]) {
            false
        } else if kind <= Kind::AND {
            self.fit_two(f)
        } else if kind <= Kind::BOX {
            b[f] == b[e]
        } else {
            self.fit_fix(f)
        }
    }
}
