// Sets of names: an entry's free names, or those reached from it through no box or diamond. A bit for each entry number below 256; word i
// has the bits of the numbers from 64 × i on. A slice of words holds a set in each row of four.
#![tactic(auto)]

ghost use Rattle.std.specs.Prelude.{◌≡◌, false, not, ◌||◌, ◌&&◌, ◌+◌, ◌*◌, ◌<◌, ◌≤◌, eqb, ltb, length};
ghost use Rattle.verdict.specs.Tells.{Tells};
ghost use Rattle.name_sets.specs.NameSets.{holds, Marks, Shared, kept};
ghost use Rattle.name_sets.specs.Ordered.{Lowest, LowWord};
ghost use Rattle.name_sets.specs.RowWords.{row_of, with_row};

use bits::lowest_bit;

#[derive(Clone, Copy)]
pub struct Names(pub u64, pub u64, pub u64, pub u64);

pub fn none() -> Names
    ensures { Marks result (λ n. false) }
{
    Names(0, 0, 0, 0)
}

// The bits, if they belong into this word.
fn kept_in(word: usize, at: usize, bits: u64) -> u64
    ensures { result ≡ kept (eqb at word) bits }
{
    if at == word { bits } else { 0 }
}

// One name. A number of 256 or more has no bit.
pub fn only(name: usize) -> Names
    ensures { Marks result (λ n. eqb n name) }
{
    let at = name / 64;
    let bits = 1u64 << (name % 64);
    Names(
        kept_in(0, at, bits),
        kept_in(1, at, bits),
        kept_in(2, at, bits),
        kept_in(3, at, bits),
    )
}

pub fn union(x: Names, y: Names) -> Names
    ensures { Marks result (λ n. holds x n || holds y n) }
{
    Names(x.0 | y.0, x.1 | y.1, x.2 | y.2, x.3 | y.3)
}

pub fn with(x: Names, name: usize) -> Names
    ensures { Marks result (λ n. holds x n || eqb n name) }
{
    union(x, only(name))
}

// The names of x that y does not have.
pub fn less(x: Names, y: Names) -> Names
    ensures { Marks result (λ n. holds x n && not (holds y n)) }
{
    Names(x.0 & !y.0, x.1 & !y.1, x.2 & !y.2, x.3 & !y.3)
}

// Whether the two have a name in common.
pub fn meet(x: Names, y: Names) -> bool
    ensures { Tells result (Shared x y) }
{
    (x.0 & y.0) | (x.1 & y.1) | (x.2 & y.2) | (x.3 & y.3) != 0
}

pub fn has(x: Names, name: usize) -> bool
    requires { name < 256 }
    ensures { result ≡ holds x name }
{
    meet(x, only(name))
}

// The lowest name, 256 if there is none.
pub fn lowest(x: Names) -> usize
    ensures { Lowest x result }
{
    if x.0 != 0 {
        lowest_bit(x.0)
    } else if x.1 != 0 {
        64 + lowest_bit(x.1)
    } else if x.2 != 0 {
        128 + lowest_bit(x.2)
    } else if x.3 != 0 {
        192 + lowest_bit(x.3)
    } else {
        256
    }
}

// Of the 64 numbers from `from` on, those below k.
fn low_word(k: usize, from: usize) -> u64
    requires { from ≤ 192 }
    ensures { LowWord k from result }
{
    if k <= from {
        0
    } else if from + 64 <= k {
        u64::MAX
    } else {
        (1u64 << (k - from)) - 1
    }
}

// The numbers below k.
pub fn below(k: usize) -> Names
    ensures { Marks result (λ n. ltb n k) }
{
    Names(
        low_word(k, 0),
        low_word(k, 64),
        low_word(k, 128),
        low_word(k, 192),
    )
}

// The names in row e.
pub fn row(rows: &[u64], e: usize) -> Names
    requires { 4 * e + 3 < length rows.now }
    ensures { result ≡ row_of rows.now e }
{
    let at = 4 * e;
    Names(rows[at], rows[at + 1], rows[at + 2], rows[at + 3])
}

pub fn put_row(rows: &mut [u64], e: usize, names: Names)
    requires { 4 * e + 3 < length rows.old }
    ensures { rows.new ≡ with_row rows.old e names }
{
    let at = 4 * e;
    rows[at] = names.0;
    rows[at + 1] = names.1;
    rows[at + 2] = names.2;
    rows[at + 3] = names.3;
}
