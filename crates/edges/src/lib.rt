// The successors of each state as words, made edge by edge: quicker than action by action where there are few edges.
#![tactic(auto)]

ghost use Rattle.std.specs.Prelude.{◌≡◌, ◌+◌, ◌*◌, ◌%◌, ◌<◌, ◌≤◌, length, replicate};
ghost use Rattle.bits.specs.Bits.{bit};
ghost use Rattle.states.specs.Rows.{RowWords};
ghost use Rattle.edges.specs.Added.{Added, At};
ghost use Rattle.edges.specs.Edges.{PutOf, From};

use bits::lowest_bit;
use entry_sets::cleared;
use marks::four;
use successors::{SuccessorTable, row_words};

// Bit `column` of a row, unless it lies past the last of n states.
fn put_one(rows: &mut [u64], row: usize, column: usize, n: usize)
    requires { (length rows.old ≡ 1024) × (row < 1024) × (n ≤ 64) }
    ensures { Added (At row column n) rows.old rows.new }
{
    if column < n {
        rows[row] |= 1u64 << column;
    }
}

// The edges from s to the four states from u on, by the marks of these side by side.
fn put_four(rows: &mut [u64], marked: u64, s: usize, u: usize, n: usize)
    requires { (length rows.old ≡ 1024) × (s < 64) × (u ≤ 60) × (n ≤ 64) }
    ensures { Added (PutOf (bit marked) n s u) rows.old rows.new }
{
    let mut rest = marked;
    while rest != 0 {
        let p = lowest_bit(rest);
        put_one(rows, 64 * (p % 16) + s, u + p / 16, n);
        rest = cleared(rest, p);
    }
}

// A map of actions beside itself, four times.
fn four_times(used: u16) -> u64
    ensures { (result ≡ used * 281479271743489) × (used < 65536) }
{
    (used as u64) * 281479271743489
}

// The edges from s by the actions that are used.
fn state_edges(table: &SuccessorTable, used: u16, s: usize, rows: &mut [u64])
    requires { (length rows.old ≡ 1024) × (s < 64) }
    ensures { Added (From s table.now.marks.now used table.now.n) rows.old rows.new }
{
    let n = table.n;
    let wanted = four_times(used);
    for u in (0..n).step_by(4) {
        put_four(rows, four(table.marks, s, u) & wanted, s, u, n);
    }
}

// All edges by the actions that are used.
fn edge_rows(table: &SuccessorTable, used: u16, rows: &mut [u64])
    requires { rows.old ≡ replicate 1024 0 }
    ensures { RowWords table.now.marks.now used table.now.n rows.old 16 rows.new }
{
    for s in 0..table.n {
        state_edges(table, used, s, rows);
    }
}

// How many actions a map has. It only helps to choose the quicker way, so no more is promised of it than the product there needs.
fn actions_in(used: u16) -> usize
    ensures { result ≤ 16 }
{
    used.count_ones() as usize
}

// The successors of each state by the actions that are used, in the way that is quicker for a model file of so many bytes: an edge takes
// two. Nothing is asked of their number: whichever way is taken, the words are the same.
pub fn sparse_or_dense(table: &SuccessorTable, used: u16, model_bytes: usize, rows: &mut [u64])
    requires { rows.old ≡ replicate 1024 0 }
    ensures { RowWords table.now.marks.now used table.now.n rows.old 16 rows.new }
{
    if model_bytes < 512 * actions_in(used) {
        edge_rows(table, used, rows);
    } else {
        row_words(table, used, rows);
    }
}
