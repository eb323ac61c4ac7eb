// The successors of each state as a word, by each action that is used.
#![tactic(auto)]

ghost use Rattle.std.specs.Prelude.{◌≡◌, true, ℕ, ◌+◌, ◌*◌, ◌<◌, ◌≤◌, length};
ghost use Rattle.bits.specs.Bits.{bit};
ghost use Rattle.states.specs.Rows.{row_word_lem, ActionRows, RowWords};

use letters::all_states;
use marks::sixteen;

// The successor table of a model of n states: which actions lead from each state to each, bit a for action a.
#[derive(Clone, Copy)]
pub struct SuccessorTable<'a> {
    pub marks: &'a [[u16; 64]; 64],
    pub n: usize,
    pub ghost states: { n ≤ 64 },
}

// The successors of state s by action a, by whole groups; what is marked past the last state is cut off.
fn row_word(table: &SuccessorTable, a: usize, s: usize) -> u64
    requires { (a < 16) × (s < 64) }
    ensures { result ≡ row_word_lem table.now.marks.now table.now.n a s }
{
    let n = table.n;
    let mut r: u64 = 0;
    for group in (0..(n + 15) / 16).rev() {
        r = r * 65536 + sixteen(table.marks, a, s, 16 * group);
    }
    r & all_states(n)
}

// The successors of each state by action a, from place 64 * a on.
fn action_rows(table: &SuccessorTable, a: usize, rows: &mut [u64])
    requires { (a < 16) × (64 * a + 64 ≤ length rows.old) }
    ensures { ActionRows table.now.marks.now table.now.n a rows.old table.now.n rows.new }
{
    for s in 0..table.n {
        rows[64 * a + s] = row_word(table, a, s);
    }
}

// The successors of each state by the actions in a map, bit a for action a, made once: a modal step is then 64 operations. Nothing is done
// for an action that is not there.
pub fn row_words(table: &SuccessorTable, used: u16, rows: &mut [u64])
    requires { (a : ℕ) → bit used a ≡ true → 64 * a + 64 ≤ length rows.old }
    ensures { RowWords table.now.marks.now used table.now.n rows.old 16 rows.new }
{
    for a in 0..16 {
        if (used >> a) & 1 == 1 {
            action_rows(table, a, rows);
        }
    }
}
