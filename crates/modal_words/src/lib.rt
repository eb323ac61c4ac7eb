// The modal steps on words, over the successors of each state by one action as words.
#![tactic(auto)]

ghost use Rattle.std.specs.Prelude.{◌≡◌, ◌||◌, ◌&&◌, not, ◌≤◌, length, get_or};
ghost use Rattle.meaning.specs.Truth.{some, every};
ghost use Rattle.bits.specs.Bits.{bit};
ghost use Rattle.states.specs.Words.{word};
ghost use Rattle.states.specs.StateWords.{Inside};

use letters::word_where;

// Where some successor is in w.
pub fn diamond_word(rows: &[u64], n: usize, w: u64) -> u64
    requires { (n ≤ 64) × (n ≤ length rows.now) × Inside n n rows.now }
    ensures { result ≡ word n (λ s. some n (λ u. bit (get_or rows.now s 0) u && bit w u)) }
{
    word_where(n, |s| rows[s] & w != 0)
}

// Where all successors are in w: also where there is none.
pub fn box_word(rows: &[u64], n: usize, w: u64) -> u64
    requires { (n ≤ 64) × (n ≤ length rows.now) × Inside n n rows.now }
    ensures { result ≡ word n (λ s. every n (λ u. not (bit (get_or rows.now s 0) u) || bit w u)) }
{
    word_where(n, |s| rows[s] & w == rows[s])
}
