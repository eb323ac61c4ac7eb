// The words of all states and of those with a letter; how a word is made from the last state down.
#![tactic(auto)]

ghost use Rattle.std.specs.Prelude.{◌≡◌, ℕ, Bool, ◌+◌, ◌*◌, ◌^◌, ◌<◌, ◌≤◌, eqb, get_or};
ghost use Rattle.formula.specs.Shape.{nu};
ghost use Rattle.meaning.specs.States.{start};
ghost use Rattle.bits.specs.Bits.{one, digit};
ghost use Rattle.states.specs.Words.{word};

// One state more, below those of w: it has bit 0, and theirs move up.
pub fn push(w: u64, holds: bool) -> u64
    requires { w < 2 ^ 63 }
    ensures { result ≡ one holds + 2 * w }
{
    w * 2 + u64::from(holds)
}

// All states of a model that has n.
pub fn all_states(n: usize) -> u64
    requires { n ≤ 64 }
    ensures { result ≡ word n (start nu) }
{
    if n < 64 { (1u64 << n) - 1 } else { u64::MAX }
}

// The states below n at which a test holds, from the last one down.
pub fn word_where<F: Fn(usize) -> bool>(n: usize, holds: F) -> u64
    requires small { n ≤ 64 }
    requires callable { (s : ℕ) → s < n → F.pre holds s }
    ensures { (A : ℕ → Bool) → ((s : ℕ) (b : Bool) → s < n → F.post holds s b → b ≡ A s) → result ≡ word n A }
{
    let mut r: u64 = 0;
    for s in (0..n).rev() {
        r = push(r, holds(s));
    }
    r
}

// The states whose mask has the digit at p: 1 for the letter, 0 for its negation.
pub fn letter_word(masks: &[u32; 64], n: usize, p: u16, wanted: u32) -> u64
    requires { (n ≤ 64) × (p < 32) }
    ensures { result ≡ word n (λ s. eqb (digit (get_or masks.now s 0) p) wanted) }
{
    word_where(n, |s| (masks[s] >> p) & 1 == wanted)
}
