// Sixteen marks of the successor table at a time: of each the bit of one action. Four marks lie side by side in a word, so that a shift and
// a mask take the bit of each at once.
#![tactic(auto)]

ghost use Rattle.std.specs.Prelude.{◌≡◌, ◌+◌, ◌<◌, ◌≤◌};
ghost use Rattle.bits.specs.Bits.{bit, digit};
ghost use Rattle.model_files.specs.DescribedLaws.{cell};
ghost use Rattle.states.specs.Words.{word};
ghost use Rattle.states.specs.TopDown.{from};
ghost use Rattle.marks.specs.Lanes.{four_from, FourMarks};

// A mark as a word.
fn widened(mark: u16) -> u64
    ensures { (result ≡ mark) × (result < 65536) }
{
    mark as u64
}

// The marks of the four states from u on, side by side, sixteen bits apart.
pub fn four(marks: &[[u16; 64]; 64], s: usize, u: usize) -> u64
    requires { (s < 64) × (u ≤ 60) }
    ensures { FourMarks marks.now s u result }
{
    widened(marks[s][u])
        + widened(marks[s][u + 1]) * 65536
        + widened(marks[s][u + 2]) * 4294967296
        + widened(marks[s][u + 3]) * 281474976710656
}

// Their bits for action a.
fn four_bits(marks: &[[u16; 64]; 64], a: usize, s: usize, u: usize) -> u64
    requires { (a < 16) × (s < 64) × (u ≤ 60) }
    ensures { result ≡ four_from (λ k. digit (cell marks.now s k) a) u }
{
    (four(marks, s, u) >> a) & 281479271743489
}

// The bits for action a in the marks of the sixteen states from u on.
pub fn sixteen(marks: &[[u16; 64]; 64], a: usize, s: usize, u: usize) -> u64
    requires { (a < 16) × (s < 64) × (u ≤ 48) }
    ensures { result ≡ word 16 (from u (λ k. bit (cell marks.now s k) a)) }
{
    // Each quarter of the word has bits 0, 4, 8 and 12; the quarters are then moved in between each other.
    let apart = four_bits(marks, a, s, u)
        + four_bits(marks, a, s, u + 4) * 16
        + four_bits(marks, a, s, u + 8) * 256
        + four_bits(marks, a, s, u + 12) * 4096;
    let paired = apart + (apart >> 15);
    (paired + (paired >> 30)) & 65535
}
