// What the readers of files share: opening letters, numbers of two and four bytes, little-endian, and what reading at a place gives. The
// encodings, the parsers and their laws are in specs/ and proofs/.
#![tactic(auto)]

ghost use Rattle.std.specs.Prelude.{◌≡◌, ◌+◌, ◌<◌, length};
ghost use Rattle.encoding.specs.Parse.{word};
ghost use Rattle.encoding.specs.Opening.{opens};
ghost use Rattle.encoding.specs.Places.{word_at};

use verdict::Refusal;

// What was read, and the place after it.
#[derive(Clone, Copy)]
pub struct Read<T> {
    pub value: T,
    pub next: usize,
}

// What reading at a place gives.
pub type Parsed<T> = Result<Read<T>, Refusal>;

// The number whose low and high byte these are.
pub fn join(low: u8, high: u8) -> u16
    ensures { result ≡ word (low, high) }
{
    u16::from_le_bytes([low, high])
}

// Whether the letters stand in front of the bytes.
pub fn opens_with(bytes: &[u8], opening: &[u8; 4]) -> bool
    ensures { result ≡ opens opening.now bytes.now }
{
    bytes.starts_with(opening)
}

// The number of the two bytes at a place.
pub fn word_at(bytes: &[u8], at: usize) -> u16
    requires { at + 1 < length bytes.now }
    ensures { result ≡ word_at bytes.now at }
{
    join(bytes[at], bytes[at + 1])
}
