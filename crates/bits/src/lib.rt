// Numbers in machine words: a two-byte field as an index, what a bit of a map brings, a word's lowest bit. The bits of a word are in specs/.
#![tactic(auto)]

ghost use Rattle.std.specs.Prelude.{◌≡◌, ◌≤◌};
ghost use Rattle.bits.specs.IfSet.{if_set_lem};
ghost use Rattle.bits.specs.LowestBit.{LowestBit};

// A two-byte number as an index.
pub fn wide(number: u16) -> usize
    ensures { result ≡ number }
{
    usize::from(number)
}

// The value where the bit stands, else 0.
pub fn if_set(stands: bool, value: u8) -> u8
    ensures { (result ≡ if_set_lem stands value) × (result ≤ value) }
{
    if stands { value } else { 0 }
}

// The lowest bit of a word that has one.
pub fn lowest_bit(word: u64) -> usize
    requires { word ≡ 0 → ⊥ }
    ensures { LowestBit word result }
{
    word.trailing_zeros() as usize
}
