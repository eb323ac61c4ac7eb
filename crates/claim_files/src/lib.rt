// Claim files: their encoding, what 10 to 14 and 72 mean, the first fault in the order of the bytes, and that this is exact: in specs/ and proofs/.
// Here only the numbers that code above goes by.
#![tactic(auto)]

ghost use Rattle.claim_files.specs.FaultNumbers.{number_of};

use verdict::Fault;

// The first four bytes of a claim file: with one goal, and with several.
pub const CLAIM_OPENING: [u8; 4] = *b"CLM1";

pub const GOALS_OPENING: [u8; 4] = *b"CLM2";

// What the bytes of a claim earn.
#[derive(Clone, Copy, PartialEq, Eq)]
pub enum ClaimFault {
    Opening = 10,
    Length = 11,
    Count = 12,
    Kind = 13,
    Member = 14,
    Goals = 72,
}

impl Fault for ClaimFault {
    ghost number_of = { number_of };

    fn number(self) -> u16 {
        self as u16
    }
}
