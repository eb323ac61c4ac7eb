// Proof files: their encoding in both forms, what 30 to 34 mean, the first fault in the order of the bytes, and that this is exact: in specs/ and proofs/.
// Here only the numbers that code above goes by.
#![tactic(auto)]

ghost use Rattle.proof_files.specs.FaultNumbers.{number_of};

use verdict::Fault;

// The first four bytes of a proof file beside a claim for one goal, and of one beside a claim for several.
pub const PROOF_OPENING: [u8; 4] = *b"PRF1";

pub const GOALS_OPENING: [u8; 4] = *b"PRF2";

// The place after the opening and the node count.
pub const AFTER_COUNT: usize = 6;

// What the bytes of a proof earn.
#[derive(Clone, Copy, PartialEq, Eq)]
pub enum ProofFault {
    Opening = 30,
    Length = 31,
    Count = 32,
    Rule = 33,
    // A code, or a root.
    Code = 34,
}

impl Fault for ProofFault {
    ghost number_of = { number_of };

    fn number(self) -> u16 {
        self as u16
    }
}
