// Model files: their encoding in both forms, what 60 to 64 mean, the first fault in the order of the bytes, and that this is exact: in specs/ and proofs/.
// Here only the numbers that code above goes by.
#![tactic(auto)]

ghost use Rattle.model_files.specs.FaultNumbers.{number_of};

use verdict::Fault;

// The first four bytes of a model file for action 0 alone, and of one for all actions.
pub const MODEL_OPENING: [u8; 4] = *b"MDL1";

pub const ACTIONS_OPENING: [u8; 4] = *b"MDL2";

// The most states that a model has.
pub const STATES: usize = 64;

// What the bytes of a model earn.
#[derive(Clone, Copy, PartialEq, Eq)]
pub enum ModelFault {
    Opening = 60,
    Length = 61,
    Count = 62,
    Map = 63,
    Successor = 64,
}

impl Fault for ModelFault {
    ghost number_of = { number_of };

    fn number(self) -> u16 {
        self as u16
    }
}
