// Opening, closing and taking by value, answered by the numbers of the C calls.
#![tactic(auto)]

ghost use Rattle.std.specs.Prelude.{◌≡◌};
ghost use Rattle.permit.specs.GateState.{opening, closing, taking};
ghost use Rattle.permit.specs.Numbers.{packed_permit};
ghost use Rattle.permit.specs.Plain.{state_of, shown_permit};
ghost use Rattle.permit.specs.LentState.{Answered, TookNumber};

use permit::{Numbered, State, close_step, open_step, take_step};
use verdict::{Refusal, pack};

pub fn open_number(state: State) -> Numbered
    ensures { Answered (opening (state_of state)) state result.answer result.state }
{
    let opened = open_step(state);
    Numbered {
        state: opened.state,
        answer: pack(opened.answer),
    }
}

pub fn close_number(state: State) -> Numbered
    ensures { Answered (closing (state_of state)) state result.answer result.state }
{
    let closed = close_step(state);
    Numbered {
        state: closed.state,
        answer: pack(closed.answer),
    }
}

// The tag, or 2^32 + refusal × 65,536 + place.
fn pack_permit(permit: Result<u32, Refusal>) -> u64
    ensures { result ≡ packed_permit (shown_permit permit) }
{
    match permit {
        Ok(tag) => tag as u64,
        Err(refusal) => 4294967296 + ((refusal.number as u64) * 65536 + (refusal.place as u64)),
    }
}

pub fn take_number(state: State) -> Numbered<u64>
    ensures { TookNumber (taking (state_of state)) state result.answer result.state }
{
    let taken = take_step(state);
    Numbered {
        state: taken.state,
        answer: pack_permit(taken.answer),
    }
}
