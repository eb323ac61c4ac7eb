// "Each call works on the one gate state it is lent": opening, closing and taking on a state that C lends. It is taken out whole, a step
// by value is made, and what the step leaves is put back whole.
ghost use Rattle.permit.specs.GateState.{opening, closing, taking};
ghost use Rattle.permit.specs.Plain.{state_of};
ghost use Rattle.permit.specs.LentState.{Answered, TookNumber};

use numbered::{close_number, open_number, take_number};
use permit::State;

// Opens a closed gate: 0, or refusal × 65,536 + place.
#[unsafe(no_mangle)]
pub extern "C" fn focus_open(gate: &mut State) -> u32
    ensures { Answered (opening (state_of gate.old)) gate.old result gate.new }
{
    let stepped = open_number(*gate);
    *gate = stepped.state;
    stepped.answer
}

// Closes an open gate and drops any permit: 0, or refusal × 65,536 + place.
#[unsafe(no_mangle)]
pub extern "C" fn focus_close(gate: &mut State) -> u32
    ensures { Answered (closing (state_of gate.old)) gate.old result gate.new }
{
    let stepped = close_number(*gate);
    *gate = stepped.state;
    stepped.answer
}

// Hands out the permit's tag and leaves the gate open: the tag, or 2^32 + refusal × 65,536 + place.
#[unsafe(no_mangle)]
pub extern "C" fn focus_take(gate: &mut State) -> u64
    ensures { TookNumber (taking (state_of gate.old)) gate.old result gate.new }
{
    let stepped = take_number(*gate);
    *gate = stepped.state;
    stepped.answer
}
