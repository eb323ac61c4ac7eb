// The gate's states, and its steps by value: opening, closing and taking.
#![tactic(auto)]

ghost use Rattle.std.specs.Prelude.{◌≡◌};
ghost use Rattle.permit.specs.FaultNumbers.{number_of};
ghost use Rattle.permit.specs.GateState.{opening, closing, taking};
ghost use Rattle.permit.specs.Plain.{state_of, Stepped, TookStep, refused_with, moved_to};

use verdict::{Fault, Refusal};

#[repr(C)]
#[derive(Clone, Copy)]
pub struct State {
    pub phase: u8,
    pub tag: u32,
}

// A state is lent by C, where any byte may stand for its phase.
#[derive(Clone, Copy)]
pub struct Phase;

impl Phase {
    pub const CLOSED: u8 = 0;

    pub const OPEN: u8 = 1;

    pub const HOLDING: u8 = 2;
}

// What a call earns in a state that it is not for.
#[derive(Clone, Copy, PartialEq, Eq)]
pub enum GateFault {
    Closed = 50,
    Holding = 51,
    NoPermit = 52,
    NotClosed = 53,
}

impl Fault for GateFault {
    ghost number_of = { number_of };

    fn number(self) -> u16 {
        self as u16
    }
}

// The answer of a step and the state that it leaves.
#[derive(Clone, Copy)]
pub struct Step<T> {
    pub answer: Result<T, Refusal>,
    pub state: State,
}

// The state that a step leaves, and the number that it answers.
#[derive(Clone, Copy)]
pub struct Numbered<N = u32> {
    pub state: State,
    pub answer: N,
}

fn refuse<T>(fault: GateFault, state: State) -> Step<T>
    ensures { result ≡ refused_with (number_of fault) state }
{
    Step {
        answer: Err(fault.at(0)),
        state,
    }
}

fn enter<T>(phase: u8, answer: T) -> Step<T>
    ensures { result ≡ moved_to phase answer }
{
    Step {
        answer: Ok(answer),
        state: State { phase, tag: 0 },
    }
}

// Opens a closed gate.
pub fn open_step(state: State) -> Step<()>
    ensures { Stepped (opening (state_of state)) state result }
{
    match state.phase {
        Phase::OPEN => refuse(GateFault::NotClosed, state),
        Phase::HOLDING => refuse(GateFault::NotClosed, state),
        _ => enter(Phase::OPEN, ()),
    }
}

// Closes an open gate and drops any permit.
pub fn close_step(state: State) -> Step<()>
    ensures { Stepped (closing (state_of state)) state result }
{
    match state.phase {
        Phase::OPEN => enter(Phase::CLOSED, ()),
        Phase::HOLDING => enter(Phase::CLOSED, ()),
        _ => refuse(GateFault::Closed, state),
    }
}

// Hands out the permit's tag and leaves the gate open.
pub fn take_step(state: State) -> Step<u32>
    ensures { TookStep (taking (state_of state)) state result }
{
    match state.phase {
        Phase::OPEN => refuse(GateFault::NoPermit, state),
        Phase::HOLDING => enter(Phase::OPEN, state.tag),
        _ => refuse(GateFault::Closed, state),
    }
}
