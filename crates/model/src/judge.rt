// The first pass over a model file: the first fault in the order of its bytes. Nothing is written.
ghost use Rattle.std.specs.Prelude.{◌≡◌, true, ◌+◌, ◌<◌, ◌≤◌, length, drop};
ghost use Rattle.encoding.specs.Parse.{in_range};
ghost use Rattle.encoding.specs.Opening.{opens};
ghost use Rattle.encoding.specs.Outcome.{verdict_of};
ghost use Rattle.model_files.specs.Actions.{ACTIONS};
ghost use Rattle.model_files.specs.ModelFile.{opening};
ghost use Rattle.model_files.specs.ReadModel.{successors, list, lists, state, form_by, read_form, read_model};
ghost use Rattle.model.specs.Judged.{judged};
ghost use Rattle.model.specs.HeaderSteps.{InModel};
ghost use Rattle.model.specs.ListSteps.{Finds};
ghost use Rattle.model.specs.FileSteps.{states_from};
ghost use Rattle.model.specs.SuccessorsRise.{SuccessorsStand};

use super::FIRST_STATE;
use super::header::header_at;
use model_files::{MODEL_OPENING, ModelFault, STATES};
use verdict::{Fault, Refusal};

// The verdict on a model: its places can lie above 65,535.
pub type Judged = Result<(), Refusal<u32>>;

// What a step over the file finds: the place after what it read, or a refusal.
type Step = Result<usize, Refusal<u32>>;

// Whether so many successors are there, rise, and are states, by one test for each. Where it says no, the next function says why.
fn successors_fit(bytes: &[u8], from: usize, count: usize, states: usize) -> bool
    requires { (InModel bytes.now from) × (states ≤ 64) }
    ensures { result ≡ true → SuccessorsStand bytes.now from count states }
{
    if bytes.len() - from < count {
        return false;
    }
    let mut least: usize = 0;
    for &byte in &bytes[from..from + count] {
        let successor = byte as usize;
        if successor < least {
            return false;
        }
        least = successor + 1;
    }
    least <= states
}

// So many successors, each a state and above the one before.
fn successors_step(bytes: &[u8], from: usize, count: usize, states: usize) -> Step
    requires { (InModel bytes.now from) × (states ≤ 64) }
    ensures { Finds bytes.now (from + 64) (successors states count (drop from bytes.now) from) result }
{
    let mut least: usize = 0;
    for i in 0..count {
        let at = from + i;
        if bytes.len() <= at {
            return Err(ModelFault::Length.at(bytes.len() as u32));
        }
        let successor = bytes[at] as usize;
        if successor < least || states <= successor {
            return Err(ModelFault::Successor.at(at as u32));
        }
        least = successor + 1;
    }
    Ok(from + count)
}

// The list of one action in the state that begins at a place: its count, which is not zero, and so many successors.
fn list_step(bytes: &[u8], begin: usize, from: usize, states: usize) -> Step
    requires { (from ≤ length bytes.now) × (from ≤ 67200) × (begin ≤ 66000) × (states ≤ 64) }
    ensures { Finds bytes.now (from + 65) (list begin states (drop from bytes.now) from) result }
{
    if bytes.len() <= from {
        return Err(ModelFault::Length.at(bytes.len() as u32));
    }
    let count = bytes[from] as usize;
    if count == 0 {
        return Err(ModelFault::Map.at(begin as u32));
    }
    let first = from + 1;
    if successors_fit(bytes, first, count, states) {
        return Ok(first + count);
    }
    successors_step(bytes, first, count, states)
}

// The lists of a state, by rising action: those whose bits stand. No turn is made for the actions above the highest of these.
fn lists_step(bytes: &[u8], begin: usize, from: usize, actions: u16, states: usize) -> Step
    requires { (from ≤ length bytes.now) × (from ≤ 66100) × (begin ≤ 66000) × (states ≤ 64) }
    ensures { Finds bytes.now (from + 1040) (lists begin states actions ACTIONS (drop from bytes.now) from) result }
{
    let mut at = from;
    let mut rest = actions;
    while rest != 0 {
        if rest % 2 == 1 {
            at = list_step(bytes, begin, at, states)?;
        }
        rest /= 2;
    }
    Ok(at)
}

fn state_step(bytes: &[u8], at: usize, acts: bool, states: usize) -> Step
    requires { (at ≤ length bytes.now) × (at ≤ 66000) × (states ≤ 64) }
    ensures { Finds bytes.now (at + 1047) (state (form_by acts) states (drop at bytes.now) at) result }
{
    let header = header_at(bytes, at, acts)?;
    lists_step(bytes, at, header.next, header.actions, states)
}

// So many states, from the place after the state count on.
fn states_step(bytes: &[u8], acts: bool, states: usize) -> Step
    requires { (5 ≤ length bytes.now) × (states ≤ 64) }
    ensures { Finds bytes.now 67013 (states_from (form_by acts) states bytes.now) result }
{
    let mut at = FIRST_STATE;
    for _ in 0..states {
        at = state_step(bytes, at, acts, states)?;
    }
    Ok(at)
}

// Whether a model may have so many states.
fn count_fits(states: usize) -> bool
    ensures { result ≡ in_range 1 64 states }
{
    (1..=STATES).contains(&states)
}

// The verdict after the opening of a form.
fn judge_body(bytes: &[u8], acts: bool) -> Judged
    requires { opens (opening (form_by acts)) bytes.now ≡ true }
    ensures { judged result ≡ verdict_of (read_form (form_by acts) bytes.now) }
{
    if bytes.len() < 5 {
        return Err(ModelFault::Length.at(bytes.len() as u32));
    }
    let states = bytes[4] as usize;
    if !count_fits(states) {
        return Err(ModelFault::Count.at(4));
    }
    let at = states_step(bytes, acts, states)?;
    if at < bytes.len() {
        return Err(ModelFault::Length.at(at as u32));
    }
    Ok(())
}

// The verdict on the bytes of a model.
pub fn judge_model(bytes: &[u8]) -> Judged
    ensures { judged result ≡ verdict_of (read_model bytes.now) }
{
    let acts = super::for_actions(bytes);
    if !acts && !bytes.starts_with(&MODEL_OPENING) {
        return Err(ModelFault::Opening.at(0));
    }
    judge_body(bytes, acts)
}
