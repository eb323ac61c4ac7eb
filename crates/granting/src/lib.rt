// The two ends of presenting: what stands before the files, and the state that a verdict leaves.
#![tactic(auto)]

ghost use Rattle.std.specs.Prelude.{◌≡◌};
ghost use Rattle.verdict.specs.Shown.{shown};
ghost use Rattle.permit.specs.Plain.{state_of};
ghost use Rattle.granting.specs.PresentStages.{stands_before_lem, Settled};

use permit::{GateFault, Numbered, Phase, State};
use verdict::{Fault, SliceFault, Verdict, pack};

// 50, 51 and 1, which stand before the files.
pub fn stands_before(state: State, entries: usize, nodes: usize, codes: usize) -> Verdict
    ensures { shown result ≡ stands_before_lem (state_of state) entries nodes codes }
{
    if state.phase == Phase::HOLDING {
        return Err(GateFault::Holding.at(0));
    }
    if state.phase != Phase::OPEN {
        return Err(GateFault::Closed.at(0));
    }
    if entries < 256 || nodes < 1024 || codes < 24576 {
        return Err(SliceFault::Short.at(0));
    }
    Ok(())
}

// "On acceptance it holds that tag", and "no input refusal alters the gate state".
pub fn settle(state: State, tag: u32, verdict: Verdict) -> Numbered
    ensures { Settled state tag (shown verdict) result }
{
    let answer = pack(verdict);
    match verdict {
        Ok(()) => Numbered {
            state: State {
                phase: Phase::HOLDING,
                tag,
            },
            answer,
        },
        Err(_) => Numbered { state, answer },
    }
}
