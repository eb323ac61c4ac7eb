// Presenting, for C: the lent gate state is taken out whole, `presenting` makes the step, and what it leaves is put back whole.
ghost use Rattle.presenting.specs.PresentCall.{PresentCall};

use permit::State;
use presenting::present_step;
use records::{Entry, Node};

// Judges claim and proof and, on acceptance, holds the tag: 0, or refusal × 65,536 + place.
#[unsafe(no_mangle)]
pub extern "C" fn focus_present(
    gate: &mut State,
    tag: u32,
    claim: &[u8],
    proof: &[u8],
    entries: &mut [Entry],
    nodes: &mut [Node],
    codes: &mut [u16],
) -> u32
    ensures { PresentCall gate.old tag claim.now proof.now entries.old nodes.old
        codes.old result gate.new entries.new nodes.new codes.new }
{
    let stepped = present_step(*gate, tag, claim, proof, entries, nodes, codes);
    *gate = stepped.state;
    stepped.answer
}
