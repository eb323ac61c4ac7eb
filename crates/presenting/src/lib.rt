// "Presenting a tag, claim and proof (on acceptance it holds that tag)": what stands before the files, what the judge says of the files in
// the lent slices, and the state that the verdict leaves.
#![tactic(auto)]

ghost use Rattle.std.specs.Prelude.{◌≡◌};
ghost use Rattle.verdict.specs.Verdict.{accepted};
ghost use Rattle.verdict.specs.Shown.{shown};
ghost use Rattle.lent_files.specs.LentJudged.{AllLong, LentTold};
ghost use Rattle.presenting.specs.PresentCall.{PresentCall};

use granting::{settle, stands_before};
use lent_files::judge_read;
use permit::{Numbered, State};
use reader::begins;
use records::{Entry, Node};
use verdict::Verdict;

// The files behind what stands before them, without their columns where that, or the claim's beginning, is refused already.
fn judge_lent(
    before: Verdict,
    claim: &[u8],
    proof: &[u8],
    entries: &mut [Entry],
    nodes: &mut [Node],
    codes: &mut [u16],
) -> Verdict
    requires { shown before ≡ accepted → AllLong entries.old nodes.old codes.old }
    ensures { LentTold (shown before) claim.now proof.now entries.old nodes.old codes.old
        (shown result) entries.new nodes.new codes.new }
{
    begins(before, claim)?;
    judge_read(before, claim, proof, entries, nodes, codes)
}

// With 1 to 34 nothing is stored.
pub fn present_step(
    state: State,
    tag: u32,
    claim: &[u8],
    proof: &[u8],
    entries: &mut [Entry],
    nodes: &mut [Node],
    codes: &mut [u16],
) -> Numbered
    ensures { PresentCall state tag claim.now proof.now entries.old nodes.old codes.old
        result.answer result.state entries.new nodes.new codes.new }
{
    let before = stands_before(state, entries.len(), nodes.len(), codes.len());
    let verdict = judge_lent(before, claim, proof, entries, nodes, codes);
    settle(state, tag, verdict)
}
