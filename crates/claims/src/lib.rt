// Claim files: the first fault in the order of the bytes (10 to 14 and 72), and the table and goals of a file that has none. What these
// numbers mean is in the crate claim_files.
#![tactic(auto)]

ghost use Rattle.std.specs.Prelude.{◌≡◌};
ghost use Rattle.encoding.specs.Opening.{opens};
ghost use Rattle.formula.specs.Claim.{clm1, clm2};
ghost use Rattle.claim_files.specs.ClaimFile.{claim_opening};
ghost use Rattle.claim_files.specs.ReadClaim.{read_claim_lem};
ghost use Rattle.claims.specs.ClaimWalk.{ClaimArrays, ClaimTells, held_reading, opening_form_lem};
ghost use Rattle.claims.specs.ClaimBeginning.{Begun};
ghost use Rattle.verdict.specs.Shown.{earned, shown};

use claim_entries::{entry_at, read_entries};
use claim_files::{CLAIM_OPENING, ClaimFault, GOALS_OPENING};
use claim_members::goal_lists::read_goals;
use encoding::opens_with;
use file_parts::count_at;
use formula::Form;
use verdict::{Fault, Refusal, Verdict};

// A claim's form and its counts.
#[derive(Clone, Copy)]
pub struct ClaimCounts {
    pub form: u8,
    pub entries: usize,
    pub goals: usize,
}

pub type ClaimRead = Result<ClaimCounts, Refusal>;

// The form by whose letters the bytes open.
fn opening_form(bytes: &[u8]) -> Option<u8>
    ensures { result ≡ earned (opening_form_lem bytes.now) }
{
    if opens_with(bytes, &CLAIM_OPENING) {
        return Some(Form::CLM1);
    }
    if opens_with(bytes, &GOALS_OPENING) {
        return Some(Form::CLM2);
    }
    None
}

// The whole file in one walk. A refused file may leave a part of its decoding in the arrays.
pub fn read_claim(
    bytes: &[u8],
    kinds: &mut [u8; 256],
    a: &mut [u16; 256],
    b: &mut [u16; 256],
    starts: &mut [u16; 17],
    members: &mut [u16; 384],
) -> ClaimRead
    requires { ClaimArrays kinds.old a.old b.old starts.old members.old }
    ensures { ClaimTells (held_reading (read_claim_lem bytes.now)) kinds.new a.new b.new starts.new
        members.new result }
{
    let Some(form) = opening_form(bytes) else {
        return Err(ClaimFault::Opening.at(0));
    };
    let entries = read_entries(bytes, Form::fewest(form), kinds, a, b)?;
    let several = form == Form::CLM2;
    let goals = read_goals(
        bytes,
        entries.next,
        several,
        kinds,
        entries.value,
        starts,
        members,
    )?;
    if goals.next < bytes.len() {
        return Err(ClaimFault::Length.at(goals.next as u16));
    }
    Ok(ClaimCounts {
        form,
        entries: entries.value,
        goals: goals.value,
    })
}

// What the first bytes of a claim earn: its opening, its entry count and its first entry, if there is one. That takes no arrays, so a claim
// that is refused here is refused before any are cleared for it. Acceptance says nothing of the file: `read_claim` judges all of it, these bytes too.
pub fn judge_beginning(bytes: &[u8]) -> Verdict
    ensures { Begun bytes.now (shown result) }
{
    let Some(form) = opening_form(bytes) else {
        return Err(ClaimFault::Opening.at(0));
    };
    let count = count_at(
        bytes,
        4,
        Form::fewest(form),
        256,
        ClaimFault::Count as u16,
        ClaimFault::Length as u16,
    )?;
    if count.value == 0 {
        return Ok(());
    }
    entry_at(bytes, count.next)?;
    Ok(())
}
