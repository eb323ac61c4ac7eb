// Two claims with their proofs joined (T-07): both inputs are judged first, each in memory that is given back before the next is judged; then
// their claims are read once more, side by side, and the whole is laid down. No refusal writes a byte.
#![tactic(auto)]

ghost use Rattle.std.specs.Prelude.{◌≡◌, length};
ghost use Rattle.verdict.specs.Verdict.{accepted};
ghost use Rattle.verdict.specs.Shown.{shown};
ghost use Rattle.verdict.specs.ScanLaws.{after};
ghost use Rattle.formula.specs.Claim.{clm1, Claim};
ghost use Rattle.formula.specs.Held.{ClaimHeld};
ghost use Rattle.claims.specs.ClaimWalk.{ClaimArrays};
ghost use Rattle.reader.specs.WellFormed.{ClaimFormed};
ghost use Rattle.demands.specs.Join.{half_verdict, join_files_lem};
ghost use Rattle.joined_files.specs.Wholly.{Wholly};
ghost use Rattle.joiner.specs.Reading.{both_read_lem};

use bits::wide;
use claim_files::{CLAIM_OPENING, ClaimFault};
use encoding::opens_with;
use fitting::same_entries;
use formula::EntryColumns;
use joined_files::{JoinFault, join_goals_of};
use reader::read_formed;
use single::judge_files;
use verdict::{Fault, Verdict};
use writer::refuse;

// An input, in the forms for one goal only: of another opening the proof's is refused beside a claim of that form, the claim's here.
fn judge_half(claim: &[u8], proof: &[u8]) -> Verdict
    ensures { shown result ≡ half_verdict claim.now proof.now }
{
    if !opens_with(claim, &CLAIM_OPENING) {
        return Err(ClaimFault::Opening.at(0));
    }
    judge_files(claim, proof)
}

// The claim of an accepted input in the arrays that the caller lends, and how many entries it has.
fn read_half(
    claim: &[u8],
    kinds: &mut [u8; 256],
    a: &mut [u16; 256],
    b: &mut [u16; 256],
    bounds: &mut [u16; 17],
    members: &mut [u16; 384],
) -> usize
    requires { ClaimArrays kinds.old a.old b.old bounds.old members.old }
    ensures { (c : Claim) → ClaimFormed claim.now c → c.form ≡ clm1 → ClaimHeld c kinds.new a.new b.new result
        bounds.new members.new 1 }
{
    match read_formed(claim, kinds, a, b, bounds, members) {
        Ok(counts) => counts.entries,
        Err(_) => 0,
    }
}

// Two accepted inputs.
fn join_accepted(
    entry: u16,
    claim1: &[u8],
    proof1: &[u8],
    claim2: &[u8],
    proof2: &[u8],
    claim: &mut [u8],
    proof: &mut [u8],
) -> u64
    requires { (half_verdict claim1.now proof1.now ≡ accepted) × (half_verdict claim2.now proof2.now ≡ accepted) }
    ensures { Wholly (both_read_lem entry claim1.now proof1.now claim2.now proof2.now
        (length claim.old) (length proof.old)) claim.old proof.old result claim.new proof.new }
{
    let mut kinds = [0u8; 256];
    let mut a = [0u16; 256];
    let mut b = [0u16; 256];
    let mut bounds = [0u16; 17];
    let mut members = [0u16; 384];
    let entries = read_half(
        claim1,
        &mut kinds,
        &mut a,
        &mut b,
        &mut bounds,
        &mut members,
    );
    let mut other_kinds = [0u8; 256];
    let mut other_a = [0u16; 256];
    let mut other_b = [0u16; 256];
    let mut other_bounds = [0u16; 17];
    let mut others = [0u16; 384];
    let other_entries = read_half(
        claim2,
        &mut other_kinds,
        &mut other_a,
        &mut other_b,
        &mut other_bounds,
        &mut others,
    );
    let table = EntryColumns {
        kinds: &kinds,
        a: &a,
        b: &b,
        count: entries,
    };
    if !same_entries(&table, &other_kinds, &other_a, &other_b, other_entries) {
        return refuse(JoinFault::Unfit as u16, entry);
    }
    join_goals_of(
        entry,
        &table,
        claim1.len(),
        &members,
        wide(bounds[0]),
        wide(bounds[1]),
        &others,
        wide(other_bounds[0]),
        wide(other_bounds[1]),
        proof1,
        proof2,
        claim,
        proof,
    )
}

// The first input is judged whole before the second.
fn judge_halves(claim1: &[u8], proof1: &[u8], claim2: &[u8], proof2: &[u8]) -> Verdict
    ensures { shown result ≡ after (half_verdict claim1.now proof1.now) (half_verdict claim2.now proof2.now) }
{
    judge_half(claim1, proof1)?;
    judge_half(claim2, proof2)
}

// What two accepted inputs get, or the first refusal.
pub fn join_files(
    entry: u16,
    claim1: &[u8],
    proof1: &[u8],
    claim2: &[u8],
    proof2: &[u8],
    claim: &mut [u8],
    proof: &mut [u8],
) -> u64
    ensures { Wholly (join_files_lem entry claim1.now proof1.now claim2.now proof2.now
        (length claim.old) (length proof.old)) claim.old proof.old result claim.new proof.new }
{
    match judge_halves(claim1, proof1, claim2, proof2) {
        Ok(()) => join_accepted(entry, claim1, proof1, claim2, proof2, claim, proof),
        Err(refusal) => refuse(refusal.number, refusal.place),
    }
}
