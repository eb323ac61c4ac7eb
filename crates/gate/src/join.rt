// Joining for C: two claims with their proofs, and a slice for each file of the whole.
ghost use Rattle.demands.specs.JoinCall.{JoinCall};

use joiner::join_files;

// The claim and the proof of an entry "A and B" from those of its halves: claim length + 65,536 × proof length, or
// 2^32 + refusal × 65,536 + place. No refusal writes a byte.
#[unsafe(no_mangle)]
pub extern "C" fn focus_join(
    entry: u16,
    claim1: &[u8],
    proof1: &[u8],
    claim2: &[u8],
    proof2: &[u8],
    claim_out: &mut [u8],
    proof_out: &mut [u8],
) -> u64
    ensures { JoinCall entry claim1.now proof1.now claim2.now proof2.now claim_out.old
        proof_out.old result claim_out.new proof_out.new }
{
    join_files(entry, claim1, proof1, claim2, proof2, claim_out, proof_out)
}
