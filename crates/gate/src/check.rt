// The single check of document 01, for C: two byte slices, one number.
ghost use Rattle.demands.specs.Single.{SingleCheck};

use single::judge_files;

// 0, or refusal × 65,536 + place; no state, and nothing written.
#[unsafe(no_mangle)]
pub extern "C" fn focus_check(claim: &[u8], proof: &[u8]) -> u32
    ensures { SingleCheck claim.now proof.now result }
{
    verdict::pack(judge_files(claim, proof))
}
