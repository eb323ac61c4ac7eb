// An evaluation for C: each entry's word, and the claim's entries as records.
ghost use Rattle.gate.specs.EvaluateCall.{EvaluateCall};

use evaluation::evaluate_files;
use records::{Entry, store_entries};
use verdict::pack_wide;

// Each entry's word in the model, and the claim's entries as records: 0, or refusal × 2^32 + place, since a place in a model can be wider
// than two bytes.
#[unsafe(no_mangle)]
pub extern "C" fn focus_evaluate(
    claim: &[u8],
    model: &[u8],
    entries: &mut [Entry],
    words: &mut [u64],
) -> u64
    ensures { EvaluateCall claim.now model.now entries.old words.old result entries.new
        words.new }
{
    let mut kinds = [0u8; 256];
    let mut a = [0u16; 256];
    let mut b = [0u16; 256];
    match evaluate_files(
        entries.len(),
        claim,
        model,
        &mut kinds,
        &mut a,
        &mut b,
        words,
    ) {
        Ok(count) => {
            store_entries(entries, &kinds, &a, &b, count);
            0
        }
        Err(refusal) => pack_wide(refusal.number, refusal.place),
    }
}
