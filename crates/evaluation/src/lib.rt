// An evaluation in plain numbers: the claim's refusals, then the model's, then each entry's word. The claim's columns are lent, since its
// entries' records are stored from them.
#![tactic(auto)]

ghost use Rattle.std.specs.Prelude.{◌≤◌, length};
ghost use Rattle.formula.specs.Plain.{table_of};
ghost use Rattle.claim_entries.specs.ClaimEntries.{EntryArrays};
ghost use Rattle.model_files.specs.ReadModel.{read_model};
ghost use Rattle.forming.specs.Claim.{Given};
ghost use Rattle.demands.specs.Evaluate.{in_model, evaluated};
ghost use Rattle.evaluation.specs.EvaluateFiles.{EvaluatedFiles, Staged, after_model_lem};

use evaluator::evaluate;
use model::judge::judge_model;
use model::tables::{decode_model, state_count};
use reader::read_formed;
use verdict::{Fault, Refusal, SliceFault};

// How many entries' records are to be stored, or what is refused: "Refusals 1 to 34 and 60 to 64 write nothing to lent slices." A place in
// a model can lie above 65,535.
pub type Evaluation = Result<usize, Refusal<u32>>;

// 60 to 64: the model's bytes, and then "one 64-bit word per entry".
// The successor table goes by value, from the model reader to the evaluator.
fn after_model(
    model: &[u8],
    kinds: &[u8; 256],
    a: &[u16; 256],
    b: &[u16; 256],
    count: usize,
    words: &mut [u64],
) -> Evaluation
    requires { Given kinds.now a.now b.now count words.old }
    ensures { Staged (after_model_lem (table_of kinds.now a.now b.now count) (read_model model.now))
        words.old result kinds.now a.now b.now words.new }
{
    judge_model(model)?;
    let mut masks = [0u32; 64];
    let marks = decode_model(model, &mut masks);
    let states = state_count(model);
    evaluate(
        kinds,
        a,
        b,
        count,
        &masks,
        marks,
        model.len(),
        states,
        words,
    );
    Ok(count)
}

// 10 to 23 and 71: the claim's bytes and its table, and then the model.
fn after_lengths(
    claim: &[u8],
    model: &[u8],
    kinds: &mut [u8; 256],
    a: &mut [u16; 256],
    b: &mut [u16; 256],
    words: &mut [u64],
) -> Evaluation
    requires { EntryArrays kinds.old a.old b.old × (256 ≤ length words.old) }
    ensures { Staged (evaluated (in_model claim.now model.now)) words.old result kinds.new a.new
        b.new words.new }
{
    let mut bounds = [0u16; 17];
    let mut members = [0u16; 384];
    let counts = read_formed(claim, kinds, a, b, &mut bounds, &mut members)?;
    after_model(model, kinds, a, b, counts.entries, words)
}

// An evaluation of a claim in a model, for so many lent entry records. 1 comes before the files.
pub fn evaluate_files(
    lent: usize,
    claim: &[u8],
    model: &[u8],
    kinds: &mut [u8; 256],
    a: &mut [u16; 256],
    b: &mut [u16; 256],
    words: &mut [u64],
) -> Evaluation
    requires { EntryArrays kinds.old a.old b.old }
    ensures { EvaluatedFiles lent claim.now model.now words.old result kinds.new a.new
        b.new words.new }
{
    if lent < 256 || words.len() < 256 {
        return Err(SliceFault::Short.at(0));
    }
    after_lengths(claim, model, kinds, a, b, words)
}
