// The evaluator: the word of every entry of a claim in a model. What it writes is defined in the crate states (specs/Words).
#![tactic(auto)]

ghost use Rattle.std.specs.Prelude.{◌≡◌, ◌<◌, ◌≤◌, length};
ghost use Rattle.states.specs.Words.{words as entryWords};
ghost use Rattle.states.specs.PlainModel.{words_in};
ghost use Rattle.states.specs.Rows.{row_model};
ghost use Rattle.forming.specs.Claim.{Given};
ghost use Rattle.forming.specs.Columned.{claim_table};
ghost use Rattle.dependencies.specs.Columned.{UsedIn};
ghost use Rattle.settling.specs.Columned.{StandingIn};
ghost use Rattle.evaluator.specs.Columned.{HasRows, SweptIn, marked_words};
ghost use Rattle.verdict.specs.Lists.{written};
ghost use Rattle.formula.specs.Plain.{table_of};

mod marked;

use dependencies::prepared::PreparedClaim;
use dependencies::{find_tops, find_users, used_actions};
use edges::sparse_or_dense;
use forming::columns::{ClaimColumns, ModelWords};
use marked::MarkedModel;
use settling::eval_entry;
use successors::{SuccessorTable, row_words};

// Every entry, from the highest down: its free names lie above it and are settled.
fn eval_all(
    prepared: &PreparedClaim,
    model: &ModelWords,
    words: &mut [u64; 256],
    done: &mut [u64; 4],
)
    requires { StandingIn prepared.now.claim model.now words.old done.old }
    ensures { SweptIn prepared.now.claim model.now 0 words.new done.new }
{
    for e in (0..prepared.claim.kinds.len()).rev() {
        eval_entry(prepared, model, words, done, e);
    }
}

// The word of every entry, from the rows of the claim's actions.
fn fill_words(claim: &ClaimColumns, model: &ModelWords, words: &mut [u64])
    requires { (length words.old ≡ length claim.now.kinds.now) × HasRows claim.now model.now }
    ensures { words.new ≡ entryWords (row_model model.now.masks.now model.now.rows.now model.now.size) (claim_table claim.now) }
{
    let tops = find_tops(claim);
    let mut users = [0u64; 1024];
    find_users(claim, &mut users);
    let prepared = PreparedClaim {
        claim: *claim,
        tops: &tops,
        users: &users,
    };
    let mut done = [0u64; 4];
    let mut found = [0u64; 256];
    eval_all(&prepared, model, &mut found, &mut done);
    words.copy_from_slice(&found[..words.len()]);
}

// By action 0 alone, or by none: the rows have a table of their own size.
fn fill_by_one(claim: &ClaimColumns, model: &MarkedModel, used: u16, words: &mut [u64])
    requires { (length words.old ≡ length claim.now.kinds.now) ×
        UsedIn claim.now used × (used < 2) }
    ensures { words.new ≡ marked_words model.now (claim_table claim.now) }
{
    let mut rows = [0u64; 64];
    row_words(&model.table, used, &mut rows);
    let rowed = ModelWords {
        rows: &rows,
        masks: model.masks,
        size: model.table.n,
    };
    fill_words(claim, &rowed, words);
}

// By any actions.
fn fill_by_many(claim: &ClaimColumns, model: &MarkedModel, used: u16, words: &mut [u64])
    requires { (length words.old ≡ length claim.now.kinds.now) ×
        UsedIn claim.now used }
    ensures { words.new ≡ marked_words model.now (claim_table claim.now) }
{
    let mut rows = [0u64; 1024];
    sparse_or_dense(&model.table, used, model.bytes, &mut rows);
    let rowed = ModelWords {
        rows: &rows,
        masks: model.masks,
        size: model.table.n,
    };
    fill_words(claim, &rowed, words);
}

// The word of every entry, from nothing.
fn fill_all(claim: &ClaimColumns, model: &MarkedModel, words: &mut [u64])
    requires { length words.old ≡ length claim.now.kinds.now }
    ensures { words.new ≡ marked_words model.now (claim_table claim.now) }
{
    let used = used_actions(claim.kinds, claim.b);
    if used < 2 {
        fill_by_one(claim, model, used, words);
    } else {
        fill_by_many(claim, model, used, words);
    }
}

// The word of every entry of a claim in a model: one for each entry, bit s for state s and all bits past the last state zero. No further
// word is touched.
pub fn evaluate(
    kinds: &[u8],
    a: &[u16],
    b: &[u16],
    count: usize,
    masks: &[u32; 64],
    marks: [[u16; 64]; 64],
    model_bytes: usize,
    size: usize,
    words: &mut [u64],
)
    requires given { Given kinds.now a.now b.now count words.old }
    requires size_bound { size ≤ 64 }
    ensures { words.new ≡ written (words_in masks.now marks size
        (table_of kinds.now a.now b.now count)) words.old }
{
    let claim = ClaimColumns {
        kinds: &kinds[..count],
        a: &a[..count],
        b: &b[..count],
    };
    let model = MarkedModel {
        masks,
        table: SuccessorTable {
            marks: &marks,
            n: size,
        },
        bytes: model_bytes,
    };
    fill_all(&claim, &model, &mut words[..count]);
}
