// An entry's word formed of the words of others, one step. Why steps lead to own meanings is in specs/ (Settled).
#![tactic(auto)]

ghost use Rattle.std.specs.Prelude.{◌≡◌, ◌<◌, length};
ghost use Rattle.forming.specs.Ready.{leaf_word_lem};
ghost use Rattle.forming.specs.Columned.{ReadyIn, formed_in};

pub mod columns;

use bits::wide;
use columns::{ClaimColumns, ModelWords};
use formula::Kind;
use letters::{all_states, letter_word};
use modal_words::{box_word, diamond_word};

// Where false, true, a letter or a negated letter holds.
fn leaf_word(model: &ModelWords, kind: u8, p: u16) -> u64
    requires { (kind < 4) × (1 < kind → p < 32) }
    ensures { result ≡ leaf_word_lem model.now.masks.now model.now.size kind p }
{
    match kind {
        Kind::FALSE => 0,
        Kind::TRUE => all_states(model.size),
        Kind::LETTER => letter_word(model.masks, model.size, p, 1),
        _ => letter_word(model.masks, model.size, p, 0),
    }
}

// One step from the words as they stand; a fixpoint and a name read their body's and their fixpoint's, a box and a diamond the rows of their
// action too.
pub fn formed(claim: &ClaimColumns, model: &ModelWords, words: &[u64], e: usize) -> u64
    requires ready { ReadyIn claim.now model.now words.now }
    requires e_in_bounds { e < length claim.now.kinds.now }
    ensures { result ≡ formed_in claim.now model.now words.now e }
{
    let kind = claim.kinds[e];
    let p = claim.a[e];
    if kind < Kind::OR {
        return leaf_word(model, kind, p);
    }
    let x = words[wide(p)];
    // the second operand, or the action
    let q = wide(claim.b[e]);
    match kind {
        Kind::OR => x | words[q],
        Kind::AND => x & words[q],
        Kind::DIAMOND => diamond_word(&model.rows[64 * q..], model.size, x),
        Kind::BOX => box_word(&model.rows[64 * q..], model.size, x),
        _ => x,
    }
}
