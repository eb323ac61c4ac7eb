// An entry settled with what it reads: entry evaluation and fixpoint iteration, which call each other. Why the iteration is right is in
// the crate blocks (specs/Iteration and specs/Gathering).
#![tactic(auto)]

ghost use Rattle.std.specs.Prelude.{◌<◌, length, get_or};
ghost use Rattle.settling.specs.Columned.{StandingIn, KnownIn, EvaluatedIn};

use bits::wide;
use blocks::{begin, grow, settle_entry, start_word, turn};
use dependencies::needs_rounds;
use dependencies::prepared::PreparedClaim;
use entry_sets::{has, join, lowest, remove};
use forming::columns::ModelWords;
use formula::Kind;

// Settles an entry whose free names are settled.
#[cycle(eval_entry_iterate)]
pub fn eval_entry(
    prepared: &PreparedClaim,
    model: &ModelWords,
    words: &mut [u64; 256],
    done: &mut [u64; 4],
    e: usize,
)
    requires standing { StandingIn prepared.now.claim model.now words.old done.old }
    requires e_in_bounds { (e < length prepared.now.claim.kinds.now) × KnownIn prepared.now.claim done.old e }
    ensures { EvaluatedIn prepared.now.claim model.now e done.old words.new done.new }
{
    if has(done, e) {
        return;
    }
    if needs_rounds(prepared, e) {
        iterate(prepared, model, words, done, e);
        return;
    }
    let claim = &prepared.claim;
    let kind = claim.kinds[e];
    if kind < Kind::OR {
        settle_entry(claim, model, words, done, e);
        return;
    }
    if kind == Kind::NAME {
        settle_entry(claim, model, words, done, e);
        return;
    }
    eval_entry(prepared, model, words, done, wide(claim.a[e]));
    if kind < Kind::DIAMOND {
        eval_entry(prepared, model, words, done, wide(claim.b[e]));
        settle_entry(claim, model, words, done, e);
        return;
    }
    settle_entry(claim, model, words, done, e);
}

// Settles a fixpoint whose free names are settled, with its block: itself, and what is reached from it by operands that have a free name
// and are not settled. Whatever is met and has no free name is evaluated. Then the block's words go from the start until each is formed
// of the others, in at most b * (s * b + 1) turns for a block of b entries over s states: the second loop's measure begins no higher and
// falls with each (blocks/specs/Turn: ahead_most, iterating_nearer).
#[cycle(eval_entry_iterate)]
fn iterate(
    prepared: &PreparedClaim,
    model: &ModelWords,
    words: &mut [u64; 256],
    done: &mut [u64; 4],
    x: usize,
)
    requires standing { StandingIn prepared.now.claim model.now words.old done.old }
    requires x_in_bounds { (x < length prepared.now.claim.kinds.now) × KnownIn prepared.now.claim done.old x ×
        (7 < get_or prepared.now.claim.kinds.now x 0) × (get_or prepared.now.claim.kinds.now x 0 < 10) }
    ensures { EvaluatedIn prepared.now.claim model.now x done.old words.new done.new }
{
    let claim = &prepared.claim;
    let mut block = [0u64; 4];
    let mut met = [0u64; 4];
    grow(claim, done, &mut block, &mut met, x);
    let mut c = lowest(&met);
    while c < 256 {
        remove(&mut met, c);
        if prepared.tops[c] != 0 {
            grow(claim, done, &mut block, &mut met, c);
        } else {
            if needs_rounds(prepared, c) {
                iterate(prepared, model, words, done, c);
            } else {
                eval_entry(prepared, model, words, done, c);
            }
        }
        c = lowest(&met);
    }
    begin(words, &block, start_word(claim.kinds[x], model.size));
    let mut waiting = block;
    let mut e = lowest(&waiting);
    while e < 256 {
        turn(prepared, model, words, &block, &mut waiting, e);
        e = lowest(&waiting);
    }
    join(done, &block);
}
