// A fixpoint's block: gathered from what its entries read, and iterated until each word is formed of the others.
#![tactic(auto)]

ghost use Rattle.std.specs.Prelude.{◌≡◌, ◌<◌, ◌≤◌, length, get_or, set};
ghost use Rattle.bits.specs.WordSet.{in_set};
ghost use Rattle.entry_sets.specs.Sets.{Inserted};
ghost use Rattle.forming.specs.Columned.{claim_table, ReadyIn, formed_in};
ghost use Rattle.blocks.specs.Gathering.{Grown};
ghost use Rattle.blocks.specs.Growing.{Meets};
ghost use Rattle.blocks.specs.Waking.{Woken};
ghost use Rattle.blocks.specs.Turn.{start_word_lem, Begun};
ghost use Rattle.blocks.specs.Columned.{TurnedIn};

use bits::wide;
use dependencies::prepared::PreparedClaim;
use entry_sets::{has, insert, lowest, remove};
use forming::columns::{ClaimColumns, ModelWords};
use forming::formed;
use formula::Kind;
use letters::all_states;

// Where the iteration of a fixpoint of a kind starts: mu at no state, nu at all.
pub fn start_word(kind: u8, size: usize) -> u64
    requires { size ≤ 64 }
    ensures { result ≡ start_word_lem size kind }
{
    if kind == Kind::MU {
        0
    } else {
        all_states(size)
    }
}

// An entry that is neither settled nor in the block is met.
fn meet(done: &[u64; 4], block: &[u64; 4], met: &mut [u64; 4], c: usize)
    requires { (c < 256) × (length met.old ≡ 4) }
    ensures { Meets done.now block.now met.old c met.new }
{
    if !has(done, c) && !has(block, c) {
        insert(met, c);
    }
}

// An entry that is no leaf joins the block, and its operands are met.
pub fn grow(
    claim: &ClaimColumns,
    done: &[u64; 4],
    block: &mut [u64; 4],
    met: &mut [u64; 4],
    e: usize,
)
    requires { (e < length claim.now.kinds.now) × (3 < get_or claim.now.kinds.now e 0) × (length block.old ≡ 4) × (length met.old ≡ 4) }
    ensures { (length block.new ≡ length block.old) × (length met.new ≡ length met.old) × Grown
        (claim_table claim.now) (in_set done.now) (in_set block.old) (in_set met.old) e
        (in_set block.new) (in_set met.new) }
{
    insert(block, e);
    let kind = claim.kinds[e];
    if kind == Kind::NAME {
        return;
    }
    meet(done, block, met, wide(claim.a[e]));
    if kind < Kind::DIAMOND {
        meet(done, block, met, wide(claim.b[e]));
    }
}

// Every word of the block at the start.
pub fn begin(words: &mut [u64; 256], block: &[u64; 4], start: u64)
    requires { (length words.old ≡ 256) × (length block.now ≡ 4) }
    ensures { Begun block.now start words.old words.new }
{
    let mut left = *block;
    let mut e = lowest(&left);
    while e < 256 {
        remove(&mut left, e);
        words[e] = start;
        e = lowest(&left);
    }
}

// Those of the block that read an entry's word wait to be formed.
fn wake(users: &[u64; 1024], block: &[u64; 4], e: usize, waiting: &mut [u64; 4])
    requires { (e < 256) × (length waiting.old ≡ 4) }
    ensures { Woken users.now block.now e waiting.old waiting.new }
{
    for i in 0..4 {
        waiting[i] |= users[4 * e + i] & block[i];
    }
}

// The turn of one entry that waits: it is formed, and if its word changed its readers wait.
pub fn turn(
    prepared: &PreparedClaim,
    model: &ModelWords,
    words: &mut [u64; 256],
    block: &[u64; 4],
    waiting: &mut [u64; 4],
    e: usize,
)
    requires ready { ReadyIn prepared.now.claim model.now words.old }
    requires e_in_bounds { (e < length prepared.now.claim.kinds.now) × (length waiting.old ≡ 4) }
    ensures { TurnedIn prepared.now model.now block.now e words.old waiting.old words.new waiting.new }
{
    remove(waiting, e);
    let w = formed(&prepared.claim, model, words, e);
    if w == words[e] {
        return;
    }
    words[e] = w;
    wake(prepared.users, block, e, waiting);
}

// An entry that reads only what is settled.
pub fn settle_entry(
    claim: &ClaimColumns,
    model: &ModelWords,
    words: &mut [u64; 256],
    done: &mut [u64; 4],
    e: usize,
)
    requires ready { ReadyIn claim.now model.now words.old }
    requires e_in_bounds { (e < length claim.now.kinds.now) × (length done.old ≡ 4) }
    ensures words_after { words.new ≡ set words.old e (formed_in claim.now model.now words.old e) }
    ensures inserted { Inserted done.old e done.new }
{
    words[e] = formed(claim, model, words, e);
    insert(done, e);
}
