// What a rule makes of a node's principal: whether it is a formula, and the side with a member more.
ghost use Rattle.std.specs.Prelude.{◌≡◌, List, ◌∷◌, ℕ, ◌<◌, length, get_or};
ghost use Rattle.verdict.specs.Tests.{same as sameSet};
ghost use Rattle.sequents.specs.CodeSet.{Holds, inserted};
ghost use Rattle.sequents.specs.Keys.{formula_at};

use super::sets::entry_of;
use formula::{EntryColumns, Kind};

// Whether a code is of an entry that is no name: no other may be a principal, whatever formula it has (T-03: "a name or out of range still
// gets 37").
pub fn is_formula(table: &EntryColumns, code: u16) -> bool
    ensures { result ≡ formula_at table.now.kinds.now table.now.count code }
{
    let entry = entry_of(code);
    entry < table.count && table.kinds[entry] != Kind::NAME
}

// Word i of a set with a code more.
fn word_plus(set: &[u64; 8], code: u16, i: usize) -> u64
    requires { (code < 512) × (i < 8) }
    ensures { length set.now ≡ 8 → result ≡ get_or (inserted set.now code) i 0 }
{
    let place = code as usize;
    if place / 64 == i {
        set[i] | (1u64 << (place % 64))
    } else {
        set[i]
    }
}

// Whether a child's sequent is the side (document 01's term: the sequent without the principal) with a code more.
pub fn is_side_plus(side: &[u64; 8], code: u16, child: &[u64; 8]) -> bool
    requires { code < 512 }
    ensures { (s m : List ℕ) → Holds side.now s → Holds child.now m → result ≡ sameSet m (code ∷ s) }
{
    (0..8).all(|i| child[i] == word_plus(side, code, i))
}
