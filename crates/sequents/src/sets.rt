// A sequent as a set of members: 512 bits in eight words, the member with the key c as bit c % 64 of word c / 64. A key is 2 × the number of the
// member's formula + its focus (numbered.rt).
// A set is filled where it stands and never copied: a copy reads two words at once, and waits for the stores of one word that filled them.
ghost use Rattle.std.specs.Prelude.{◌≡◌, List, [], ◌∷◌, ℕ, ◌<◌};
ghost use Rattle.verdict.specs.Tests.{member, same as sameSet, remove, each};
ghost use Rattle.formula.specs.Codes.{code as code_of, entry_of_lem};
ghost use Rattle.formula.specs.Table.{Table};
ghost use Rattle.formula.specs.PlainNodes.{codes_at_lem, proof_of};
ghost use Rattle.sequents.specs.CodeSet.{Holds};
ghost use Rattle.sequents.specs.Part.{part, Fit};
ghost use Rattle.sequents.specs.Keys.{Narrow, key_at, keys_of, in_focus, RootOver};
ghost use Rattle.sequents.specs.Placed.{Placed, Members};
ghost use Rattle.sequents.specs.Columned.{PlacedIn, codes_in};
ghost use Rattle.calculus.specs.View.{plain};
ghost use Rattle.calculus.specs.Judge.{states};

use super::numbered::NumberedTable;
use bits::wide;
use formula::NodeColumns;

// A code more, in place.
pub fn put(set: &mut [u64; 8], code: u16)
    requires { code < 512 }
    ensures { (l : List ℕ) → Holds set.old l → Holds set.new (code ∷ l) }
{
    let place = code as usize;
    let word = place / 64;
    set[word] |= 1u64 << (place % 64);
}

// A code less, in place.
pub fn take(set: &mut [u64; 8], code: u16)
    requires { code < 512 }
    ensures { (l : List ℕ) → Holds set.old l → Holds set.new (remove code l) }
{
    let place = code as usize;
    let word = place / 64;
    let old = set[word];
    set[word] = old ^ (old & (1u64 << (place % 64)));
}

// Whether a code is in the set; one of 512 or more is in none.
pub fn has(set: &[u64; 8], code: u16) -> bool
    ensures { (l : List ℕ) → Holds set.now l → result ≡ member l code }
{
    let place = code as usize;
    place < 512 && (set[place / 64] >> (place % 64)) & 1 == 1
}

// Whether two sets are the same.
pub fn same(x: &[u64; 8], y: &[u64; 8]) -> bool
    ensures { (l m : List ℕ) → Holds x.now l → Holds y.now m → result ≡ sameSet l m }
{
    x == y
}

// The entry of a code, as an index.
pub fn entry_of(code: u16) -> usize
    ensures { result ≡ entry_of_lem code }
{
    (code / 2) as usize
}

// 2 × entry + focus.
pub fn code_of(entry: u16, focus: u16) -> u16
    requires { (entry < 256) × (focus < 2) }
    ensures { (result < 512) × (result ≡ code_of entry focus) }
{
    2 * entry + focus
}

// The member that an entry is with a focus, by the number of its formula.
pub fn key(canon: &[u16; 256], entry: usize, focus: u16) -> u16
    requires { Narrow canon.now × (entry < 256) × (focus < 2) }
    ensures { (result < 512) × (result ≡ key_at canon.now entry focus) }
{
    code_of(canon[entry], focus)
}

// The members that codes stand for, into a set that has none.
pub fn put_part(set: &mut [u64; 8], table: &NumberedTable, codes: &[u16])
    requires { Fit codes.now × Holds set.old [] }
    ensures { Holds set.new (keys_of table.now.canon.now codes.now) }
{
    for i in (0..codes.len()).rev() {
        put(set, table.key_of(codes[i]));
    }
}

// The codes from node v's start up to the next node's.
fn codes_at<'a>(starts: &[u16], codes: &'a [u16], v: usize) -> &'a [u16]
    requires { Placed starts.now codes.now v }
    ensures { result.now ≡ codes_at_lem starts.now codes.now v }
{
    &codes[wide(starts[v])..wide(starts[v + 1])]
}

// The codes of node v.
pub fn codes_of<'a>(proof: &NodeColumns<'a>, v: usize) -> &'a [u16]
    requires { PlacedIn proof.now v }
    ensures { result.now ≡ codes_in proof.now v }
{
    codes_at(proof.starts, proof.codes, v)
}

// The sequent of node v, into a set that has none.
pub fn put_sequent(set: &mut [u64; 8], table: &NumberedTable, proof: &NodeColumns, v: usize)
    requires { PlacedIn proof.now v × Holds set.old [] }
    ensures { Holds set.new (keys_of table.now.canon.now (codes_in proof.now v)) }
{
    put_part(set, table, codes_of(proof, v));
}

// Whether nodes v and w have the same sequent, as a back leaf and its companion have.
pub fn same_sequent(table: &NumberedTable, proof: &NodeColumns, v: usize, w: usize) -> bool
    requires { PlacedIn proof.now v × PlacedIn proof.now w }
    ensures { result ≡ sameSet (keys_of table.now.canon.now (codes_in proof.now v)) (keys_of table.now.canon.now (codes_in proof.now w)) }
{
    let mut here = [0u64; 8];
    put_sequent(&mut here, table, proof, v);
    let mut there = [0u64; 8];
    put_sequent(&mut there, table, proof, w);
    same(&here, &there)
}

// A goal's members, from one place up to another, all in focus, into a set that has none.
pub fn put_goal(set: &mut [u64; 8], canon: &[u16; 256], members: &[u16], from: usize, to: usize)
    requires { Narrow canon.now × Members 256 members.now from to × Holds set.old [] }
    ensures { Holds set.new (each (in_focus canon.now) (part members.now from to)) }
{
    for i in (from..to).rev() {
        put(set, key(canon, wide(members[i]), 1));
    }
}

// Whether a root's members are its goal's, all in focus (refusal 36).
pub fn root_is_goal(
    table: &NumberedTable,
    members: &[u16; 384],
    from: usize,
    to: usize,
    starts: &[u16],
    codes: &[u16],
    root: usize,
) -> bool
    requires { Members 256 members.now from to × Placed starts.now codes.now root }
    ensures { (t : Table) → RootOver t table.now.canon.now (part members.now from to) (codes_at_lem starts.now codes.now root) →
        (rs ls : List ℕ) (n : ℕ) → root < n → result ≡ states t (plain (proof_of rs ls starts.now codes.now n)) root (part members.now from to) }
{
    let mut found = [0u64; 8];
    put_part(&mut found, table, codes_at(starts, codes, root));
    let mut claimed = [0u64; 8];
    put_goal(&mut claimed, table.canon, members, from, to);
    same(&found, &claimed)
}
