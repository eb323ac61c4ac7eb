// Rules 0 and 1, the axioms, which no child follows.
#![tactic(auto)]

ghost use Rattle.std.specs.Prelude.{◌≡◌, List, ℕ, ◌<◌};
ghost use Rattle.verdict.specs.Tests.{all};
ghost use Rattle.formula.specs.Plain.{table_of};
ghost use Rattle.formula.specs.Codes.{entry_of_lem};
ghost use Rattle.sequents.specs.Keys.{keys_of};
ghost use Rattle.axioms.specs.AxiomParts.{first_other, one_of};
ghost use Rattle.sequents.specs.Placed.{Entries};
ghost use Rattle.sequents.specs.Columned.{PlacedIn, codes_in};
ghost use Rattle.sequents.specs.Part.{Fit};
ghost use Rattle.calculus.specs.Judge.{opposite as Opposite, clash as Clash, truth as Truth};

use formula::{EntryColumns, Kind, NodeColumns};
use sequents::numbered::NumberedTable;
use sequents::sets::{codes_of, entry_of};

// Whether one member is a letter and the other its negation.
fn opposite(table: &EntryColumns, plain: u16, negated: u16) -> bool
    requires { (plain < 512) × (negated < 512) }
    ensures { (ys : List ℕ) (n : ℕ) → entry_of_lem plain < n → entry_of_lem negated < n → result ≡ Opposite
        (table_of table.now.kinds.now table.now.a.now ys n) plain negated }
{
    let kinds = table.kinds;
    let a = table.a;
    let x = entry_of(plain);
    let y = entry_of(negated);
    kinds[x] == Kind::LETTER && kinds[y] == Kind::NEGATED && a[x] == a[y]
}

// The first place of the list whose member is another than one, else the end.
fn other_member(table: &NumberedTable, codes: &[u16], one: u16) -> usize
    requires { Fit codes.now }
    ensures { result ≡ first_other one (keys_of table.now.canon.now codes.now) }
{
    for i in 0..codes.len() {
        if table.key_of(codes[i]) != one {
            return i;
        }
    }
    codes.len()
}

// Whether a member is one of two.
fn one_of(member: u16, x: u16, y: u16) -> bool
    ensures { result ≡ one_of x y member }
{
    member == x || member == y
}

// Whether every member is.
fn only(table: &NumberedTable, codes: &[u16], x: u16, y: u16) -> bool
    requires { Fit codes.now }
    ensures { result ≡ all (one_of x y) (keys_of table.now.canon.now codes.now) }
{
    codes.iter().all(|&code| one_of(table.key_of(code), x, y))
}

// Whether members are exactly a letter and its negation, either focus: two entries of one letter and one focus are one member.
fn clash(table: &NumberedTable, codes: &[u16]) -> bool
    requires { Fit codes.now }
    ensures { (ys : List ℕ) (n : ℕ) → Entries n (keys_of table.now.canon.now codes.now) → result ≡ Clash
        (table_of table.now.columns.kinds.now table.now.columns.a.now ys n) (keys_of table.now.canon.now codes.now) }
{
    if codes.len() < 2 {
        return false;
    }
    let x = table.key_of(codes[0]);
    let other = other_member(table, codes, x);
    if other == codes.len() {
        return false;
    }
    let y = table.key_of(codes[other]);
    only(table, codes, x, y) && (opposite(&table.columns, x, y) || opposite(&table.columns, y, x))
}

// Whether they are exactly one member, true.
fn truth(table: &NumberedTable, codes: &[u16]) -> bool
    requires { Fit codes.now }
    ensures { (xs ys : List ℕ) (n : ℕ) → Entries n (keys_of table.now.canon.now codes.now) → result ≡ Truth
        (table_of table.now.columns.kinds.now xs ys n) (keys_of table.now.canon.now codes.now) }
{
    if codes.is_empty() {
        return false;
    }
    let x = table.key_of(codes[0]);
    table.columns.kinds[entry_of(x)] == Kind::TRUE && only(table, codes, x, x)
}

// 0 Ax1: exactly a letter and its negation, either focus, no child.
pub fn ax1_kept(table: &NumberedTable, proof: &NodeColumns, v: usize) -> bool
    requires { PlacedIn proof.now v }
    ensures { (ys : List ℕ) (n : ℕ) → Entries n (keys_of table.now.canon.now (codes_in proof.now v)) → result ≡ Clash
        (table_of table.now.columns.kinds.now table.now.columns.a.now ys n) (keys_of table.now.canon.now (codes_in proof.now v)) }
{
    clash(table, codes_of(proof, v))
}

// 1 Ax2: exactly one member, true.
pub fn ax2_kept(table: &NumberedTable, proof: &NodeColumns, v: usize) -> bool
    requires { PlacedIn proof.now v }
    ensures { (xs ys : List ℕ) (n : ℕ) → Entries n (keys_of table.now.canon.now (codes_in proof.now v)) → result ≡ Truth
        (table_of table.now.columns.kinds.now xs ys n) (keys_of table.now.canon.now (codes_in proof.now v)) }
{
    truth(table, codes_of(proof, v))
}
