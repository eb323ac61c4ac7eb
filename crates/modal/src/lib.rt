// Rule 4, the box step.
#![tactic(auto)]

ghost use Rattle.std.specs.Prelude.{◌≡◌, List, [], ℕ, ◌<◌, get_or};
ghost use Rattle.verdict.specs.Sets.{elements};
ghost use Rattle.verdict.specs.Tests.{all, each};
ghost use Rattle.formula.specs.Plain.{table_of};
ghost use Rattle.formula.specs.Codes.{entry_of_lem};
ghost use Rattle.sequents.specs.CodeSet.{Holds};
ghost use Rattle.sequents.specs.Placed.{Formulas, Within, ChildOf};
ghost use Rattle.sequents.specs.Columned.{numbered, CodedIn};
ghost use Rattle.sequents.specs.Part.{Fit};
ghost use Rattle.modal.specs.BoxLaws.{boxed as Boxed, stepped_key, Modal};
ghost use Rattle.calculus.specs.Judge.{box_kept_lem as BoxKept};

use formula::Kind;
use sequents::numbered::NumberedTable;
use sequents::sets::{entry_of, put, same};

// Whether a member of a box step is the principal, under whatever entry, or a diamond of its action.
fn boxed(table: &NumberedTable, principal: u16, action: u16, code: u16) -> bool
    requires { code < 512 }
    ensures { result ≡ Boxed table.now.columns.kinds.now table.now.columns.b.now table.now.canon.now principal action code }
{
    let entry = entry_of(code);
    table.key_of(code) == principal
        || (table.columns.kinds[entry] == Kind::DIAMOND && table.columns.b[entry] == action)
}

// Whether all members are; the principal is given by its key and its action.
fn all_boxed(table: &NumberedTable, principal: u16, action: u16, codes: &[u16]) -> bool
    requires { Fit codes.now }
    ensures { result ≡ all (Boxed table.now.columns.kinds.now table.now.columns.b.now table.now.canon.now principal action) codes.now }
{
    codes
        .iter()
        .all(|&code| boxed(table, principal, action, code))
}

// The targets of modal members, each with its focus, into a set that has none.
fn put_targets(set: &mut [u64; 8], table: &NumberedTable, codes: &[u16])
    requires { Fit codes.now × ((c : ℕ) → elements codes.now c → Within table.now.columns.kinds.now table.now.columns.a.now
        (get_or table.now.columns.a.now (entry_of_lem c) 0)) × Holds set.old [] }
    ensures { (ys : List ℕ) (n : ℕ) → ((c : ℕ) → elements codes.now c → Modal table.now.columns.kinds.now table.now.columns.a.now ys n c) →
        Holds set.new (each (stepped_key table.now.canon.now (table_of table.now.columns.kinds.now table.now.columns.a.now ys n)) codes.now) }
{
    for i in (0..codes.len()).rev() {
        let code = codes[i];
        put(set, table.operand_key(table.columns.a, code, code % 2));
    }
}

// 4 box: the principal is a box, all others are diamonds of its action; the child has the targets of all.
pub fn box_kept(table: &NumberedTable, principal: u16, codes: &[u16], child: &[u64; 8]) -> bool
    requires { CodedIn table.now principal × Fit codes.now × Formulas (numbered table.now) codes.now }
    ensures { ChildOf (numbered table.now) principal codes.now child.now (λ t q. result ≡ BoxKept t q 0) }
{
    let entry = entry_of(principal);
    if table.columns.kinds[entry] != Kind::BOX {
        return false;
    }
    let key = table.key_of(principal);
    if !all_boxed(table, key, table.columns.b[entry], codes) {
        return false;
    }
    let mut asked = [0u64; 8];
    put_targets(&mut asked, table, codes);
    same(child, &asked)
}
