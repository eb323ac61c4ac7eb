// An entry table with the number of each formula, and its members: a key is 2 × the number of the member's formula + its focus. `canon` has
// for each entry the number of its formula, the least entry with it that is no name (crate numbers).
ghost use Rattle.std.specs.Prelude.{◌≡◌, List, ℕ, ◌<◌, get_or};
ghost use Rattle.formula.specs.Columned.{entries};
ghost use Rattle.formula.specs.Plain.{table_of};
ghost use Rattle.formula.specs.Target.{target as target_of};
ghost use Rattle.formula.specs.Codes.{entry_of_lem};
ghost use Rattle.sequents.specs.Keys.{Numbers, key_at, key_of_lem};
ghost use Rattle.sequents.specs.Placed.{Within};

use super::sets::{entry_of, key};
use formula::{EntryColumns, target};

#[derive(Clone, Copy)]
pub struct NumberedTable<'a> {
    pub columns: EntryColumns<'a>,
    pub canon: &'a [u16; 256],
    pub ghost numbers: { Numbers (entries columns) canon.now },
}

impl<'a> NumberedTable<'a> {
    // The member that a code stands for: members are compared by formula, and two codes of one formula and one focus are one member.
    pub fn key_of(&self, code: u16) -> u16
        requires { code < 512 }
        ensures { (result < 512) × (result ≡ key_of_lem self.now.canon.now code) }
    {
        key(self.canon, entry_of(code), code % 2)
    }

    // An operand's target as a member.
    fn target_key(&self, operand: u16, focus: u16) -> u16
        requires { Within self.now.columns.kinds.now self.now.columns.a.now operand × (focus < 2) }
        ensures { (result < 512) × ((ys : List ℕ) (n : ℕ) → operand < n → result ≡ key_at self.now.canon.now
            (target_of (table_of self.now.columns.kinds.now self.now.columns.a.now ys n) operand) focus) }
    {
        let place = target(self.columns.kinds, self.columns.a, operand);
        key(self.canon, place as usize, focus)
    }

    // The target of a member's operand, which stands in the column a or b, as a member.
    pub fn operand_key(&self, column: &[u16; 256], member: u16, focus: u16) -> u16
        requires { (member < 512) × Within self.now.columns.kinds.now self.now.columns.a.now (get_or column.now (entry_of_lem member) 0) × (focus < 2) }
        ensures { (result < 512) × ((ys : List ℕ) (n : ℕ) → get_or column.now (entry_of_lem member) 0 < n → result ≡ key_at self.now.canon.now
            (target_of (table_of self.now.columns.kinds.now self.now.columns.a.now ys n) (get_or column.now (entry_of_lem member) 0)) focus) }
    {
        self.target_key(column[entry_of(member)], focus)
    }
}
