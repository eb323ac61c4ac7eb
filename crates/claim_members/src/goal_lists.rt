// The goals of a claim file: their count, which CLM2 alone writes (72), and the members of each, stored one after the other.
ghost use Rattle.std.specs.Prelude.{◌≡◌, ◌+◌, ◌*◌, ◌≤◌, length};
ghost use Rattle.encoding.specs.Places.{InFile};
ghost use Rattle.file_parts.specs.Numbers.{NumberTells};
ghost use Rattle.file_parts.specs.Parts.{PartTells};
ghost use Rattle.formula.specs.NamedForm.{form_by};
ghost use Rattle.claim_members.specs.GoalColumns.{GoalsStored};
ghost use Rattle.claim_members.specs.ClaimGoals.{goal_count_at, goals_from, goals_at};

use super::read_members;
use claim_files::ClaimFault;
use encoding::{Parsed, Read};
use file_parts::count_at;

// Two bytes, the goal count (0 to 16); where there is one goal, nothing.
fn goal_count(bytes: &[u8], at: usize, several: bool) -> Parsed<u16>
    requires { InFile bytes.now 1542 at }
    ensures { NumberTells bytes.now (at + 2) (goal_count_at (form_by several) bytes.now at) result }
{
    if several {
        return count_at(
            bytes,
            at,
            0,
            16,
            ClaimFault::Goals as u16,
            ClaimFault::Length as u16,
        );
    }
    Ok(Read { value: 1, next: at })
}

// The members of each goal follow those of the one before.
fn store_goals(
    bytes: &[u8],
    from: usize,
    count: usize,
    kinds: &[u8; 256],
    entries: usize,
    starts: &mut [u16; 17],
    members: &mut [u16; 384],
) -> Parsed<usize>
    requires starts_len { (length starts.old ≡ 17) × (length members.old ≡ 384) × (entries ≤ 256) }
    requires in_file { (InFile bytes.now 1544 from) × (count ≤ 16) }
    ensures { PartTells bytes.now (from + 50 * count) 16 (goals_from kinds.now entries count bytes.now from)
        (GoalsStored starts.new members.new) result }
{
    starts[0] = 0;
    let mut at = from;
    let mut start = 0;
    for i in 0..count {
        let listed = read_members(bytes, at, kinds, entries, members, start)?;
        start += listed.value;
        at = listed.next;
        starts[i + 1] = start as u16;
    }
    Ok(Read {
        value: count,
        next: at,
    })
}

// The goals from a place on. The members of goal i stand from its start up to the next goal's.
pub fn read_goals(
    bytes: &[u8],
    at: usize,
    several: bool,
    kinds: &[u8; 256],
    entries: usize,
    starts: &mut [u16; 17],
    members: &mut [u16; 384],
) -> Parsed<usize>
    requires starts_len { (length starts.old ≡ 17) × (length members.old ≡ 384) × (entries ≤ 256) }
    requires in_file { InFile bytes.now 1542 at }
    ensures { PartTells bytes.now 2344 16 (goals_at (form_by several) kinds.now entries bytes.now at)
        (GoalsStored starts.new members.new) result }
{
    let count = goal_count(bytes, at, several)?;
    store_goals(
        bytes,
        count.next,
        count.value as usize,
        kinds,
        entries,
        starts,
        members,
    )
}
