// The members of a claim's goals: each at its place (14), their count (12), and their column. The goals, one after the other, are in `goals`.
#![tactic(auto)]

ghost use Rattle.std.specs.Prelude.{◌≡◌, ◌+◌, ◌*◌, ◌≤◌, length};
ghost use Rattle.encoding.specs.Places.{InFile};
ghost use Rattle.file_parts.specs.Numbers.{NumberTells};
ghost use Rattle.file_parts.specs.Parts.{PartTells};
ghost use Rattle.claim_members.specs.ClaimMembers.{may_follow_lem, member_at_lem, MembersStored, members_at, members_from};

use claim_files::ClaimFault;
use encoding::{Parsed, Read};
use file_parts::{count_at, two_at};
use formula::Kind;
use verdict::Fault;

pub mod goal_lists;

// Members rise strictly, lie in range and are no names.
pub fn may_follow(kinds: &[u8; 256], entries: usize, floor: usize, member: usize) -> bool
    requires { entries ≤ 256 }
    ensures { result ≡ may_follow_lem kinds.now entries floor member }
{
    floor <= member && member < entries && kinds[member] != Kind::NAME
}

// A member that may not stand there is refused at its own place.
fn member_at(
    bytes: &[u8],
    at: usize,
    kinds: &[u8; 256],
    entries: usize,
    floor: usize,
) -> Parsed<u16>
    requires { (InFile bytes.now 65500 at) × (entries ≤ 256) }
    ensures { NumberTells bytes.now (at + 2) (member_at_lem kinds.now entries floor bytes.now at) result }
{
    let member = two_at(bytes, at, ClaimFault::Length as u16)?;
    if !may_follow(kinds, entries, floor, member.value as usize) {
        return Err(ClaimFault::Member.at(at as u16));
    }
    Ok(member)
}

// The members are stored while they are read, from a start on.
fn store_members(
    bytes: &[u8],
    from: usize,
    count: usize,
    kinds: &[u8; 256],
    entries: usize,
    members: &mut [u16; 384],
    start: usize,
) -> Parsed<usize>
    requires members_len { (length members.old ≡ 384) × (start ≤ 360) × (entries ≤ 256) }
    requires in_file { (InFile bytes.now 2296 from) × (count ≤ 24) }
    ensures { PartTells bytes.now (from + 2 * count) 24 (members_from kinds.now entries count bytes.now from)
        (MembersStored start members.old members.new) result }
{
    let mut at = from;
    let mut floor = 0;
    for i in 0..count {
        let member = member_at(bytes, at, kinds, entries, floor)?;
        members[start + i] = member.value;
        floor = member.value as usize + 1;
        at = member.next;
    }
    Ok(Read {
        value: count,
        next: at,
    })
}

// Two bytes, the member count (1 to 24); the members. They are stored from a start on.
pub fn read_members(
    bytes: &[u8],
    at: usize,
    kinds: &[u8; 256],
    entries: usize,
    members: &mut [u16; 384],
    start: usize,
) -> Parsed<usize>
    requires members_len { (length members.old ≡ 384) × (start ≤ 360) × (entries ≤ 256) }
    requires in_file { InFile bytes.now 2294 at }
    ensures { PartTells bytes.now (at + 50) 24 (members_at kinds.now entries bytes.now at)
        (MembersStored start members.old members.new) result }
{
    let count = count_at(
        bytes,
        at,
        1,
        24,
        ClaimFault::Count as u16,
        ClaimFault::Length as u16,
    )?;
    store_members(
        bytes,
        count.next,
        count.value as usize,
        kinds,
        entries,
        members,
        start,
    )
}
