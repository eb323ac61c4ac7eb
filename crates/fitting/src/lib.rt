// 73: whether two claims have the same entries, and whether their goals fit at an entry "A and B"; the members of the joined goal. Formulas are
// compared by their numbers (crate numbers), in sets.
#![tactic(auto)]

ghost use Rattle.std.specs.Prelude.{◌≡◌, List, true, ℕ, ◌+◌, ◌<◌, ◌≤◌, length, take};
ghost use Rattle.verdict.specs.Lists.{Rising, written};
ghost use Rattle.verdict.specs.Tests.{member};
ghost use Rattle.formula.specs.Plain.{table_of};
ghost use Rattle.formula.specs.Columned.{entries};
ghost use Rattle.sequents.specs.Columned.{numbered};
ghost use Rattle.sequents.specs.CodeSet.{Holds};
ghost use Rattle.sequents.specs.Keys.{Narrow, in_focus};
ghost use Rattle.sequents.specs.Part.{part};
ghost use Rattle.sequents.specs.Placed.{Members};
ghost use Rattle.joining.specs.FitTest.{same_entries_lem};
ghost use Rattle.joining.specs.Goals as goals;
ghost use Rattle.fitting.specs.Sifting.{Sifted};
ghost use Rattle.fitting.specs.Fitting.{IsAnd, Goals, RestHeld, rest_fits_lem, Fitted};

use bits::wide;
use formula::{EntryColumns, Kind};
use operand_rules::and_kept;
use sequents::numbered::NumberedTable;
use sequents::sets::{code_of, has, key, put_goal};

// Whether two claims have the same entries, record by record. The second may have any count: only equal counts are compared further.
pub fn same_entries(
    table: &EntryColumns,
    other_kinds: &[u8; 256],
    other_a: &[u16; 256],
    other_b: &[u16; 256],
    other_count: usize,
) -> bool
    ensures { result ≡ same_entries_lem (entries table.now) (table_of other_kinds.now other_a.now other_b.now other_count) }
{
    let EntryColumns {
        kinds,
        a,
        b,
        count,
        ..
    } = *table;
    count == other_count
        && kinds[..count] == other_kinds[..count]
        && a[..count] == other_a[..count]
        && b[..count] == other_b[..count]
}

// The rest: the members of the first goal, under their numbers, whose formula the second goal holds too. How many there are.
fn find_rest(
    canon: &[u16; 256],
    members: &[u16],
    from: usize,
    to: usize,
    second: &[u64; 8],
    rest: &mut [u16; 24],
) -> usize
    requires { Narrow canon.now × Members 256 members.now from to × (to ≤ from + 24) × (length rest.old ≡ 24) }
    ensures { (l : List ℕ) → Holds second.now l → Sifted (λ e. member l (in_focus canon.now e))
        (part members.now from to) rest.old result rest.new }
{
    let mut found: usize = 0;
    for i in from..to {
        let member = members[i];
        if has(second, key(canon, wide(member), 1)) {
            rest[found] = member;
            found += 1;
        }
    }
    found
}

// The entry in its place among members that rise: each that is larger moves up by one.
fn enter(entry: u16, members: &mut [u16; 24], count: usize)
    requires { (length members.old ≡ 24) × (count < 24) × Rising (take count members.old) }
    ensures { members.new ≡ written (goals.enter entry (take count members.old)) members.old }
{
    let mut held = entry;
    for i in 0..count {
        let next = members[i];
        if held < next {
            members[i] = held;
            held = next;
        }
    }
    members[count] = held;
}

// Whether the entry is no member of the rest, and the new root keeps rule 3: the rest with A's target is the first goal, with B's the second.
fn rest_fits(
    table: &NumberedTable,
    entry: u16,
    first: &[u64; 8],
    second: &[u64; 8],
    rest: &[u16; 24],
    count: usize,
) -> bool
    requires { IsAnd table.now entry × Members table.now.columns.count rest.now 0 count }
    ensures { (l m : List ℕ) → RestHeld (numbered table.now) first.now l second.now m
        → result ≡ rest_fits_lem (numbered table.now) entry l m (part rest.now 0 count) }
{
    let mut side = [0u64; 8];
    put_goal(&mut side, table.canon, rest, 0, count);
    if has(&side, key(table.canon, wide(entry), 1)) {
        return false;
    }
    and_kept(table, code_of(entry, 1), &side, first, second)
}

// The joined goal of two goals over one table: the members of each, from a place of its list up to another. How many members it has, where
// the two fit.
pub fn join_goals(
    table: &NumberedTable,
    entry: u16,
    members: &[u16; 384],
    from: usize,
    to: usize,
    others: &[u16; 384],
    others_from: usize,
    others_to: usize,
    goal: &mut [u16; 24],
) -> Option<usize>
    requires { Goals table.now members.now from to others.now others_from others_to × (length goal.old ≡ 24) }
    ensures { Fitted (numbered table.now) entry (part members.now from to) (part others.now others_from others_to) result goal.new }
{
    if table.columns.count <= wide(entry) {
        return None;
    }
    if table.columns.kinds[wide(entry)] != Kind::AND {
        return None;
    }
    let canon = table.canon;
    let mut first = [0u64; 8];
    put_goal(&mut first, canon, members, from, to);
    let mut second = [0u64; 8];
    put_goal(&mut second, canon, others, others_from, others_to);
    let found = find_rest(canon, members, from, to, &second, goal);
    if 24 <= found {
        return None;
    }
    if !rest_fits(table, entry, &first, &second, goal, found) {
        return None;
    }
    enter(entry, goal, found);
    Some(found + 1)
}
