// The entries of a claim file: each at its place (13), their count (12), and their columns.
#![tactic(auto)]

ghost use Rattle.std.specs.Prelude.{◌≡◌, ◌&&◌, ◌+◌, ◌*◌, ◌≤◌, eqb, length};
ghost use Rattle.verdict.specs.Tests.{choose};
ghost use Rattle.formula.specs.Fields.{is_modal_lem};
ghost use Rattle.formula.specs.Spelled.{a_stands_lem, b_stands_lem, marked_of};
ghost use Rattle.encoding.specs.Places.{InFile};
ghost use Rattle.claim_files.specs.ReadClaim.{kind_fits};
ghost use Rattle.file_parts.specs.Parts.{PartTells};
ghost use Rattle.claim_entries.specs.ClaimEntry.{entry_at, EntryTells};
ghost use Rattle.claim_entries.specs.ClaimEntries.{EntryArrays, EntriesStored, entries_at, entries_from};

use claim_files::ClaimFault;
use encoding::{Parsed, Read};
use file_parts::{count_at, field_at};
use formula::Kind;
use verdict::{Fault, Refusal};

// An entry as the columns hold it, and the place after it. One struct in one level: nested in a `Read` its three fields are put into one word
// and taken out of it again, entry by entry.
#[derive(Clone, Copy)]
pub struct HeldEntry {
    pub kind: u8,
    pub a: u16,
    pub b: u16,
    pub next: usize,
}

// A known kind, and the map of its fields: that of the kind, or with B for the action of a box or diamond.
fn kind_fits(map: u8, kind: u8) -> bool
    ensures { result ≡ kind_fits (map, kind) }
{
    kind <= Kind::NAME && (map == Kind::map(kind) || (Kind::is_modal(kind) && map == 3))
}

// Whether A stands.
fn a_stands(map: u8) -> bool
    ensures { result ≡ a_stands_lem map }
{
    map % 2 == 1
}

// Whether B stands.
fn b_stands(map: u8) -> bool
    ensures { result ≡ b_stands_lem map }
{
    2 <= map
}

// What the column holds of field B. "A 0 written out in B" is refused (71), and a record does not show it: an action that no file can mean
// stands for it.
fn held_b(kind: u8, stands: bool, b: u16) -> u16
    ensures { result ≡ choose (is_modal_lem kind && (stands && eqb b 0)) 65535 b }
{
    if b == 0 && stands && Kind::is_modal(kind) {
        return 65535;
    }
    b
}

// Map and kind are judged before fields, once both are there; an unfit pair is refused at the map.
pub fn entry_at(bytes: &[u8], start: usize) -> Result<HeldEntry, Refusal>
    requires { InFile bytes.now 65000 start }
    ensures { EntryTells bytes.now (start + 6) (entry_at bytes.now start) result }
{
    if bytes.len() - start < 2 {
        return Err(ClaimFault::Length.at(bytes.len() as u16));
    }
    let map = bytes[start];
    let kind = bytes[start + 1];
    let fields = start + 2;
    if !kind_fits(map, kind) {
        return Err(ClaimFault::Kind.at(start as u16));
    }
    let a = field_at(bytes, fields, a_stands(map), ClaimFault::Length as u16)?;
    let second = b_stands(map);
    let b = field_at(bytes, a.next, second, ClaimFault::Length as u16)?;
    Ok(HeldEntry {
        kind,
        a: a.value,
        b: held_b(kind, second, b.value),
        next: b.next,
    })
}

// The entries' columns are stored while they are read.
fn store_entries(
    bytes: &[u8],
    from: usize,
    count: usize,
    kinds: &mut [u8; 256],
    a: &mut [u16; 256],
    b: &mut [u16; 256],
) -> Parsed<usize>
    requires entry_arrays { EntryArrays kinds.old a.old b.old }
    requires in_file { (InFile bytes.now 6 from) × (count ≤ 256) }
    ensures { PartTells bytes.now (from + 6 * count) 256 (entries_from count bytes.now from)
        (λ es. EntriesStored kinds.old kinds.new a.old a.new b.old b.new (marked_of es)) result }
{
    let mut at = from;
    for i in 0..count {
        let entry = entry_at(bytes, at)?;
        kinds[i] = entry.kind;
        a[i] = entry.a;
        b[i] = entry.b;
        at = entry.next;
    }
    Ok(Read {
        value: count,
        next: at,
    })
}

// Two bytes, the entry count (from the least to 256); the entries.
pub fn read_entries(
    bytes: &[u8],
    least: u16,
    kinds: &mut [u8; 256],
    a: &mut [u16; 256],
    b: &mut [u16; 256],
) -> Parsed<usize>
    requires entry_arrays { EntryArrays kinds.old a.old b.old }
    requires in_bounds { 4 ≤ length bytes.now }
    ensures { PartTells bytes.now 1542 256 (entries_at least bytes.now 4)
        (λ es. EntriesStored kinds.old kinds.new a.old a.new b.old b.new (marked_of es)) result }
{
    let count = count_at(
        bytes,
        4,
        least,
        256,
        ClaimFault::Count as u16,
        ClaimFault::Length as u16,
    )?;
    store_entries(bytes, count.next, count.value as usize, kinds, a, b)
}
