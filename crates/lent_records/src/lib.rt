// The records of a proof as they stand in the slices that a caller lends, loaded into columns of plain numbers and written from there as a
// file, the claim's records judged first: the file's length, or 2^32 + refusal × 65,536 + place.
#![tactic(auto)]

ghost use Rattle.std.specs.Prelude.{◌≡◌, ◌*◌, ◌≤◌};
ghost use Rattle.lent_records.specs.WriteCall.{WriteProofCall};

use records::{Entry, Node, load_entries, load_node_fields};
use writer::{loadable, write_proof};

// In columns with room for so many nodes and their links: a small proof clears no more. A slice of under 1,024 nodes may be loaded from too:
// `write_proof` refuses it, whatever the columns hold.
fn write_sized<const NODES: usize, const LINKS: usize>(
    form: u8,
    entries: &[Entry],
    entry_count: usize,
    sizes: &[u16],
    members: &[u16],
    nodes: &[Node],
    node_count: usize,
    roots: &[u16],
    codes: &[u16],
    out: &mut [u8],
) -> u64
    requires { (NODES ≤ 1024) × (LINKS ≡ 4 * NODES) × (node_count ≤ 1024 → node_count ≤ NODES) }
    ensures { WriteProofCall form entries.now entry_count sizes.now members.now nodes.now
        node_count roots.now codes.now out.old result out.new }
{
    let mut kinds = [0u8; 256];
    let mut a = [0u16; 256];
    let mut b = [0u16; 256];
    let mut rules = [0u8; NODES];
    let mut links = [0u16; LINKS];
    let mut counts = [0u16; NODES];
    let entries_loaded = loadable(entries.len(), 256, entry_count);
    load_entries(entries, entries_loaded, &mut kinds, &mut a, &mut b);
    let nodes_loaded = loadable(nodes.len(), NODES, node_count);
    load_node_fields(nodes, nodes_loaded, &mut rules, &mut links, &mut counts);
    write_proof(
        form,
        entries.len(),
        entry_count,
        &kinds,
        &a,
        &b,
        sizes,
        members,
        nodes.len(),
        node_count,
        roots,
        &rules,
        &links,
        &counts,
        codes,
        out,
    )
}

// In columns with room for 32 nodes.
pub fn write_few(
    form: u8,
    entries: &[Entry],
    entry_count: usize,
    sizes: &[u16],
    members: &[u16],
    nodes: &[Node],
    node_count: usize,
    roots: &[u16],
    codes: &[u16],
    out: &mut [u8],
) -> u64
    requires { node_count ≤ 32 }
    ensures { WriteProofCall form entries.now entry_count sizes.now members.now nodes.now
        node_count roots.now codes.now out.old result out.new }
{
    write_sized::<32, 128>(
        form,
        entries,
        entry_count,
        sizes,
        members,
        nodes,
        node_count,
        roots,
        codes,
        out,
    )
}

// In columns with room for all 1,024.
pub fn write_many(
    form: u8,
    entries: &[Entry],
    entry_count: usize,
    sizes: &[u16],
    members: &[u16],
    nodes: &[Node],
    node_count: usize,
    roots: &[u16],
    codes: &[u16],
    out: &mut [u8],
) -> u64
    ensures { WriteProofCall form entries.now entry_count sizes.now members.now nodes.now
        node_count roots.now codes.now out.old result out.new }
{
    write_sized::<1024, 4096>(
        form,
        entries,
        entry_count,
        sizes,
        members,
        nodes,
        node_count,
        roots,
        codes,
        out,
    )
}
