// Writing files for C: lent records are loaded into columns, judged there and laid down as a file in the lent output slice.
ghost use Rattle.lent_records.specs.WriteCall.{WriteClaimCall, WriteProofCall};

use lent_records::{write_few, write_many};
use records::{Entry, Node, load_entries};
use writer::{loadable, write_claim};

// The claim of the first entries and the members of its goals, in the form told, as a file: its length, or 2^32 + refusal × 65,536 + place.
// No refusal writes a byte.
#[unsafe(no_mangle)]
pub extern "C" fn focus_write_claim(
    form: u8,
    entries: &[Entry],
    entry_count: usize,
    goal_counts: &[u16],
    members: &[u16],
    out: &mut [u8],
) -> u64
    ensures { WriteClaimCall form entries.now entry_count goal_counts.now
        members.now out.old result out.new }
{
    let mut kinds = [0u8; 256];
    let mut a = [0u16; 256];
    let mut b = [0u16; 256];
    let loaded = loadable(entries.len(), 256, entry_count);
    load_entries(entries, loaded, &mut kinds, &mut a, &mut b);
    write_claim(
        form,
        entries.len(),
        entry_count,
        &kinds,
        &a,
        &b,
        goal_counts,
        members,
        out,
    )
}

// The proof of the first nodes, the roots and the codes, for that claim and in its form, as a file: its length, or
// 2^32 + refusal × 65,536 + place, in columns of the size that the count of nodes asks for. The claim's records are judged first, and not
// written. No refusal writes a byte.
#[unsafe(no_mangle)]
pub extern "C" fn focus_write_proof(
    form: u8,
    entries: &[Entry],
    entry_count: usize,
    goal_counts: &[u16],
    members: &[u16],
    nodes: &[Node],
    node_count: usize,
    roots: &[u16],
    codes: &[u16],
    out: &mut [u8],
) -> u64
    ensures { WriteProofCall form entries.now entry_count goal_counts.now members.now nodes.now
        node_count roots.now codes.now out.old result out.new }
{
    if node_count <= 32 {
        return write_few(
            form,
            entries,
            entry_count,
            goal_counts,
            members,
            nodes,
            node_count,
            roots,
            codes,
            out,
        );
    }
    write_many(
        form,
        entries,
        entry_count,
        goal_counts,
        members,
        nodes,
        node_count,
        roots,
        codes,
        out,
    )
}
