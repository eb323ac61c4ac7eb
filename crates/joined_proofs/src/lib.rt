// The joined proof laid down in a lent slice: opening and count, the new root, the first tree and the second, renumbered in that order.
#![tactic(auto)]

ghost use Rattle.std.specs.Prelude.{◌≡◌, ◌+◌, ◌<◌, ◌≤◌, length, take};
ghost use Rattle.verdict.specs.Lists.{written};
ghost use Rattle.proof_files.specs.ProofFile.{encode_node};
ghost use Rattle.nodes.specs.ProofDecode.{proof_in};
ghost use Rattle.laying.specs.Laying.{Fits, Put};
ghost use Rattle.joining.specs.Joined.{proof_bytes, in_focus, joined_root, joined_nodes};
ghost use Rattle.joined_proofs.specs.Laid.{Members, Tree};

use formula::{Form, Rule};
use laying::{open_proof, put_node};
use nodes::node_count;
use proof_files::AFTER_COUNT;
use renumbering::copy_nodes;
use sequents::sets::code_of;

// The codes of so many members, all in focus.
fn put_focused(members: &[u16; 24], count: usize, codes: &mut [u16; 24])
    requires { Members members.now count × (length codes.old ≡ 24) }
    ensures { codes.new ≡ written (in_focus (take count members.now)) codes.old }
{
    for i in 0..count {
        codes[i] = code_of(members[i], 1);
    }
}

// Rule 3 of the entry over so many nodes of the first tree: that tree's root follows, and the second's after its nodes. The place after it.
fn put_root(out: &mut [u8], entry: u16, members: &[u16; 24], count: usize, nodes: usize) -> usize
    requires { Members members.now count × (entry < 256) × (nodes ≤ 1023)
        × Fits out.old 6 (encode_node (joined_root entry (take count members.now) nodes)) }
    ensures { Put out.old 6 (encode_node (joined_root entry (take count members.now) nodes)) result out.new }
{
    let links = [code_of(entry, 1), 1, (nodes + 1) as u16, 0];
    let mut codes = [0u16; 24];
    put_focused(members, count, &mut codes);
    put_node(out, AFTER_COUNT, Rule::AND, &links, 0, &codes, 0, count)
}

// The whole file, of two accepted proofs with at most 1,023 nodes together. The members are those of the joined goal.
pub fn put_joined(
    out: &mut [u8],
    entry: u16,
    members: &[u16; 24],
    count: usize,
    first: &[u8],
    second: &[u8],
)
    requires { Members members.now count × (entry < 256) × Tree first.now × Tree second.now
        × (length (proof_in first.now 6) + length (proof_in second.now 6) ≤ 1023)
        × (length (proof_bytes (joined_nodes entry (take count members.now) (proof_in first.now 6) (proof_in second.now 6))) ≤ length out.old) }
    ensures { out.new ≡ written (proof_bytes (joined_nodes entry (take count members.now) (proof_in first.now 6)
        (proof_in second.now 6))) out.old }
{
    let nodes = node_count(first);
    let others = node_count(second);
    open_proof(out, Form::CLM1, nodes + others + 1);
    let at = put_root(out, entry, members, count, nodes);
    let next = copy_nodes(first, 1, out, at);
    copy_nodes(second, (nodes + 1) as u16, out, next);
}
