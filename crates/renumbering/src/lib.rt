// A proof's nodes, numbered further on: each node of a judged file is decoded, the numbers of nodes in it are moved, and it is laid down in a
// lent slice. Beyond the nodes the slice is as it was.
#![tactic(auto)]

ghost use Rattle.std.specs.Prelude.{◌≡◌, ◌≤◌, ◌<◌, length};
ghost use Rattle.encoding.specs.Encode.{encode_all};
ghost use Rattle.proof_files.specs.ProofFile.{encode_node};
ghost use Rattle.nodes.specs.ProofDecode.{node_at, node_end, NodeFits, proof_in, Decodes};
ghost use Rattle.laying.specs.Laying.{Fits, Put};
ghost use Rattle.joining.specs.Shift as shifts;
ghost use Rattle.joining.specs.Shift.{shift, shifted};
ghost use Rattle.renumbering.specs.Moving.{Moves, Movable, moved_links, LinksMove};

use formula::Rule;
use laying::put_node;
use nodes::{Spot, decode_node, node_count};
use proof_files::AFTER_COUNT;

// The number of a node, so much further on, in a field that the rule has; a field that it lacks names no node.
fn moved(stands: bool, field: u16, by: u16) -> u16
    requires { shifts.moved stands by field < 65536 }
    ensures { result ≡ shifts.moved stands by field }
{
    if stands { field + by } else { field }
}

// First child, second child and back link of a node; its principal names no node.
fn move_links(rule: u8, links: &mut [u16; 4], by: u16)
    requires { (length links.old ≡ 4) × LinksMove rule by links.old }
    ensures { links.new ≡ moved_links rule by links.old }
{
    links[1] = moved(Rule::has_first(rule), links[1], by);
    links[2] = moved(Rule::has_second(rule), links[2], by);
    links[3] = moved(Rule::has_back(rule), links[3], by);
}

// Where the next node stands, and where it goes.
#[derive(Clone, Copy)]
struct Places {
    from: usize,
    to: usize,
}

// A node that fits into the file, renumbered.
fn copy_node(bytes: &[u8], places: Places, by: u16, out: &mut [u8]) -> Places
    requires { NodeFits bytes.now places.from × (places.from ≤ 58406) × Moves by (node_at bytes.now places.from)
        × Fits out.old places.to (encode_node (shift by (node_at bytes.now places.from))) }
    ensures { (result.from ≡ node_end bytes.now places.from) × Put out.old places.to
        (encode_node (shift by (node_at bytes.now places.from))) result.to out.new }
{
    let mut rules = [0u8; 1];
    let mut links = [0u16; 4];
    let mut codes = [0u16; 24];
    let read = decode_node(
        bytes,
        Spot {
            at: places.from,
            start: 0,
        },
        0,
        &mut rules,
        &mut links,
        &mut codes,
    );
    move_links(rules[0], &mut links, by);
    let to = put_node(out, places.to, rules[0], &links, 0, &codes, 0, read.start);
    Places { from: read.at, to }
}

// The nodes of a proof file for one goal, renumbered, from a place of the slice on. The place after them.
pub fn copy_nodes(bytes: &[u8], by: u16, out: &mut [u8], to: usize) -> usize
    requires { Decodes bytes.now 6 × Movable by (proof_in bytes.now 6)
        × Fits out.old to (encode_all encode_node (shifted by (proof_in bytes.now 6))) }
    ensures { Put out.old to (encode_all encode_node (shifted by (proof_in bytes.now 6))) result out.new }
{
    let n = node_count(bytes);
    let mut places = Places {
        from: AFTER_COUNT,
        to,
    };
    for _ in 0..n {
        places = copy_node(bytes, places, by, out);
    }
    places.to
}
