// The roots of a judged proof file, and its nodes as columns of plain numbers: rules, links, starts and codes.
#![tactic(auto)]

ghost use Rattle.std.specs.Prelude.{◌≡◌, ℕ, ◌+◌, ◌*◌, ◌≤◌, ◌<◌, length, set};
ghost use Rattle.std.proofs.lemmas.List.Edits.{sets};
ghost use Rattle.bits.specs.IfSet.{if_set_lem};
ghost use Rattle.formula.specs.Claim.{Form, form_number};
ghost use Rattle.formula.specs.Fields.{link_width_lem};
ghost use Rattle.formula.specs.NodeColumns.{Columns};
ghost use Rattle.proof_files.specs.ProofParts.{field_at, links_at};
ghost use Rattle.nodes.specs.ProofDecode.{code_count, words_at, node_links, node_at, node_end, NodeFits, set_links, proof_in, Decodes, nodes_place_lem};
ghost use Rattle.nodes.specs.ProofStored.{NodeRoom, NodesStored};
ghost use Rattle.nodes.specs.RootsStored.{HasRoots, RootsStored};

use encoding::word_at;
use formula::Rule;
use proof_files::AFTER_COUNT;

// A field at a place: 0 where it does not stand.
fn field_at(bytes: &[u8], at: usize, stands: bool) -> u16
    requires { at + if_set_lem stands 2 ≤ length bytes.now }
    ensures { result ≡ field_at stands bytes.now at }
{
    if stands { word_at(bytes, at) } else { 0 }
}

// The place after a field.
fn past_field(at: usize, stands: bool) -> usize
    requires { at ≤ 65535 }
    ensures { (result ≡ at + if_set_lem stands 2) × (result ≤ at + 2) }
{
    if stands { at + 2 } else { at }
}

// The four links of a node, from the fields of its rule.
fn decode_links(bytes: &[u8], at: usize, rule: u8, v: usize, links: &mut [u16])
    requires { (at + link_width_lem rule ≤ length bytes.now) × (at ≤ 58408) × (4 * v + 4 ≤ length links.old) }
    ensures { links.new ≡ set_links links.old v (links_at rule bytes.now at) }
{
    let has_principal = Rule::has_principal(rule);
    let has_first = Rule::has_first(rule);
    let has_second = Rule::has_second(rule);
    let has_back = Rule::has_back(rule);
    let first = past_field(at, has_principal);
    let second = past_field(first, has_first);
    let back = past_field(second, has_second);
    links[4 * v] = field_at(bytes, at, has_principal);
    links[4 * v + 1] = field_at(bytes, first, has_first);
    links[4 * v + 2] = field_at(bytes, second, has_second);
    links[4 * v + 3] = field_at(bytes, back, has_back);
}

// So many two-byte numbers from a place on, written from a start on.
fn copy_words(bytes: &[u8], at: usize, n: usize, words: &mut [u16], start: usize)
    requires { (at + 2 * n ≤ length bytes.now) × (at ≤ 58415) × (n ≤ 24) × (start + n ≤ length words.old) }
    ensures { words.new ≡ sets words.old start (words_at bytes.now at n) }
{
    for i in 0..n {
        words[start + i] = word_at(bytes, at + 2 * i);
    }
}

// Where the next node stands, and where its codes go.
#[derive(Clone, Copy)]
pub struct Spot {
    pub at: usize,
    pub start: usize,
}

// A node that fits into the file: its rule, its links and its codes.
pub fn decode_node(
    bytes: &[u8],
    spot: Spot,
    v: usize,
    rules: &mut [u8],
    links: &mut [u16],
    codes: &mut [u16],
) -> Spot
    requires { NodeFits bytes.now spot.at × (spot.at ≤ 58406) × NodeRoom v spot.start rules.old links.old codes.old }
    ensures at_value { (result.at ≡ node_end bytes.now spot.at) × (result.start ≡ spot.start + code_count bytes.now spot.at) }
    ensures rules_after { rules.new ≡ set rules.old v (node_at bytes.now spot.at).rule }
    ensures links_after { links.new ≡ set_links links.old v (node_links bytes.now spot.at) }
    ensures codes_after { codes.new ≡ sets codes.old spot.start (node_at bytes.now spot.at).codes }
{
    let at = spot.at;
    let start = spot.start;
    let rule = bytes[at + 1];
    rules[v] = rule;
    decode_links(bytes, at + 2, rule, v, links);
    let next = at + 2 + Rule::link_width(rule) as usize;
    if bytes[at] < 16 {
        return Spot { at: next, start };
    }
    let n = bytes[next] as usize;
    copy_words(bytes, next + 1, n, codes, start);
    Spot {
        at: next + 1 + 2 * n,
        start: start + n,
    }
}

// The nodes of a proof file from a place on, written into the arrays that the caller lends, and their number.
pub fn decode_proof(
    bytes: &[u8],
    at: usize,
    rules: &mut [u8],
    links: &mut [u16],
    starts: &mut [u16],
    codes: &mut [u16],
) -> usize
    requires { Decodes bytes.now at × (at ≤ 38) × Columns (length (proof_in bytes.now at)) rules.old links.old starts.old codes.old }
    ensures value { result ≡ length (proof_in bytes.now at) }
    ensures nodes_stored { NodesStored (proof_in bytes.now at) rules.old links.old starts.old codes.old
        rules.new links.new starts.new codes.new }
{
    let n = node_count(bytes);
    let mut spot = Spot { at, start: 0 };
    for i in 0..n {
        starts[i] = spot.start as u16;
        spot = decode_node(bytes, spot, i, rules, links, codes);
    }
    starts[n] = spot.start as u16;
    n
}

// How many nodes a proof file has, wherever they stand: the two bytes after its opening.
pub fn node_count(bytes: &[u8]) -> usize
    requires { 6 ≤ length bytes.now }
    ensures { (at : ℕ) → result ≡ length (proof_in bytes.now at) }
{
    word_at(bytes, 4) as usize
}

// Where the nodes of a proof begin beside a claim of the form with so many goals: after the roots that the form writes.
pub fn nodes_place(form: u8, goals: usize) -> usize
    requires { goals ≤ 16 }
    ensures value { (f : Form) → form ≡ form_number f → result ≡ nodes_place_lem f goals }
    ensures upper_bound { result ≤ 38 }
{
    if form == formula::Form::CLM2 {
        AFTER_COUNT + 2 * goals
    } else {
        AFTER_COUNT
    }
}

// The roots of such a proof, written into the array that the caller lends.
pub fn decode_roots(bytes: &[u8], form: u8, goals: usize, roots: &mut [u16; 16])
    requires { (length roots.old ≡ 16) × HasRoots form goals bytes.now }
    ensures { (f : Form) → form ≡ form_number f → RootsStored f goals bytes.now roots.old roots.new }
{
    if form == formula::Form::CLM2 {
        copy_words(bytes, AFTER_COUNT, goals, roots, 0);
    } else {
        roots[0] = 0;
    }
}
