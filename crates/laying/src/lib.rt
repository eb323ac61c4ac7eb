// Claims and proofs of both forms as bytes: records that were judged, laid down in a lent slice from columns of plain numbers. Beyond the file the
// slice is as it was.
#![tactic(auto)]

ghost use Rattle.std.specs.Prelude.{◌≡◌, [], ◌∷◌, ◌++◌, ◌+◌, ◌*◌, ◌<◌, ◌≤◌, length};
ghost use Rattle.std.proofs.lemmas.List.Edits.{sets};
ghost use Rattle.verdict.specs.Lists.{written};
ghost use Rattle.formula.specs.Claim.{Form, form_number};
ghost use Rattle.encoding.specs.Encode.{encode_two, encode_field};
ghost use Rattle.claim_files.specs.ClaimFile.{claim_opening, encode_entry, encode_members, encode_goal_count, encode_claim};
ghost use Rattle.proof_files.specs.ProofFile.{proof_opening, encode_node, encode_roots, encode_proof};
ghost use Rattle.formula.specs.NamedForm.{named_form};
ghost use Rattle.writing.specs.RecordBytes.{split};
ghost use Rattle.writing.specs.Spelling.{map_for_lem, spelled_as};
ghost use Rattle.laying.specs.Laying.{Fits, Put, numbers_left, entries_left, entry_at, node_at, link_bytes, codes_part, NodeRoom, nodes_left};
ghost use Rattle.laying.specs.Goals.{GoalsRoom, goal_at, goals_left};
ghost use Rattle.laying.specs.Files.{claim_of, proof_of};

use bits::{if_set, wide};
use claim_files::CLAIM_OPENING;
use formula::{Kind, Rule};
use proof_files::{AFTER_COUNT, PROOF_OPENING};

// Two-byte fields are little-endian.
fn put_two(out: &mut [u8], at: usize, value: u16)
    requires { at + 2 ≤ length out.old }
    ensures { out.new ≡ sets out.old at (encode_two value) }
{
    out[at..at + 2].copy_from_slice(&value.to_le_bytes());
}

// A field whose bit does not stand takes no bytes. The place after it.
fn put_field(out: &mut [u8], at: usize, stands: bool, value: u16) -> usize
    requires { Fits out.old at (encode_field stands value) }
    ensures { Put out.old at (encode_field stands value) result out.new }
{
    if stands {
        put_two(out, at, value);
        at + 2
    } else {
        at
    }
}

// So many two-byte numbers of a list, one after the other. The place after them.
fn put_numbers(out: &mut [u8], from: usize, numbers: &[u16], start: usize, count: usize) -> usize
    requires { (from + 2 * count ≤ length out.old) × (start + count ≤ length numbers.now) }
    ensures { Put out.old from (numbers_left numbers.now start count) result out.new }
{
    let mut at = from;
    for number in &numbers[start..start + count] {
        put_two(out, at, *number);
        at += 2;
    }
    at
}

// The letters that open a file, and the count after them.
fn put_opening(out: &mut [u8], letters: &[u8; 4], count: usize)
    requires { (6 ≤ length out.old) × (count < 65536) }
    ensures { out.new ≡ sets out.old 0 (letters.now ++ encode_two count) }
{
    out[..4].copy_from_slice(letters);
    put_two(out, 4, count as u16);
}

// The map of the kind, or map 3 for a box or diamond with an action other than 0: action 0 is never written out.
fn map_for(kind: u8, b: u16) -> u8
    ensures { result ≡ map_for_lem kind b }
{
    if b != 0 && Kind::is_modal(kind) {
        3
    } else {
        Kind::map(kind)
    }
}

// A bit map byte, a kind byte, then only the fields whose bit stands.
fn put_entry(out: &mut [u8], at: usize, kind: u8, a: u16, b: u16) -> usize
    requires { Fits out.old at (encode_entry (spelled_as (entry_at kind a b))) }
    ensures { Put out.old at (encode_entry (spelled_as (entry_at kind a b))) result out.new }
{
    let map = map_for(kind, b);
    out[at] = map;
    out[at + 1] = kind;
    let next = put_field(out, at + 2, map % 2 == 1, a);
    put_field(out, next, 2 <= map, b)
}

fn put_entries(
    out: &mut [u8],
    kinds: &[u8; 256],
    a: &[u16; 256],
    b: &[u16; 256],
    count: usize,
) -> usize
    requires { Fits out.old 6 (entries_left kinds.now a.now b.now 0 count) × (count ≤ 256) }
    ensures { Put out.old 6 (entries_left kinds.now a.now b.now 0 count) result out.new }
{
    let mut at: usize = 6;
    for i in 0..count {
        at = put_entry(out, at, kinds[i], a[i], b[i]);
    }
    at
}

// The letters that open a claim file of the form, and the entry count.
fn open_claim(out: &mut [u8], form: u8, count: usize)
    requires { Fits out.old 0 (claim_opening (named_form form) ++ encode_two count) × (count < 65536) }
    ensures { Put out.old 0 (claim_opening (named_form form) ++ encode_two count) 6 out.new }
{
    let letters = if form == formula::Form::CLM2 {
        &claim_files::GOALS_OPENING
    } else {
        &CLAIM_OPENING
    };
    put_opening(out, letters, count);
}

// The goal count, which the form for one goal does not write. The place after it.
fn put_goal_count(out: &mut [u8], at: usize, form: u8, goals: usize) -> usize
    requires { Fits out.old at (encode_goal_count (named_form form) goals) × (goals ≤ 16) }
    ensures { Put out.old at (encode_goal_count (named_form form) goals) result out.new }
{
    put_field(out, at, form == formula::Form::CLM2, goals as u16)
}

// A goal's member count, then its members.
fn put_goal(out: &mut [u8], at: usize, members: &[u16], start: usize, count: u16) -> usize
    requires { Fits out.old at (encode_members (goal_at members.now start count)) × (start + count ≤ length members.now) }
    ensures { Put out.old at (encode_members (goal_at members.now start count)) result out.new }
{
    put_two(out, at, count);
    put_numbers(out, at + 2, members, start, wide(count))
}

// The members of each goal follow those of the one before.
fn put_goals(out: &mut [u8], from: usize, counts: &[u16], members: &[u16])
    requires { Fits out.old from (goals_left counts.now members.now 0 0) × GoalsRoom counts.now members.now }
    ensures { out.new ≡ sets out.old from (goals_left counts.now members.now 0 0) }
{
    let mut at = from;
    let mut start: usize = 0;
    for count in counts {
        at = put_goal(out, at, members, start, *count);
        start += wide(*count);
    }
}

// A claim file of the form: the goals' member counts, and the members of all goals one after another.
pub fn put_claim(
    out: &mut [u8],
    form: u8,
    kinds: &[u8; 256],
    a: &[u16; 256],
    b: &[u16; 256],
    count: usize,
    counts: &[u16],
    members: &[u16],
)
    requires { (length (encode_claim (claim_of (named_form form) kinds.now a.now b.now count (split counts.now members.now))) ≤ length out.old)
        × (count ≤ 256) × GoalsRoom counts.now members.now }
    ensures { (f : Form) → form ≡ form_number f → out.new ≡ written (encode_claim (claim_of f kinds.now a.now
        b.now count (split counts.now members.now))) out.old }
{
    open_claim(out, form, count);
    let at = put_entries(out, kinds, a, b, count);
    let from = put_goal_count(out, at, form, counts.len());
    put_goals(out, from, counts, members);
}

// Principal, first child, second child, back link: those that the rule has.
fn put_links(out: &mut [u8], at: usize, rule: u8, links: &[u16], v: usize) -> usize
    requires { Fits out.old at (link_bytes rule links.now v) × (4 * v + 4 ≤ length links.now) }
    ensures { Put out.old at (link_bytes rule links.now v) result out.new }
{
    let first = put_field(out, at, Rule::has_principal(rule), links[4 * v]);
    let second = put_field(out, first, Rule::has_first(rule), links[4 * v + 1]);
    let back = put_field(out, second, Rule::has_second(rule), links[4 * v + 2]);
    put_field(out, back, Rule::has_back(rule), links[4 * v + 3])
}

// A one-byte count and that many codes; without codes nothing.
fn put_codes(out: &mut [u8], at: usize, codes: &[u16], start: usize, count: usize) -> usize
    requires { Fits out.old at (codes_part codes.now start count) × (start + count ≤ length codes.now) × (count ≤ 24) }
    ensures { Put out.old at (codes_part codes.now start count) result out.new }
{
    if count == 0 {
        at
    } else {
        out[at] = count as u8;
        put_numbers(out, at + 1, codes, start, count)
    }
}

// A bit map byte, a rule byte, then the fields whose bit stands; bit 4 where codes follow.
pub fn put_node(
    out: &mut [u8],
    at: usize,
    rule: u8,
    links: &[u16],
    v: usize,
    codes: &[u16],
    start: usize,
    count: usize,
) -> usize
    requires { Fits out.old at (encode_node (node_at rule links.now v codes.now start count)) × (4 * v + 4 ≤ length links.now)
        × (start + count ≤ length codes.now) × (count ≤ 24) }
    ensures { Put out.old at (encode_node (node_at rule links.now v codes.now start count)) result out.new }
{
    out[at] = Rule::low_map(rule) + if_set(0 < count, 16);
    out[at + 1] = rule;
    let next = put_links(out, at + 2, rule, links, v);
    put_codes(out, next, codes, start, count)
}

fn put_nodes(
    out: &mut [u8],
    from: usize,
    rules: &[u8],
    links: &[u16],
    counts: &[u16],
    codes: &[u16],
    nodes: usize,
)
    requires { Fits out.old from (nodes_left rules.now links.now counts.now codes.now 0 nodes 0)
        × NodeRoom rules.now links.now counts.now codes.now nodes }
    ensures { out.new ≡ sets out.old from (nodes_left rules.now links.now counts.now
        codes.now 0 nodes 0) }
{
    let mut at = from;
    let mut start: usize = 0;
    for v in 0..nodes {
        let count = wide(counts[v]);
        at = put_node(out, at, rules[v], links, v, codes, start, count);
        start += count;
    }
}

// The letters that open a proof file of the form, and the node count.
pub fn open_proof(out: &mut [u8], form: u8, nodes: usize)
    requires { Fits out.old 0 (proof_opening (named_form form) ++ encode_two nodes) × (nodes < 65536) }
    ensures { Put out.old 0 (proof_opening (named_form form) ++ encode_two nodes) 6 out.new }
{
    let letters = if form == formula::Form::CLM2 {
        &proof_files::GOALS_OPENING
    } else {
        &PROOF_OPENING
    };
    put_opening(out, letters, nodes);
}

// The roots, which the form for one goal does not write. The place after them.
fn put_roots(out: &mut [u8], form: u8, roots: &[u16]) -> usize
    requires { Fits out.old 6 (encode_roots (named_form form) roots.now) }
    ensures { Put out.old 6 (encode_roots (named_form form) roots.now) result out.new }
{
    if form == formula::Form::CLM2 {
        put_numbers(out, AFTER_COUNT, roots, 0, roots.len())
    } else {
        AFTER_COUNT
    }
}

// A proof file of the form.
pub fn put_proof(
    out: &mut [u8],
    form: u8,
    roots: &[u16],
    rules: &[u8],
    links: &[u16],
    counts: &[u16],
    codes: &[u16],
    nodes: usize,
)
    requires { (length (encode_proof (named_form form) (proof_of (named_form form) roots.now rules.now links.now counts.now codes.now nodes))
        ≤ length out.old) × NodeRoom rules.now links.now counts.now codes.now nodes }
    ensures { (f : Form) → form ≡ form_number f → out.new ≡ written (encode_proof f (proof_of f roots.now rules.now
        links.now counts.now codes.now nodes)) out.old }
{
    open_proof(out, form, nodes);
    let from = put_roots(out, form, roots);
    put_nodes(out, from, rules, links, counts, codes, nodes);
}
