// Records in columns of plain numbers, judged as the reader would judge the file of their form that they make: the first fault in the order of
// its bytes, then 20, 71 and 21 to 23 of a claim, 35 of a proof. Nothing is written. A step over the records finds the place after them in the file
// that they make, or a refusal.
#![tactic(auto)]

ghost use Rattle.std.specs.Prelude.{◌≡◌, List, true, ℕ, ◌+◌, ◌*◌, ◌<◌, ◌≤◌, length, take, drop};
ghost use Rattle.verdict.specs.Shown.{refusal, shown};
ghost use Rattle.formula.specs.Plain.{table_of};
ghost use Rattle.formula.specs.PlainNodes.{proof_of};
ghost use Rattle.formula.specs.Claim.{Form, clm1, clm2, form_number};
ghost use Rattle.claim_files.specs.ClaimFile.{GoalCount};
ghost use Rattle.proof_files.specs.ReadProof.{is_code_lem, is_node};
ghost use Rattle.proof_files.specs.ProofParts.{kind_table};
ghost use Rattle.formula.specs.NamedForm.{named_form};
ghost use Rattle.tree.specs.Owners.{tree_judged};
ghost use Rattle.writing.specs.FieldEnds.{may_hold_lem, rising_end};
ghost use Rattle.writing.specs.Goals.{total, roots_fit, roots_of};
ghost use Rattle.writing.specs.EntryEnds.{entry_fits_lem, entry_width_lem, entries_end};
ghost use Rattle.writing.specs.GoalEnds.{members_end, listed_end, lists_end, goals_end};
ghost use Rattle.writing.specs.ClaimEnds.{claim_end};
ghost use Rattle.writing.specs.NodeEnds.{links_held, sequent_end};
ghost use Rattle.writing.specs.ProofEnds.{nodes_end, roots_end, proof_end};
ghost use Rattle.writing.specs.Encoded.{claim_judged, proof_judged};
ghost use Rattle.writing.specs.Held.{records_of, NodesGiven};
ghost use Rattle.vetting.specs.Steps.{Finds, record_at};
ghost use Rattle.vetting.specs.RootLaws.{RootsFound};

use bits::wide;
use claim_files::ClaimFault;
use claim_members::may_follow;
use formula::{EntryColumns, Kind, LinkColumns, Rule};
use proof_files::ProofFault;
use proofs::is_code;
use scopes::judge;
use tree::fill_owners;
use verdict::{Fault, Refusal, Verdict};

// A field that the kind or rule lacks holds 0.
fn may_hold(stands: bool, value: u16) -> bool
    ensures { result ≡ may_hold_lem stands value }
{
    stands || value == 0
}

// A known kind, and 0 in the fields that it lacks; field B of a box or diamond is its action, which the table's judge looks at.
fn entry_fits(kind: u8, a: u16, b: u16) -> bool
    ensures { result ≡ entry_fits_lem (record { kind = kind; a = a; b = b }) }
{
    kind <= Kind::NAME
        && may_hold(Kind::has_a(kind), a)
        && (Kind::is_modal(kind) || may_hold(Kind::has_b(kind), b))
}

// How many bytes an entry takes: field B of a box or diamond stands only for an action other than 0.
fn entry_width(kind: u8, b: u16) -> usize
    ensures { (result ≡ entry_width_lem kind b) × (result ≤ 6) }
{
    if Kind::has_b(kind) || (Kind::is_modal(kind) && b != 0) {
        6
    } else if Kind::has_a(kind) {
        4
    } else {
        2
    }
}

// From the place after the count on: an unfit entry is refused where its map would stand.
fn judge_entries(
    kinds: &[u8; 256],
    a: &[u16; 256],
    b: &[u16; 256],
    count: usize,
) -> Result<usize, Refusal>
    requires { count ≤ 256 }
    ensures { Finds (entries_end (table_of kinds.now a.now b.now count) 6) 1542 result }
{
    let mut at: usize = 6;
    for i in 0..count {
        let kind = kinds[i];
        let second = b[i];
        if !entry_fits(kind, a[i], second) {
            return Err(ClaimFault::Kind.at(at as u16));
        }
        at += entry_width(kind, second);
    }
    Ok(at)
}

// So many members from a start on: they rise strictly, lie in range and are no names.
fn judge_members(
    kinds: &[u8; 256],
    count: usize,
    members: &[u16],
    start: usize,
    listed: usize,
    at: usize,
) -> Result<usize, Refusal>
    requires { (count ≤ 256) × (start + listed ≤ length members.now) × (listed ≤ 24) × (at ≤ 2296) }
    ensures { Finds (members_end (kind_table kinds.now count) (take listed (drop start members.now)) at) (at + 48) result }
{
    let mut floor: usize = 0;
    for i in 0..listed {
        let member = wide(members[start + i]);
        if !may_follow(kinds, count, floor, member) {
            return Err(ClaimFault::Member.at((at + 2 * i) as u16));
        }
        floor = member + 1;
    }
    Ok(at + 2 * listed)
}

// The member count (1 to 24) of a goal, then its members.
fn judge_listed(
    kinds: &[u8; 256],
    count: usize,
    members: &[u16],
    start: usize,
    listed: usize,
    at: usize,
) -> Result<usize, Refusal>
    requires { (count ≤ 256) × (start + listed ≤ length members.now) × (at ≤ 2294) }
    ensures { Finds (listed_end (kind_table kinds.now count) listed (take listed (drop start members.now)) at) (at + 50) result }
{
    if listed < 1 || 24 < listed {
        return Err(ClaimFault::Count.at(at as u16));
    }
    judge_members(kinds, count, members, start, listed, at + 2)
}

// The goals one after another, by their sizes, which add up to the members.
fn judge_lists(
    kinds: &[u8; 256],
    count: usize,
    sizes: &[u16],
    members: &[u16],
    from: usize,
) -> Result<usize, Refusal>
    requires { (count ≤ 256) × (length sizes.now ≤ 16) × (total sizes.now ≤ length members.now) × (from ≤ 1544) }
    ensures { Finds (lists_end (kind_table kinds.now count) sizes.now members.now from)
        (from + 50 * length sizes.now) result }
{
    let mut at = from;
    let mut start: usize = 0;
    for size in sizes {
        let listed = wide(*size);
        at = judge_listed(kinds, count, members, start, listed, at)?;
        start += listed;
    }
    Ok(at)
}

// What the sizes of at most 16 goals add up to: a sum of numbers, which two bytes may not hold.
fn total(sizes: &[u16]) -> usize
    requires { length sizes.now ≤ 16 }
    ensures { result ≡ total sizes.now }
{
    sizes.iter().map(|&size| wide(size)).sum()
}

// CLM1: one goal, whose size is the number of members. A refusal stands where CLM2 has its goal count.
fn judge_goal(
    kinds: &[u8; 256],
    count: usize,
    sizes: &[u16],
    members: &[u16],
    at: usize,
) -> Result<usize, Refusal>
    requires { (count ≤ 256) × (at ≤ 1542) }
    ensures { Finds (goals_end clm1 (kind_table kinds.now count) sizes.now members.now at) 1592 result }
{
    if sizes.len() != 1 || wide(sizes[0]) != members.len() {
        return Err(ClaimFault::Count.at(at as u16));
    }
    judge_listed(kinds, count, members, 0, members.len(), at)
}

// CLM2: the goal count (at most 16, 72), sizes that add up to the members (12), then the goals.
fn judge_goals(
    kinds: &[u8; 256],
    count: usize,
    sizes: &[u16],
    members: &[u16],
    at: usize,
) -> Result<usize, Refusal>
    requires { (count ≤ 256) × (at ≤ 1542) }
    ensures { Finds (goals_end clm2 (kind_table kinds.now count) sizes.now members.now at) 2344 result }
{
    if 16 < sizes.len() {
        return Err(ClaimFault::Goals.at(at as u16));
    }
    if total(sizes) != members.len() {
        return Err(ClaimFault::Count.at(at as u16));
    }
    judge_lists(kinds, count, sizes, members, at + 2)
}

// What the bytes of a claim would earn: its entry count (1 to 256, in CLM2 from 0 on), the entries, the goals.
fn judge_claim_bytes(
    form: u8,
    kinds: &[u8; 256],
    a: &[u16; 256],
    b: &[u16; 256],
    count: usize,
    sizes: &[u16],
    members: &[u16],
) -> Result<usize, Refusal>
    ensures { Finds (claim_end (named_form form) count (table_of kinds.now a.now b.now count) sizes.now
        members.now) 2344 result }
{
    if count < wide(formula::Form::fewest(form)) || 256 < count {
        return Err(ClaimFault::Count.at(4));
    }
    let at = judge_entries(kinds, a, b, count)?;
    if form == formula::Form::CLM2 {
        judge_goals(kinds, count, sizes, members, at)
    } else {
        judge_goal(kinds, count, sizes, members, at)
    }
}

// A claim's records: 12 to 14 and 72, then 20, 71 and 21 to 23 over the table.
pub fn judge_claim(
    form: u8,
    kinds: &[u8; 256],
    a: &[u16; 256],
    b: &[u16; 256],
    count: usize,
    sizes: &[u16],
    members: &[u16],
) -> Result<usize, Refusal>
    ensures { (f : Form) → form ≡ form_number f → Finds (claim_judged f count (table_of kinds.now a.now b.now count)
        sizes.now members.now) 2344 result }
{
    let end = judge_claim_bytes(form, kinds, a, b, count, sizes, members)?;
    judge(&EntryColumns { kinds, a, b, count })?;
    Ok(end)
}

// 0 in the fields that the rule lacks.
fn links_fit(rule: u8, links: &[u16], v: usize) -> bool
    requires { 4 * v + 4 ≤ length links.now }
    ensures { result ≡ links_held (record_at rule links.now v 0) }
{
    may_hold(Rule::has_principal(rule), links[4 * v])
        && may_hold(Rule::has_first(rule), links[4 * v + 1])
        && may_hold(Rule::has_second(rule), links[4 * v + 2])
        && may_hold(Rule::has_back(rule), links[4 * v + 3])
}

// What a code earns that does not rise, or whose entry is none. A call, so that the loop over the codes has no place to count along.
#[inline(never)]
fn unfit_code(at: usize, i: usize) -> Refusal
    requires { (at ≤ 58415) × (i ≤ 24) }
    ensures { result ≡ refusal 34 (at + 2 * i) }
{
    ProofFault::Code.at((at + 2 * i) as u16)
}

// Codes rise strictly; the entry of each lies in range and is no name.
fn judge_codes(
    kinds: &[u8; 256],
    entries: usize,
    codes: &[u16],
    start: usize,
    count: usize,
    at: usize,
) -> Result<usize, Refusal>
    requires { (entries ≤ 256) × (start + count ≤ length codes.now) × (count ≤ 24) × (at ≤ 58415) }
    ensures { Finds (rising_end (is_code_lem (kind_table kinds.now entries)) 34 (take count (drop start codes.now)) at) (at + 48) result }
{
    let mut least: usize = 0;
    for i in 0..count {
        let code = codes[start + i];
        let number = wide(code);
        if number < least || !is_code(kinds, entries, code) {
            return Err(unfit_code(at, i));
        }
        least = number + 1;
    }
    Ok(at + 2 * count)
}

// The code count (at most 24) and its codes; without codes nothing stands there.
fn judge_sequent(
    kinds: &[u8; 256],
    entries: usize,
    codes: &[u16],
    start: usize,
    count: usize,
    at: usize,
) -> Result<usize, Refusal>
    requires { (entries ≤ 256) × (start + 24 ≤ length codes.now) × (at ≤ 58414) }
    ensures { Finds (sequent_end (kind_table kinds.now entries) count (take count (drop start codes.now)) at) (at + 49) result }
{
    if count < 1 {
        return Ok(at);
    }
    if 24 < count {
        return Err(ProofFault::Count.at(at as u16));
    }
    judge_codes(kinds, entries, codes, start, count, at + 1)
}

// Roots rise strictly, and each is a node.
fn judge_roots(roots: &[u16], nodes: usize) -> Result<usize, Refusal>
    requires { length roots.now ≤ 16 }
    ensures { Finds (rising_end (is_node nodes) 34 roots.now 6) 38 result }
{
    let mut least: usize = 0;
    for (i, root) in roots.iter().enumerate() {
        let root = wide(*root);
        if root < least || nodes <= root {
            return Err(ProofFault::Code.at((6 + 2 * i) as u16));
        }
        least = root + 1;
    }
    Ok(6 + 2 * roots.len())
}

// As many roots as goals; PRF1 is given none. The place after them.
fn judge_rooted(form: u8, goals: usize, roots: &[u16], nodes: usize) -> Result<usize, Refusal>
    requires { goals ≤ 16 }
    ensures { Finds (roots_end (named_form form) goals nodes roots.now 6) 38 result }
{
    let wanted = if form == formula::Form::CLM2 {
        goals
    } else {
        0
    };
    if roots.len() != wanted {
        return Err(ProofFault::Code.at(6));
    }
    judge_roots(roots, nodes)
}

// From a place on: an unfit node is refused where its map would stand. A node's codes follow those of the nodes before it; a count is added
// up only once it is known to be at most 24.
fn judge_nodes(
    kinds: &[u8; 256],
    entries: usize,
    rules: &[u8],
    links: &[u16],
    counts: &[u16],
    codes: &[u16],
    nodes: usize,
    from: usize,
) -> Result<usize, Refusal>
    requires { (entries ≤ 256) × NodesGiven rules.now links.now counts.now codes.now nodes × (from ≤ 38) }
    ensures { Finds (nodes_end (kind_table kinds.now entries) (records_of rules.now links.now counts.now nodes)
        codes.now from) 58406 result }
{
    let mut at = from;
    let mut start: usize = 0;
    for v in 0..nodes {
        let rule = rules[v];
        if Rule::BACK < rule || !links_fit(rule, links, v) {
            return Err(ProofFault::Rule.at(at as u16));
        }
        let count = counts[v] as usize;
        let next = at + 2 + Rule::link_width(rule) as usize;
        at = judge_sequent(kinds, entries, codes, start, count, next)?;
        start += count;
    }
    Ok(at)
}

// What the bytes of a proof would earn: its node count (1 to 1,024, in PRF2 from 0 on), the roots, the nodes.
fn judge_proof_bytes(
    form: u8,
    goals: usize,
    kinds: &[u8; 256],
    entries: usize,
    roots: &[u16],
    rules: &[u8],
    links: &[u16],
    counts: &[u16],
    codes: &[u16],
    nodes: usize,
) -> Result<usize, Refusal>
    requires { (entries ≤ 256) × (goals ≤ 16) × (nodes ≤ 1024 → NodesGiven rules.now links.now counts.now codes.now nodes) }
    ensures { Finds (proof_end (named_form form) goals (kind_table kinds.now entries) nodes roots.now
        (records_of rules.now links.now counts.now nodes) codes.now) 58406 result }
{
    if nodes < wide(formula::Form::fewest(form)) || 1024 < nodes {
        return Err(ProofFault::Count.at(4));
    }
    let at = judge_rooted(form, goals, roots, nodes)?;
    judge_nodes(kinds, entries, rules, links, counts, codes, nodes, at)
}

// 35, in a table of owners of its own. The roots stand from the first place of an array on. Where none are given, node 0 is the root of the
// one goal.
fn judge_tree(rules: &[u8], links: &[u16], nodes: usize, goals: usize, roots: &[u16]) -> Verdict
    requires { (nodes ≤ 1024) × (nodes ≤ length rules.now) × (4 * nodes ≤ length links.now) × (goals ≤ 16) × RootsFound roots.now goals nodes }
    ensures { (f : Form) → GoalCount f goals → roots_fit f goals roots.now ≡ true → (ss cs : List ℕ)
        → shown result ≡ tree_judged (roots_of f roots.now) (proof_of rules.now links.now ss cs nodes) }
{
    let mut rooted = [0u16; 16];
    rooted[..roots.len()].copy_from_slice(roots);
    let mut owners = [0u16; 1024];
    let tree = LinkColumns {
        rules,
        links,
        nodes,
    };
    fill_owners(&tree, &rooted, goals, &mut owners)
}

// A proof's records over a claim whose records have passed: 32 to 34, then 35.
pub fn judge_proof(
    form: u8,
    goals: usize,
    kinds: &[u8; 256],
    entries: usize,
    roots: &[u16],
    rules: &[u8],
    links: &[u16],
    counts: &[u16],
    codes: &[u16],
    nodes: usize,
) -> Result<usize, Refusal>
    requires entries_bound { (entries ≤ 256) × (goals ≤ 16) × ((f : Form) → form ≡ form_number f → GoalCount f goals) }
    requires nodes_given { nodes ≤ 1024 → NodesGiven rules.now links.now counts.now codes.now nodes }
    ensures { (f : Form) → form ≡ form_number f → Finds (proof_judged f goals (kind_table kinds.now entries) nodes roots.now
        (records_of rules.now links.now counts.now nodes) codes.now) 58406 result }
{
    let end = judge_proof_bytes(
        form, goals, kinds, entries, roots, rules, links, counts, codes, nodes,
    )?;
    judge_tree(rules, links, nodes, goals, roots)?;
    Ok(end)
}
