// Proof files: the first fault in the order of the bytes, and the nodes of a file that has none.
// Places fit two bytes: at most 16 roots take two bytes each and a node at most 57, so none begins after 6 + 2 × 16 + 57 × 1,024 = 58,406.
#![tactic(auto)]

ghost use Rattle.std.specs.Prelude.{◌≡◌, true, Ok, ◌+◌, ◌*◌, ◌≤◌, ◌<◌, length, drop};
ghost use Rattle.verdict.specs.Shown.{shown};
ghost use Rattle.formula.specs.Claim.{Form, form_number};
ghost use Rattle.encoding.specs.File.{ending};
ghost use Rattle.encoding.specs.Opening.{opens};
ghost use Rattle.encoding.specs.Outcome.{verdict_of};
ghost use Rattle.proof_files.specs.ProofFile.{proof_opening};
ghost use Rattle.proof_files.specs.ReadProof.{early, rule_fits, is_code_lem, is_node, sequent, node, read_proof};
ghost use Rattle.proof_files.specs.ProofParts.{kind_table, kind_claim, numbers_of, codes_of, roots_of, nodes_of};
ghost use Rattle.formula.specs.NamedForm.{named_form};
ghost use Rattle.proofs.specs.ProofSteps.{Finds, FindsHead};

use encoding::{opens_with, word_at};
use formula::{Kind, Rule};
use proof_files::{AFTER_COUNT, GOALS_OPENING, PROOF_OPENING, ProofFault};
use verdict::{Fault, Refusal, Verdict};

// What a step over the file finds: the place after what it read, or a refusal.
type Step = Result<usize, Refusal>;

// Whether the bytes open as a proof file beside a claim of the form does.
fn opens_proof(bytes: &[u8], form: u8) -> bool
    ensures { result ≡ opens (proof_opening (named_form form)) bytes.now }
{
    if form == formula::Form::CLM2 {
        return opens_with(bytes, &GOALS_OPENING);
    }
    opens_with(bytes, &PROOF_OPENING)
}

// Whether a map fits a rule: its low four bits are the rule's, bit 4 is free, bits 5 to 7 are zero.
fn map_fits(map: u8, rule: u8) -> bool
    ensures { result ≡ rule_fits (map, rule) }
{
    if Rule::BACK < rule {
        return false;
    }
    let low = Rule::low_map(rule);
    map == low || map == low + 16
}

// Whether a code's entry is in range and no name.
pub fn is_code(kinds: &[u8; 256], count: usize, code: u16) -> bool
    requires { count ≤ 256 }
    ensures { result ≡ is_code_lem (kind_table kinds.now count) code }
{
    let entry = (code / 2) as usize;
    entry < count && kinds[entry] != Kind::NAME
}

// The map, the rule and the fields of a node.
fn head_step(bytes: &[u8], at: usize) -> Step
    requires { (at ≤ length bytes.now) × (at ≤ 58406) }
    ensures { FindsHead bytes.now at result }
{
    if bytes.len() < at + 2 {
        return Err(ProofFault::Length.at(bytes.len() as u16));
    }
    let rule = bytes[at + 1];
    if !map_fits(bytes[at], rule) {
        return Err(ProofFault::Rule.at(at as u16));
    }
    let next = at + 2 + Rule::link_width(rule) as usize;
    if bytes.len() < next {
        return Err(ProofFault::Length.at(bytes.len() as u16));
    }
    Ok(next)
}

// Whether so many codes are there and fit, from the last down: each is below the one after it, so that only the last is compared with the
// table's end. Where one does not fit, codes_walk finds the refusal.
fn codes_fit(bytes: &[u8], start: usize, n: usize, kinds: &[u8; 256], count: usize) -> bool
    requires { (start ≤ 58415) × (n ≤ 24) × (count ≤ 256) }
    ensures { result ≡ true → Finds bytes.now (start + 48) (codes_of (kind_table kinds.now count) n bytes.now start) (Ok (start + 2 * n)) }
{
    if bytes.len() < start + 2 * n {
        return false;
    }
    let mut above = 2 * count;
    for i in (0..n).rev() {
        let code = word_at(bytes, start + 2 * i) as usize;
        if above <= code {
            return false;
        }
        if kinds[code / 2] == Kind::NAME {
            return false;
        }
        above = code;
    }
    true
}

// So many codes, each above the one before, its entry in range and no name.
fn codes_walk(bytes: &[u8], start: usize, n: usize, kinds: &[u8; 256], count: usize) -> Step
    requires { (start ≤ length bytes.now) × (start ≤ 58415) × (n ≤ 24) × (count ≤ 256) }
    ensures { Finds bytes.now (start + 48) (codes_of (kind_table kinds.now count) n bytes.now start) result }
{
    let mut least = 0;
    for i in 0..n {
        let at = start + 2 * i;
        if bytes.len() < at + 2 {
            return Err(ProofFault::Length.at(bytes.len() as u16));
        }
        let code = word_at(bytes, at);
        if (code as usize) < least {
            return Err(ProofFault::Code.at(at as u16));
        }
        if !is_code(kinds, count, code) {
            return Err(ProofFault::Code.at(at as u16));
        }
        least = code as usize + 1;
    }
    Ok(start + 2 * n)
}

// A count from 1 to 24 and that many codes.
fn sequent_step(bytes: &[u8], at: usize, kinds: &[u8; 256], count: usize) -> Step
    requires { (at ≤ length bytes.now) × (at ≤ 58414) × (count ≤ 256) }
    ensures { Finds bytes.now (at + 49) (sequent (kind_table kinds.now count) (drop at bytes.now) at) result }
{
    if bytes.len() <= at {
        return Err(ProofFault::Length.at(bytes.len() as u16));
    }
    let n = bytes[at];
    if n == 0 {
        return Err(ProofFault::Count.at(at as u16));
    }
    if 24 < n {
        return Err(ProofFault::Count.at(at as u16));
    }
    let start = at + 1;
    let many = n as usize;
    if codes_fit(bytes, start, many, kinds, count) {
        return Ok(start + 2 * many);
    }
    codes_walk(bytes, start, many, kinds, count)
}

// A node: without bit 4 the sequent is empty.
fn node_step(bytes: &[u8], at: usize, kinds: &[u8; 256], count: usize) -> Step
    requires { (at ≤ length bytes.now) × (at ≤ 58406) × (count ≤ 256) }
    ensures { Finds bytes.now (at + 57) (node (kind_table kinds.now count) (drop at bytes.now) at) result }
{
    let next = head_step(bytes, at)?;
    if bytes[at] < 16 {
        return Ok(next);
    }
    sequent_step(bytes, next, kinds, count)
}

// So many nodes, from a place on.
fn nodes_walk(bytes: &[u8], start: usize, n: usize, kinds: &[u8; 256], count: usize) -> Step
    requires { (start ≤ length bytes.now) × (start ≤ 38) × (n ≤ 1024) × (count ≤ 256) }
    ensures { Finds bytes.now 58406 (nodes_of (kind_table kinds.now count) n bytes.now start) result }
{
    let mut at = start;
    for _node in 0..n {
        at = node_step(bytes, at, kinds, count)?;
    }
    Ok(at)
}

// So many roots, each above the one before and the number of a node.
fn roots_walk(bytes: &[u8], goals: usize, nodes: usize) -> Step
    requires { (6 ≤ length bytes.now) × (goals ≤ 16) × (nodes ≤ 1024) }
    ensures { Finds bytes.now 38 (numbers_of (is_node nodes) goals bytes.now 6) result }
{
    let mut least = 0;
    for i in 0..goals {
        let at = AFTER_COUNT + 2 * i;
        if bytes.len() < at + 2 {
            return Err(ProofFault::Length.at(bytes.len() as u16));
        }
        let root = word_at(bytes, at) as usize;
        if root < least {
            return Err(ProofFault::Code.at(at as u16));
        }
        if nodes <= root {
            return Err(ProofFault::Code.at(at as u16));
        }
        least = root + 1;
    }
    Ok(AFTER_COUNT + 2 * goals)
}

// The roots that the form writes: for one goal none.
fn roots_step(bytes: &[u8], form: u8, goals: usize, nodes: usize) -> Step
    requires { (6 ≤ length bytes.now) × (goals ≤ 16) × (nodes ≤ 1024) }
    ensures { Finds bytes.now 38 (roots_of (named_form form) goals nodes bytes.now) result }
{
    if form == formula::Form::CLM2 {
        return roots_walk(bytes, goals, nodes);
    }
    Ok(AFTER_COUNT)
}

// The verdict after the roots: so many nodes from a place on, and nothing after them.
fn judge_nodes(bytes: &[u8], start: usize, n: usize, kinds: &[u8; 256], count: usize) -> Verdict
    requires { (start ≤ length bytes.now) × (start ≤ 38) × (n ≤ 1024) × (count ≤ 256) }
    ensures { shown result ≡ verdict_of (ending early (nodes_of (kind_table kinds.now count) n bytes.now start)) }
{
    let end = nodes_walk(bytes, start, n, kinds, count)?;
    if end < bytes.len() {
        return Err(ProofFault::Length.at(end as u16));
    }
    Ok(())
}

// The verdict on the bytes of a proof beside a claim of the form with so many goals, by the kinds of the entries that its codes speak of. Nothing
// is written.
pub fn judge_proof(bytes: &[u8], form: u8, goals: usize, kinds: &[u8; 256], count: usize) -> Verdict
    requires { (count ≤ 256) × (goals ≤ 16) }
    ensures { (f : Form) → form ≡ form_number f → shown result ≡ verdict_of (read_proof (kind_claim f kinds.now count goals) bytes.now) }
{
    if !opens_proof(bytes, form) {
        return Err(ProofFault::Opening.at(0));
    }
    if bytes.len() < AFTER_COUNT {
        return Err(ProofFault::Length.at(bytes.len() as u16));
    }
    let n = word_at(bytes, 4);
    if n < formula::Form::fewest(form) {
        return Err(ProofFault::Count.at(4));
    }
    if 1024 < n {
        return Err(ProofFault::Count.at(4));
    }
    let at = roots_step(bytes, form, goals, n as usize)?;
    judge_nodes(bytes, at, n as usize, kinds, count)
}
