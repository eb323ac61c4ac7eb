// The writer of claims and proofs in plain numbers: records are judged as the reader would judge the file that they make, then the file is
// laid down. No refusal writes a byte.
#![tactic(auto)]

ghost use Rattle.std.specs.Prelude.{◌≡◌, ◌+◌, ◌≤◌, ◌^◌, length};
ghost use Rattle.verdict.specs.Verdict.{refused, packed};
ghost use Rattle.proof_files.specs.ProofParts.{kind_table};
ghost use Rattle.formula.specs.NamedForm.{named_form};
ghost use Rattle.writing.specs.Held.{records_of, Loadable, ColumnsFor, ClaimWritten, ProofWritten};
ghost use Rattle.writer.specs.Written.{formed, Beside, Wrote, proved_by};

use claim_files::ClaimFault;
use laying::{put_claim, put_proof};
use verdict::SliceFault;
use vetting::{judge_claim, judge_proof};

// A refusal's number, as taking a permit answers it: above every file's length.
pub fn refuse(number: u16, place: u16) -> u64
    ensures { result ≡ 2 ^ 32 + packed (refused number place) }
{
    4294967296 + ((number as u64) * 65536 + (place as u64))
}

// Whether a number is that of a form.
fn is_form(form: u8) -> bool
    ensures { result ≡ formed form }
{
    form == formula::Form::CLM1 || form == formula::Form::CLM2
}

// A claim's records, of which so many were lent and so many count.
pub fn write_claim(
    form: u8,
    lent: usize,
    count: usize,
    kinds: &[u8; 256],
    a: &[u16; 256],
    b: &[u16; 256],
    sizes: &[u16],
    members: &[u16],
    out: &mut [u8],
) -> u64
    ensures { ClaimWritten form lent count kinds.now a.now b.now sizes.now members.now
        out.old result out.new }
{
    if lent < 256 {
        return refuse(SliceFault::Short as u16, 0);
    }
    if !is_form(form) {
        return refuse(ClaimFault::Opening as u16, 0);
    }
    match judge_claim(form, kinds, a, b, count, sizes, members) {
        Err(refusal) => refuse(refusal.number, refusal.place),
        Ok(end) => {
            if out.len() < end {
                return refuse(SliceFault::Output as u16, 0);
            }
            put_claim(out, form, kinds, a, b, count, sizes, members);
            end as u64
        }
    }
}

// A proof's records, over a claim whose records have passed.
fn write_beside(
    form: u8,
    goals: usize,
    entries: usize,
    kinds: &[u8; 256],
    nodes: usize,
    roots: &[u16],
    rules: &[u8],
    links: &[u16],
    counts: &[u16],
    codes: &[u16],
    out: &mut [u8],
) -> u64
    requires { Beside form goals entries × (24576 ≤ length codes.now) × (nodes ≤ 1024 → ColumnsFor nodes rules.now links.now counts.now) }
    ensures { Wrote (proved_by (named_form form) goals (kind_table kinds.now entries) nodes roots.now (records_of rules.now
        links.now counts.now nodes) codes.now (length out.old)) out.old result out.new }
{
    match judge_proof(
        form, goals, kinds, entries, roots, rules, links, counts, codes, nodes,
    ) {
        Err(refusal) => refuse(refusal.number, refusal.place),
        Ok(length) => {
            if out.len() < length {
                return refuse(SliceFault::Output as u16, 0);
            }
            put_proof(out, form, roots, rules, links, counts, codes, nodes);
            length as u64
        }
    }
}

// A claim's records and a proof's: the claim's are judged first.
pub fn write_proof(
    form: u8,
    lent: usize,
    count: usize,
    kinds: &[u8; 256],
    a: &[u16; 256],
    b: &[u16; 256],
    sizes: &[u16],
    members: &[u16],
    nodes_lent: usize,
    nodes: usize,
    roots: &[u16],
    rules: &[u8],
    links: &[u16],
    counts: &[u16],
    codes: &[u16],
    out: &mut [u8],
) -> u64
    requires { nodes ≤ 1024 → ColumnsFor nodes rules.now links.now counts.now }
    ensures { ProofWritten form lent count kinds.now a.now b.now sizes.now members.now nodes_lent
        nodes rules.now links.now counts.now roots.now codes.now out.old result out.new }
{
    if lent < 256 || nodes_lent < 1024 || codes.len() < 24576 {
        return refuse(SliceFault::Short as u16, 0);
    }
    if !is_form(form) {
        return refuse(ClaimFault::Opening as u16, 0);
    }
    match judge_claim(form, kinds, a, b, count, sizes, members) {
        Err(refusal) => refuse(refusal.number, refusal.place),
        Ok(_) => write_beside(
            form,
            sizes.len(),
            count,
            kinds,
            nodes,
            roots,
            rules,
            links,
            counts,
            codes,
            out,
        ),
    }
}

// How many records of a lent slice are loaded: as many as are given, where the slice is long enough and no more than the most are given.
pub fn loadable(lent: usize, most: usize, given: usize) -> usize
    ensures { Loadable lent most given result }
{
    if lent < most || most < given {
        0
    } else {
        given
    }
}
