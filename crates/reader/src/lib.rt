// The files in document 01's order, the one reading of all calls: the claim by bytes, its table, then the proof beside it. A claim that is
// well formed is held in columns and lists of members that the caller lends, the roots of its proof in another; a refused file may leave a part of its decoding there.
#![tactic(auto)]

ghost use Rattle.std.specs.Prelude.{◌≡◌, length};
ghost use Rattle.claims.specs.ClaimWalk.{ClaimArrays, ClaimTells};
ghost use Rattle.reader.specs.Files.{read_formed_lem};
ghost use Rattle.verdict.specs.Shown.{shown};
ghost use Rattle.reader.specs.Found.{Few, BesideTells, FilesTold};
ghost use Rattle.reader.specs.Begins.{Begins};

use claims::{ClaimRead, judge_beginning, read_claim};
use formula::EntryColumns;
use nodes::{decode_roots, node_count, nodes_place};
use proofs::judge_proof;
use scopes::judge;
use verdict::{Refusal, Verdict};

// What stands before the files, and then the claim's beginning: a caller asks for it before it makes room for the claim.
pub fn begins(before: Verdict, claim: &[u8]) -> Verdict
    ensures { Begins (shown before) claim.now (shown result) }
{
    before?;
    judge_beginning(claim)
}

// 10 to 14: the claim's bytes; then 20 to 23 over its table.
pub fn read_formed(
    claim: &[u8],
    kinds: &mut [u8; 256],
    a: &mut [u16; 256],
    b: &mut [u16; 256],
    bounds: &mut [u16; 17],
    members: &mut [u16; 384],
) -> ClaimRead
    requires { ClaimArrays kinds.old a.old b.old bounds.old members.old }
    ensures { ClaimTells (read_formed_lem claim.now) kinds.new a.new b.new bounds.new members.new result }
{
    let counts = read_claim(claim, kinds, a, b, bounds, members)?;
    judge(&EntryColumns {
        kinds,
        a,
        b,
        count: counts.entries,
    })?;
    Ok(counts)
}

// How many entries, goals and nodes there are, and where the nodes begin.
#[derive(Clone, Copy)]
pub struct FileCounts {
    pub entries: usize,
    pub goals: usize,
    pub nodes: usize,
    pub at: usize,
}

// The counts, or what comes before the rules.
pub type FilesRead = Result<FileCounts, Refusal>;

// Beside a claim that was read, 30 to 34: the proof's bytes, by the claim's form, its goals and the kinds of its entries; then the roots.
pub fn read_beside(
    formed: ClaimRead,
    proof: &[u8],
    kinds: &[u8; 256],
    roots: &mut [u16; 16],
) -> FilesRead
    requires { Few formed × (length roots.old ≡ 16) }
    ensures { BesideTells formed proof.now kinds.now roots.new result }
{
    let claim = formed?;
    judge_proof(proof, claim.form, claim.goals, kinds, claim.entries)?;
    decode_roots(proof, claim.form, claim.goals, roots);
    Ok(FileCounts {
        entries: claim.entries,
        goals: claim.goals,
        nodes: node_count(proof),
        at: nodes_place(claim.form, claim.goals),
    })
}

// Both files, where nothing was refused before.
pub fn find_files(
    before: Verdict,
    claim: &[u8],
    proof: &[u8],
    kinds: &mut [u8; 256],
    a: &mut [u16; 256],
    b: &mut [u16; 256],
    bounds: &mut [u16; 17],
    members: &mut [u16; 384],
    roots: &mut [u16; 16],
) -> FilesRead
    requires { ClaimArrays kinds.old a.old b.old bounds.old members.old × (length roots.old ≡ 16) }
    ensures { FilesTold (shown before) claim.now proof.now kinds.new a.new b.new
        bounds.new members.new roots.new result }
{
    before?;
    let formed = read_formed(claim, kinds, a, b, bounds, members);
    read_beside(formed, proof, kinds, roots)
}
