// The first fault of two files, or acceptance: claim, table, proof and rules, in that order, on memory of its own.
#![tactic(auto)]

ghost use Rattle.std.specs.Prelude.{◌≡◌, ◌+◌, ◌*◌, ◌≤◌};
ghost use Rattle.verdict.specs.Shown.{shown};
ghost use Rattle.formula.specs.Claim.{Form};
ghost use Rattle.formula.specs.NodeColumns.{Columns};
ghost use Rattle.calculus.specs.Judge.{judge as judged};
ghost use Rattle.demands.specs.Check.{verdict};
ghost use Rattle.laid.specs.Columned.{ReadableIn, claim_read, proof_read};

use claims::judge_beginning;
use formula::{EntryColumns, LinkColumns, NodeColumns};
use goals::columns::GoalColumns;
use laid::ReadProof;
use nodes::decode_proof;
use numbers::number_formulas;
use reader::{read_beside, read_formed};
use rules::judge::judge;
use sequents::numbered::NumberedTable;
use verdict::Verdict;

// 35 to 39 over a proof that was read, in columns with room for its nodes.
fn judge_in<'a>(
    table: &NumberedTable,
    proof: &ReadProof,
    rules: &'a mut [u8],
    links: &'a mut [u16],
    starts: &'a mut [u16],
    codes: &'a mut [u16],
) -> Verdict
    requires { ReadableIn table.now.columns proof.now × Columns proof.now.nodes rules.old links.old starts.old codes.old }
    ensures { (f : Form) → shown result ≡ judged (claim_read table.now.columns proof.now f) (proof_read proof.now) }
{
    decode_proof(proof.bytes, proof.at, rules, links, starts, codes);
    let tree = LinkColumns {
        rules,
        links,
        nodes: proof.nodes,
    };
    let nodes = NodeColumns {
        tree,
        starts,
        codes,
    };
    judge(table, &proof.goals, &nodes)
}

// In columns of its own for so many nodes: a small proof clears no more than it needs. It is not put into its caller, so what it clears, up
// to 60,000 bytes, is no part of the frame that every call takes, also one that refuses at its sixth byte.
#[inline(never)]
fn judge_within<const NODES: usize, const LINKS: usize, const STARTS: usize, const CODES: usize>(
    table: &NumberedTable,
    proof: &ReadProof,
) -> Verdict
    requires readable { ReadableIn table.now.columns proof.now }
    requires room { (proof.now.nodes ≤ NODES) × (NODES ≤ 1024) × (LINKS ≡ 4 * NODES) × (STARTS ≡ NODES + 1) × (CODES ≡ 24 * NODES) }
    ensures { (f : Form) → shown result ≡ judged (claim_read table.now.columns proof.now f) (proof_read proof.now) }
{
    let mut rules = [0u8; NODES];
    let mut links = [0u16; LINKS];
    let mut starts = [0u16; STARTS];
    let mut codes = [0u16; CODES];
    judge_in(
        table,
        proof,
        &mut rules,
        &mut links,
        &mut starts,
        &mut codes,
    )
}

// In columns of the size that the count asks for.
fn judge_numbered(table: &NumberedTable, proof: &ReadProof) -> Verdict
    requires { ReadableIn table.now.columns proof.now }
    ensures { (f : Form) → shown result ≡ judged (claim_read table.now.columns proof.now f) (proof_read proof.now) }
{
    if proof.nodes <= 32 {
        judge_within::<32, 128, 33, 768>(table, proof)
    } else if proof.nodes <= 128 {
        judge_within::<128, 512, 129, 3072>(table, proof)
    } else {
        judge_within::<1024, 4096, 1025, 24576>(table, proof)
    }
}

// The numbers of the claim's formulas, and then the rules: the room for numbering is given back before the proof's is taken.
fn judge_rules(columns: &EntryColumns, proof: &ReadProof) -> Verdict
    requires { ReadableIn columns.now proof.now }
    ensures { (f : Form) → shown result ≡ judged (claim_read columns.now proof.now f) (proof_read proof.now) }
{
    let mut canon = [0u16; 256];
    number_formulas(columns, &mut canon);
    let table = NumberedTable {
        columns: *columns,
        canon: &canon,
    };
    judge_numbered(&table, proof)
}

// The files in columns of its own.
fn judge_read(claim: &[u8], proof: &[u8]) -> Verdict
    ensures { shown result ≡ verdict claim.now proof.now }
{
    let mut kinds = [0u8; 256];
    let mut a = [0u16; 256];
    let mut b = [0u16; 256];
    let mut bounds = [0u16; 17];
    let mut members = [0u16; 384];
    let mut roots = [0u16; 16];
    let formed = read_formed(claim, &mut kinds, &mut a, &mut b, &mut bounds, &mut members);
    let counts = read_beside(formed, proof, &kinds, &mut roots)?;
    let columns = EntryColumns {
        kinds: &kinds,
        a: &a,
        b: &b,
        count: counts.entries,
    };
    let goals = GoalColumns {
        bounds: &bounds,
        members: &members,
        roots: &roots,
        count: counts.goals,
    };
    let read = ReadProof {
        goals,
        bytes: proof,
        at: counts.at,
        nodes: counts.nodes,
    };
    judge_rules(&columns, &read)
}

// The first fault of two files, or acceptance. A claim that is refused by its beginning is refused before any column is cleared.
pub fn judge_files(claim: &[u8], proof: &[u8]) -> Verdict
    ensures { shown result ≡ verdict claim.now proof.now }
{
    judge_beginning(claim)?;
    judge_read(claim, proof)
}
