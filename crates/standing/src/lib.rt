// The nodes of a proof that was read, stored as records in the slices that a caller lends and judged as they stand there: the columns that
// the rules read are loaded from the records, the codes read where they were lent.
#![tactic(auto)]

ghost use Rattle.std.specs.Prelude.{◌≡◌, ◌+◌, ◌*◌, ◌≤◌};
ghost use Rattle.verdict.specs.Shown.{shown};
ghost use Rattle.formula.specs.Claim.{Form};
ghost use Rattle.formula.specs.Held.{held_proof};
ghost use Rattle.calculus.specs.Judge.{judge as judged};
ghost use Rattle.sequents.specs.Columned.{numbered};
ghost use Rattle.goals.specs.Columned.{GoalsIn, claim_in};
ghost use Rattle.rules.specs.JudgeStages.{Laid};
ghost use Rattle.laid.specs.Columned.{ReadableIn, claim_read, proof_read};
ghost use Rattle.standing.specs.Standing.{RoomFor, JudgedStored};

use formula::{EntryColumns, LinkColumns, NodeColumns};
use goals::columns::GoalColumns;
use laid::ReadProof;
use nodes::decode_proof;
use numbers::number_formulas;
use records::{Node, load_nodes, store_nodes};
use rules::judge::judge;
use sequents::numbered::NumberedTable;
use verdict::Verdict;

// The rules over columns that were loaded from the records.
fn judge_loaded<'a>(
    table: &NumberedTable,
    goals: &GoalColumns,
    rules: &'a [u8],
    links: &'a [u16],
    starts: &'a [u16],
    codes: &'a [u16],
    nodes: usize,
) -> Verdict
    requires { Laid table.now.columns.kinds.now table.now.columns.a.now table.now.columns.b.now table.now.columns.count
        rules.now links.now starts.now codes.now nodes × GoalsIn table.now.columns.count goals.now nodes }
    ensures { (f : Form) → shown result ≡ judged (claim_in f (numbered table.now) goals.now)
        (held_proof rules.now links.now starts.now codes.now nodes goals.now.roots.now goals.now.count) }
{
    let tree = LinkColumns {
        rules,
        links,
        nodes,
    };
    let columns = NodeColumns {
        tree,
        starts,
        codes,
    };
    judge(table, goals, &columns)
}

// In columns with room for so many nodes: a small proof clears no more than it needs.
fn judge_within<const NODES: usize, const LINKS: usize, const STARTS: usize>(
    table: &NumberedTable,
    proof: &ReadProof,
    nodes: &mut [Node],
    codes: &mut [u16],
) -> Verdict
    requires readable { ReadableIn table.now.columns proof.now × RoomFor NODES proof.now.nodes nodes.old codes.old }
    requires room { (NODES ≤ 1024) × (LINKS ≡ 4 * NODES) × (STARTS ≡ NODES + 1) }
    ensures { JudgedStored (claim_read table.now.columns proof.now) (proof_read proof.now) nodes.old codes.old (shown result) nodes.new codes.new }
{
    let mut rules = [0u8; NODES];
    let mut links = [0u16; LINKS];
    let mut starts = [0u16; STARTS];
    decode_proof(
        proof.bytes,
        proof.at,
        &mut rules,
        &mut links,
        &mut starts,
        codes,
    );
    store_nodes(nodes, &rules, &links, &starts, proof.nodes);
    load_nodes(nodes, proof.nodes, &mut rules, &mut links, &mut starts);
    judge_loaded(
        table,
        &proof.goals,
        &rules,
        &links,
        &starts,
        codes,
        proof.nodes,
    )
}

// In columns of the size that the count asks for.
fn judge_numbered(
    table: &NumberedTable,
    proof: &ReadProof,
    nodes: &mut [Node],
    codes: &mut [u16],
) -> Verdict
    requires { ReadableIn table.now.columns proof.now × RoomFor 1024 proof.now.nodes nodes.old codes.old }
    ensures { JudgedStored (claim_read table.now.columns proof.now) (proof_read proof.now) nodes.old codes.old (shown result) nodes.new codes.new }
{
    if proof.nodes <= 32 {
        judge_within::<32, 128, 33>(table, proof, nodes, codes)
    } else {
        judge_within::<1024, 4096, 1025>(table, proof, nodes, codes)
    }
}

// The numbers of the claim's formulas, and then the rules: the room for numbering is given back before the columns are taken.
pub fn judge_stored(
    columns: &EntryColumns,
    proof: &ReadProof,
    nodes: &mut [Node],
    codes: &mut [u16],
) -> Verdict
    requires { ReadableIn columns.now proof.now × RoomFor 1024 proof.now.nodes nodes.old codes.old }
    ensures { JudgedStored (claim_read columns.now proof.now) (proof_read proof.now) nodes.old codes.old (shown result) nodes.new codes.new }
{
    let mut canon = [0u16; 256];
    number_formulas(columns, &mut canon);
    let table = NumberedTable {
        columns: *columns,
        canon: &canon,
    };
    judge_numbered(&table, proof, nodes, codes)
}
