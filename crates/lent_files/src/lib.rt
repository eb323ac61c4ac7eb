// The files judged as they stand in lent slices: the claim's entries are stored as records and loaded from where they stand, then the nodes.
// A refusal before the rules stores nothing.
#![tactic(auto)]

ghost use Rattle.std.specs.Prelude.{◌≡◌};
ghost use Rattle.verdict.specs.Verdict.{accepted};
ghost use Rattle.verdict.specs.Shown.{shown};
ghost use Rattle.lent_files.specs.LentJudged.{AllLong, LentTold};

use formula::EntryColumns;
use goals::columns::GoalColumns;
use laid::ReadProof;
use reader::find_files;
use records::{Entry, Node, load_entries, store_entries};
use standing::judge_stored;
use verdict::Verdict;

// The files behind what stands before them.
pub fn judge_read(
    before: Verdict,
    claim: &[u8],
    proof: &[u8],
    entries: &mut [Entry],
    nodes: &mut [Node],
    codes: &mut [u16],
) -> Verdict
    requires { shown before ≡ accepted → AllLong entries.old nodes.old codes.old }
    ensures { LentTold (shown before) claim.now proof.now entries.old nodes.old codes.old
        (shown result) entries.new nodes.new codes.new }
{
    let mut kinds = [0u8; 256];
    let mut a = [0u16; 256];
    let mut b = [0u16; 256];
    let mut bounds = [0u16; 17];
    let mut members = [0u16; 384];
    let mut roots = [0u16; 16];
    let counts = find_files(
        before,
        claim,
        proof,
        &mut kinds,
        &mut a,
        &mut b,
        &mut bounds,
        &mut members,
        &mut roots,
    )?;
    store_entries(entries, &kinds, &a, &b, counts.entries);
    load_entries(entries, counts.entries, &mut kinds, &mut a, &mut b);
    let columns = EntryColumns {
        kinds: &kinds,
        a: &a,
        b: &b,
        count: counts.entries,
    };
    let goals = GoalColumns {
        bounds: &bounds,
        members: &members,
        roots: &roots,
        count: counts.goals,
    };
    let read = ReadProof {
        goals,
        bytes: proof,
        at: counts.at,
        nodes: counts.nodes,
    };
    judge_stored(&columns, &read, nodes, codes)
}
