// Two goals over one table with their proofs: 73, 74 and 70, and then both files of the whole. No refusal writes a byte.
#![tactic(auto)]

ghost use Rattle.std.specs.Prelude.{length, take};
ghost use Rattle.formula.specs.Columned.{entries};
ghost use Rattle.nodes.specs.ProofDecode.{proof_in};
ghost use Rattle.sequents.specs.Part.{part};
ghost use Rattle.joined_files.specs.FaultNumbers.{number_of};
ghost use Rattle.joined_files.specs.Wholly.{Wholly};
ghost use Rattle.joined_files.specs.Ready.{laid_down};
ghost use Rattle.joined_files.specs.Paired.{fitted};
ghost use Rattle.joined_files.specs.Columned.{ReadyIn, PairedIn};

use fitting::join_goals;
use formula::{EntryColumns, Form};
use joined_proofs::put_joined;
use laying::put_claim;
use nodes::node_count;
use numbers::number_formulas;
use sequents::numbered::NumberedTable;
use verdict::{Fault, SliceFault};
use writer::refuse;

// What two accepted inputs earn that do not join.
#[derive(Clone, Copy, PartialEq, Eq)]
pub enum JoinFault {
    Unfit = 73,
    Nodes = 74,
}

impl Fault for JoinFault {
    ghost number_of = { number_of };

    fn number(self) -> u16 {
        self as u16
    }
}

// The whole, of goals that fit: 74 for more than 1,024 nodes, then 70 for a slice without room, and then the bytes.
fn write_joined(
    entry: u16,
    table: &EntryColumns,
    claim_length: usize,
    goal: &[u16; 24],
    members: usize,
    first: &[u8],
    second: &[u8],
    claim: &mut [u8],
    proof: &mut [u8],
) -> u64
    requires { ReadyIn entry table.now claim_length goal.now members first.now second.now }
    ensures { Wholly (laid_down (entries table.now) (take members goal.now)
        (proof_in first.now 6) (proof_in second.now 6) entry (length claim.old) (length proof.old))
        claim.old proof.old result claim.new proof.new }
{
    if 1024 < node_count(first) + node_count(second) + 1 {
        return refuse(JoinFault::Nodes as u16, 0);
    }
    if claim.len() < claim_length {
        return refuse(SliceFault::Output as u16, 0);
    }
    let proof_length = first.len() + second.len() + 2 * members + 3;
    if proof.len() < proof_length {
        return refuse(SliceFault::Output as u16, 0);
    }
    let mut counts = [0u16; 1];
    counts[0] = members as u16;
    put_claim(
        claim,
        Form::CLM1,
        table.kinds,
        table.a,
        table.b,
        table.count,
        &counts,
        goal,
    );
    put_joined(proof, entry, goal, members, first, second);
    claim_length as u64 + 65536 * (proof_length as u64)
}

// Two goals over one table, with their proofs: 73, and then the whole. The first claim has so many bytes.
pub fn join_goals_of(
    entry: u16,
    table: &EntryColumns,
    claim_length: usize,
    members: &[u16; 384],
    from: usize,
    to: usize,
    others: &[u16; 384],
    others_from: usize,
    others_to: usize,
    first: &[u8],
    second: &[u8],
    claim: &mut [u8],
    proof: &mut [u8],
) -> u64
    requires { PairedIn table.now claim_length members.now from to others.now others_from others_to first.now second.now }
    ensures { Wholly (fitted (entries table.now) (part members.now from to)
        (part others.now others_from others_to) (proof_in first.now 6) (proof_in second.now 6) entry
        (length claim.old) (length proof.old)) claim.old proof.old result claim.new proof.new }
{
    let mut canon = [0u16; 256];
    number_formulas(table, &mut canon);
    let numbered = NumberedTable {
        columns: *table,
        canon: &canon,
    };
    let mut goal = [0u16; 24];
    match join_goals(
        &numbered,
        entry,
        members,
        from,
        to,
        others,
        others_from,
        others_to,
        &mut goal,
    ) {
        None => refuse(JoinFault::Unfit as u16, entry),
        Some(count) => write_joined(
            entry,
            table,
            claim_length + 2 * count - 2 * (to - from),
            &goal,
            count,
            first,
            second,
            claim,
            proof,
        ),
    }
}
