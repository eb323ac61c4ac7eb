// What was read of two files, and how it is laid out as the judge of the rules asks: in specs/. Here only the form in which it goes from
// function to function.
#![tactic(auto)]

use goals::columns::GoalColumns;

// A proof that was read beside a claim: the claim's goals with their roots, the file, and the place and the number of its nodes.
#[derive(Clone, Copy)]
pub struct ReadProof<'g, 'p> {
    pub goals: GoalColumns<'g>,
    pub bytes: &'p [u8],
    pub at: usize,
    pub nodes: usize,
}
