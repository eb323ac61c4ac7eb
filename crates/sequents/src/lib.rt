// Sequents as sets of members, and what a rule makes of them by a node's principal. What the rules ask is in the crate calculus.
#![tactic(auto)]

pub mod numbered; // numbered.rt: an entry table with the numbers of its formulas, and its members
pub mod principal; // principal.rt: whether a principal is a formula, and the side with a member more
pub mod sets; // sets.rt: sequents as sets, and the roots, refusal 36
