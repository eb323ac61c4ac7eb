// Whether a node keeps its rule, over tables in plain numbers: refusal 37. What the rules ask is in the crate
// calculus.
#![tactic(auto)]

pub mod kept; // kept.rt: the test of each rule, refusal 37
