// The judge of the rules over tables in plain numbers: refusals 35 to 39. What the rules ask, and why an accepted proof is sound, is in
// the crate calculus; whether a node keeps its rule, in kept.
#![tactic(auto)]

pub mod judge; // judge.rt: the whole, stage by stage
