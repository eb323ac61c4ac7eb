// The gate's calls: the single check, joining, and opening, closing, taking, presenting, evaluating and writing on what C lends. Its states and the
// steps by value are in the crates `permit`, `numbered` and `granting`.
#![tactic(auto)]

pub mod check;
pub mod evaluate;
pub mod join;
pub mod lent;
pub mod present;
pub mod write;
