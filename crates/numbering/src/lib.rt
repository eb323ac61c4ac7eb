// When a table of numbers, one for each entry and number of names bound, tells formulas apart: definitions and theorems alone, in specs/ and proofs/.
#![tactic(auto)]
