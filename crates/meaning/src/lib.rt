// The Kripke meaning of formulas in finite models: definitions and theorems alone, in specs/ and proofs/.
#![tactic(auto)]
