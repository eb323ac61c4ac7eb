// The formula that an entry stands for, and that meaning, rank and kind go by it: definitions and theorems alone, in specs/ and proofs/.
#![tactic(auto)]
