// Sets of states as 64-bit words, bit s for state s, and models in plain numbers: definitions and theorems alone, in specs/ and proofs/.
#![tactic(auto)]
