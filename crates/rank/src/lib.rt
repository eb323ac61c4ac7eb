// Refutation within a number of modal steps, on which soundness rests: definitions and theorems alone, in specs/ and proofs/.
#![tactic(auto)]
