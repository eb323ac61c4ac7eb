// Two proofs joined (T-07): the claim and proof of an entry "A and B" from those of its halves, why they are accepted, and what joining answers:
// in specs/ and proofs/.
#![tactic(auto)]
