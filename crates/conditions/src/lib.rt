// Free names, alternation and guardedness: what refusals 20 to 23 mean, their tests, and that these are exact: in specs/ and proofs/.
#![tactic(auto)]
