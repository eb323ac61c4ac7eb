// What is asked of the gate: the verdict on two files, what presenting and evaluating leave, in specs/, and the demands over
// them, in proofs/Demands.antt. No code.
#![tactic(auto)]
