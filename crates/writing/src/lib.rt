// The file that records make, and what a writer answers of it. No code.
#![tactic(auto)]
