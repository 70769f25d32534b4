// The kit's engine and the sketch side by side: statements and proofs stand in specs, and there is no code.
#![tactic(auto)]
