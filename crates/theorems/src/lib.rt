// What holds of every list of calls from the empty graph: statements and proofs stand in specs, and there is no code.
#![tactic(auto)]
