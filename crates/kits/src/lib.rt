// Kits with other limits: statements and proofs stand in specs, and there is no code.
#![tactic(auto)]
