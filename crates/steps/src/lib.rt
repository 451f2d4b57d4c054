// The steps of a solve and what its answer means, over parts left open: definitions in specs/, theorems in proofs/, and no code.

#![tactic(auto)]
