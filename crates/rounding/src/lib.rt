// Laws of rounding over whole numbers: definitions in specs/, laws in proofs/, and no code.

#![tactic(auto)]
