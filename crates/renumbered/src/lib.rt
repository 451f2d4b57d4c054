// Document 02, n: the bodies of a job under other numbers. Definitions and their proofs alone.

#![tactic(auto)]
