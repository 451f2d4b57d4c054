// Document 02, n, of a solve by groups. Definitions and their proofs alone.

#![tactic(auto)]
