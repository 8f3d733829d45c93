// Runs: definitions and proofs only. The calls' code stands in intake and export.

#![tactic(auto)]
