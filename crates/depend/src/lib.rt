// What an answer may depend on: definitions and proofs only. The questions' code stands in export.

#![tactic(auto)]
