// What an answer about a beat grid may depend on: definitions and proofs only. The questions' code stands in beat_grid.
#![tactic(auto)]
