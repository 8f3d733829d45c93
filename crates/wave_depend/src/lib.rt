// What an answer about a waveform's entry may depend on: definitions and proofs only. The question's code stands in waveform.
#![tactic(auto)]
