// What an answer about a cue may depend on: definitions and proofs only. The question's code stands in cue_list.
#![tactic(auto)]
