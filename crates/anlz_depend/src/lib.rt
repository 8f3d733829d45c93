// Answers about beats, cues and waveforms of an ANLZ file depend on sections of their own code: definitions and proofs only.
#![tactic(auto)]
