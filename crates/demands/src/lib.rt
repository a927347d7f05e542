// No code: what an answer of the whole reader means (specs/Demands.antt, proofs/Demands.antt).
#![tactic(auto)]
