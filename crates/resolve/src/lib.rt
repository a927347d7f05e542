// No code: what the answers of the walk mean, by what the checker says (specs/Promises.antt, proofs/Promises.antt).
#![tactic(auto)]
