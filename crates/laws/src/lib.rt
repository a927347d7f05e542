#![tactic(auto)]

// No code stands here: this crate is the words of specs/ and the laws of proofs/.
