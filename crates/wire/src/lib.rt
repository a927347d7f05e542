// What the program reads and writes (01, "Program"): bytes as words, and the line of an answer.
#![tactic(auto)]

pub mod line;
pub mod words;
