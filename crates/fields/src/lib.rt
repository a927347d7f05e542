// The numbers in a spec of a data layout string: a part of it, read and tested (datalayout.rs, align.rs).
#![tactic(auto)]

pub mod numbers;
pub mod parts;
