// The data layout string whole: its specs in order, each applied to the record (`DataLayout::from_str` of datalayout.rs).
#![tactic(auto)]

pub mod apply;
pub mod error;
pub mod map;
