// Numbers that the format limits: decimal integers, alignments, widths and address spaces (align.rs).
#![tactic(auto)]

pub mod align;
pub mod decimal;
pub mod limits;
pub mod refusal;
