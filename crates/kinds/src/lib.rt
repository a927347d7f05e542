// The numbers of the type stream and of its rows: codes, kinds, and which kind may stand where.
#![tactic(auto)]

pub mod code;
pub mod kind;
pub mod place;
