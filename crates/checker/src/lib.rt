// The separate checker (01, "Resolution"): rows, references, names and ranks of any contents. It calls nothing of the reader or the walk.
#![tactic(auto)]

pub mod check;
pub mod form;
