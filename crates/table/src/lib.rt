// The four lent buffers. Here alone it is known how long a row is and which of its words says what (2026-07).
#![tactic(auto)]

pub mod buffer;
pub mod row;

// A reference: the number of an entry. A rank is another number and another type.
#[derive(Clone, Copy, Debug, PartialEq, Eq, PartialOrd, Ord)]
pub struct TypeRef(pub u64);

#[derive(Clone, Copy, Debug, PartialEq, Eq, PartialOrd, Ord)]
pub struct Rank(pub u64);
