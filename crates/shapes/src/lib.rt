// What a record of the type stream says, by value: from its code and what was seen of its fields, with no output lent. A reader of
// portions gathers the same (2026-04), and so does a question for one entry (2026-08).
#![tactic(auto)]

ghost use Rattle.std.specs.Prelude.{◌≡◌};
ghost use Rattle.shapes.specs.declared.Fault.TheVariants as fault;

use kinds::code::UnknownCode;

pub mod record;

// What can be wrong with a record, in the order of the refusal numbers.
#[derive(Clone, Copy, Debug, PartialEq, Eq)]
pub enum Fault {
    LacksField,
    UnknownCode(u64),
    OldFunction,
    BadName,
    NamelessOpaque,
    AlreadyFilled,
    SpaceTooLarge(u64),
    NoRoom,
}

impl From<UnknownCode> for Fault {
    ghost from_gives = { λ unknown r. r ≡ fault.UnknownCode unknown.0 };

    fn from(unknown: UnknownCode) -> Fault {
        Fault::UnknownCode(unknown.0)
    }
}

// What a row says of an entry without its places.
#[derive(Clone, Copy, Debug, Default, PartialEq, Eq)]
pub struct Head {
    // Kept: what may not change: the definitions read the last head back from an entry, whose kind is a number (`filled_of` of
    // records), so this is the number of a `TypeId`.
    pub kind: u64,
    pub number: u64,
    pub flag: u64,
    pub count: usize,
    pub named: bool,
}

// What was seen of the fields: how many, and the first three, 0 where there is none.
// Kept: what may not change: the definition (`seen_in`) has 0 there, and the count tells which are there.
#[derive(Clone, Copy, Debug, Default, PartialEq, Eq)]
pub struct Seen {
    pub count: usize,
    pub first: u64,
    pub second: u64,
    pub third: u64,
}

// Kept: five cases that the definitions name; an Option round four of them is no plainer.
// The references of an entry are as many fields as its head counts, from the field that the second number says.
#[derive(Clone, Copy, Debug, PartialEq, Eq)]
pub enum Shape {
    Nothing,
    Name,
    Adds(Head, usize),
    Opaque(Head, usize),
    Named(Head, usize),
}
