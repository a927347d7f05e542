// The first pass over a type stream (01, "Type stream and table"): words to rows, references and names.
#![tactic(auto)]

ghost use Rattle.std.specs.Prelude.{◌≡◌};
ghost use Rattle.records.specs.declared.Error.TheVariants as error;

use shapes::{Fault, Head};
use stream::{Cut, Faulty};

mod fill;
mod pass;
pub mod read;
mod refusal;
mod write;

// How far the outputs are filled: entries, references, name bytes that structs have, and these with the pending name; and the last
// entry's head (2026-01 drops it).
#[derive(Clone, Copy, Debug, Default, PartialEq, Eq)]
pub struct Filled {
    pub entries: usize,
    pub refs: usize,
    pub taken: usize,
    pub mark: usize,
    pub last: Head,
}

// An entry, to be put behind so many rows. It keeps some of the last references, and `more` fields from `from` on are added.
#[derive(Clone, Copy, Debug, PartialEq, Eq)]
pub struct Put {
    pub head: Head,
    pub row: usize,
    pub kept: usize,
    pub from: usize,
    pub more: usize,
}

// Kept: three cases that the definitions name; an Option round two of them is no plainer.
#[derive(Clone, Copy, Debug, PartialEq, Eq)]
pub enum Deed {
    Pass,
    Pend,
    Put(Put),
}

// What the first pass refuses: the head of the record that is cut; no single NumEntry; a record's number and fault; the stated count
// and the entries that were got.
#[derive(Clone, Copy, Debug, PartialEq, Eq)]
pub enum Error {
    CutRecord(u64),
    NoSingleCount,
    BadRecord(u64, Fault),
    CountDiffers(u64, u64),
}

impl From<Cut> for Error {
    ghost from_gives = { λ cut e. e ≡ error.CutRecord cut.head };

    fn from(cut: Cut) -> Error {
        Error::CutRecord(cut.head as u64)
    }
}

impl From<Faulty> for Error {
    ghost from_gives = { λ _ e. e ≡ error.NoSingleCount };

    fn from(_faulty: Faulty) -> Error {
        Error::NoSingleCount
    }
}
