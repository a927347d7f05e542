// The second pass (01, "Resolution"): each entry's references are walked, its own rule is judged, and it gets its rank.
#![tactic(auto)]

pub mod judge;
pub mod marks;
mod refusal;
pub mod walk;

use rules::Place;

// What an entry is refused for, with the detail of document 01's table.
#[derive(Clone, Copy, Debug, PartialEq, Eq)]
pub enum Fault {
    OutOfRange(u64),
    Width(u64),
    Referent(Place, u64),
}

// What ends the walk of an entry, or of a stretch of references, before it has a rank: an unfinished entry met again, which was begun
// at that depth of the path, in a ring of so many; or an entry that is at fault.
#[derive(Clone, Copy, Debug, PartialEq, Eq)]
pub(crate) enum Stop {
    Ring {
        again: usize,
        from: usize,
        len: usize,
    },
    Refused {
        entry: usize,
        fault: Fault,
    },
}

// What the pass refuses a table for: an entry that is at fault, or a cycle, of which the entry met again and the ring's length are told.
#[derive(Clone, Copy, Debug, PartialEq, Eq)]
pub enum Error {
    Refused { entry: usize, fault: Fault },
    Cycle { again: usize, length: usize },
}
