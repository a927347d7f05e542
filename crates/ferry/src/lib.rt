// The whole reader (01, "Refusal numbers" and "Program"): the two passes put together, and what the program does with bytes.
#![tactic(auto)]

pub mod program;
pub mod read;

use units::refusal::Refusal;

// What the reader answers: so many entries, or a refusal.
pub type Answer = Result<u64, Refusal>;
