// What every refusal of the library answers.

// The number, place and detail of a refusal, as docs/REFUSALS.md lists them.
#[derive(Clone, Copy, Debug, PartialEq, Eq)]
pub struct Refusal {
    pub number: u64,
    pub place: u64,
    pub detail: u64,
}
