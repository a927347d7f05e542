// What a data layout string says: the record `DataLayout` of datalayout.rs, with the rows of align.rs, their limits and defaults.
#![tactic(auto)]

pub mod change;
pub mod defaults;
pub mod numbers;
pub mod pointers;
pub mod record;
mod rows;
pub mod types;
