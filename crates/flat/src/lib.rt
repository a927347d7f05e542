// The layout record as flat words, for whoever lends a buffer of words and cannot take a record.
#![tactic(auto)]

mod defaults;
mod lists;
mod moves;
mod parts;
pub mod put;
pub mod read;
