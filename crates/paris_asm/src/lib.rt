//! Listings read back: the image that a listing is of.
#![tactic(auto)]

mod differences;
mod instructions;
mod lines;
mod listing;
mod operands;
mod plain;
mod words;

pub use listing::{AsmFault, read};
pub use plain::is_plain;
