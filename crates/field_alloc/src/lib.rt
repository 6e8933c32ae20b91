//! Placing: each virtual field of a program gets its bits.
#![tactic(auto)]

mod chains;
mod fields;
mod finals;
pub mod laws;
mod lent;
mod made;
mod offsets;
mod owns;
mod places;
mod placing;
mod spans;
mod stretches;

pub use placing::place;
