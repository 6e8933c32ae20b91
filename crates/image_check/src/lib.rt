//! The check of a linked image: whether it keeps the six image rules.
#![tactic(auto)]

mod chains;
mod check;
mod fault;
mod lookup;
mod marks;
mod parts;
mod rule_back_edge;
mod rule_field;
mod rule_operands;
mod rule_set;
mod rule_stack;
mod rule_target;
mod sound;
mod units;

pub use fault::CheckErr;
pub use sound::{Sound, verify};
