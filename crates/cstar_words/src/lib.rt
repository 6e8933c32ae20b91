//! The words of the command: what it is asked to do, with which options, for which file.
#![tactic(auto)]

mod line;
mod number;
mod options;
mod reading;

pub use options::{Mode, Options};
pub use reading::{WordsErr, read};
