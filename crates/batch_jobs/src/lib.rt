//! The jobs of a batch: what the command says to one file on empty input.
#![tactic(auto)]

mod one_file;
mod page;
mod report;

pub use report::{OUT_LIMIT, job};
