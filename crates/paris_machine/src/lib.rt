//! Runs of checked images: the front end, the phases, the input and the output together.
#![tactic(auto)]

mod laws;
mod outcome;
mod steps;

pub use laws::{code_in_two, runs_in_two};
pub use outcome::{End, Outcome};
pub use steps::{resume, run};
