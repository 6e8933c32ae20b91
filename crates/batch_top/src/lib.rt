//! The command that runs a list of files: its words, the files, several callers that do their jobs,
//! and the batch of the reports.
#![tactic(auto)]

mod batch;
mod ending;
mod fetch;
mod jobs;
mod words;

pub use batch::cstar_batch;
