//! A book of jobs that several callers share behind a lock: each number is drawn once, in order, and
//! each report is posted once, for a number that was drawn.
#![tactic(auto)]

mod book;
mod entry;
mod judge;
mod report;

pub use book::{Book, Jobs};
pub use entry::Entry;
pub use judge::Judge;
pub use report::Report;
