//! The phases of the machine: what it does on all processors at once, and a plain implementation
//! on one thread.
#![tactic(auto)]

mod apply;
mod block_runs;
mod checks;
mod communication;
mod elements;
mod phases;
mod row_phases;
mod rows;
mod scans;
mod sends;

pub use phases::Phases;
pub use row_phases::RowPhases;
