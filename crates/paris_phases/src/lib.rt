//! The phases of the machine over blocks, by any number of workers.
#![tactic(auto)]

mod block_runs;
mod crew;
mod families;
mod fork;
mod machine;
mod passes;
mod workers;

pub use crew::Crew;
pub use fork::ForkPhases;
pub use machine::Machine;
pub use workers::workers_for;
