//! The elementwise instructions and the checks, over blocks of 512 positions, by any number of
//! workers.
#![tactic(auto)]

mod checks;
mod columns;
mod everywhere;
mod failures;
mod in_block;
mod lanes;
mod moved;
mod overlap;
mod planar;
mod preparing;
mod relations;
mod ways;
mod writes;

pub use everywhere::run;
pub use preparing::Prepared;
