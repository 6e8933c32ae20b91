//! Gets, NEWS and single processors over blocks, by any number of workers.
#![tactic(auto)]

mod get;
mod instruction;
mod news;
mod one;
mod spread;
mod step;
mod window;

pub use get::{Get, gather};
pub use instruction::run;
pub use news::{News, Taking, hold, shift, step_block};
pub use step::{Step, lanes_from};
