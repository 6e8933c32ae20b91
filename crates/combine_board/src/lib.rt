//! A board on which workers of several threads combine messages, without locks and in any order.
//! Each call is one atomic step, which is one event of the machine of `combine_core`.
#![tactic(auto)]

mod board;
mod laws;
mod pass;
mod task;
mod tree;
mod view;
mod words;

pub use board::Board;
pub use laws::{boards_cross_threads, every_moment, steps_are_events};
pub use pass::Pass;
pub use tree::{combine_all, work};
pub use words::Words;
