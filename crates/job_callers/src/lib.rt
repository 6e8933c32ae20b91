//! Several callers, each in a thread of its own, do the jobs of one book; and the batch of their
//! reports.
#![tactic(auto)]

mod batch;
mod callers;
mod section;
mod stop;

pub use callers::{Callers, MOST_CALLERS, MOST_JOBS};
pub use stop::Stop;
