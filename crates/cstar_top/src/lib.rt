//! The top call: a program of the words of a command over the outside.
#![tactic(auto)]

mod answer;
mod compile;
mod drill;
mod line;
mod report;
mod run;
mod saved;
mod top;

pub use answer::Answer;
pub use top::cstar;
