//! The lowering of statements and programs.
#![tactic(auto)]

mod constants;
mod length;
mod program;
mod statement;
mod variables;

pub use program::lower;
