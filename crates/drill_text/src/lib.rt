//! The text of a drill: a program that is made from a seed, as one large input.
#![tactic(auto)]

mod draws;
mod text;

pub use text::drill_text;
