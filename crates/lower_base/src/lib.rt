//! What all of the lowering stands on: how a unit grows, where the variables have their registers
//! and fields, which operator of the machine an operator of the language is, and of which narrow type the
//! value of an expression is.
#![tactic(auto)]

pub mod emit;
pub mod kinds;
pub mod names;
pub mod operators;
pub mod view;

pub use emit::{Operand, Out};
pub use view::View;
