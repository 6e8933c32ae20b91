//! The nodes of the typed tree over typed operands: conversions, promotions, and the operators with
//! the types that they give.
#![tactic(auto)]

pub mod assignments;
pub mod conversions;
pub mod format;
pub mod operators;
