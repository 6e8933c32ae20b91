//! The lowering of expressions.
#![tactic(auto)]

mod assign;
mod calls;
pub mod conditions;
pub mod conversions;
pub mod effect_lengths;
pub mod effects;
mod frames;
pub mod joined;
mod kinds;
mod leaves;
pub mod length;
mod listed;
mod logical;
pub mod operands;
mod operator_lengths;
pub mod parts;
mod place_lengths;
mod places;
mod positions;
mod spots;
pub mod steps;
mod value;

pub use calls::expr;
