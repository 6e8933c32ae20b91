//! What the front of the compiler hands on: tokens, the syntax tree and the typed tree, as data.
#![tactic(auto)]

pub mod syntax;
pub mod token;
pub mod typed;
