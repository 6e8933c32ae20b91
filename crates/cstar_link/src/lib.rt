//! Linking: the units of a placed program become one list of code, and each set has the bits that its
//! fields reach.
#![tactic(auto)]

mod image;
pub mod laws;
mod sets;
mod target;

pub use image::link;
