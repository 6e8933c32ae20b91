//! The planes of 512 processors: one plane of 512 bits for each bit of their memory, and columns of
//! numbers that stand across planes.
#![tactic(auto)]

mod block;
mod lanes;
pub mod plane;
mod rows;
mod transpose;

pub use block::Block;
pub use lanes::Lanes;
pub use plane::Plane;
pub use rows::Rows;
