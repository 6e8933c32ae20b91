//! Saved points: a stopped run as bytes, and back.
#![tactic(auto)]

mod bits;
mod determined;
mod loading;
mod point;
mod saving;

pub use bits::Bits;
pub use determined::bytes_determine_point;
pub use loading::{LoadFault, load};
pub use point::Point;
pub use saving::save;
