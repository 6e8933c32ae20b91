//! Sets of virtual processors: the geometry of a shape, the numbers and coordinates of its
//! positions, and the blocks that hold them.
#![tactic(auto)]

mod geometry;

pub use geometry::{BLOCK_SIZE, BadExtent, Geometry, MOST_AXES, MOST_POSITIONS};
