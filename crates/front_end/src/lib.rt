//! The front end of the machine: it runs the scalar instructions of an image one at a time, and
//! asks for what it cannot do itself: parallel instructions, output and input.
#![tactic(auto)]

mod ask;
mod compute;
mod fit;
mod front;
mod kept;
mod numerals;
mod scalar;
mod step;

pub use ask::Ask;
pub use front::Front;
pub use kept::{Kept, NoRoom};
