//! What all crates share: element types, words of bytes, places in a text, operators, and the
//! arithmetic of the language as functions in `numbers`.
#![tactic(auto)]

mod elem;
mod faults;
mod formats;
mod lists;
mod memory;
pub mod numbers;
mod operators;

pub use elem::Elem;
pub use faults::{Fault, RunFault};
pub use formats::NumberFormat;
pub use lists::{Numbers, Word};
pub use memory::Memory;
pub use operators::{Combiner, Direction, Inclusion, Op, Place, SegmentMode, Winner};
