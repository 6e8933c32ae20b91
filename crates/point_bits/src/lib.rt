//! The bits of the machine's sets as bytes, and from bytes the bits of the sets.
#![tactic(auto)]

mod bytes;
mod gathering;
mod moves;
mod parts;
mod putting_back;
mod strings;

pub use gathering::gather;
pub use putting_back::{are_bits, restored};
