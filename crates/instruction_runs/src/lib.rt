//! Runs of elementwise instructions and NEWS shifts. An instruction that answers nothing can wait
//! for those that follow it; then all are done in one pass over the blocks of their set, in which a
//! block goes through the whole run while it is in the nearest cache. The one field from which the
//! shifts among them take is held first, and none that waits before a shift writes it; so a shift
//! takes from the room what the field was before the run.
#![tactic(auto)]

mod batches;
mod deferring;
mod settling;

pub use batches::{Batch, MOST};
pub use deferring::{Deferred, defer};
pub use settling::settle;
