//! What a line of `cstar` means at its place in a file: the source line with a caret, what stands
//! there and what may stand there instead, the room that shapes want, the extents behind an index.
#![tactic(auto)]

mod excerpt;
mod explanation;
mod index;
mod room;
mod said;
mod wanted;

pub use explanation::{Explanation, Found, explain};
