//! What one processor gives its destination in an elementwise instruction, on any machine whose bits
//! can be read, the registers among operands, and the processors that checks are about.
#![tactic(auto)]

mod checks;
mod elements;
mod operands;
mod reading;

pub use checks::checked_set;
pub use elements::element;
pub use operands::{behind, behind_step, konst, next};
pub use reading::Readable;
