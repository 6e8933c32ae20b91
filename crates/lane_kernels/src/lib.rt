//! Arithmetic on 512 numbers at once, plane by plane: over whole columns, and in place over fields
//! of planes.
#![tactic(auto)]

mod columns;
pub mod compare;
mod counting;
mod gates;
pub mod in_place;
mod target;

pub use columns::{
    add, and, equal, less, max, min, negate, not, or, resize, select, shift_left, shift_right,
    subtract, xor,
};
pub use counting::count;
pub use target::{Operand, Target, write};
