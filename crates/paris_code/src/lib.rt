//! Paris code: the instruction set of the machine, programs over virtual fields, and linked images.
#![tactic(auto)]

mod instr;
pub mod laws;
mod moving;
mod operands;
mod program;
mod rows;

pub use instr::Instr;
pub use operands::{
    Compare, Coordinate, Field, GridStep, Konst, Operation, Reduction, RegisterCoordinate,
    SignedCoordinate,
};
pub use program::{Entry, Final, Image, Owner, Program, Reply, ShapeBits, Unit, Virtual};
pub use rows::{Length, Operand, Row};
