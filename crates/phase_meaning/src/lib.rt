//! What the instructions of the machine's phases mean, apart from how the bits of the processors are
//! held: when one can be applied, the arithmetic on fields, and the laws that every implementation
//! of the phases rests on.
#![tactic(auto)]

pub mod arith;
