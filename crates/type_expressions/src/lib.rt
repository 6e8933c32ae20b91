//! The types of expressions: what each node is typed as, and the faults that stand at it.
#![tactic(auto)]

mod along;
mod calls;
mod found;
mod intrinsics;
mod operators;
mod references;
mod walk;

pub use found::{Found, Instances, TypedExpr, Typing};
pub use walk::{typed_constant, typed_expr, typed_value};
