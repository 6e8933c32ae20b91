//! The types of statements and of the variables that a block declares.
#![tactic(auto)]

mod branches;
mod declarations;
mod forms;
mod scopes;
mod statements;

pub use declarations::{
    Initial, Length, array_fits, array_length, constant_number, typed_info, typed_initial,
};
pub use scopes::Scopes;
pub use statements::{TypedStatement, block_in};
