//! The final values of a program's file-scope parallel variables, as text.
#![tactic(auto)]

mod lines;

pub use lines::put_finals;
