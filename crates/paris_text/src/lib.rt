//! The listing of an image: one line for each shape, final variable, unit and instruction.
#![tactic(auto)]

mod image;
mod keywords;
mod lines;
mod mnemonics;
mod operands;
mod pieces;
mod table;
mod words;

pub use image::print;
pub use keywords::{Keyword, keyword_of};
