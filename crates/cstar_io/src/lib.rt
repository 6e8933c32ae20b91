//! The outside: a shelf of files, a source and a sink of bytes, and a gate that workers pass.
#![tactic(auto)]

mod call;
mod calls;
mod errors;
mod lines;
mod open;
mod pieces;
mod real_keep;
mod real_shelf;
mod real_sink;
mod real_source;
mod shelf;
mod sink;
mod source;
mod traits;

pub use call::Call;
pub use errors::{Failed, ShelfErr};
pub use lines::put_line;
pub use open::Open;
pub use real_shelf::RealShelf;
pub use real_sink::RealSink;
pub use real_source::RealSource;
pub use shelf::MemShelf;
pub use sink::{MemSink, SureSink};
pub use source::{MemSource, SureSource};
pub use traits::{Gate, Shelf, Sink, Source};
