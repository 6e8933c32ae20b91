//! The lowering of communication: gets, sends, reductions, scans and enumerations.
#![tactic(auto)]

mod addresses;
mod calls;
mod gets;
pub mod messages;
pub mod news;

pub use addresses::Indexes;
pub use calls::{by_news, comm, locate};
