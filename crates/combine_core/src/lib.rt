//! How messages are combined in any order: the combiners, their encodings as numbers of 64 bits
//! that join in any order, and the machine whose steps are the atomic steps of a combining board.
#![tactic(auto)]

mod combine;
mod combiners;
mod event;
mod kind;
mod laws;
mod machine;
mod message;
mod phase;
mod worker;

pub use combine::Combine;
pub use combiners::{Add, And, First, Last, MaxOf, MinOf, Or, Xor};
pub use event::Event;
pub use kind::Kind;
pub use laws::{encodings_are_sound, every_state};
pub use message::Message;
pub use phase::Phase;
pub use worker::{CLAIM_SLOTS, Held, Worker, claim_count};
