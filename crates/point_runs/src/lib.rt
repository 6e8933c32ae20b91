//! Runs that begin anew or go on from a saved point: where a listing, or the bytes of a point, begin a
//! run, why they are refused, and the point at which a run stopped.
#![tactic(auto)]

mod assemble;
mod loading;
mod refusal;
mod saving;
mod start;
mod text_sink;

pub use assemble::{assembled, verified};
pub use loading::resumed;
pub use refusal::{FILE_LIMIT, FILE_START, NoImage, POINT_LIMIT, refused, too_long};
pub use saving::point_of;
pub use start::Start;
