ghost use Rattle.std.specs.Prelude.{◌≡◌};

use cstar_base::Memory;
use std::alloc::{AllocError, AllocFailed};
use thiserror::Error;

/// A call on the outside failed.
#[derive(Clone, Copy, Debug, PartialEq, Error)]
#[error("a call on the outside failed")]
pub struct Failed;

/// Why a call on a shelf gave nothing: it failed, or there was no memory for its answer.
#[derive(Clone, Copy, Debug, PartialEq, Error)]
pub enum ShelfErr {
    #[error("a call on the shelf failed")]
    Failed,
    #[error("out of memory")]
    Memory,
}

impl From<Memory> for ShelfErr {
    ghost use Rattle.cstar_io.specs.declared.errors.ShelfErr.TheVariants.{Memory};

    ghost from_gives = { λ _ error. error ≡ Memory };

    fn from(_error: Memory) -> ShelfErr {
        ShelfErr::Memory
    }
}
