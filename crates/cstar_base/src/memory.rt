ghost use Rattle.std.specs.Prelude.{◌≡◌};
ghost use Rattle.cstar_base.specs.Errors.{memory_error};

use std::alloc::{AllocError, AllocFailed};

/// Want of memory: the one answer that no contract rules out.
#[derive(Clone, Copy, Debug, PartialEq, Eq)]
pub struct Memory;

impl From<AllocError> for Memory {
    ghost from_gives = { λ _ e. e ≡ memory_error };

    fn from(_error: AllocError) -> Memory {
        Memory
    }
}

impl<T: Drop> From<AllocFailed<T>> for Memory {
    ghost from_gives = { λ _ e. e ≡ memory_error };

    fn from(_error: AllocFailed<T>) -> Memory {
        Memory
    }
}
