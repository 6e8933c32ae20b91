ghost use Rattle.std.specs.Prelude.{◌≡◌};

use cstar_base::Memory;

/// Why a batch was not put whole.
#[derive(Clone, Copy)]
pub enum Stop {
    /// The output failed.
    Failed,
    /// There was no memory.
    Memory,
}

impl From<Memory> for Stop {
    ghost use Rattle.job_callers.specs.declared.stop.Stop.TheVariants.{Memory};

    ghost from_gives = { λ _ stop. stop ≡ Memory };

    fn from(_error: Memory) -> Stop {
        Stop::Memory
    }
}
