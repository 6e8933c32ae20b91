//! The faults of typing. Typing goes on after a fault; the least of all that stand is kept.

ghost use Rattle.std.specs.Prelude.{◌≡◌, Some, true, IfOk, IsNone, MatchOption, OnOk};
ghost use Rattle.type_scopes.specs.Answers.{IsSettled, part_of, told_by};
ghost use Rattle.type_scopes.specs.Faults.{IsIncluded, lesser, told};
ghost use Rattle.type_scopes.specs.TypingFaults.{is_of_typing};
ghost use Rattle.type_scopes.specs.declared.faults.Untyped.TheVariants as Untypeds;

use crate::standing::Standing;
use cstar_base::{Fault, Memory, Place};
use std::alloc::{AllocError, AllocFailed};

/// The least fault so far, or none.
#[derive(Clone, Copy)]
pub struct Faults {
    pub least: Option<Standing>,
}

impl Faults {
    pub fn none() -> Faults
        ensures { IsNone result.least }
    {
        Faults { least: None }
    }

    /// Records that the fault stands at the place.
    pub fn stands(&mut self, fault: Fault, place: Place)
        requires { is_of_typing fault ≡ true }
        ensures { MatchOption self.new.least ⊥ (λ least. told least ≡ lesser self.old.least fault place) }
    {
        let fault = Standing { fault, place };
        self.least = match self.least {
            Some(least) if !fault.is_before(least) => Some(least),
            _ => Some(fault),
        };
    }

    /// Records the least of the other faults.
    pub fn include(&mut self, other: Faults)
        ensures { IsIncluded self.old.least other.least self.new.least }
    {
        if let Some(fault) = other.least {
            self.stands(fault.fault, fault.place);
        }
    }

    /// The part, or nothing where it has no type. The fault that stands at it is recorded.
    pub fn settle<T: Drop>(&mut self, part: Result<T, Untyped>) -> Result<Option<T>, Memory>
        ensures part { IfOk result (λ r. r ≡ part_of part) }
        ensures least { OnOk result (IsSettled self.old.least part self.new.least) }
    {
        match part {
            Ok(part) => Ok(Some(part)),
            Err(Untyped::Fault(fault)) => {
                self.stands(fault.fault, fault.place);
                Ok(None)
            }
            Err(Untyped::Faulty) => Ok(None),
            Err(Untyped::Memory) => Err(Memory),
        }
    }
}

/// Why a part of a file has no type.
#[derive(Clone, Copy)]
pub enum Untyped {
    /// This fault stands at the part.
    Fault(Standing),
    /// The part stands on a declaration that has a fault of its own.
    Faulty,
    Memory,
}

impl From<Memory> for Untyped {
    ghost from_gives = { λ _ e. e ≡ Untypeds.Memory };

    fn from(_memory: Memory) -> Untyped {
        Untyped::Memory
    }
}

impl From<AllocError> for Untyped {
    ghost from_gives = { λ _ e. e ≡ Untypeds.Memory };

    fn from(_error: AllocError) -> Untyped {
        Untyped::Memory
    }
}

impl<T: Drop> From<AllocFailed<T>> for Untyped {
    ghost from_gives = { λ _ e. e ≡ Untypeds.Memory };

    fn from(_error: AllocFailed<T>) -> Untyped {
        Untyped::Memory
    }
}

/// The answer where the fault stands at the place.
pub fn fault(fault: Fault, place: Place) -> Untyped
    requires { is_of_typing fault ≡ true }
    ensures { told_by result ≡ Some (fault, place) }
{
    Untyped::Fault(Standing { fault, place })
}
