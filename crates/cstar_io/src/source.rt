ghost use Rattle.std.specs.Prelude.{◌≡◌, ℕ, ◌+◌, List, Bool, true, false, Option, Some, None, IsOk, IsErr, OnOk, OnErr, IsTrue, drop, ◌↔◌};
ghost use Rattle.cstar_io.specs.Faults.{RisesBy};
ghost use Rattle.cstar_io.specs.Input.{Gives};
ghost use Rattle.cstar_io.specs.Memory.{next_is_listed, one_more};

use crate::calls::Calls;
use crate::errors::Failed;
use crate::traits::Source;

/// A source over bytes in memory that never fails.
#[derive(Drop)]
pub struct SureSource {
    bytes: Vec<u8>,
    at: usize,
}

impl SureSource {
    /// A source that has these bytes left. Takes no memory.
    pub fn new(bytes: Vec<u8>) -> SureSource
        ensures { ⟦<SureSource as Source>⟧.left result ≡ Some bytes.items }
    {
        SureSource { bytes, at: 0 }
    }
}

impl Source for SureSource {
    ghost faults = { λ _. 0 };

    ghost left = { λ source. Some (drop source.at source.bytes.items) };

    fn next(&mut self) -> Result<Option<u8>, Failed>
        ensures sure { IsOk result }
        ensures gives { Gives result (Some (drop self.old.at self.old.bytes.items)) (Some (drop self.new.at self.new.bytes.items)) }
        ensures failed { OnErr result (RisesBy 0 0) }
    {
        match self.bytes.get(self.at) {
            Some(byte) => {
                self.at += 1;
                Ok(Some(*byte))
            }
            None => Ok(None),
        }
    }
}

/// A source over bytes in memory, of which listed calls fail.
#[derive(Drop)]
pub struct MemSource {
    bytes: SureSource,
    calls: Calls,
}

impl MemSource {
    /// A source that has these bytes left, and whose calls with the numbers of `failing`, counted
    /// from 1, fail. Takes no memory.
    pub fn new(bytes: Vec<u8>, failing: Vec<u64>) -> MemSource
        ensures left { ⟦<MemSource as Source>⟧.left result ≡ Some bytes.items }
        ensures failing { result.calls ≡ record { failing = failing; made = 0; faults = 0 } }
    {
        MemSource {
            bytes: SureSource::new(bytes),
            calls: Calls::new(failing),
        }
    }
}

impl Source for MemSource {
    ghost faults = { λ source. source.calls.faults };

    ghost left = { λ source. ⟦<SureSource as Source>⟧.left source.bytes };

    fn next(&mut self) -> Result<Option<u8>, Failed>
        ensures listed { IsErr result ↔ IsTrue (next_is_listed self.old.calls.made self.old.calls.failing.items) }
        ensures counted { self.new.calls.made ≡ one_more self.old.calls.made }
        ensures failing { self.new.calls.failing ≡ self.old.calls.failing }
        ensures gives { Gives result (Some (drop self.old.bytes.at self.old.bytes.bytes.items)) (Some (drop self.new.bytes.at self.new.bytes.bytes.items)) }
        ensures failed { OnErr result (RisesBy self.old.calls.faults self.new.calls.faults) }
        ensures other { OnOk result (self.new.calls.faults ≡ self.old.calls.faults) }
    {
        if self.calls.next_fails() {
            self.calls.fault();
            return Err(Failed);
        }
        self.bytes.next()
    }
}
