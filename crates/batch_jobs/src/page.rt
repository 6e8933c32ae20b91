//! An output in memory.

ghost use Rattle.std.specs.Prelude.{◌≡◌, ◌≢◌, ◌≤◌, [], false, vec_len, IsErr};
ghost use Rattle.cstar_io.specs.Faults.{RisesBy};
ghost use Rattle.batch_jobs.specs.Pages.{MayHave};

use cstar_base::Word;
use cstar_io::{Failed, Sink};
use std::alloc::Global;

/// A sink that holds what it takes, up to `LIMIT` bytes. A put that goes past the limit fails, one
/// that finds no memory too, and so do all behind it.
#[derive(Drop)]
pub struct Page<const LIMIT: usize> {
    bytes: Vec<u8>,
    over: bool,
    faults: u64,
    ghost within: { vec_len bytes ≤ LIMIT },
}

impl<const LIMIT: usize> Page<LIMIT> {
    /// A sink that has taken nothing. Takes no memory.
    pub fn new(alloc: Global) -> Page<LIMIT>
        ensures bytes { result.bytes.items ≡ [] }
        ensures over { result.over ≡ false }
        ensures faults { result.faults ≡ 0 }
    {
        Page {
            bytes: Vec::new(alloc),
            over: false,
            faults: 0,
        }
    }

    /// Whether a put went past the limit.
    pub fn is_over(&self) -> bool
        ensures { result ≡ self.now.over }
    {
        self.over
    }

    /// Counts a fault.
    fn fail(&mut self) -> Result<(), Failed>
        ensures failed { IsErr result }
        ensures bytes { self.new.bytes ≡ self.old.bytes }
        ensures over { self.new.over ≡ self.old.over }
        ensures rises { RisesBy self.old.faults self.new.faults }
        ensures some { self.new.faults ≢ 0 }
    {
        self.faults = self.faults.saturating_add(1);
        Err(Failed)
    }

    /// The bytes that it took before a put failed.
    pub fn into_word(self) -> Word
        ensures { result ≡ self.entry.bytes.items }
    {
        Word::of(self.bytes)
    }
}

impl<const LIMIT: usize> Sink for Page<LIMIT> {
    ghost faults = { λ page. page.faults };

    ghost agrees = { λ page. MayHave page.faults page.over LIMIT page.bytes.items };

    fn put(&mut self, bytes: &[u8]) -> Result<(), Failed> {
        if self.faults > 0 {
            return self.fail();
        }
        if bytes.len() > LIMIT - self.bytes.len() {
            self.over = true;
            return self.fail();
        }
        if self.bytes.extend_from_slice(bytes).is_err() {
            return self.fail();
        }
        Ok(())
    }
}
