//! A text that is put together in memory.

ghost use Rattle.std.specs.Prelude.{◌≡◌, ◌<◌, ◌^◌, [], length};

use cstar_base::Word;
use cstar_io::{Failed, Sink};
use std::alloc::Global;

/// A sink that holds what it takes. A put that finds no memory fails, and then the sink tells nothing
/// of its bytes.
#[derive(Drop)]
pub(crate) struct TextSink {
    bytes: Vec<u8>,
    faults: u64,
}

impl TextSink {
    /// A sink that has taken nothing. Takes no memory.
    pub(crate) fn new(alloc: Global) -> TextSink
        ensures bytes { result.bytes.items ≡ [] }
        ensures faults { result.faults ≡ 0 }
    {
        TextSink {
            bytes: Vec::new(alloc),
            faults: 0,
        }
    }

    /// The bytes that it took.
    pub(crate) fn into_word(self) -> Word
        ensures bytes { result ≡ self.bytes.items }
        ensures small { length result < 2 ^ 64 }
    {
        Word::of(self.bytes)
    }
}

impl Sink for TextSink {
    ghost faults = { λ text. text.faults };

    ghost agrees = { λ text list. text.faults ≡ 0 → list ≡ text.bytes.items };

    fn put(&mut self, bytes: &[u8]) -> Result<(), Failed> {
        if self.bytes.extend_from_slice(bytes).is_err() {
            self.faults = self.faults.saturating_add(1);
            return Err(Failed);
        }
        Ok(())
    }
}
