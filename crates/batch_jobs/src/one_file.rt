//! A file in memory.

ghost use Rattle.std.specs.Prelude.{◌≡◌, ◌+◌, ◌≤◌, Some, None, true, length, take};

use cstar_io::{Shelf, ShelfErr};
use std::alloc::Global;

/// A shelf that holds one text, under every name. No call on it fails, and it has no room for a
/// further file.
#[derive(Clone, Copy)]
pub struct OneFile<'a> {
    alloc: Global,
    text: &'a [u8],
}

impl<'a> OneFile<'a> {
    /// A shelf that holds this text. Takes no memory.
    pub fn new(alloc: Global, text: &'a [u8]) -> OneFile<'a>
        ensures { result.text.now ≡ text.entry.now }
    {
        OneFile { alloc, text }
    }

    /// The first `limit + 1` bytes of the text, or all if there are fewer.
    fn beginning(&self, limit: u32) -> &'a [u8]
        ensures bytes { result.now ≡ take (limit + 1) self.now.text.now }
        ensures within { length result.now ≤ limit + 1 }
    {
        let most = limit as usize + 1;
        if self.text.len() < most {
            self.text
        } else {
            &self.text[..most]
        }
    }
}

impl<'a> Shelf for OneFile<'a> {
    ghost faults = { λ _. 0 };

    ghost tells = { λ _. true };

    ghost file = { λ shelf _. Some shelf.text.now };

    ghost last_failed = { λ _. None };

    fn fetch(&mut self, _name: &str, limit: u32) -> Result<Vec<u8>, ShelfErr> {
        match Vec::from_slice(self.alloc, self.beginning(limit)) {
            Ok(bytes) => Ok(bytes),
            Err(_) => Err(ShelfErr::Memory),
        }
    }

    fn keep(&mut self, _name: &str, _bytes: &[u8]) -> Result<(), ShelfErr> {
        Err(ShelfErr::Memory)
    }
}
