ghost use Rattle.std.specs.Prelude.{◌≡◌, ◌==◌, IfOk};
ghost use Rattle.std.specs.Cmp.Lexicographic.{pointwise};
ghost use Rattle.std.specs.Cmp.Rules.{comparing};
ghost use Rattle.std.proofs.Common.{rules};

use crate::memory::Memory;
use std::alloc::Global;
use std::marker::Model;

/// A list of bytes, as a name or a text. Contracts see it as the list.
#[derive(Drop, Debug)]
pub struct Word {
    bytes: Vec<u8>,
}

impl Model for Word {
    ghost use Rattle.std.specs.Prelude.{ℕ, List};

    ghost Value = { List ℕ };

    ghost view = { λ w. w.bytes.items };
}

impl Word {
    pub fn of(bytes: Vec<u8>) -> Word
        ensures { result ≡ bytes.items }
    {
        Word { bytes }
    }

    pub fn bytes(&self) -> &[u8]
        ensures { result.now ≡ self.now }
    {
        self.bytes.as_slice()
    }

    /// A word with the same bytes in memory of its own.
    pub fn copied(&self, alloc: Global) -> Result<Word, Memory>
        ensures { IfOk result (λ w. w ≡ self.now) }
    {
        let bytes = Vec::from_slice(alloc, self.bytes.as_slice())?;
        Ok(Word { bytes })
    }
}

impl PartialEq for Word {
    ghost eq = { pointwise ◌==◌ };

    ghost laws = { Prim.search (comparing, rules) };

    fn eq(&self, other: &Word) -> bool {
        self.bytes == other.bytes
    }
}

impl Eq for Word {
    ghost laws = { Prim.search (comparing, rules) };
}

/// A list of numbers, as the registers of a saved run. Contracts see it as the list.
#[derive(Drop, Debug)]
pub struct Numbers {
    list: Vec<u32>,
}

impl Model for Numbers {
    ghost use Rattle.std.specs.Prelude.{ℕ, List};

    ghost Value = { List ℕ };

    ghost view = { λ n. n.list.items };
}

impl Numbers {
    pub fn of(list: Vec<u32>) -> Numbers
        ensures { result ≡ list.items }
    {
        Numbers { list }
    }

    pub fn list(&self) -> &[u32]
        ensures { result.now ≡ self.now }
    {
        self.list.as_slice()
    }
}
