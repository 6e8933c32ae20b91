ghost use Rattle.std.specs.Prelude.{◌≡◌, ◌≢◌, ℕ, ◌+◌, ◌<◌, ◌≤◌, List, Bool, true, false, Option, Some, None, IsTrue, OnOk, OnErr, IfOk, vec_len, take, option_map, if◌then◌else◌};
ghost use Rattle.cstar_io.specs.Faults.{RisesBy};
ghost use Rattle.cstar_io.specs.Input.{Gives};
ghost use Rattle.cstar_io.specs.Output.{Takes, TakesPrefix, TakesNothing};
ghost use Rattle.cstar_io.specs.Files.{has_failed};
ghost use Rattle.cstar_io.specs.declared.call.Call.{Call};

use crate::errors::{Failed, ShelfErr};

/// Files by name.
pub trait Shelf {
    /// How many calls failed, up to the last number of 64 bits.
    ghost faults: { Self → ℕ };
    /// Whether the files are told.
    ghost tells: { Self → Bool };
    /// What a shelf that tells its files holds under a name.
    ghost file: { Self → List ℕ → Option (List ℕ) };
    /// The last call that failed, with its name.
    ghost last_failed: { Self → Option Call };

    /// The first `limit + 1` bytes of the file of this name, or all if there are fewer. `Failed`
    /// where it cannot be read. `Memory` where there is no room for the name or the bytes.
    fn fetch(&mut self, name: &str, limit: u32) -> Result<Vec<u8>, ShelfErr>
        ensures bytes { IsTrue (tells self.old) → IfOk result (λ bytes.
            option_map (take (limit + 1)) (file self.old name.now) ≡ Some bytes.items) }
        ensures within { IfOk result (λ bytes. vec_len bytes ≤ limit + 1) }
        ensures tells { tells self.new ≡ tells self.old }
        ensures files { (other : List ℕ) → file self.new other ≡ file self.old other }
        ensures failed { IsTrue (has_failed result) → RisesBy (faults self.old) (faults self.new) }
        ensures other { has_failed result ≡ false → faults self.new ≡ faults self.old }
        ensures last { last_failed self.new ≡
            (if has_failed result then Some (Call.Fetch name.now) else last_failed self.old) };

    /// Keeps these bytes under this name, in place of what stood there. `Failed` where they cannot
    /// be written, `Memory` where there is no room: then the file of this name may hold anything.
    fn keep(&mut self, name: &str, bytes: &[u8]) -> Result<(), ShelfErr>
        ensures kept { OnOk result (IsTrue (tells self.old) → file self.new name.now ≡ Some bytes.now) }
        ensures tells { tells self.new ≡ tells self.old }
        ensures others { (other : List ℕ) → other ≢ name.now → file self.new other ≡ file self.old other }
        ensures failed { IsTrue (has_failed result) → RisesBy (faults self.old) (faults self.new) }
        ensures other { has_failed result ≡ false → faults self.new ≡ faults self.old }
        ensures last { last_failed self.new ≡
            (if has_failed result then Some (Call.Keep name.now) else last_failed self.old) };
}

/// Bytes to read, one at a time.
pub trait Source {
    /// How many calls failed, up to the last number of 64 bits.
    ghost faults: { Self → ℕ };
    /// The bytes that are left, where they are told.
    ghost left: { Self → Option (List ℕ) };

    /// The next byte, or `None` where nothing is left.
    fn next(&mut self) -> Result<Option<u8>, Failed>
        ensures gives { Gives result (left self.old) (left self.new) }
        ensures failed { OnErr result (RisesBy (faults self.old) (faults self.new)) }
        ensures other { OnOk result (faults self.new ≡ faults self.old) };

    /// Whether the next call may wait for bytes to come, as from a terminal. What a program has
    /// printed is to be flushed before it.
    fn may_wait(&self) -> bool {
        false
    }
}

/// Takes bytes.
pub trait Sink {
    /// How many calls failed, up to the last number of 64 bits.
    ghost faults: { Self → ℕ };
    /// The lists of bytes that the sink may have taken in all.
    ghost agrees: { Self → List ℕ → Type 0 };

    /// Takes these bytes. After `Failed` the first of them may have been taken.
    fn put(&mut self, bytes: &[u8]) -> Result<(), Failed>
        ensures taken { OnOk result (Takes agrees self.old self.new bytes.now) }
        ensures part { OnErr result (TakesPrefix agrees self.old self.new bytes.now) }
        ensures failed { OnErr result (RisesBy (faults self.old) (faults self.new)) }
        ensures other { OnOk result (faults self.new ≡ faults self.old) };

    /// Sends on what a sink has taken and still gathers. It takes no byte. Most sinks gather
    /// nothing, and do nothing.
    fn flush(&mut self) -> Result<(), Failed>
        ensures nothing { TakesNothing agrees self.old self.new }
        ensures failed { OnErr result (RisesBy (faults self.old) (faults self.new)) }
        ensures other { OnOk result (faults self.new ≡ faults self.old) }
    {
        Ok(())
    }
}

/// Is called by a worker before it works on a block. It answers nothing, and changes nothing that
/// a contract sees.
pub trait Gate {
    fn at(&self, block: u32);
}
