//! The point of a run that stopped, kept on the shelf.

ghost use Rattle.std.specs.Prelude.{◌≡◌, ◌≢◌, ℕ, List, Some, IsTrue, OnOk, false};
ghost use Rattle.checkpoint.specs.Bytes.{IsHeld, bytes_of};
ghost use Rattle.cstar_io.specs.Files.{has_failed};
ghost use Rattle.cstar_top.specs.Saved.{CannotKeep, OthersStay};

use checkpoint::{Point, save};
use cstar_base::Memory;
use cstar_io::{Shelf, ShelfErr};
use std::alloc::Global;

/// Keeps the bytes of a point under a name.
pub fn keep_point<S: Shelf>(
    alloc: Global,
    name: &str,
    point: Point,
    shelf: &mut S,
) -> Result<(), ShelfErr>
    requires { IsHeld point }
    ensures kept { OnOk result (IsTrue (S.tells shelf.old) → S.file shelf.new name.now ≡ Some (bytes_of point)) }
    ensures others { OthersStay S.file shelf.old shelf.new name.now }
    ensures failed { IsTrue (has_failed result) → CannotKeep S.faults S.last_failed shelf.old shelf.new name.now }
    ensures other { has_failed result ≡ false → S.faults shelf.new ≡ S.faults shelf.old }
{
    match save(alloc, point) {
        Ok(bytes) => shelf.keep(name, bytes.as_slice()),
        Err(Memory) => Err(ShelfErr::Memory),
    }
}
