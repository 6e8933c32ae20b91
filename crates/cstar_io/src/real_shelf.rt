ghost use Rattle.std.specs.Prelude.{◌≡◌, ◌≢◌, ℕ, ◌+◌, ◌≤◌, ◌<◌, length, List, Bool, true, false, Option, Some, None, IfSome, IsTrue, IfOk, OnOk, take, vec_len, if◌then◌else◌};
ghost use Rattle.std.specs.Io.KnownBytes.{Consumes, IsAtEnd};
ghost use Rattle.cstar_io.specs.Faults.{RisesBy};
ghost use Rattle.cstar_io.specs.Files.{has_failed};
ghost use Rattle.cstar_io.specs.declared.call.Call.{Call};

use crate::call::Call;
use crate::errors::ShelfErr;
use crate::pieces::PIECE;
use crate::real_keep::keep_whole;
use crate::shelf::word_of;
use crate::traits::Shelf;
use std::alloc::Global;
use std::fs::File;
use std::io::Read;
use std::rt::Files;

/// A shelf over the files of a system. It tells no file.
#[derive(Drop)]
pub struct RealShelf<'a, R: Files> {
    rt: &'a R,
    alloc: Global,
    faults: u64,
    last_failed: Option<Call>,
}

impl<'a, R: Files> RealShelf<'a, R> {
    /// A shelf over these files, by paths. Takes no memory.
    pub fn new(rt: &'a R, alloc: Global) -> RealShelf<'a, R>
        ensures faults { result.faults ≡ 0 }
        ensures last { result.last_failed ≡ None }
    {
        RealShelf {
            rt,
            alloc,
            faults: 0,
            last_failed: None,
        }
    }

    /// Counts a fault of this call.
    fn fail(&mut self, call: Call)
        ensures rises { RisesBy self.old.faults self.new.faults }
        ensures last { self.new.last_failed ≡ Some call }
    {
        self.faults = self.faults.saturating_add(1);
        self.last_failed = Some(call);
    }
}

/// Reads once, and adds what was read, up to this many bytes in all. How many it was.
fn read_more<R: Read>(
    reader: &mut R,
    piece: &mut [u8],
    bytes: &mut Vec<u8>,
    most: usize,
) -> Result<usize, ShelfErr>
    requires more { vec_len bytes.old < most }
    requires piece { 0 < length piece.old }
    ensures within { vec_len bytes.new ≤ most }
    ensures count { IfOk result (λ count. vec_len bytes.new ≡ vec_len bytes.old + count) }
    ensures end { IfOk result (λ count. count ≡ 0 → IsAtEnd (R.remaining reader.new)) }
    ensures consumed { (all : Option (List ℕ)) → Consumes all (R.remaining reader.old) bytes.old.items →
        OnOk result (Consumes all (R.remaining reader.new) bytes.new.items) }
{
    let want = piece.len().min(most - bytes.len());
    match reader.read(&mut piece[..want]) {
        Ok(count) => match bytes.extend_from_slice(&piece[..count]) {
            Ok(()) => Ok(count),
            Err(_) => Err(ShelfErr::Memory),
        },
        Err(_) => Err(ShelfErr::Failed),
    }
}

/// The first bytes that this reader gives, as many as this or all if there are fewer.
fn read_most<R: Read>(
    alloc: Global,
    reader: &mut R,
    piece: &mut [u8],
    most: usize,
) -> Result<Vec<u8>, ShelfErr>
    requires { 0 < length piece.old }
    ensures within { IfOk result (λ bytes. vec_len bytes ≤ most) }
    ensures bytes { IfOk result (λ bytes.
        IfSome (R.remaining reader.old) (λ all. bytes.items ≡ take most all)) }
{
    let mut bytes = Vec::new(alloc);
    'more: while bytes.len() < most {
        match read_more(reader, piece, &mut bytes, most) {
            Ok(0) => return Ok(bytes),
            Ok(_) => {}
            Err(error) => return Err(error),
        }
    }
    Ok(bytes)
}

/// The first bytes of the file of this name. `Failed` where it cannot be opened or read, as a
/// directory.
fn read_file<R: Files>(rt: &R, alloc: Global, name: &str, most: usize) -> Result<Vec<u8>, ShelfErr>
    ensures { IfOk result (λ bytes. vec_len bytes ≤ most) }
{
    let Ok(mut piece) = vec![in alloc; 0; PIECE] else {
        return Err(ShelfErr::Memory);
    };
    match File::open(rt, name) {
        Ok(mut file) => read_most(alloc, &mut file, piece.as_mut_slice(), most),
        Err(_) => Err(ShelfErr::Failed),
    }
}

impl<'a, R: Files> Shelf for RealShelf<'a, R> {
    ghost faults = { λ shelf. shelf.faults };

    ghost tells = { λ _. false };

    ghost file = { λ _ _. None };

    ghost last_failed = { λ shelf. shelf.last_failed };

    fn fetch(&mut self, name: &str, limit: u32) -> Result<Vec<u8>, ShelfErr> {
        let asked = word_of(self.alloc, name)?;
        let read = read_file(self.rt, self.alloc, name, limit as usize + 1);
        if let Err(ShelfErr::Failed) = &read {
            self.fail(Call::Fetch(asked));
        }
        read
    }

    fn keep(&mut self, name: &str, bytes: &[u8]) -> Result<(), ShelfErr> {
        let asked = word_of(self.alloc, name)?;
        let kept = keep_whole(self.rt, self.alloc, name, bytes);
        if let Err(ShelfErr::Failed) = &kept {
            self.fail(Call::Keep(asked));
        }
        kept
    }
}
