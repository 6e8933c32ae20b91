ghost use Rattle.std.specs.Prelude.{◌≡◌, ◌≢◌, ℕ, ◌+◌, ◌≤◌, ◌<◌, ◌||◌, ◌==◌, List, Bool, true, false, Option, Some, None, IsTrue, IfOk, OnOk, IfSome, IfNone, MatchOption, is_none, is_ok, vec_len, length, take, option_map, if◌then◌else◌};
ghost use Rattle.std.specs.List.{position};
ghost use Rattle.std.specs.Cmp.Lexicographic.{pointwise};
ghost use Rattle.cstar_io.specs.Faults.{RisesBy};
ghost use Rattle.cstar_io.specs.Files.{has_failed};
ghost use Rattle.cstar_io.specs.Memory.{next_is_listed, one_more, under};
ghost use Rattle.cstar_io.specs.declared.call.Call.{Call};

use crate::call::Call;
use crate::calls::Calls;
use crate::errors::ShelfErr;
use crate::traits::Shelf;
use cstar_base::{Memory, Word};
use std::alloc::Global;

/// A shelf over files in memory, of which listed calls fail.
#[derive(Drop)]
pub struct MemShelf {
    files: Vec<(Word, Vec<u8>)>,
    calls: Calls,
    last_failed: Option<Call>,
}

impl MemShelf {
    /// A shelf that holds these files, the first of each name, and whose calls with the numbers of
    /// `failing`, counted from 1, fail; `fetch` and `keep` are counted together. Takes no memory.
    pub fn new(files: Vec<(Word, Vec<u8>)>, failing: Vec<u64>) -> MemShelf
        ensures files { result.files ≡ files }
        ensures failing { result.calls ≡ record { failing = failing; made = 0; faults = 0 } }
        ensures last { result.last_failed ≡ None }
    {
        MemShelf {
            files,
            calls: Calls::new(failing),
            last_failed: None,
        }
    }

    /// Counts a fault of this call.
    fn fail(&mut self, call: Call)
        ensures files { self.new.files ≡ self.old.files }
        ensures made { self.new.calls.made ≡ self.old.calls.made }
        ensures failing { self.new.calls.failing ≡ self.old.calls.failing }
        ensures rises { RisesBy self.old.calls.faults self.new.calls.faults }
        ensures last { self.new.last_failed ≡ Some call }
    {
        self.calls.fault();
        self.last_failed = Some(call);
    }
}

/// A word of this name in memory of its own.
pub fn word_of(alloc: Global, name: &str) -> Result<Word, Memory>
    ensures { IfOk result (λ word. word ≡ name.now) }
{
    Ok(Word::of(Vec::from_slice(alloc, name.as_bytes())?))
}

/// The first `limit + 1` of these bytes, or all if there are fewer.
fn beginning(bytes: &[u8], limit: u32) -> &[u8]
    ensures bytes { result.now ≡ take (limit + 1) bytes.now }
    ensures within { length result.now ≤ limit + 1 }
{
    let most = limit as usize + 1;
    if bytes.len() < most {
        bytes
    } else {
        &bytes[..most]
    }
}

/// The place of the first file of this name.
fn place_of(files: &[(Word, Vec<u8>)], name: &[u8]) -> Option<usize>
    ensures { result ≡ position (λ file. pointwise ◌==◌ file.0 name.now) files.now }
{
    files.iter().position(|file| file.0.bytes() == name)
}

/// The bytes of the first file of this name.
#[tactic(auto, using(crate::proofs::Entries::nothing_there, crate::proofs::Entries::found_there))]
fn find<'a>(files: &'a [(Word, Vec<u8>)], name: &[u8]) -> Option<&'a [u8]>
    ensures { MatchOption result
        (under files.now (λ file. file.0) (λ file. file.1.items) name.now ≡ None)
        (λ bytes. under files.now (λ file. file.0) (λ file. file.1.items) name.now ≡ Some bytes.now) }
{
    let place = place_of(files, name)?;
    Some(files[place].1.as_slice())
}

/// Puts these bytes under this name, in place of those of its first file.
fn store(files: &mut Vec<(Word, Vec<u8>)>, name: Word, bytes: Vec<u8>) -> Result<(), Memory>
    ensures kept { OnOk result
        (under files.new.items (λ file. file.0) (λ file. file.1.items) name ≡ Some bytes.items) }
    ensures others { (other : List ℕ) → other ≢ name →
        under files.new.items (λ file. file.0) (λ file. file.1.items) other
        ≡ under files.old.items (λ file. file.0) (λ file. file.1.items) other }
{
    match place_of(files.as_slice(), name.bytes()) {
        Some(place) => files[place].1 = bytes,
        None => files.push((name, bytes))?,
    }
    Ok(())
}

impl Shelf for MemShelf {
    ghost faults = { λ shelf. shelf.calls.faults };

    ghost tells = { λ _. true };

    ghost file = { λ shelf name. under shelf.files.items (λ file. file.0) (λ file. file.1.items) name };

    ghost last_failed = { λ shelf. shelf.last_failed };

    fn fetch(&mut self, name: &str, limit: u32) -> Result<Vec<u8>, ShelfErr>
        ensures fails { IsTrue (has_failed result) →
            IsTrue (next_is_listed self.old.calls.made self.old.calls.failing.items
            || is_none (under self.old.files.items (λ file. file.0) (λ file. file.1.items) name.now)) }
        ensures succeeds { OnOk result
            (next_is_listed self.old.calls.made self.old.calls.failing.items ≡ false) }
        ensures counted { IsTrue (has_failed result || is_ok result) →
            self.new.calls.made ≡ one_more self.old.calls.made }
        ensures failing { self.new.calls.failing ≡ self.old.calls.failing }
        ensures same { self.new.files ≡ self.old.files }
        ensures bytes { IfOk result (λ bytes. option_map (take (limit + 1))
            (under self.old.files.items (λ file. file.0) (λ file. file.1.items) name.now) ≡ Some bytes.items) }
        ensures within { IfOk result (λ bytes. vec_len bytes ≤ limit + 1) }
        ensures failed { IsTrue (has_failed result) →
            RisesBy self.old.calls.faults self.new.calls.faults }
        ensures other { has_failed result ≡ false →
            self.new.calls.faults ≡ self.old.calls.faults }
        ensures last { self.new.last_failed ≡
            (if has_failed result then Some (Call.Fetch name.now) else self.old.last_failed) }
    {
        let alloc = *self.files.allocator();
        let asked = word_of(alloc, name)?;
        if self.calls.next_fails() {
            self.fail(Call::Fetch(asked));
            return Err(ShelfErr::Failed);
        }
        match find(self.files.as_slice(), name.as_bytes()) {
            Some(bytes) => Ok(copy_of(alloc, beginning(bytes, limit))?),
            None => {
                self.fail(Call::Fetch(asked));
                Err(ShelfErr::Failed)
            }
        }
    }

    fn keep(&mut self, name: &str, bytes: &[u8]) -> Result<(), ShelfErr>
        ensures fails { IsTrue (has_failed result) →
            IsTrue (next_is_listed self.old.calls.made self.old.calls.failing.items) }
        ensures succeeds { OnOk result
            (next_is_listed self.old.calls.made self.old.calls.failing.items ≡ false) }
        ensures counted { IsTrue (has_failed result || is_ok result) →
            self.new.calls.made ≡ one_more self.old.calls.made }
        ensures failing { self.new.calls.failing ≡ self.old.calls.failing }
        ensures kept { OnOk result
            (under self.new.files.items (λ file. file.0) (λ file. file.1.items) name.now ≡ Some bytes.now) }
        ensures others { (other : List ℕ) → other ≢ name.now →
            under self.new.files.items (λ file. file.0) (λ file. file.1.items) other
            ≡ under self.old.files.items (λ file. file.0) (λ file. file.1.items) other }
        ensures failed { IsTrue (has_failed result) →
            RisesBy self.old.calls.faults self.new.calls.faults }
        ensures other { has_failed result ≡ false →
            self.new.calls.faults ≡ self.old.calls.faults }
        ensures last { self.new.last_failed ≡
            (if has_failed result then Some (Call.Keep name.now) else self.old.last_failed) }
    {
        let alloc = *self.files.allocator();
        let asked = word_of(alloc, name)?;
        if self.calls.next_fails() {
            self.fail(Call::Keep(asked));
            return Err(ShelfErr::Failed);
        }
        let kept = copy_of(alloc, bytes)?;
        store(&mut self.files, asked, kept)?;
        Ok(())
    }
}

/// The same bytes in memory of their own.
fn copy_of(alloc: Global, bytes: &[u8]) -> Result<Vec<u8>, Memory>
    ensures { IfOk result (λ copy. copy.items ≡ bytes.now) }
{
    Ok(Vec::from_slice(alloc, bytes)?)
}
