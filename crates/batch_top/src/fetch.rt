//! The files of a batch.

ghost use Rattle.std.specs.Prelude.{◌≡◌, ℕ, List, IfErr, IfOk, map};
ghost use Rattle.std.specs.String.{string_bytes};
ghost use Rattle.batch_top.specs.Batches.{AreTexts, CannotFetch};

use crate::ending::Ending;
use cstar_base::Word;
use cstar_io::{Shelf, ShelfErr};
use std::alloc::Global;

/// The greatest length of a file, in bytes. A longer one is fetched up to one byte more.
const FILE_LIMIT: u32 = 1_048_576;

/// The texts of the files of these names, fetched in order: of a file of more than 2^20 bytes the
/// first 2^20 + 1. `CannotRead` where a file cannot be fetched, `Memory` where there is none; then
/// no file behind it is fetched.
pub fn fetch_all<'a, S: Shelf>(
    alloc: Global,
    names: &'a [String],
    shelf: &mut S,
) -> Result<Vec<Word>, Ending<'a>>
    ensures texts { IfOk result (λ texts. AreTexts S.tells S.file shelf.old (map string_bytes names.now) texts.items) }
    ensures failed { IfErr result (CannotFetch S.faults S.last_failed shelf.old shelf.new (map string_bytes names.now)) }
    ensures other { IfOk result (λ texts. S.faults shelf.new ≡ S.faults shelf.old) }
    ensures files { (name : List ℕ) → S.file shelf.new name ≡ S.file shelf.old name }
{
    let mut texts = Vec::new(alloc);
    'names: for name in names {
        match shelf.fetch(name.as_str(), FILE_LIMIT) {
            Ok(text) => match texts.push(Word::of(text)) {
                Ok(()) => {}
                Err(_) => return Err(Ending::Memory),
            },
            Err(ShelfErr::Failed) => return Err(Ending::CannotRead { name }),
            Err(ShelfErr::Memory) => return Err(Ending::Memory),
        }
    }
    Ok(texts)
}
