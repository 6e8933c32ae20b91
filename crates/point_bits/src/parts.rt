//! The bits of a block as bytes of their own, and a block from these.

ghost use Rattle.std.specs.Prelude.{◌≡◌, ℕ, ◌+◌, ◌*◌, ◌/◌, ◌≤◌, IfOk, length, slice_index};
ghost use Rattle.point_bits.specs.Strings.{IsBlockOf, IsPart, IsString};

use crate::strings::SetString;
use bit_planes::Block;
use bit_planes::plane::first_lanes;
use block_store::{put_words, words_of};
use cstar_base::Memory;
use std::alloc::Global;

/// The bits of a block, position behind position.
pub(crate) fn part_of(alloc: Global, string: SetString, block: &Block) -> Result<Vec<u8>, Memory>
    requires string { IsString string }
    requires few { string.positions ≤ 512 }
    requires planes { string.width ≤ length block.now.planes.items }
    ensures { IfOk result (λ bytes. IsPart string block.now.planes.items bytes.items) }
{
    let mut bytes = vec![in alloc; 0; string.size()]?;
    put_block(string, block, bytes.as_mut_slice());
    Ok(bytes)
}

/// Makes zeros the bits of a block.
fn put_block(string: SetString, block: &Block, bytes: &mut [u8])
    requires string { IsString string }
    requires few { string.positions ≤ 512 }
    requires planes { string.width ≤ length block.now.planes.items }
    requires long { length bytes.old ≡ (string.positions * string.width + 7) / 8 }
    requires zeros { (k : ℕ) → slice_index bytes.old k ≡ 0 }
    ensures { IsPart string block.now.planes.items bytes.new }
{
    'runs: for number in 0..string.runs() {
        let run = string.run(number);
        let words = words_of(block, run.offset, run.len);
        string.put(run, 0, &words, bytes);
    }
}

/// The block whose positions have these bits; a lane behind the last one has 0 everywhere.
pub(crate) fn block_of(alloc: Global, string: SetString, bytes: &[u8]) -> Result<Block, Memory>
    requires string { IsString string }
    requires few { string.positions ≤ 512 }
    requires bytes { string.positions * string.width ≤ 8 * length bytes.now }
    ensures { IfOk result (λ block. IsBlockOf string bytes.now block.planes.items) }
{
    let mut block = Block::new(alloc, string.width)?;
    let lanes = first_lanes(string.positions);
    'runs: for number in 0..string.runs() {
        let run = string.run(number);
        let words = string.numbers(run, 0, bytes);
        put_words(&mut block, run.offset, run.len, lanes, &words);
    }
    Ok(block)
}
