//! The fold of each block.

ghost use Rattle.std.specs.Prelude.{◌≡◌, ℕ, ◌<◌, ◌≤◌, ◌+◌, ◌==◌, ◌^◌, length, slice_index, slice_index_or};
ghost use Rattle.bit_planes.specs.Bits.{bit};
ghost use Rattle.bit_planes.specs.Planes.{plane_at, number};
ghost use Rattle.bit_planes.specs.declared.block.Block.{Block};
ghost use Rattle.cstar_base.specs.Folds.{fold_once, identity_of};
ghost use Rattle.paris_code.specs.Operators.{combiner_of};
ghost use Rattle.cstar_base.specs.Orders.{fold_below};
ghost use Rattle.block_store.specs.declared.set.Cell.{Cell};
ghost use Rattle.block_store.specs.Planes.{planes_in, HasPlanes};
ghost use Rattle.reduce_scan.specs.Blocks.{block_fold};
ghost use Rattle.reduce_scan.specs.Parts.{FitsBelow};

use crate::counts::BitFold;
use bit_planes::Block;
use block_store::{BlockSet, Cell, Room};
use cstar_base::numbers::identity;
use cstar_io::Gate;
use lane_kernels::count;
use paris_code::{Field, Reduction};
use std::thread::Threads;
use worker_forks::for_each_mut;

/// A fold of a field over the active lanes of blocks, with the place of the context flag. Each number
/// is taken as a word: in two's complement where the combiner reads its numbers so.
#[derive(Clone, Copy)]
pub(crate) struct FieldFold {
    pub(crate) combiner: Reduction,
    pub(crate) source: Field,
    pub(crate) context: u32,
}

impl FieldFold {
    /// The fold of a block.
    pub(crate) fn of(&self, block: &Block) -> u32
        requires field { FitsBelow self.now.context self.now.source }
        requires context { self.now.context < length block.now.planes.items }
        ensures { result ≡ block_fold self.now.combiner block.now.planes.items self.now.source self.now.context 512 }
    {
        if count(block.plane(self.context)) == 0 {
            let (combine, unsigned) = self.combiner.combiner();
            return identity(combine, unsigned);
        }
        match self.combiner {
            Reduction::SAdd => self.sum(block),
            Reduction::Logand => self.bitwise(block, BitFold::All),
            Reduction::Logior => self.bitwise(block, BitFold::Any),
            Reduction::Logxor => self.bitwise(block, BitFold::Odd),
            Reduction::SMin => self.extreme(block, false, false),
            Reduction::UMin => self.extreme(block, false, true),
            Reduction::SMax => self.extreme(block, true, false),
            Reduction::UMax => self.extreme(block, true, true),
        }
    }
}

/// Holds the fold of each block in the first word of its cell, with a call of the gate for each.
pub(crate) fn fold_blocks<R: Threads + Sync, G: Gate + Sync>(
    rt: &R,
    set: &BlockSet,
    room: &mut Room,
    fold: &FieldFold,
    workers: u32,
    gate: &G,
)
    requires field { FitsBelow fold.now.context fold.now.source }
    requires planes { HasPlanes (fold.now.context + 1) set.now.blocks.items }
    requires workers { 1 ≤ workers }
    requires few { length set.now.blocks.items < 2 ^ 32 }
    ensures count { length room.new.cells.items ≡ length room.old.cells.items }
    ensures folds { (k : ℕ) (none : Cell) (other : Block) → k < length set.now.blocks.items → k < length room.old.cells.items
        → slice_index (slice_index_or room.new.cells.items k none).words 0 ≡ block_fold fold.now.combiner (slice_index_or set.now.blocks.items k other).planes.items fold.now.source fold.now.context 512 }
{
    let blocks = set.blocks.as_slice();
    for_each_mut(
        rt,
        room.cells.as_mut_slice(),
        workers as usize,
        &|k: usize, cell: &mut Cell|
            requires { FitsBelow fold.now.context fold.now.source × HasPlanes (fold.now.context + 1) blocks.now × (length blocks.now < 2 ^ 32) }
            ensures { (other : Block) → k < length blocks.entry.now
                → slice_index cell.exit.now.words 0 ≡ block_fold fold.entry.now.combiner (slice_index_or blocks.entry.now k other).planes.items fold.entry.now.source fold.entry.now.context 512 }
        {
            if k < blocks.len() {
                gate.at(k as u32);
                cell.words[0] = fold.of(&blocks[k]);
            }
        },
    );
}
