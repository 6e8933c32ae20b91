//! Folds of a block by its planes: from how many active lanes have a 1 in each.

ghost use Rattle.std.specs.Prelude.{◌≡◌, ◌≢◌, ◌<◌, length};
ghost use Rattle.bit_planes.specs.Planes.{plane_at};
ghost use Rattle.lane_kernels.specs.Numbers.{ones_before};
ghost use Rattle.paris_code.specs.declared.operands.Reduction.TheVariants as R;
ghost use Rattle.reduce_scan.specs.Blocks.{block_fold};
ghost use Rattle.reduce_scan.specs.Parts.{FitsBelow};
ghost use Rattle.reduce_scan.specs.Planewise.{folded_bit, reduction_of};

use crate::folds::FieldFold;
use bit_planes::Block;
use bit_planes::plane::both;
use lane_kernels::count;

/// A fold of numbers bit by bit: whether all have a 1, any has, or an odd number of them.
#[derive(Clone, Copy)]
pub(crate) enum BitFold {
    All,
    Any,
    Odd,
}

impl BitFold {
    /// The bit of the fold, where so many of all numbers have a 1.
    fn bit(self, ones: u32, all: u32) -> u32
        ensures { result ≡ folded_bit self ones all }
    {
        match self {
            BitFold::All => { if ones == all { 1 } else { 0 } }
            BitFold::Any => { if ones == 0 { 0 } else { 1 } }
            BitFold::Odd => ones % 2,
        }
    }
}

impl FieldFold {
    /// The sum of the field over the active lanes of a block, modulo 2 to the 32. The highest plane holds
    /// the signs, and its weight is negative.
    pub(crate) fn sum(&self, block: &Block) -> u32
        requires field { FitsBelow self.now.context self.now.source }
        requires context { self.now.context < length block.now.planes.items }
        ensures { result ≡ block_fold R.SAdd block.now.planes.items self.now.source self.now.context 512 }
    {
        let active = block.plane(self.context);
        let sign = u32::from(self.source.len) - 1;
        let mut total: u32 = 0;
        for j in 0..sign {
            let ones = count(both(block.plane(self.source.offset + j), active));
            total = total.wrapping_add(ones << j);
        }
        let negative = count(both(block.plane(self.source.offset + sign), active));
        total.wrapping_sub(negative << sign)
    }

    /// The fold of the field bit by bit over the active lanes of a block, of which there are some.
    /// Above the field all bits are 0.
    pub(crate) fn bitwise(&self, block: &Block, fold: BitFold) -> u32
        requires field { FitsBelow self.now.context self.now.source }
        requires context { self.now.context < length block.now.planes.items }
        requires some { ones_before (plane_at block.now.planes.items self.now.context) 512 ≢ 0 }
        ensures { result ≡ block_fold (reduction_of fold) block.now.planes.items self.now.source self.now.context 512 }
    {
        let active = block.plane(self.context);
        let all = count(active);
        let mut total = 0;
        for j in 0..u32::from(self.source.len) {
            let ones = count(both(block.plane(self.source.offset + j), active));
            total += fold.bit(ones, all) << j;
        }
        total
    }
}
