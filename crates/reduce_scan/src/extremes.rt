//! The least and the greatest number of a field in a block, by its planes.

ghost use Rattle.std.specs.Prelude.{◌≡◌, ◌≢◌, ℕ, ◌<◌, ◌==◌, Bool, length, if◌then◌else◌};
ghost use Rattle.bit_planes.specs.Bits.{bit};
ghost use Rattle.bit_planes.specs.Planes.{plane_at};
ghost use Rattle.lane_kernels.specs.Numbers.{ones_before};
ghost use Rattle.reduce_scan.specs.Blocks.{block_fold};
ghost use Rattle.reduce_scan.specs.Extremes.{extreme_of, wants_one};
ghost use Rattle.reduce_scan.specs.Parts.{FitsBelow};

use crate::folds::FieldFold;
use bit_planes::Block;
use bit_planes::plane::{both, opposite};
use lane_kernels::count;
use phase_meaning::arith::extended;
use std::simd::prelude::*;

/// The lanes of a plane that have a 1, or those that have a 0.
fn having(plane: u64x8, one: bool) -> u64x8
    ensures { (i : ℕ) → i < 512 → bit result i ≡ (if bit plane i == (if one then 1 else 0) then 1 else 0) }
{
    if one {
        return plane;
    }
    opposite(plane)
}

/// Whether the number that is looked for has a 1, rather than a 0, at the n-th bit from the highest
/// one, where it can.
fn wants_one(greatest: bool, unsigned: bool, n: u32) -> bool
    ensures { result ≡ wants_one greatest unsigned n }
{
    if n == 0 && !unsigned {
        !greatest
    } else {
        greatest
    }
}

/// The lanes that stay: those that have the better bit, where some have it.
fn staying(found: bool, better: u64x8, left: u64x8) -> u64x8
    ensures { result ≡ (if found then better else left) }
{
    if found { better } else { left }
}

/// The bit of the number that is looked for: the better one, where some lane has it.
fn digit(found: bool, wanted: bool) -> u32
    ensures { result ≡ (if found then (if wanted then 1 else 0) else (if wanted then 0 else 1)) }
{
    if found {
        if wanted { 1 } else { 0 }
    } else if wanted {
        0
    } else {
        1
    }
}

impl FieldFold {
    /// The least or the greatest number of the field over the active lanes of a block, of which there
    /// are some, with a sign or without one: from the highest bit down, the lanes stay that have the
    /// better bit, where some do.
    pub(crate) fn extreme(&self, block: &Block, greatest: bool, unsigned: bool) -> u32
        requires field { FitsBelow self.now.context self.now.source }
        requires context { self.now.context < length block.now.planes.items }
        requires some { ones_before (plane_at block.now.planes.items self.now.context) 512 ≢ 0 }
        ensures { result ≡ block_fold (extreme_of greatest unsigned) block.now.planes.items self.now.source self.now.context 512 }
    {
        let mut left = block.plane(self.context);
        let highest = self.source.offset + u32::from(self.source.len) - 1;
        let mut total: u32 = 0;
        for n in 0..u32::from(self.source.len) {
            let wanted = wants_one(greatest, unsigned, n);
            let better = both(left, having(block.plane(highest - n), wanted));
            let found = count(better) != 0;
            left = staying(found, better, left);
            total = total * 2 + digit(found, wanted);
        }
        extended(!unsigned, self.source.len, total)
    }
}
