//! Where kernels read and write.
ghost use Rattle.std.specs.Prelude.{◌≡◌, ℕ, ◌<◌, ◌≤◌, ◌+◌, ◌==◌, length, IsTrue};
ghost use Rattle.bit_planes.specs.Bits.{bit};
ghost use Rattle.lane_kernels.specs.Changes.{HasAllLanes, Writes};

use crate::gates::choose;
use bit_planes::Plane;
use bit_planes::plane::{is_full, repeated};
use std::simd::prelude::*;

/// Where a kernel puts its results: a field of the planes, and the lanes in which it is written. Where
/// all lanes are seen to be written, a plane is put down whole.
#[derive(Clone, Copy)]
pub struct Target {
    pub offset: u32,
    pub len: u8,
    pub lanes: u64x8,
    all: bool,
    pub ghost in_range: { (1 ≤ len) × (len ≤ 32) },
    ghost all_lanes: { IsTrue all → HasAllLanes lanes },
}

impl Target {
    /// The field of `len` bits at the offset, in these lanes.
    #[inline(always)]
    pub fn at(offset: u32, len: u8, lanes: u64x8) -> Target
        requires { (1 ≤ len) × (len ≤ 32) }
        ensures offset { result.offset ≡ offset }
        ensures len { result.len ≡ len }
        ensures lanes { result.lanes ≡ lanes }
    {
        // A single plane is written sooner than its lanes are looked at.
        let all = len > 1 && is_full(lanes);
        Target {
            offset,
            len,
            lanes,
            all,
        }
    }

    /// Writes the plane of bit `j` of the field, in the target's lanes.
    #[inline(always)]
    pub fn write(&self, planes: &mut [Plane], j: usize, value: u64x8)
        requires { self.now.offset + j < length planes.old }
        ensures { Writes (self.now.offset + j) value self.now.lanes planes.old planes.new }
    {
        let at = self.offset as usize + j;
        if self.all {
            planes[at] = Plane { bits: value };
        } else {
            write(planes, at, value, self.lanes);
        }
    }
}

/// What a kernel reads: a field of the planes, as long as the target, or one number for all lanes,
/// cut to the target's length.
#[derive(Clone, Copy)]
pub enum Operand {
    Field(u32),
    Constant(u32),
}

impl Operand {
    ghost use Rattle.lane_kernels.specs.Kernels.{operand_bit, IsWithin};

    /// The plane of one of its bits.
    #[inline(always)]
    pub fn plane(&self, planes: &[Plane], j: usize) -> u64x8
        requires bit { j < 32 }
        requires within { IsWithin self.now (j + 1) planes.now }
        ensures { (i : ℕ) → i < 512 → bit result i ≡ operand_bit self.now planes.now j i }
    {
        match self {
            Operand::Field(offset) => planes[*offset as usize + j].bits,
            Operand::Constant(number) => repeated((*number >> j) % 2 == 1),
        }
    }
}

/// Writes a plane, as a flag, in the lanes of the mask.
#[inline(always)]
pub fn write(planes: &mut [Plane], at: usize, value: u64x8, lanes: u64x8)
    requires { at < length planes.old }
    ensures { Writes at value lanes planes.old planes.new }
{
    planes[at] = Plane {
        bits: choose(lanes, value, planes[at].bits),
    };
}
