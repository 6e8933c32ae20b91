//! Fields whose bits are moved: to another length, or to other places.

ghost use Rattle.std.specs.Prelude.{◌≡◌, ℕ, ◌+◌, ◌-◌, ◌^◌, ◌<◌, ◌≤◌, false, List, length, IsTrue};
ghost use Rattle.bit_planes.specs.declared.plane.Plane.{Plane};
ghost use Rattle.bit_planes.specs.Bits.{bit};
ghost use Rattle.bit_planes.specs.Planes.{number, plane_at};
ghost use Rattle.cstar_base.specs.Operators.{quotient_of};
ghost use Rattle.lane_kernels.specs.Kernels.{HasTarget, IsFieldReadable, Becomes};
ghost use Rattle.elementwise.specs.Moved.{moved_number, IsMovedWithin, IsMovable};

use crate::overlap::{is_readable_down, is_readable_up};
use bit_planes::Plane;
use bit_planes::plane::{both, opposite};
use lane_kernels::compare::equal;
use lane_kernels::{Operand, Target, in_place};
use std::simd::prelude::*;

/// A field of the planes, and what is done to its bits. A field that is shifted is as long as the
/// target.
#[derive(Drop)]
pub(crate) enum Moved {
    Resized {
        offset: u32,
        len: u8,
        unsigned: bool,
    },
    ShiftedLeft {
        offset: u32,
        by: u32,
    },
    ShiftedRight {
        offset: u32,
        by: u32,
        unsigned: bool,
    },
    /// Divided by 2 to the `by`, toward 0.
    Divided {
        offset: u32,
        by: u32,
    },
}

/// The sign of a field's numbers in two's complement.
fn sign(planes: &[Plane], offset: u32, len: u8) -> u64x8
    requires len { 1 ≤ len }
    requires within { offset + len ≤ length planes.now }
    ensures { (i : ℕ) → i < 512 → bit result i ≡ bit (plane_at planes.now (offset + (len - 1))) i }
{
    planes[offset as usize + (len as usize - 1)].bits
}

/// Makes the target the quotients toward 0 of the field's numbers by 2 to the k: a number below 0 that
/// leaves a remainder gets one more than its shift.
fn divide(planes: &mut [Plane], to: &Target, offset: u32, k: u32)
    requires target { HasTarget to.now planes.old }
    requires field { IsFieldReadable offset to.now.len to.now planes.old }
    requires positive { k + 1 < to.now.len }
    ensures { Becomes to.now (λ i. quotient_of to.now.len false (number planes.old offset to.now.len i) (2 ^ k)) planes.old planes.new }
{
    let below_zero = sign(planes, offset, to.len);
    let low = Operand::Field(offset);
    let whole = equal(planes, &low, &Operand::Constant(0), k as u8);
    let more = both(below_zero, opposite(whole));
    in_place::shift_right_plus(planes, to, offset, k, more);
}

impl Moved {
    /// Whether the field can be read while the target is written.
    pub(crate) fn can_work_in_place(&self, to: &Target) -> bool
        ensures { (planes : List Plane) → IsTrue result → IsMovedWithin self.now to.now.len planes → IsMovable self.now to.now planes }
    {
        match self {
            Moved::Resized { offset, len, .. } => is_readable_up(*offset, *len, to),
            Moved::ShiftedLeft { offset, .. } => is_readable_down(*offset, to),
            Moved::ShiftedRight { offset, .. } | Moved::Divided { offset, .. } => {
                is_readable_up(*offset, to.len, to)
            }
        }
    }

    /// Makes the target the numbers of the field so moved, in its lanes.
    pub(crate) fn put(&self, planes: &mut [Plane], to: &Target)
        requires target { HasTarget to.now planes.old }
        requires field { IsMovable self.now to.now planes.old }
        ensures { Becomes to.now (moved_number self.now planes.old to.now.len) planes.old planes.new }
    {
        match self {
            Moved::Resized {
                offset,
                len,
                unsigned,
            } => in_place::resize(planes, to, *offset, *len, *unsigned),
            Moved::ShiftedLeft { offset, by } => in_place::shift_left(planes, to, *offset, *by),
            Moved::ShiftedRight {
                offset,
                by,
                unsigned,
            } => in_place::shift_right(planes, to, *offset, *by, *unsigned),
            Moved::Divided { offset, by } => divide(planes, to, *offset, *by),
        }
    }
}
