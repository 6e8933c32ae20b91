//! Comparisons of fields.
ghost use Rattle.std.specs.Prelude.{◌≡◌, ℕ, ◌<◌, ◌≤◌, if◌then◌else◌, nat_eq};
ghost use Rattle.bit_planes.specs.Bits.{bit};
ghost use Rattle.lane_kernels.specs.Kernels.{operand_of, IsWithin};
ghost use Rattle.lane_kernels.specs.Numbers.{is_less};

use crate::gates::choose;
use crate::target::Operand;
use bit_planes::Plane;
use bit_planes::plane::{both, differ, either, opposite, repeated};
use std::simd::prelude::*;

/// 1 where the first operand's number is below the second's, both of `len` bits.
pub fn less(planes: &[Plane], a: &Operand, b: &Operand, len: u8, unsigned: bool) -> u64x8
    requires len { (1 ≤ len) × (len ≤ 32) }
    requires a { IsWithin a.now len planes.now }
    requires b { IsWithin b.now len planes.now }
    ensures { (i : ℕ) → i < 512 → bit result i ≡ (if is_less unsigned len (operand_of a.now planes.now len i) (operand_of b.now planes.now len i) then 1 else 0) }
{
    let (a, b) = (*a, *b);
    let top = len as usize - 1;
    let mut below = repeated(false);
    for j in 0..top {
        below = decided(a.plane(planes, j), b.plane(planes, j), below);
    }
    let x = a.plane(planes, top);
    let y = b.plane(planes, top);
    decided_at_top(x, y, below, unsigned)
}

/// The same by their highest bits, which in two's complement are 1 for the numbers below 0.
#[inline(always)]
fn decided_at_top(x: u64x8, y: u64x8, below: u64x8, unsigned: bool) -> u64x8
    ensures { (i : ℕ) → i < 512 → bit result i ≡ (if unsigned then (if nat_eq (bit x i) (bit y i) then bit below i else bit y i) else (if nat_eq (bit y i) (bit x i) then bit below i else bit x i)) }
{
    if unsigned {
        decided(x, y, below)
    } else {
        decided(y, x, below)
    }
}

/// Whether the first is below the second, by their next bits, or where these are alike by the bits
/// before.
#[inline(always)]
fn decided(x: u64x8, y: u64x8, below: u64x8) -> u64x8
    ensures { (i : ℕ) → i < 512 → bit result i ≡ (if nat_eq (bit x i) (bit y i) then bit below i else bit y i) }
{
    choose(differ(x, y), y, below)
}

/// 1 where both operands have the same number of `len` bits. Two fields are compared by a loop of its own,
/// which asks no plane what its operand is.
pub fn equal(planes: &[Plane], a: &Operand, b: &Operand, len: u8) -> u64x8
    requires len { len ≤ 32 }
    requires a { IsWithin a.now len planes.now }
    requires b { IsWithin b.now len planes.now }
    ensures { (i : ℕ) → i < 512 → bit result i ≡ (if nat_eq (operand_of a.now planes.now len i) (operand_of b.now planes.now len i) then 1 else 0) }
{
    match (*a, *b) {
        (Operand::Field(x), Operand::Field(y)) => {
            equal_of(planes, &Operand::Field(x), &Operand::Field(y), len)
        }
        (x, y) => equal_of(planes, &x, &y, len),
    }
}

/// The same plane by plane.
#[inline(always)]
fn equal_of(planes: &[Plane], a: &Operand, b: &Operand, len: u8) -> u64x8
    requires len { len ≤ 32 }
    requires a { IsWithin a.now len planes.now }
    requires b { IsWithin b.now len planes.now }
    ensures { (i : ℕ) → i < 512 → bit result i ≡ (if nat_eq (operand_of a.now planes.now len i) (operand_of b.now planes.now len i) then 1 else 0) }
{
    let (a, b) = (*a, *b);
    let mut apart = repeated(false);
    for j in 0..len as usize {
        let change = differ(a.plane(planes, j), b.plane(planes, j));
        apart = either(apart, change);
    }
    opposite(apart)
}
