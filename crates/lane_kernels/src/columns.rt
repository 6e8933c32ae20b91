//! Kernels over whole columns: the operands stay, and the result is a column of its own.
ghost use Rattle.std.specs.Prelude.{◌≡◌, ℕ, ◌<◌, ◌≤◌, ◌+◌, length, if◌then◌else◌, nat_eq, bit_and, bit_or, bit_xor};
ghost use Rattle.bit_planes.specs.Bits.{bit};
ghost use Rattle.bit_planes.specs.Planes.{plane_at};
ghost use Rattle.lane_kernels.specs.Columns.{value_at, HasNumbers, IsBeside, IsWhole};
ghost use Rattle.lane_kernels.specs.Numbers.{sum_of, difference_of, negative_of, complement_of, is_less, least_of, greatest_of, resized, shifted_left, shifted_right};

use crate::target::{Operand, Target};
use crate::{compare, in_place};
use bit_planes::plane::repeated;
use bit_planes::{Lanes, Plane};
use std::simd::prelude::*;

const FIRST: Operand = Operand::Field(0);

const SECOND: Operand = Operand::Field(32);

/// The planes of the first column, and behind them those of the second.
fn beside(a: &Lanes, b: &Lanes) -> [Plane; 64]
    ensures { IsBeside a.now b.now result }
{
    let mut planes = [Plane::zero(); 64];
    for j in 0..32 {
        planes[j] = a.planes[j];
        planes[32 + j] = b.planes[j];
    }
    planes
}

/// The first `len` bits of the planes, in every lane.
fn whole(len: u8) -> Target
    requires { (1 ≤ len) × (len ≤ 32) }
    ensures { IsWhole len result }
{
    Target::at(0, len, repeated(true))
}

/// The column of the first `len` planes.
fn column(planes: &[Plane], len: u8) -> Lanes
    requires len { (1 ≤ len) × (len ≤ 32) }
    requires long { 32 ≤ length planes.now }
    ensures len { result.len ≡ len }
    ensures planes { (j : ℕ) → j < 32 → plane_at result.planes j ≡ plane_at planes.now j }
{
    let mut first = [Plane::zero(); 32];
    for j in 0..32 {
        first[j] = planes[j];
    }
    Lanes { planes: first, len }
}

/// The sums.
pub fn add(a: &Lanes, b: &Lanes, _unsigned: bool) -> Lanes
    requires { b.now.len ≡ a.now.len }
    ensures { HasNumbers result a.now.len (λ i. sum_of a.now.len (value_at a.now i) (value_at b.now i)) }
{
    let mut planes = beside(a, b);
    in_place::add(&mut planes, &whole(a.len), &FIRST, &SECOND);
    column(&planes, a.len)
}

/// The first column's numbers less the second's.
pub fn subtract(a: &Lanes, b: &Lanes, _unsigned: bool) -> Lanes
    requires { b.now.len ≡ a.now.len }
    ensures { HasNumbers result a.now.len (λ i. difference_of a.now.len (value_at a.now i) (value_at b.now i)) }
{
    let mut planes = beside(a, b);
    in_place::subtract(&mut planes, &whole(a.len), &FIRST, &SECOND);
    column(&planes, a.len)
}

/// The bits that are 1 in both.
pub fn and(a: &Lanes, b: &Lanes, _unsigned: bool) -> Lanes
    requires { b.now.len ≡ a.now.len }
    ensures { HasNumbers result a.now.len (λ i. bit_and (value_at a.now i) (value_at b.now i)) }
{
    let mut planes = beside(a, b);
    in_place::and(&mut planes, &whole(a.len), &FIRST, &SECOND);
    column(&planes, a.len)
}

/// The bits that are 1 in one of them.
pub fn or(a: &Lanes, b: &Lanes, _unsigned: bool) -> Lanes
    requires { b.now.len ≡ a.now.len }
    ensures { HasNumbers result a.now.len (λ i. bit_or (value_at a.now i) (value_at b.now i)) }
{
    let mut planes = beside(a, b);
    in_place::or(&mut planes, &whole(a.len), &FIRST, &SECOND);
    column(&planes, a.len)
}

/// The bits in which they differ.
pub fn xor(a: &Lanes, b: &Lanes, _unsigned: bool) -> Lanes
    requires { b.now.len ≡ a.now.len }
    ensures { HasNumbers result a.now.len (λ i. bit_xor (value_at a.now i) (value_at b.now i)) }
{
    let mut planes = beside(a, b);
    in_place::xor(&mut planes, &whole(a.len), &FIRST, &SECOND);
    column(&planes, a.len)
}

/// The lesser numbers.
pub fn min(a: &Lanes, b: &Lanes, unsigned: bool) -> Lanes
    requires { b.now.len ≡ a.now.len }
    ensures { HasNumbers result a.now.len (λ i. least_of unsigned a.now.len (value_at a.now i) (value_at b.now i)) }
{
    let mut planes = beside(a, b);
    in_place::min(&mut planes, &whole(a.len), &FIRST, &SECOND, unsigned);
    column(&planes, a.len)
}

/// The greater numbers.
pub fn max(a: &Lanes, b: &Lanes, unsigned: bool) -> Lanes
    requires { b.now.len ≡ a.now.len }
    ensures { HasNumbers result a.now.len (λ i. greatest_of unsigned a.now.len (value_at a.now i) (value_at b.now i)) }
{
    let mut planes = beside(a, b);
    in_place::max(&mut planes, &whole(a.len), &FIRST, &SECOND, unsigned);
    column(&planes, a.len)
}

/// The negatives.
pub fn negate(a: &Lanes) -> Lanes
    ensures { HasNumbers result a.now.len (λ i. negative_of a.now.len (value_at a.now i)) }
{
    let mut planes = beside(a, a);
    in_place::negate(&mut planes, &whole(a.len), &FIRST);
    column(&planes, a.len)
}

/// The complements.
pub fn not(a: &Lanes) -> Lanes
    ensures { HasNumbers result a.now.len (λ i. complement_of a.now.len (value_at a.now i)) }
{
    let mut planes = beside(a, a);
    in_place::not(&mut planes, &whole(a.len), &FIRST);
    column(&planes, a.len)
}

/// 1 where the first column's number is below the second's.
pub fn less(a: &Lanes, b: &Lanes, unsigned: bool) -> u64x8
    requires { b.now.len ≡ a.now.len }
    ensures { (i : ℕ) → i < 512 → bit result i ≡ (if is_less unsigned a.now.len (value_at a.now i) (value_at b.now i) then 1 else 0) }
{
    compare::less(&beside(a, b), &FIRST, &SECOND, a.len, unsigned)
}

/// 1 where both columns have the same number.
pub fn equal(a: &Lanes, b: &Lanes) -> u64x8
    requires { b.now.len ≡ a.now.len }
    ensures { (i : ℕ) → i < 512 → bit result i ≡ (if nat_eq (value_at a.now i) (value_at b.now i) then 1 else 0) }
{
    compare::equal(&beside(a, b), &FIRST, &SECOND, a.len)
}

/// The first column's numbers where the mask is 1, and else the second's.
pub fn select(mask: u64x8, a: &Lanes, b: &Lanes) -> Lanes
    requires { b.now.len ≡ a.now.len }
    ensures { HasNumbers result a.now.len (λ i. if nat_eq (bit mask i) 1 then value_at a.now i else value_at b.now i) }
{
    let mut planes = beside(a, b);
    in_place::select(&mut planes, &whole(a.len), mask, &FIRST, &SECOND);
    column(&planes, a.len)
}

/// The numbers times 2 to the k.
pub fn shift_left(a: &Lanes, k: u32) -> Lanes
    ensures { HasNumbers result a.now.len (λ i. shifted_left a.now.len k (value_at a.now i)) }
{
    let mut planes = beside(a, a);
    in_place::shift_left(&mut planes, &whole(a.len), 0, k);
    column(&planes, a.len)
}

/// The numbers divided by 2 to the k, downwards.
pub fn shift_right(a: &Lanes, k: u32, unsigned: bool) -> Lanes
    ensures { HasNumbers result a.now.len (λ i. shifted_right unsigned a.now.len k (value_at a.now i)) }
{
    let mut planes = beside(a, a);
    in_place::shift_right(&mut planes, &whole(a.len), 0, k, unsigned);
    column(&planes, a.len)
}

/// The same numbers in `len` bits, cut or extended.
pub fn resize(a: &Lanes, len: u8, unsigned: bool) -> Lanes
    requires { (1 ≤ len) × (len ≤ 32) }
    ensures { HasNumbers result len (λ i. resized unsigned a.now.len len (value_at a.now i)) }
{
    let mut planes = beside(a, a);
    in_place::resize(&mut planes, &whole(len), 0, a.len, unsigned);
    column(&planes, len)
}
