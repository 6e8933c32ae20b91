//! Kernels in place: they read fields of the planes and write a field of the same planes, in the
//! lanes of a mask. Where operand and target coincide or do not overlap, each may be used. Before
//! its loop a kernel copies what it is lent: a local stays in registers, while what is lent is read
//! again for each plane that is written.
ghost use Rattle.std.specs.Prelude.{◌≡◌, ℕ, ◌<◌, ◌≤◌, ◌+◌, ◌-◌, ◌*◌, ◌/◌, ◌%◌, ◌^◌, ◌⊎◌, false, length, slice_index, if◌then◌else◌, nat_eq, nat_lt, bit_and, bit_or, bit_xor};
ghost use Rattle.bit_planes.specs.Bits.{bit};
ghost use Rattle.bit_planes.specs.Planes.{number, plane_at};
ghost use Rattle.bit_planes.specs.Rows.{held};
ghost use Rattle.lane_kernels.specs.Columns.{value_at};
ghost use Rattle.lane_kernels.specs.Kernels.{operand_of, IsReadable, IsReadableDown, IsFieldReadable, IsWithin, HasTarget, Becomes};
ghost use Rattle.lane_kernels.specs.Numbers.{addend, sum_of, difference_of, product_of, negative_of, complement_of, least_of, greatest_of, resized, shifted_left, shifted_right, extended};
ghost use Rattle.lane_kernels.specs.Gates.{gate_of};

use crate::compare::less;
use crate::gates::{Gate, carry_bit, choose, sum_bit};
use crate::target::{Operand, Target};
use bit_planes::plane::{both, differ, opposite, repeated};
use bit_planes::{Lanes, Plane, Rows};
use std::simd::prelude::*;

/// The sum of both operands, or with the second and a carry inverted, their difference. Of two fields by a
/// loop of its own, which asks no plane what its operand is.
#[inline(always)]
fn ripple(planes: &mut [Plane], to: &Target, a: &Operand, b: &Operand, inverted: bool)
    requires target { HasTarget to.now planes.old }
    requires a { IsReadable a.now to.now planes.old }
    requires b { IsReadable b.now to.now planes.old }
    ensures { Becomes to.now (λ i. (operand_of a.now planes.old to.now.len i + addend inverted to.now.len (operand_of b.now planes.old to.now.len i)) % 2 ^ to.now.len) planes.old planes.new }
{
    match (*a, *b) {
        (Operand::Field(x), Operand::Field(y)) => {
            ripple_of(planes, to, &Operand::Field(x), &Operand::Field(y), inverted)
        }
        (x, y) => ripple_of(planes, to, &x, &y, inverted),
    }
}

/// The same plane by plane.
#[inline(always)]
fn ripple_of(planes: &mut [Plane], to: &Target, a: &Operand, b: &Operand, inverted: bool)
    requires target { HasTarget to.now planes.old }
    requires a { IsReadable a.now to.now planes.old }
    requires b { IsReadable b.now to.now planes.old }
    ensures { Becomes to.now (λ i. (operand_of a.now planes.old to.now.len i + addend inverted to.now.len (operand_of b.now planes.old to.now.len i)) % 2 ^ to.now.len) planes.old planes.new }
{
    let (to, a, b) = (*to, *a, *b);
    let flip = repeated(inverted);
    let mut carry = repeated(inverted);
    for j in 0..to.len as usize {
        let x = a.plane(planes, j);
        let y = differ(b.plane(planes, j), flip);
        let sum = sum_bit(x, y, carry);
        carry = carry_bit(x, y, carry);
        to.write(planes, j, sum);
    }
}

/// The sums.
pub fn add(planes: &mut [Plane], to: &Target, a: &Operand, b: &Operand)
    requires target { HasTarget to.now planes.old }
    requires a { IsReadable a.now to.now planes.old }
    requires b { IsReadable b.now to.now planes.old }
    ensures { Becomes to.now (λ i. sum_of to.now.len (operand_of a.now planes.old to.now.len i) (operand_of b.now planes.old to.now.len i)) planes.old planes.new }
{
    ripple(planes, to, a, b, false);
}

/// The first operand's numbers less the second's.
pub fn subtract(planes: &mut [Plane], to: &Target, a: &Operand, b: &Operand)
    requires target { HasTarget to.now planes.old }
    requires a { IsReadable a.now to.now planes.old }
    requires b { IsReadable b.now to.now planes.old }
    ensures { Becomes to.now (λ i. difference_of to.now.len (operand_of a.now planes.old to.now.len i) (operand_of b.now planes.old to.now.len i)) planes.old planes.new }
{
    ripple(planes, to, a, b, true);
}

/// The negatives.
pub fn negate(planes: &mut [Plane], to: &Target, a: &Operand)
    requires target { HasTarget to.now planes.old }
    requires a { IsReadable a.now to.now planes.old }
    ensures { Becomes to.now (λ i. negative_of to.now.len (operand_of a.now planes.old to.now.len i)) planes.old planes.new }
{
    ripple(planes, to, &Operand::Constant(0), a, true);
}

/// Both operands, bit by bit through a gate; two fields by a loop of its own, as above.
#[inline(always)]
fn bitwise(planes: &mut [Plane], to: &Target, a: &Operand, b: &Operand, gate: Gate)
    requires target { HasTarget to.now planes.old }
    requires a { IsReadable a.now to.now planes.old }
    requires b { IsReadable b.now to.now planes.old }
    ensures { Becomes to.now (λ i. gate_of gate (operand_of a.now planes.old to.now.len i) (operand_of b.now planes.old to.now.len i)) planes.old planes.new }
{
    match (*a, *b) {
        (Operand::Field(x), Operand::Field(y)) => {
            bitwise_of(planes, to, &Operand::Field(x), &Operand::Field(y), gate)
        }
        (x, y) => bitwise_of(planes, to, &x, &y, gate),
    }
}

/// The same plane by plane.
#[inline(always)]
fn bitwise_of(planes: &mut [Plane], to: &Target, a: &Operand, b: &Operand, gate: Gate)
    requires target { HasTarget to.now planes.old }
    requires a { IsReadable a.now to.now planes.old }
    requires b { IsReadable b.now to.now planes.old }
    ensures { Becomes to.now (λ i. gate_of gate (operand_of a.now planes.old to.now.len i) (operand_of b.now planes.old to.now.len i)) planes.old planes.new }
{
    let (to, a, b) = (*to, *a, *b);
    for j in 0..to.len as usize {
        let value = gate.through(a.plane(planes, j), b.plane(planes, j));
        to.write(planes, j, value);
    }
}

/// The bits that are 1 in both.
pub fn and(planes: &mut [Plane], to: &Target, a: &Operand, b: &Operand)
    requires target { HasTarget to.now planes.old }
    requires a { IsReadable a.now to.now planes.old }
    requires b { IsReadable b.now to.now planes.old }
    ensures { Becomes to.now (λ i. bit_and (operand_of a.now planes.old to.now.len i) (operand_of b.now planes.old to.now.len i)) planes.old planes.new }
{
    bitwise(planes, to, a, b, Gate::And);
}

/// The bits that are 1 in one of them.
pub fn or(planes: &mut [Plane], to: &Target, a: &Operand, b: &Operand)
    requires target { HasTarget to.now planes.old }
    requires a { IsReadable a.now to.now planes.old }
    requires b { IsReadable b.now to.now planes.old }
    ensures { Becomes to.now (λ i. bit_or (operand_of a.now planes.old to.now.len i) (operand_of b.now planes.old to.now.len i)) planes.old planes.new }
{
    bitwise(planes, to, a, b, Gate::Or);
}

/// The bits in which they differ.
pub fn xor(planes: &mut [Plane], to: &Target, a: &Operand, b: &Operand)
    requires target { HasTarget to.now planes.old }
    requires a { IsReadable a.now to.now planes.old }
    requires b { IsReadable b.now to.now planes.old }
    ensures { Becomes to.now (λ i. bit_xor (operand_of a.now planes.old to.now.len i) (operand_of b.now planes.old to.now.len i)) planes.old planes.new }
{
    bitwise(planes, to, a, b, Gate::Xor);
}

/// The operand's numbers.
pub fn assign(planes: &mut [Plane], to: &Target, a: &Operand)
    requires target { HasTarget to.now planes.old }
    requires a { IsReadable a.now to.now planes.old }
    ensures { Becomes to.now (λ i. operand_of a.now planes.old to.now.len i) planes.old planes.new }
{
    bitwise(planes, to, a, a, Gate::Or);
}

/// The complements.
pub fn not(planes: &mut [Plane], to: &Target, a: &Operand)
    requires target { HasTarget to.now planes.old }
    requires a { IsReadable a.now to.now planes.old }
    ensures { Becomes to.now (λ i. complement_of to.now.len (operand_of a.now planes.old to.now.len i)) planes.old planes.new }
{
    let (to, a) = (*to, *a);
    for j in 0..to.len as usize {
        let value = opposite(a.plane(planes, j));
        to.write(planes, j, value);
    }
}

/// The first operand's numbers where `first` is 1, and else the second's.
pub fn select(planes: &mut [Plane], to: &Target, first: u64x8, a: &Operand, b: &Operand)
    requires target { HasTarget to.now planes.old }
    requires a { IsReadable a.now to.now planes.old }
    requires b { IsReadable b.now to.now planes.old }
    ensures { Becomes to.now (λ i. if nat_eq (bit first i) 1 then operand_of a.now planes.old to.now.len i else operand_of b.now planes.old to.now.len i) planes.old planes.new }
{
    let (to, a, b) = (*to, *a, *b);
    for j in 0..to.len as usize {
        let value = choose(first, a.plane(planes, j), b.plane(planes, j));
        to.write(planes, j, value);
    }
}

/// The lesser numbers.
pub fn min(planes: &mut [Plane], to: &Target, a: &Operand, b: &Operand, unsigned: bool)
    requires target { HasTarget to.now planes.old }
    requires a { IsReadable a.now to.now planes.old }
    requires b { IsReadable b.now to.now planes.old }
    ensures { Becomes to.now (λ i. least_of unsigned to.now.len (operand_of a.now planes.old to.now.len i) (operand_of b.now planes.old to.now.len i)) planes.old planes.new }
{
    let second = less(planes, b, a, to.len, unsigned);
    select(planes, to, second, b, a);
}

/// The greater numbers.
pub fn max(planes: &mut [Plane], to: &Target, a: &Operand, b: &Operand, unsigned: bool)
    requires target { HasTarget to.now planes.old }
    requires a { IsReadable a.now to.now planes.old }
    requires b { IsReadable b.now to.now planes.old }
    ensures { Becomes to.now (λ i. greatest_of unsigned to.now.len (operand_of a.now planes.old to.now.len i) (operand_of b.now planes.old to.now.len i)) planes.old planes.new }
{
    let second = less(planes, a, b, to.len, unsigned);
    select(planes, to, second, b, a);
}

/// A plane of the field of `len` bits at the offset, or what stands above its bits.
#[inline(always)]
fn plane_or(planes: &[Plane], offset: u32, len: u8, at: usize, above: u64x8) -> u64x8
    requires { offset + len ≤ length planes.now }
    ensures { (i : ℕ) → i < 512 → bit result i ≡ (if nat_lt at len then bit (plane_at planes.now (offset + at)) i else bit above i) }
{
    if at < len as usize {
        planes[offset as usize + at].bits
    } else {
        above
    }
}

/// What stands above the bits of a field: its sign, or 0.
#[inline(always)]
fn above(planes: &[Plane], offset: u32, len: u8, unsigned: bool) -> u64x8
    requires len { 1 ≤ len }
    requires within { offset + len ≤ length planes.now }
    ensures { (i : ℕ) → i < 512 → bit result i ≡ (if unsigned then 0 else bit (plane_at planes.now (offset + (len - 1))) i) }
{
    if unsigned {
        repeated(false)
    } else {
        planes[offset as usize + (len as usize - 1)].bits
    }
}

/// The bits of the field of `len` bits at the offset from bit k on.
#[inline(always)]
fn from_bit(planes: &mut [Plane], to: &Target, offset: u32, len: u8, k: u32, unsigned: bool)
    requires target { HasTarget to.now planes.old }
    requires len { 1 ≤ len }
    requires field { IsFieldReadable offset len to.now planes.old }
    ensures { Becomes to.now (λ i. extended unsigned len (to.now.len + k) (number planes.old offset len i) / 2 ^ k % 2 ^ to.now.len) planes.old planes.new }
{
    let to = *to;
    let sign = above(planes, offset, len, unsigned);
    for j in 0..to.len as usize {
        let value = plane_or(planes, offset, len, j + k as usize, sign);
        to.write(planes, j, value);
    }
}

/// The numbers of the field of `len` bits at the offset, at the target's length.
pub fn resize(planes: &mut [Plane], to: &Target, offset: u32, len: u8, unsigned: bool)
    requires target { HasTarget to.now planes.old }
    requires len { 1 ≤ len }
    requires field { IsFieldReadable offset len to.now planes.old }
    ensures { Becomes to.now (λ i. resized unsigned len to.now.len (number planes.old offset len i)) planes.old planes.new }
{
    from_bit(planes, to, offset, len, 0, unsigned);
}

/// The numbers of the field at the offset, shifted right by k.
pub fn shift_right(planes: &mut [Plane], to: &Target, offset: u32, k: u32, unsigned: bool)
    requires target { HasTarget to.now planes.old }
    requires field { IsFieldReadable offset to.now.len to.now planes.old }
    ensures { Becomes to.now (λ i. shifted_right unsigned to.now.len k (number planes.old offset to.now.len i)) planes.old planes.new }
{
    from_bit(planes, to, offset, to.len, k, unsigned);
}

/// The numbers of the field at the offset, shifted right by k in two's complement, and one more where
/// the plane has 1.
pub fn shift_right_plus(planes: &mut [Plane], to: &Target, offset: u32, k: u32, more: u64x8)
    requires target { HasTarget to.now planes.old }
    requires field { IsFieldReadable offset to.now.len to.now planes.old }
    ensures { Becomes to.now (λ i. (shifted_right false to.now.len k (number planes.old offset to.now.len i) + bit more i) % 2 ^ to.now.len) planes.old planes.new }
{
    let to = *to;
    let sign = above(planes, offset, to.len, false);
    let mut carry = more;
    for j in 0..to.len as usize {
        let value = plane_or(planes, offset, to.len, j + k as usize, sign);
        let sum = differ(value, carry);
        carry = both(value, carry);
        to.write(planes, j, sum);
    }
}

/// The plane k before this one of a field, or 0.
#[inline(always)]
fn plane_before(planes: &[Plane], offset: u32, at: usize, k: u32) -> u64x8
    requires { offset + at < length planes.now }
    ensures { (i : ℕ) → i < 512 → bit result i ≡ (if nat_lt at k then 0 else bit (plane_at planes.now (offset + (at - k))) i) }
{
    if at < k as usize {
        repeated(false)
    } else {
        planes[offset as usize + (at - k as usize)].bits
    }
}

/// The numbers of the field at the offset, shifted left by k.
pub fn shift_left(planes: &mut [Plane], to: &Target, offset: u32, k: u32)
    requires target { HasTarget to.now planes.old }
    requires field { IsReadableDown offset to.now planes.old }
    ensures { Becomes to.now (λ i. shifted_left to.now.len k (number planes.old offset to.now.len i)) planes.old planes.new }
{
    let to = *to;
    for j in (0..to.len as usize).rev() {
        let value = plane_before(planes, offset, j, k);
        to.write(planes, j, value);
    }
}

/// The numbers that stand across these planes.
fn put_planes(planes: &mut [Plane], to: &Target, column: &[Plane])
    requires target { HasTarget to.now planes.old }
    requires len { to.now.len ≤ length column.now }
    ensures { Becomes to.now (λ i. number column.now 0 to.now.len i) planes.old planes.new }
{
    for j in 0..to.len as usize {
        to.write(planes, j, column[j].bits);
    }
}

/// The column's numbers.
pub fn put(planes: &mut [Plane], to: &Target, column: &Lanes)
    requires target { HasTarget to.now planes.old }
    requires len { column.now.len ≡ to.now.len }
    ensures { Becomes to.now (λ i. value_at column.now i) planes.old planes.new }
{
    put_planes(planes, to, &column.planes);
}

/// These numbers, one in each lane, cut to the target's length.
pub fn put_values(planes: &mut [Plane], to: &Target, values: &[u32; 512])
    requires { HasTarget to.now planes.old }
    ensures { Becomes to.now (λ i. slice_index values.now i % 2 ^ to.now.len) planes.old planes.new }
{
    let mut rows = Rows::from_values(values);
    rows.turn();
    put_planes(planes, to, &rows.planes);
}

/// Makes the rows the operand's numbers of `len` bits, as far as those bits go.
fn read(rows: &mut Rows, planes: &[Plane], a: &Operand, len: u8)
    requires len { (1 ≤ len) × (len ≤ 32) }
    requires within { IsWithin a.now len planes.now }
    ensures { (i : ℕ) → i < 512 → held rows.new.planes i % 2 ^ len ≡ operand_of a.now planes.now len i }
{
    match a {
        Operand::Field(offset) => rows.read(planes, *offset, len),
        Operand::Constant(number) => *rows = Rows::repeated(*number),
    }
}

/// The products. The operands may overlap the target in any way. Not inlined: its rows of numbers
/// would make the caller's frame larger by pages.
#[inline(never)]
pub fn multiply(planes: &mut [Plane], to: &Target, a: &Operand, b: &Operand)
    requires target { HasTarget to.now planes.old }
    requires a { IsWithin a.now to.now.len planes.old }
    requires b { IsWithin b.now to.now.len planes.old }
    ensures { Becomes to.now (λ i. product_of to.now.len (operand_of a.now planes.old to.now.len i) (operand_of b.now planes.old to.now.len i)) planes.old planes.new }
{
    let mut products = Rows::repeated(0);
    let mut factors = Rows::repeated(0);
    read(&mut products, planes, a, to.len);
    read(&mut factors, planes, b, to.len);
    products.multiply(&factors);
    products.turn();
    put_planes(planes, to, &products.planes);
}
