//! The lanes of a block in which a check fails.

ghost use Rattle.std.specs.Prelude.{◌≡◌, ℕ, ◌+◌, ◌*◌, ◌%◌, ◌^◌, ◌<◌, ◌≤◌, ◌+ℤ◌, pos, map, length, slice_index, All, if◌then◌else◌};
ghost use Rattle.vp_sets.specs.Positions.{coordinate};
ghost use Rattle.bit_planes.specs.Bits.{bit};
ghost use Rattle.bit_planes.specs.Planes.{number};
ghost use Rattle.cstar_base.specs.Numbers.{number_of};
ghost use Rattle.paris_code.specs.Arguments.{coordinate_whole};
ghost use Rattle.paris_code.specs.Checking.{any_leaves, any_outside, checked_set, fails, is_outside, is_signed};
ghost use Rattle.paris_code.specs.Operands.{coordinate_of};
ghost use Rattle.paris_code.specs.RuleSet.{axis_of};
ghost use Rattle.paris_code.specs.Shapes.{bits_at};
ghost use Rattle.phase_meaning.specs.Apply.{CanApply};
ghost use Rattle.block_store.specs.Stored.{shape_of_plan};
ghost use Rattle.elementwise.specs.Blocks.{block_memory};
ghost use Rattle.elementwise.specs.Columns.{IsCoordinateWithin};

use crate::writes::plan_of;
use bit_planes::Plane;
use bit_planes::plane::{either, opposite, repeated};
use block_store::SetPlan;
use lane_kernels::Operand;
use lane_kernels::compare::{equal, less};
use news_grid::lanes_from;
use paris_code::{Coordinate, Field, GridStep, Instr, Konst, SignedCoordinate};
use phase_elements::{behind, behind_step, next};
use phase_meaning::arith::{mask, signed, whole};
use std::simd::prelude::*;
use vp_sets::Geometry;

/// Whether a whole number is no coordinate of an axis with this extent.
#[tactic(auto, unfolding(paris_code::specs::Checking::is_outside))]
fn is_outside(extent: u32, number: i64) -> bool
    ensures { result ≡ is_outside extent number }
{
    (number < 0) | (i64::from(extent) <= number)
}

/// 1 in the lanes in which the field's number is no coordinate of an axis with this extent. One that is
/// below 0 is not below 2 to the `len - 1` where it is taken as unsigned.
fn field_outside(planes: &[Plane], extent: u32, f: Field, signed: bool) -> u64x8
    requires len { (1 ≤ f.len) × (f.len ≤ 32) }
    requires within { f.offset + f.len ≤ length planes.now }
    ensures { (i : ℕ) → i < 512 → bit result i ≡ (if is_outside extent (number_of f.len signed (number planes.now f.offset f.len i)) then 1 else 0) }
{
    let least = if signed {
        extent.min(1 << (f.len - 1))
    } else {
        extent
    };
    if least > mask(f.len) {
        return repeated(false);
    }
    let inside = less(
        planes,
        &Operand::Field(f.offset),
        &Operand::Constant(least),
        f.len,
        true,
    );
    opposite(inside)
}

/// 1 in the lanes in which a coordinate is outside its extent; a register's is the next argument.
fn coordinate_outside(
    planes: &[Plane],
    extent: u32,
    checked: SignedCoordinate,
    args: &[u32],
) -> u64x8
    requires { IsCoordinateWithin planes.now (coordinate_of checked) }
    ensures { (p : ℕ) → bit result (p % 512) ≡ (if is_outside extent (coordinate_whole (block_memory planes.now) (is_signed checked) (coordinate_of checked) args.now p) then 1 else 0) }
{
    match checked.coordinate {
        Coordinate::Field(f) => field_outside(planes, extent, f, checked.signed),
        Coordinate::Reg(_) => repeated(is_outside(extent, whole(checked.signed, next(args)))),
    }
}

/// 1 in the lanes in which one of the coordinates is outside its extent.
fn any_outside(planes: &[Plane], extents: &[u32], list: &[SignedCoordinate], args: &[u32]) -> u64x8
    requires { All (λ c. IsCoordinateWithin planes.now (coordinate_of c)) list.now }
    ensures { (p : ℕ) → bit result (p % 512) ≡ (if any_outside (block_memory planes.now) extents.now list.now args.now p then 1 else 0) }
{
    match (extents.split_first(), list.split_first()) {
        (Some((extent, later)), Some((first, rest))) => {
            let here = coordinate_outside(planes, *extent, *first, args);
            let others = any_outside(planes, later, rest, behind(first.coordinate, args));
            either(here, others)
        }
        _ => repeated(false),
    }
}

/// The lanes of block `k` from which a step along an axis leads out of the grid.
fn step_leaves(geometry: &Geometry, axis: u32, by: i32, k: u32) -> u64x8
    requires axis { axis < length geometry.now }
    requires block { k < 2 ^ 16 }
    ensures { (i : ℕ) → i < 512 → bit result i ≡ (if is_outside (slice_index geometry.now axis) (pos (coordinate geometry.now (512 * k + i) axis) +ℤ by) then 1 else 0) }
{
    let extent = geometry.extent(axis);
    let length = by.unsigned_abs();
    if by < 0 {
        opposite(lanes_from(geometry, axis, length.min(extent), k))
    } else {
        lanes_from(geometry, axis, extent.saturating_sub(length), k)
    }
}

/// The lanes of block `k` from which one of the steps leads out of the grid.
fn any_leaves(geometry: &Geometry, steps: &[GridStep], args: &[u32], k: u32) -> u64x8
    requires axes { All (λ s. axis_of s < length geometry.now) steps.now }
    requires block { k < 2 ^ 16 }
    ensures { (i : ℕ) → i < 512 → bit result i ≡ (if any_leaves geometry.now steps.now args.now (512 * k + i) then 1 else 0) }
{
    match steps.split_first() {
        None => repeated(false),
        Some((step, rest)) => {
            let by = match step.step {
                Konst::Imm(n) => n,
                Konst::Reg(_) => next(args),
            };
            let here = step_leaves(geometry, step.axis, signed(by), k);
            let others = any_leaves(geometry, rest, behind_step(step.step, args), k);
            either(here, others)
        }
    }
}

/// The lanes of block `k` in which a check fails, whether they are active or not.
pub(crate) fn failing_lanes(
    plans: &[SetPlan],
    planes: &[Plane],
    instr: &Instr,
    args: &[u32],
    k: u32,
) -> u64x8
    requires can { CanApply (map shape_of_plan plans.now) instr.now args.now }
    requires planes { bits_at (map shape_of_plan plans.now) (checked_set instr.now) + 2 ≤ length planes.now }
    requires block { k < 2 ^ 16 }
    ensures { (i : ℕ) → i < 512 → bit result i ≡ (if fails (map shape_of_plan plans.now) instr.now args.now (block_memory planes.now) (512 * k + i) then 1 else 0) }
{
    match instr {
        Instr::CheckTarget {
            set,
            coordinates,
            ..
        } => {
            let extents = plan_of(plans, *set).geometry.extents();
            any_outside(planes, extents, coordinates.as_slice(), args)
        }
        Instr::CheckGrid { set, steps, .. } => {
            any_leaves(&plan_of(plans, *set).geometry, steps.as_slice(), args, k)
        }
        Instr::CheckDivisor { source, .. } => equal(
            planes,
            &Operand::Field(source.offset),
            &Operand::Constant(0),
            source.len,
        ),
        _ => repeated(false),
    }
}
