//! An elementwise instruction in one block.

ghost use Rattle.std.specs.Prelude.{◌≡◌, ℕ, ◌<◌, ◌≤◌, ◌+◌, ◌%◌, ◌^◌, true, map, length, slice_index};
ghost use Rattle.vp_sets.specs.Blocks.{block_count};
ghost use Rattle.paris_code.specs.Elementwise.{is_elementwise, destination, writes_always};
ghost use Rattle.cstar_base.specs.Operators.{outcome};
ghost use Rattle.bit_planes.specs.Bits.{bit};
ghost use Rattle.paris_code.specs.Operators.{operator_of};
ghost use Rattle.paris_code.specs.Shapes.{bits_at, extents_at};
ghost use Rattle.phase_meaning.specs.Apply.{CanApply, active_set};
ghost use Rattle.block_store.specs.Stored.{shape_of_plan};
ghost use Rattle.block_store.specs.Phases.{LanesWritten};
ghost use Rattle.lane_kernels.specs.Kernels.{operand_of, HasTarget, IsReadable, IsWithin};
ghost use Rattle.elementwise.specs.Blocks.{DoneInBlock};
ghost use Rattle.elementwise.specs.Moved.{moved_number, IsMovable};
ghost use Rattle.elementwise.specs.Planar.{gives, kernel_number};
ghost use Rattle.elementwise.specs.Ways.{IsWayOf};

use crate::columns::all_lanes;
use crate::lanes::words_given;
use crate::moved::Moved;
use crate::planar::{Kernel, Planar, Work, can_work_in_place, on_bits, operate_in_place};
use crate::ways::Way;
use crate::writes::{Written, plan_of};
use bit_planes::Block;
use bit_planes::plane::is_empty;
use block_store::{SetPlan, put_words, taking_lanes, words_of};
use lane_kernels::{Operand, Target, write};
use paris_code::{Instr, Operation};
use phase_meaning::arith::{mask, operate};
use std::simd::prelude::*;

/// Does an elementwise instruction in block `k` of its set, by the numbers of the lanes. Not inlined:
/// those numbers would make the frame of each instruction on planes pages large.
#[inline(never)]
fn by_values(plans: &[SetPlan], block: &mut Block, instr: &Instr, args: &[u32], to: Written, k: u32)
    requires can { CanApply (map shape_of_plan plans.now) instr.now args.now }
    requires elementwise { is_elementwise instr.now ≡ true }
    requires run { to.run ≡ destination (map shape_of_plan plans.now) instr.now }
    requires always { to.always ≡ writes_always instr.now }
    requires planes { bits_at (map shape_of_plan plans.now) (active_set instr.now) + 2 ≤ length block.old.planes.items }
    requires block { k < block_count (extents_at (map shape_of_plan plans.now) (active_set instr.now)) }
    ensures { DoneInBlock (map shape_of_plan plans.now) instr.now args.now k block.old.planes.items block.new.planes.items }
{
    let set = to.run.set;
    let words = words_given(plans, block, instr, args, set, k);
    let lanes = taking_lanes(plan_of(plans, set), block, k, to.always);
    put_words(block, to.run.offset, to.run.len, lanes, &words);
}

/// Makes the target what the operation gives, in its lanes of the block.
fn by_planes(block: &mut Block, op: Planar, a: &Operand, b: &Operand, to: &Target)
    requires target { HasTarget to.now block.old.planes.items }
    requires a { IsReadable a.now to.now block.old.planes.items }
    requires b { IsReadable b.now to.now block.old.planes.items }
    ensures { LanesWritten to.now.offset to.now.len to.now.lanes (λ i. gives op to.now.len (operand_of a.now block.old.planes.items to.now.len i) (operand_of b.now block.old.planes.items to.now.len i)) block.old.planes.items block.new.planes.items }
{
    operate_in_place(&mut block.planes, op, a, b, to);
}

/// The numbers of an operand.
fn words_of_operand(block: &Block, a: &Operand, len: u8) -> [u32; 512]
    requires len { (1 ≤ len) × (len ≤ 32) }
    requires within { IsWithin a.now len block.now.planes.items }
    ensures { (i : ℕ) → i < 512 → slice_index result i ≡ operand_of a.now block.now.planes.items len i }
{
    match a {
        Operand::Field(offset) => words_of(block, *offset, len),
        Operand::Constant(number) => all_lanes(*number & mask(len)),
    }
}

/// What the operation gives on numbers of `len` bits.
#[inline(always)]
fn lane_by_lane(op: Operation, len: u8, x: &[u32; 512], y: &[u32; 512]) -> [u32; 512]
    requires len { (1 ≤ len) × (len ≤ 32) }
    requires x { (i : ℕ) → i < 512 → slice_index x.now i < 2 ^ len }
    requires y { (i : ℕ) → i < 512 → slice_index y.now i < 2 ^ len }
    ensures { (i : ℕ) → i < 512 → slice_index result i % 2 ^ len ≡ outcome (operator_of op).0 len (operator_of op).1 (slice_index x.now i) (slice_index y.now i) }
{
    let mut words = [0; 512];
    'lanes: for i in 0..512 {
        words[i] = operate(op, len, x[i], y[i]);
    }
    words
}

/// The same, by a loop of its own for each operation that is not done on planes, so that the
/// operation is known in it.
fn operated(op: Operation, len: u8, x: &[u32; 512], y: &[u32; 512]) -> [u32; 512]
    requires len { (1 ≤ len) × (len ≤ 32) }
    requires x { (i : ℕ) → i < 512 → slice_index x.now i < 2 ^ len }
    requires y { (i : ℕ) → i < 512 → slice_index y.now i < 2 ^ len }
    ensures { (i : ℕ) → i < 512 → slice_index result i % 2 ^ len ≡ outcome (operator_of op).0 len (operator_of op).1 (slice_index x.now i) (slice_index y.now i) }
{
    match op {
        Operation::STruncate => lane_by_lane(Operation::STruncate, len, x, y),
        Operation::UTruncate => lane_by_lane(Operation::UTruncate, len, x, y),
        Operation::SRem => lane_by_lane(Operation::SRem, len, x, y),
        Operation::URem => lane_by_lane(Operation::URem, len, x, y),
        Operation::SMod => lane_by_lane(Operation::SMod, len, x, y),
        Operation::UShiftLeft => lane_by_lane(Operation::UShiftLeft, len, x, y),
        Operation::SShiftRight => lane_by_lane(Operation::SShiftRight, len, x, y),
        Operation::UShiftRight => lane_by_lane(Operation::UShiftRight, len, x, y),
        Operation::SAdd
        | Operation::SSubtract
        | Operation::SMultiply
        | Operation::SMin
        | Operation::UMin
        | Operation::SMax
        | Operation::UMax
        | Operation::Logand
        | Operation::Logior
        | Operation::Logxor => lane_by_lane(op, len, x, y),
    }
}

/// The same on the numbers of the lanes. Not inlined, as above.
#[inline(never)]
fn by_numbers(block: &mut Block, op: Operation, a: &Operand, b: &Operand, to: &Target)
    requires target { HasTarget to.now block.old.planes.items }
    requires a { IsWithin a.now to.now.len block.old.planes.items }
    requires b { IsWithin b.now to.now.len block.old.planes.items }
    ensures { LanesWritten to.now.offset to.now.len to.now.lanes (λ i. outcome (operator_of op).0 to.now.len (operator_of op).1 (operand_of a.now block.old.planes.items to.now.len i) (operand_of b.now block.old.planes.items to.now.len i)) block.old.planes.items block.new.planes.items }
{
    let x = words_of_operand(block, a, to.len);
    let y = words_of_operand(block, b, to.len);
    let words = operated(op, to.len, &x, &y);
    put_words(block, to.offset, to.len, to.lanes, &words);
}

/// Makes the target what the kernel gives, in its lanes of the block.
fn by_kernel(block: &mut Block, kernel: &Kernel, to: &Target)
    requires target { HasTarget to.now block.old.planes.items }
    requires a { IsReadable kernel.now.a to.now block.old.planes.items }
    requires b { IsReadable kernel.now.b to.now block.old.planes.items }
    ensures { LanesWritten to.now.offset to.now.len to.now.lanes (kernel_number kernel.now block.old.planes.items to.now.len) block.old.planes.items block.new.planes.items }
{
    match kernel.op {
        Work::Planes(op) => by_planes(block, op, &kernel.a, &kernel.b, to),
        Work::Values(op) => {
            let to = *to;
            by_numbers(block, op, &kernel.a, &kernel.b, &to);
        }
    }
}

/// Makes the target the numbers of the moved field, in its lanes of the block.
fn by_moving(block: &mut Block, moved: &Moved, to: &Target)
    requires target { HasTarget to.now block.old.planes.items }
    requires field { IsMovable moved.now to.now block.old.planes.items }
    ensures { LanesWritten to.now.offset to.now.len to.now.lanes (moved_number moved.now block.old.planes.items to.now.len) block.old.planes.items block.new.planes.items }
{
    moved.put(&mut block.planes, to);
}

/// Makes a plane the value, in the lanes of the mask.
fn put_plane(block: &mut Block, at: u32, lanes: u64x8, value: u64x8)
    requires { at < length block.old.planes.items }
    ensures { LanesWritten at 1 lanes (λ i. bit value i) block.old.planes.items block.new.planes.items }
{
    write(&mut block.planes, at as usize, value, lanes);
}

/// Does an elementwise instruction in block `k` of its set: by its kernel or moved field, where no
/// plane is read after it is written, by its relation, and else by what it gives each lane. A plane
/// alone is read and combined first, and then put. Where it writes in no lane, nothing is to be done.
pub(crate) fn do_in_block(
    plans: &[SetPlan],
    block: &mut Block,
    instr: &Instr,
    args: &[u32],
    to: Written,
    way: &Way,
    k: u32,
)
    requires can { CanApply (map shape_of_plan plans.now) instr.now args.now }
    requires elementwise { is_elementwise instr.now ≡ true }
    requires run { to.run ≡ destination (map shape_of_plan plans.now) instr.now }
    requires always { to.always ≡ writes_always instr.now }
    requires way { IsWayOf (map shape_of_plan plans.now) instr.now args.now way.now }
    requires planes { bits_at (map shape_of_plan plans.now) (active_set instr.now) + 2 ≤ length block.old.planes.items }
    requires block { k < block_count (extents_at (map shape_of_plan plans.now) (active_set instr.now)) }
    ensures { DoneInBlock (map shape_of_plan plans.now) instr.now args.now k block.old.planes.items block.new.planes.items }
{
    let lanes = taking_lanes(plan_of(plans, to.run.set), block, k, to.always);
    if is_empty(lanes) {
        return;
    }
    match way {
        Way::Kernel(kernel) => {
            if to.run.len == 1 {
                if let Work::Planes(op) = kernel.op {
                    let value = on_bits(&block.planes, op, &kernel.a, &kernel.b);
                    put_plane(block, to.run.offset, lanes, value);
                    return;
                }
            }
            let target = Target::at(to.run.offset, to.run.len, lanes);
            if can_work_in_place(kernel, &target) {
                by_kernel(block, kernel, &target);
            } else {
                by_values(plans, block, instr, args, to, k);
            }
        }
        Way::Moved(moved) => {
            let target = Target::at(to.run.offset, to.run.len, lanes);
            if moved.can_work_in_place(&target) {
                by_moving(block, moved, &target);
            } else {
                by_values(plans, block, instr, args, to, k);
            }
        }
        Way::Relation(relation) => {
            let value = relation.plane(&block.planes);
            put_plane(block, to.run.offset, lanes, value);
        }
        Way::Elements => by_values(plans, block, instr, args, to, k),
    }
}
