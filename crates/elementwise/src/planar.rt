//! What is done plane by plane: kernels on operands that are fields or constants.

ghost use Rattle.std.specs.Prelude.{◌≡◌, ℕ, ◌<◌, List, Some, IsTrue, if◌then◌else◌, min, max};
ghost use Rattle.bit_planes.specs.Bits.{bit};
ghost use Rattle.bit_planes.specs.declared.plane.Plane.{Plane};
ghost use Rattle.lane_kernels.specs.Kernels.{operand_of, HasTarget, IsReadable, IsWithin, Becomes};
ghost use Rattle.elementwise.specs.Planar.{gives, operation_of};

use crate::overlap::is_readable_up;
use bit_planes::Plane;
use bit_planes::plane::{both, differ, either, opposite};
use lane_kernels::{Operand, Target, in_place};
use paris_code::Operation;
use std::simd::prelude::*;

/// An operation that a kernel does on planes.
#[derive(Clone, Copy)]
pub(crate) enum Planar {
    Same,
    Complement,
    Negative,
    Add,
    Subtract,
    Multiply,
    And,
    Or,
    Xor,
    Min { unsigned: bool },
    Max { unsigned: bool },
}

/// How an operation is done: by a kernel on planes, or on the numbers of the lanes.
#[derive(Clone, Copy)]
pub(crate) enum Work {
    Planes(Planar),
    Values(Operation),
}

/// An operation with its operands, of which some operations read the first alone.
#[derive(Drop)]
pub(crate) struct Kernel {
    pub op: Work,
    pub a: Operand,
    pub b: Operand,
}

/// How an operation of an instruction is done.
pub(crate) fn work_of(op: Operation) -> Work
    ensures { operation_of result ≡ Some op }
{
    match op {
        Operation::SAdd => Work::Planes(Planar::Add),
        Operation::SSubtract => Work::Planes(Planar::Subtract),
        Operation::SMultiply => Work::Planes(Planar::Multiply),
        Operation::Logand => Work::Planes(Planar::And),
        Operation::Logior => Work::Planes(Planar::Or),
        Operation::Logxor => Work::Planes(Planar::Xor),
        Operation::SMin => Work::Planes(Planar::Min { unsigned: false }),
        Operation::UMin => Work::Planes(Planar::Min { unsigned: true }),
        Operation::SMax => Work::Planes(Planar::Max { unsigned: false }),
        Operation::UMax => Work::Planes(Planar::Max { unsigned: true }),
        Operation::STruncate
        | Operation::UTruncate
        | Operation::SRem
        | Operation::URem
        | Operation::SMod
        | Operation::UShiftLeft
        | Operation::SShiftRight
        | Operation::UShiftRight => Work::Values(op),
    }
}

/// Makes the target what the operation gives, in its lanes.
pub(crate) fn operate_in_place(
    planes: &mut [Plane],
    op: Planar,
    a: &Operand,
    b: &Operand,
    to: &Target,
)
    requires target { HasTarget to.now planes.old }
    requires a { IsReadable a.now to.now planes.old }
    requires b { IsReadable b.now to.now planes.old }
    ensures { Becomes to.now (λ i. gives op to.now.len (operand_of a.now planes.old to.now.len i) (operand_of b.now planes.old to.now.len i)) planes.old planes.new }
{
    match op {
        Planar::Same => in_place::assign(planes, to, a),
        Planar::Complement => in_place::not(planes, to, a),
        Planar::Negative => in_place::negate(planes, to, a),
        Planar::Add => in_place::add(planes, to, a, b),
        Planar::Subtract => in_place::subtract(planes, to, a, b),
        Planar::Multiply => {
            let to = *to;
            in_place::multiply(planes, &to, a, b);
        }
        Planar::And => in_place::and(planes, to, a, b),
        Planar::Or => in_place::or(planes, to, a, b),
        Planar::Xor => in_place::xor(planes, to, a, b),
        Planar::Min { unsigned } => in_place::min(planes, to, a, b, unsigned),
        Planar::Max { unsigned } => in_place::max(planes, to, a, b, unsigned),
    }
}

/// The lesser bits. Of numbers that are not unsigned, 1 is below 0.
#[inline(always)]
fn lesser(x: u64x8, y: u64x8, unsigned: bool) -> u64x8
    ensures { (i : ℕ) → i < 512 → bit result i ≡ (if unsigned then min (bit x i) (bit y i) else max (bit x i) (bit y i)) }
{
    if unsigned { both(x, y) } else { either(x, y) }
}

/// The greater bits.
#[inline(always)]
fn greater(x: u64x8, y: u64x8, unsigned: bool) -> u64x8
    ensures { (i : ℕ) → i < 512 → bit result i ≡ (if unsigned then max (bit x i) (bit y i) else min (bit x i) (bit y i)) }
{
    if unsigned { either(x, y) } else { both(x, y) }
}

/// What the operation gives on operands of one bit, as a plane: on bits each operation is a move or a
/// gate.
pub(crate) fn on_bits(planes: &[Plane], op: Planar, a: &Operand, b: &Operand) -> u64x8
    requires a { IsWithin a.now 1 planes.now }
    requires b { IsWithin b.now 1 planes.now }
    ensures { (i : ℕ) → i < 512 → bit result i ≡ gives op 1 (operand_of a.now planes.now 1 i) (operand_of b.now planes.now 1 i) }
{
    let x = a.plane(planes, 0);
    let y = b.plane(planes, 0);
    match op {
        Planar::Same => x,
        Planar::Complement => opposite(x),
        Planar::Negative => x,
        Planar::Add => differ(x, y),
        Planar::Subtract => differ(x, y),
        Planar::Multiply => both(x, y),
        Planar::And => both(x, y),
        Planar::Or => either(x, y),
        Planar::Xor => differ(x, y),
        Planar::Min { unsigned } => lesser(x, y, unsigned),
        Planar::Max { unsigned } => greater(x, y, unsigned),
    }
}

/// Whether an operand can be read while the target is written from its lowest bit up.
fn is_readable(a: &Operand, to: &Target) -> bool
    ensures { (planes : List Plane) → IsTrue result → IsWithin a.now to.now.len planes → IsReadable a.now to.now planes }
{
    match a {
        Operand::Constant(_) => true,
        Operand::Field(offset) => is_readable_up(*offset, to.len, to),
    }
}

/// Whether both operands can be read while the target is written.
pub(crate) fn can_work_in_place(kernel: &Kernel, to: &Target) -> bool
    ensures { (planes : List Plane) → IsTrue result → IsWithin kernel.now.a to.now.len planes → IsWithin kernel.now.b to.now.len planes
        → IsReadable kernel.now.a to.now planes × IsReadable kernel.now.b to.now planes }
{
    is_readable(&kernel.a, to) && is_readable(&kernel.b, to)
}
