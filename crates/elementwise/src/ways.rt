//! How an instruction is done in the blocks of its set.

ghost use Rattle.std.specs.Prelude.{◌≡◌, ℕ, ◌+◌, ◌<◌, ◌^◌, List, map, All, IfSome};
ghost use Rattle.paris_code.specs.Shapes.{SetShape};
ghost use Rattle.paris_code.specs.Sound.{IsShape};
ghost use Rattle.phase_meaning.specs.Apply.{CanApply};
ghost use Rattle.block_store.specs.Stored.{shape_of_plan};
ghost use Rattle.elementwise.specs.Ways.{IsWayOf, IsWayOfAddress, IsWayOfConstant, IsWayOfMove, by_kernel, by_mask, by_one, by_relation};

use crate::moved::Moved;
use crate::planar::{Kernel, Planar, Work, work_of};
use crate::relations::Relation;
use crate::writes::plan_of;
use block_store::SetPlan;
use lane_kernels::Operand;
use paris_code::{Compare, Coordinate, Field, Instr, Operation};
use phase_elements::{konst, next};
use phase_meaning::arith::mask;

/// A kernel, a relation, a field whose bits are moved, or what the instruction gives each lane.
#[derive(Drop)]
pub(crate) enum Way {
    Kernel(Kernel),
    Relation(Relation),
    Moved(Moved),
    Elements,
}

/// By an operation on planes with one operand.
fn of_one(op: Planar, a: Operand) -> Way
    ensures { result ≡ by_one op a }
{
    of_two(Work::Planes(op), a, Operand::Constant(0))
}

/// By an operation with two operands.
fn of_two(op: Work, a: Operand, b: Operand) -> Way
    ensures { result ≡ by_kernel op a b }
{
    Way::Kernel(Kernel { op, a, b })
}

/// By a relation of operands of `len` bits.
fn of_relation(relation: Compare, len: u8, a: Operand, b: Operand) -> Way
    ensures { result ≡ by_relation relation len a b }
{
    Way::Relation(Relation {
        relation,
        len,
        a,
        b,
    })
}

/// A move keeps the length or changes it.
fn of_move(signed: bool, dest: Field, source: Field) -> Way
    ensures { (shapes : List SetShape) (args : List ℕ) → IsWayOfMove shapes args signed dest source result }
{
    if dest.len == source.len {
        of_one(Planar::Same, Operand::Field(source.offset))
    } else {
        Way::Moved(Moved::Resized {
            offset: source.offset,
            len: source.len,
            unsigned: !signed,
        })
    }
}

/// An address of one coordinate is the coordinate, cut or extended by 0; a register's is the argument.
fn of_address(dest: Field, coordinates: &[Coordinate], args: &[u32]) -> Way
    ensures { IsWayOfAddress args.now dest coordinates.now result }
{
    match coordinates.split_first() {
        Some((first, rest)) if rest.is_empty() => match *first {
            Coordinate::Field(f) => of_move(false, dest, f),
            Coordinate::Reg(_) => of_one(Planar::Same, Operand::Constant(next(args))),
        },
        _ => Way::Elements,
    }
}

/// The exponent of a power of 2.
fn exponent_of(number: u32) -> Option<u32>
    ensures { IfSome result (λ k. (k < 32) × (number ≡ 2 ^ k)) }
{
    let k = number.trailing_zeros();
    if k < 32 && number == 1 << k {
        Some(k)
    } else {
        None
    }
}

/// An operation with a constant of as many bits as the destination. One that is a power of 2, and
/// above 0 also where it is read signed, multiplies and divides by moving bits.
fn of_constant(op: Operation, dest: Field, left: Field, constant: u32) -> Way
    ensures { (shapes : List SetShape) (args : List ℕ) → IsWayOfConstant shapes args op dest left constant result }
{
    match exponent_of(constant) {
        Some(k) if k + 1 < u32::from(dest.len) => of_power(op, dest, left, constant, k),
        _ => of_number(op, dest, left, constant),
    }
}

/// The bits of a field that a mask has.
fn of_bits(offset: u32, mask: u32) -> Way
    ensures { result ≡ by_mask offset mask }
{
    of_two(
        Work::Planes(Planar::And),
        Operand::Field(offset),
        Operand::Constant(mask),
    )
}

/// An operation with 2 to the k.
fn of_power(op: Operation, dest: Field, left: Field, constant: u32, k: u32) -> Way
    requires power { constant ≡ 2 ^ k }
    requires positive { k + 1 < dest.len }
    ensures { (shapes : List SetShape) (args : List ℕ) → IsWayOfConstant shapes args op dest left constant result }
{
    let offset = left.offset;
    match op {
        Operation::SMultiply => Way::Moved(Moved::ShiftedLeft { offset, by: k }),
        Operation::UTruncate => Way::Moved(Moved::ShiftedRight {
            offset,
            by: k,
            unsigned: true,
        }),
        Operation::STruncate => Way::Moved(Moved::Divided { offset, by: k }),
        Operation::URem => of_bits(offset, constant - 1),
        Operation::SMod => of_bits(offset, constant - 1),
        Operation::SRem
        | Operation::SAdd
        | Operation::SSubtract
        | Operation::SMin
        | Operation::UMin
        | Operation::SMax
        | Operation::UMax
        | Operation::Logand
        | Operation::Logior
        | Operation::Logxor
        | Operation::UShiftLeft
        | Operation::SShiftRight
        | Operation::UShiftRight => of_number(op, dest, left, constant),
    }
}

/// An operation with any constant.
fn of_number(op: Operation, dest: Field, left: Field, constant: u32) -> Way
    ensures { (shapes : List SetShape) (args : List ℕ) → IsWayOfConstant shapes args op dest left constant result }
{
    let offset = left.offset;
    match op {
        Operation::UShiftLeft => Way::Moved(Moved::ShiftedLeft {
            offset,
            by: constant,
        }),
        Operation::SShiftRight => Way::Moved(Moved::ShiftedRight {
            offset,
            by: constant,
            unsigned: false,
        }),
        Operation::UShiftRight => Way::Moved(Moved::ShiftedRight {
            offset,
            by: constant,
            unsigned: true,
        }),
        Operation::SAdd
        | Operation::SSubtract
        | Operation::SMultiply
        | Operation::STruncate
        | Operation::UTruncate
        | Operation::SRem
        | Operation::URem
        | Operation::SMod
        | Operation::SMin
        | Operation::UMin
        | Operation::SMax
        | Operation::UMax
        | Operation::Logand
        | Operation::Logior
        | Operation::Logxor => of_two(
            work_of(op),
            Operand::Field(offset),
            Operand::Constant(constant),
        ),
    }
}

/// The way in which an elementwise instruction is done. The context without the test is where the
/// test, a number of one bit, is below the context.
pub(crate) fn way_of(plans: &[SetPlan], instr: &Instr, args: &[u32]) -> Way
    requires can { CanApply (map shape_of_plan plans.now) instr.now args.now }
    requires grids { All IsShape (map shape_of_plan plans.now) }
    ensures { IsWayOf (map shape_of_plan plans.now) instr.now args.now result }
{
    match instr {
        Instr::Move {
            signed,
            dest,
            source,
        } => of_move(*signed, *dest, *source),
        Instr::MakeAddress {
            dest,
            coordinates,
            ..
        } => of_address(*dest, coordinates.as_slice(), args),
        Instr::MoveConstant { value, .. } => {
            of_one(Planar::Same, Operand::Constant(konst(*value, args)))
        }
        Instr::MoveZeroAlways { .. } => of_one(Planar::Same, Operand::Constant(0)),
        Instr::MoveAlways { source, .. } => of_one(Planar::Same, Operand::Field(source.offset)),
        Instr::Lognot { source, .. } => of_one(Planar::Complement, Operand::Field(source.offset)),
        Instr::Negate { source, .. } => of_one(Planar::Negative, Operand::Field(source.offset)),
        Instr::Operate {
            op,
            left,
            right,
            ..
        } => of_two(
            work_of(*op),
            Operand::Field(left.offset),
            Operand::Field(right.offset),
        ),
        Instr::OperateConstant {
            op,
            dest,
            left,
            right,
        } => {
            let constant = konst(*right, args) & mask(dest.len);
            of_constant(*op, *dest, *left, constant)
        }
        Instr::Compare {
            relation,
            left,
            right,
        } => of_relation(
            *relation,
            left.len,
            Operand::Field(left.offset),
            Operand::Field(right.offset),
        ),
        Instr::EqZero { source } => of_relation(
            Compare::UEq,
            source.len,
            Operand::Field(source.offset),
            Operand::Constant(0),
        ),
        Instr::NeZero { source } => of_relation(
            Compare::UNe,
            source.len,
            Operand::Field(source.offset),
            Operand::Constant(0),
        ),
        Instr::LoadTest { source } => of_one(Planar::Same, Operand::Field(source.offset)),
        Instr::LoadContext { source } => of_one(Planar::Same, Operand::Field(source.offset)),
        Instr::StoreTest { dest } => {
            of_one(
                Planar::Same,
                Operand::Field(plan_of(plans, dest.set).bits + 1),
            )
        }
        Instr::StoreContext { dest } => {
            of_one(Planar::Same, Operand::Field(plan_of(plans, dest.set).bits))
        }
        Instr::SetContext { .. } => of_one(Planar::Same, Operand::Constant(1)),
        Instr::LogandContextWithTest { set } => {
            let at = plan_of(plans, *set).bits;
            of_two(
                Work::Planes(Planar::And),
                Operand::Field(at),
                Operand::Field(at + 1),
            )
        }
        Instr::LogandcContextWithTest { set } => {
            let at = plan_of(plans, *set).bits;
            of_relation(Compare::ULt, 1, Operand::Field(at + 1), Operand::Field(at))
        }
        Instr::MyNewsCoordinate { .. }
        | Instr::CheckTarget { .. }
        | Instr::CheckGrid { .. }
        | Instr::CheckDivisor { .. }
        | Instr::GetFromNews { .. }
        | Instr::GetFromNewsAlways { .. }
        | Instr::Get { .. }
        | Instr::SendWithOverwrite { .. }
        | Instr::SendWithCombiner { .. }
        | Instr::Global { .. }
        | Instr::Scan { .. }
        | Instr::ReadFromProcessor { .. }
        | Instr::WriteToProcessor { .. }
        | Instr::FrontConst { .. }
        | Instr::FrontMove { .. }
        | Instr::FrontOperate { .. }
        | Instr::FrontCompare { .. }
        | Instr::FrontNegate { .. }
        | Instr::FrontLognot { .. }
        | Instr::FrontConvert { .. }
        | Instr::FrontMakeAddress { .. }
        | Instr::FrontCheckTarget { .. }
        | Instr::FrontCheckDivisor { .. }
        | Instr::FrontJump { .. }
        | Instr::FrontJumpZero { .. }
        | Instr::FrontJumpNonzero { .. }
        | Instr::FrontTurn
        | Instr::FrontCall { .. }
        | Instr::FrontReturn
        | Instr::FrontPutBytes { .. }
        | Instr::FrontPut { .. }
        | Instr::FrontGetByte { .. }
        | Instr::FrontHalt => Way::Elements,
    }
}
