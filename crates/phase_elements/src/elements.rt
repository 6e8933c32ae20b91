//! What the elementwise instructions compute at one processor.

ghost use Rattle.std.specs.Prelude.{◌≡◌, ◌+◌, ◌*◌, ◌<◌, ◌%◌, ◌^◌, length, All};
ghost use Rattle.vp_sets.specs.Positions.{position_count, number_at};
ghost use Rattle.paris_code.specs.Arguments.{coordinate_number, coordinate_numbers};
ghost use Rattle.paris_code.specs.Elementwise.{element, destination};
ghost use Rattle.phase_meaning.specs.Apply.{CanApply, IsPosition, active_set};
ghost use Rattle.phase_elements.specs.Reads.{IsCoordinateIn};

use crate::operands::{behind, konst, next};
use crate::reading::{Readable, field, word};
use paris_code::{Coordinate, Instr};
use phase_meaning::arith::{holds, mask, operate};

/// A coordinate of an address at a processor; a register's is the next argument.
fn coordinate<M: Readable>(m: &M, coordinate: Coordinate, args: &[u32], position: u32) -> u32
    requires { IsCoordinateIn (M.shapes m.now) (M.reads m.now position) coordinate }
    ensures { result ≡ coordinate_number (M.memory m.now) coordinate args.now position }
{
    match coordinate {
        Coordinate::Field(f) => field(m, f, position),
        Coordinate::Reg(_) => next(args),
    }
}

/// Goes on with the row-major number of coordinates, modulo 2 to the 32.
fn address<M: Readable>(
    m: &M,
    extents: &[u32],
    list: &[Coordinate],
    args: &[u32],
    position: u32,
    number: u32,
) -> u32
    requires fields { All (IsCoordinateIn (M.shapes m.now) (M.reads m.now position)) list.now }
    requires rank { length list.now ≡ length extents.now }
    ensures { result ≡ (number * position_count extents.now + number_at extents.now (coordinate_numbers (M.memory m.now) list.now args.now position)) % 2 ^ 32 }
{
    match (extents.split_first(), list.split_first()) {
        (Some((extent, later)), Some((first, rest))) => {
            let x = coordinate(m, *first, args, position);
            let next = number.wrapping_mul(*extent).wrapping_add(x);
            address(m, later, rest, behind(*first, args), position, next)
        }
        _ => number,
    }
}

/// What an elementwise instruction gives its destination at a processor.
#[tactic(auto, using(phase_meaning::proofs::FieldLemmas::lies))]
pub fn element<M: Readable>(m: &M, instr: &Instr, args: &[u32], position: u32) -> u32
    requires can { CanApply (M.shapes m.now) instr.now args.now }
    requires position { IsPosition (M.shapes m.now) (active_set instr.now) position }
    requires reads { M.reads m.now position (active_set instr.now) }
    ensures { let len = (destination (M.shapes m.now) instr.now).len in
        result % 2 ^ len ≡ element (M.shapes m.now) instr.now args.now (M.memory m.now) position % 2 ^ len }
{
    match instr {
        Instr::Move { signed, source, .. } => word(m, *signed, *source, position),
        Instr::MoveConstant { value, .. } => konst(*value, args),
        Instr::MoveAlways { source, .. } => field(m, *source, position),
        Instr::MyNewsCoordinate { dest, axis } => { m.geometry(dest.set).coord(position, *axis) }
        Instr::MakeAddress {
            set,
            coordinates,
            ..
        } => {
            let geometry = m.geometry(*set);
            address(
                m,
                geometry.extents(),
                coordinates.as_slice(),
                args,
                position,
                0,
            )
        }
        Instr::Operate {
            op,
            dest,
            left,
            right,
        } => {
            let a = field(m, *left, position);
            operate(*op, dest.len, a, field(m, *right, position))
        }
        Instr::OperateConstant {
            op,
            dest,
            left,
            right,
        } => {
            let a = field(m, *left, position);
            operate(*op, dest.len, a, konst(*right, args) & mask(dest.len))
        }
        Instr::Negate { source, .. } => field(m, *source, position).wrapping_neg(),
        Instr::Lognot { source, .. } => !field(m, *source, position),
        Instr::LoadContext { source } | Instr::LoadTest { source } => {
            field(m, *source, position)
        }
        Instr::Compare {
            relation,
            left,
            right,
        } => {
            let a = field(m, *left, position);
            u32::from(holds(*relation, left.len, a, field(m, *right, position)))
        }
        Instr::EqZero { source } => u32::from(field(m, *source, position) == 0),
        Instr::NeZero { source } => u32::from(field(m, *source, position) != 0),
        Instr::StoreTest { dest } => u32::from(m.test(dest.set, position)),
        Instr::StoreContext { dest } => u32::from(m.context(dest.set, position)),
        Instr::SetContext { .. } => 1,
        Instr::LogandContextWithTest { set } => {
            u32::from(m.context(*set, position) & m.test(*set, position))
        }
        Instr::LogandcContextWithTest { set } => {
            u32::from(m.context(*set, position) & !m.test(*set, position))
        }
        _ => 0,
    }
}
