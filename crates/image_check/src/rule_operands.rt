//! Image rule 6: which fields of an instruction are of one set.

ghost use Rattle.std.specs.Prelude.{◌≡◌, ◌↔◌, IsTrue, map, All};
ghost use Rattle.paris_code.specs.Shapes.{shape_of};
ghost use Rattle.paris_code.specs.Operands.{coordinate_of};
ghost use Rattle.paris_code.specs.RuleOperands.{IsWith, CoordinateIsWith, AreTogether, BitIsWith, KeepsOperands};

use crate::lookup::{are_together, coordinate_is_with, is_with, scan_bit_is_with};
use cstar_base::SegmentMode;
use paris_code::{Coordinate, Field, Instr, ShapeBits, SignedCoordinate};

fn coordinates_are_with(shapes: &[ShapeBits], dest: Field, coordinates: &[Coordinate]) -> bool
    ensures { IsTrue result ↔ All (CoordinateIsWith (map shape_of shapes.now) dest) coordinates.now }
{
    coordinates
        .iter()
        .all(|c| coordinate_is_with(shapes, dest, *c))
}

fn is_with_each(shapes: &[ShapeBits], one: Coordinate, coordinates: &[SignedCoordinate]) -> bool
    ensures { IsTrue result ↔ All (λ e. AreTogether (map shape_of shapes.now) one (coordinate_of e)) coordinates.now }
{
    coordinates
        .iter()
        .all(|c| are_together(shapes, one, c.coordinate))
}

fn all_are_together(shapes: &[ShapeBits], coordinates: &[SignedCoordinate]) -> bool
    ensures { IsTrue result ↔ All (λ c. All (λ e. AreTogether (map shape_of shapes.now) (coordinate_of c) (coordinate_of e)) coordinates.now) coordinates.now }
{
    coordinates
        .iter()
        .all(|c| is_with_each(shapes, c.coordinate, coordinates))
}

fn three_are_together(shapes: &[ShapeBits], dest: Field, left: Field, right: Field) -> bool
    ensures { IsTrue result ↔ (IsWith (map shape_of shapes.now) dest left × IsWith (map shape_of shapes.now) dest right × IsWith (map shape_of shapes.now) left right) }
{
    is_with(shapes, dest, left) && is_with(shapes, dest, right) && is_with(shapes, left, right)
}

fn scan_is_together(
    shapes: &[ShapeBits],
    dest: Field,
    source: Field,
    mode: SegmentMode,
    bit: Option<Field>,
) -> bool
    ensures { IsTrue result ↔ (IsWith (map shape_of shapes.now) dest source × BitIsWith (map shape_of shapes.now) dest mode bit) }
{
    is_with(shapes, dest, source) && scan_bit_is_with(shapes, dest, mode, bit)
}

/// Whether an instruction keeps image rule 6.
pub fn keeps_operands(shapes: &[ShapeBits], instr: &Instr) -> bool
    ensures { IsTrue result ↔ KeepsOperands (map shape_of shapes.now) instr.now }
{
    match instr {
        Instr::Move { dest, source, .. } => is_with(shapes, *dest, *source),
        Instr::MoveAlways { dest, source } => is_with(shapes, *dest, *source),
        Instr::MakeAddress {
            dest,
            coordinates,
            ..
        } => coordinates_are_with(shapes, *dest, coordinates.as_slice()),
        Instr::Operate {
            dest,
            left,
            right,
            ..
        } => three_are_together(shapes, *dest, *left, *right),
        Instr::OperateConstant { dest, left, .. } => is_with(shapes, *dest, *left),
        Instr::Negate { dest, source } => is_with(shapes, *dest, *source),
        Instr::Lognot { dest, source } => is_with(shapes, *dest, *source),
        Instr::Compare { left, right, .. } => is_with(shapes, *left, *right),
        Instr::CheckTarget { coordinates, .. } => {
            all_are_together(shapes, coordinates.as_slice())
        }
        Instr::GetFromNews { dest, source, .. } => is_with(shapes, *dest, *source),
        Instr::GetFromNewsAlways { dest, source, .. } => is_with(shapes, *dest, *source),
        Instr::Get { dest, address, .. } => is_with(shapes, *dest, *address),
        Instr::SendWithOverwrite {
            address,
            source,
            ..
        } => is_with(shapes, *address, *source),
        Instr::SendWithCombiner {
            address,
            source,
            ..
        } => is_with(shapes, *address, *source),
        Instr::Scan {
            dest,
            source,
            mode,
            bit,
            ..
        } => scan_is_together(shapes, *dest, *source, *mode, *bit),
        _ => true,
    }
}
