//! Image rule 5: the sets and axes that are named exist.

ghost use Rattle.std.specs.Prelude.{◌≡◌, ◌≢◌, ◌↔◌, ◌<◌, ◌≤◌, IsTrue, length, map, take, All, Some};
ghost use Rattle.std.specs.List.{slice_get};
ghost use Rattle.paris_code.specs.Shapes.{shape_of};
ghost use Rattle.paris_code.specs.Operands.{coordinate_of};
ghost use Rattle.paris_code.specs.RuleSet.{IsAxis, CoordinateExists, AreSteps, OperandExists, axis_of, KeepsSet};
ghost use Rattle.paris_code.specs.Rows.{shown};
ghost use Rattle.image_check.specs.Steps.{AreDistinct};

use crate::lookup::{coordinate_exists, is_axis, is_rank, scan_bit_exists, set_exists};
use paris_code::{Coordinate, GridStep, Instr, Operand, ShapeBits, SignedCoordinate};

fn coordinates_exist(shapes: &[ShapeBits], coordinates: &[Coordinate]) -> bool
    ensures { IsTrue result ↔ All (CoordinateExists (map shape_of shapes.now)) coordinates.now }
{
    coordinates.iter().all(|c| coordinate_exists(shapes, *c))
}

fn signed_coordinates_exist(shapes: &[ShapeBits], coordinates: &[SignedCoordinate]) -> bool
    ensures { IsTrue result ↔ All (λ c. CoordinateExists (map shape_of shapes.now) (coordinate_of c)) coordinates.now }
{
    coordinates
        .iter()
        .all(|c| coordinate_exists(shapes, c.coordinate))
}

/// Whether none of the steps names the axis.
fn is_new_axis(steps: &[GridStep], axis: u32) -> bool
    ensures { IsTrue result ↔ All (λ s. axis_of s ≢ axis) steps.now }
{
    steps.iter().all(|s| s.axis != axis)
}

/// Whether none of the first so many steps names the axis.
fn is_new_axis_before(steps: &[GridStep], count: usize, axis: u32) -> bool
    requires { count ≤ length steps.now }
    ensures { IsTrue result ↔ All (λ s. axis_of s ≢ axis) (take count steps.now) }
{
    is_new_axis(&steps[..count], axis)
}

fn step_at(steps: &[GridStep], k: usize) -> GridStep
    requires { k < length steps.now }
    ensures { slice_get steps.now k ≡ Some result }
{
    steps[k]
}

/// Whether no two steps name one axis.
fn are_distinct(steps: &[GridStep]) -> bool
    ensures { IsTrue result ↔ AreDistinct steps.now (length steps.now) }
{
    for k in 0..steps.len() {
        if !is_new_axis_before(steps, k, step_at(steps, k).axis) {
            return false;
        }
    }
    true
}

fn steps_name_axes(shapes: &[ShapeBits], set: u16, steps: &[GridStep]) -> bool
    ensures { IsTrue result ↔ All (λ s. IsAxis (map shape_of shapes.now) set (axis_of s)) steps.now }
{
    steps.iter().all(|s| is_axis(shapes, set, s.axis))
}

fn are_axes(shapes: &[ShapeBits], set: u16, steps: &[GridStep]) -> bool
    ensures { IsTrue result ↔ AreSteps (map shape_of shapes.now) set steps.now }
{
    steps_name_axes(shapes, set, steps) && are_distinct(steps)
}

/// Whether the set and the axis that an operand names exist, and a list has a coordinate for each axis.
fn operand_exists(shapes: &[ShapeBits], operand: &Operand<'_>) -> bool
    ensures { IsTrue result ↔ OperandExists (map shape_of shapes.now) (shown operand.now) }
{
    match operand {
        Operand::Bits(field, _) => set_exists(shapes, field.set),
        Operand::Bit(mode, bit) => scan_bit_exists(shapes, *mode, *bit),
        Operand::Set(set) => set_exists(shapes, *set),
        Operand::Axis(set, axis) => is_axis(shapes, *set, *axis),
        Operand::Coordinates(set, list) => {
            coordinates_exist(shapes, list) && is_rank(shapes, *set, list.len())
        }
        Operand::Checked(set, list) => {
            signed_coordinates_exist(shapes, list) && is_rank(shapes, *set, list.len())
        }
        Operand::Steps(set, list) => are_axes(shapes, *set, list),
        Operand::Registers(set, list) => is_rank(shapes, *set, list.len()),
        Operand::CheckedRegisters(set, list) => is_rank(shapes, *set, list.len()),
        Operand::Register(_)
        | Operand::Result(_)
        | Operand::Constant(_)
        | Operand::Immediate(_)
        | Operand::Target(_)
        | Operand::Callee(_)
        | Operand::At(_)
        | Operand::Kind(_)
        | Operand::Way(_)
        | Operand::Mode(_)
        | Operand::Bound(_)
        | Operand::Bytes(_) => true,
    }
}

fn operands_exist(shapes: &[ShapeBits], operands: &[Operand<'_>]) -> bool
    ensures { IsTrue result ↔ All (λ o. OperandExists (map shape_of shapes.now) (shown o)) operands.now }
{
    operands
        .iter()
        .all(|operand| operand_exists(shapes, operand))
}

/// Whether an instruction keeps image rule 5.
pub fn keeps_set(shapes: &[ShapeBits], instr: &Instr) -> bool
    ensures { IsTrue result ↔ KeepsSet (map shape_of shapes.now) instr.now }
{
    let row = instr.row();
    operands_exist(shapes, row.operands())
}
