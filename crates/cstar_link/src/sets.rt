//! The bits of each set: none behind the furthest of its fields.

ghost use Rattle.std.specs.Prelude.{◌≡◌, ℕ, ◌<◌, min, [], ◌∷◌, map, length, IfOk};
ghost use Rattle.std.specs.List.{flat_map, slice_index};
ghost use Rattle.paris_code.specs.Operands.{coordinate_of};
ghost use Rattle.paris_code.specs.Rows.{shown};
ghost use Rattle.paris_code.specs.Spans.{fields_of, fields_of_coordinate, fields_of_operand};
ghost use Rattle.cstar_link.specs.Sets.{AreRaised, fields_named, final_field, fitted_from, furthest};

use cstar_base::Memory;
use paris_code::{Coordinate, Field, Final, Instr, Operand, ShapeBits, SignedCoordinate};
use std::alloc::Global;

/// The shapes with no bits behind the furthest field of their set, of all that the code and the
/// finals name.
pub fn fitted(
    alloc: Global,
    shapes: Vec<ShapeBits>,
    code: &[Instr],
    finals: &[Final],
) -> Result<Vec<ShapeBits>, Memory>
    ensures { IfOk result (λ v. v.items ≡ fitted_from (fields_named code.now finals.now) 0 shapes.items) }
{
    let ends = furthest_ends(alloc, shapes.len(), code, finals)?;
    let mut over = Vec::new(alloc);
    for shape in shapes {
        let ShapeBits { extents, bits } = shape;
        let bits = lesser(bits, ends[over.len()]);
        over.push(ShapeBits { extents, bits })?;
    }
    Ok(over)
}

/// For each of so many sets, where the furthest of its fields ends.
fn furthest_ends(
    alloc: Global,
    sets: usize,
    code: &[Instr],
    finals: &[Final],
) -> Result<Vec<u64>, Memory>
    ensures length { IfOk result (λ ends. length ends.items ≡ sets) }
    ensures furthest { IfOk result (λ ends. (set : ℕ) → set < sets → slice_index ends.items set ≡ furthest set (fields_named code.now finals.now)) }
{
    let mut ends = no_ends(alloc, sets)?;
    raise_by_all(code, finals, ends.as_mut_slice());
    Ok(ends)
}

fn no_ends(alloc: Global, sets: usize) -> Result<Vec<u64>, Memory>
    ensures length { IfOk result (λ ends. length ends.items ≡ sets) }
    ensures none { IfOk result (λ ends. (set : ℕ) → slice_index ends.items set ≡ 0) }
{
    let mut ends = Vec::new(alloc);
    for _ in 0..sets {
        ends.push(0)?;
    }
    Ok(ends)
}

fn raise_by_all(code: &[Instr], finals: &[Final], ends: &mut [u64])
    ensures { AreRaised (fields_named code.now finals.now) ends.old ends.new }
{
    raise_by_code(code, ends);
    raise_by_finals(finals, ends);
}

fn raise_by_code(code: &[Instr], ends: &mut [u64])
    ensures { AreRaised (flat_map fields_of code.now) ends.old ends.new }
{
    for instr in code {
        raise_by_instr(instr, ends);
    }
}

fn raise_by_finals(finals: &[Final], ends: &mut [u64])
    ensures { AreRaised (map final_field finals.now) ends.old ends.new }
{
    for last in finals {
        raise(last.field, ends);
    }
}

fn raise_by_instr(instr: &Instr, ends: &mut [u64])
    ensures { AreRaised (fields_of instr.now) ends.old ends.new }
{
    let row = instr.row();
    raise_by_operands(row.operands(), ends);
}

fn raise_by_operands(operands: &[Operand<'_>], ends: &mut [u64])
    ensures { AreRaised (flat_map (λ o. fields_of_operand (shown o)) operands.now) ends.old ends.new }
{
    for operand in operands {
        raise_by_operand(operand, ends);
    }
}

fn raise_by_operand(operand: &Operand<'_>, ends: &mut [u64])
    ensures { AreRaised (fields_of_operand (shown operand.now)) ends.old ends.new }
{
    match operand {
        Operand::Bits(field, _) => raise(*field, ends),
        Operand::Bit(_, Some(bit)) => raise(*bit, ends),
        Operand::Coordinates(_, list) => raise_by_coordinates(list, ends),
        Operand::Checked(_, list) => raise_by_checked(list, ends),
        Operand::Bit(_, None)
        | Operand::Register(_)
        | Operand::Result(_)
        | Operand::Constant(_)
        | Operand::Set(_)
        | Operand::Axis(_, _)
        | Operand::Immediate(_)
        | Operand::Target(_)
        | Operand::Callee(_)
        | Operand::At(_)
        | Operand::Kind(_)
        | Operand::Way(_)
        | Operand::Mode(_)
        | Operand::Bound(_)
        | Operand::Steps(_, _)
        | Operand::Registers(_, _)
        | Operand::CheckedRegisters(_, _)
        | Operand::Bytes(_) => {}
    }
}

fn raise_by_coordinates(coordinates: &[Coordinate], ends: &mut [u64])
    ensures { AreRaised (flat_map fields_of_coordinate coordinates.now) ends.old ends.new }
{
    for coordinate in coordinates {
        raise_by_coordinate(*coordinate, ends);
    }
}

fn raise_by_checked(coordinates: &[SignedCoordinate], ends: &mut [u64])
    ensures { AreRaised (flat_map (λ c. fields_of_coordinate (coordinate_of c)) coordinates.now) ends.old ends.new }
{
    for checked in coordinates {
        raise_by_coordinate(checked.coordinate, ends);
    }
}

fn raise_by_coordinate(coordinate: Coordinate, ends: &mut [u64])
    ensures { AreRaised (fields_of_coordinate coordinate) ends.old ends.new }
{
    if let Coordinate::Field(field) = coordinate {
        raise(field, ends);
    }
}

/// The end of the field's set is no nearer than that of the field.
fn raise(field: Field, ends: &mut [u64])
    ensures { AreRaised (field ∷ []) ends.old ends.new }
{
    let set = field.set as usize;
    if set < ends.len() {
        let end = u64::from(field.offset) + u64::from(field.len);
        ends[set] = ends[set].max(end);
    }
}

fn lesser(bits: u32, end: u64) -> u32
    ensures { result ≡ min bits end }
{
    if end < u64::from(bits) {
        end as u32
    } else {
        bits
    }
}
