//! The fields that an instruction names.

ghost use Rattle.std.specs.Prelude.{◌≡◌, [], ◌∷◌, ◌++◌, OnOk};
ghost use Rattle.std.specs.List.{flat_map};
ghost use Rattle.paris_code.specs.Operands.{coordinate_of};
ghost use Rattle.paris_code.specs.Rows.{shown};
ghost use Rattle.paris_code.specs.Spans.{fields_of, fields_of_coordinate, fields_of_operand};

use cstar_base::Memory;
use paris_code::{Coordinate, Field, Instr, Operand, SignedCoordinate};

/// Appends the fields that an instruction names.
pub fn named(i: &Instr, all: &mut Vec<Field>) -> Result<(), Memory>
    ensures { OnOk result (all.new.items ≡ all.old.items ++ fields_of i.now) }
{
    let row = i.row();
    operand_fields(row.operands(), all)
}

fn operand_fields(operands: &[Operand<'_>], all: &mut Vec<Field>) -> Result<(), Memory>
    ensures { OnOk result (all.new.items ≡ all.old.items ++ flat_map (λ o. fields_of_operand (shown o)) operands.now) }
{
    for operand in operands {
        one_operand(operand, all)?;
    }
    Ok(())
}

fn one_operand(operand: &Operand<'_>, all: &mut Vec<Field>) -> Result<(), Memory>
    ensures { OnOk result (all.new.items ≡ all.old.items ++ fields_of_operand (shown operand.now)) }
{
    match operand {
        Operand::Bits(field, _) => one(*field, all),
        Operand::Bit(_, Some(bit)) => one(*bit, all),
        Operand::Coordinates(_, list) => coordinate_fields(list, all),
        Operand::Checked(_, list) => checked_fields(list, all),
        Operand::Bit(_, None)
        | Operand::Register(_)
        | Operand::Result(_)
        | Operand::Constant(_)
        | Operand::Set(_)
        | Operand::Axis(_, _)
        | Operand::Immediate(_)
        | Operand::Target(_)
        | Operand::Callee(_)
        | Operand::At(_)
        | Operand::Kind(_)
        | Operand::Way(_)
        | Operand::Mode(_)
        | Operand::Bound(_)
        | Operand::Steps(_, _)
        | Operand::Registers(_, _)
        | Operand::CheckedRegisters(_, _)
        | Operand::Bytes(_) => Ok(()),
    }
}

fn coordinate_fields(coordinates: &[Coordinate], all: &mut Vec<Field>) -> Result<(), Memory>
    ensures { OnOk result (all.new.items ≡ all.old.items ++ flat_map fields_of_coordinate coordinates.now) }
{
    for coordinate in coordinates {
        coordinate_field(*coordinate, all)?;
    }
    Ok(())
}

fn checked_fields(coordinates: &[SignedCoordinate], all: &mut Vec<Field>) -> Result<(), Memory>
    ensures { OnOk result (all.new.items ≡ all.old.items ++ flat_map (λ c. fields_of_coordinate (coordinate_of c)) coordinates.now) }
{
    for checked in coordinates {
        coordinate_field(checked.coordinate, all)?;
    }
    Ok(())
}

fn one(a: Field, all: &mut Vec<Field>) -> Result<(), Memory>
    ensures { OnOk result (all.new.items ≡ all.old.items ++ a ∷ []) }
{
    all.push(a)?;
    Ok(())
}

fn coordinate_field(coordinate: Coordinate, all: &mut Vec<Field>) -> Result<(), Memory>
    ensures { OnOk result (all.new.items ≡ all.old.items ++ fields_of_coordinate coordinate) }
{
    match coordinate {
        Coordinate::Field(field) => one(field, all),
        Coordinate::Reg(_) => Ok(()),
    }
}
