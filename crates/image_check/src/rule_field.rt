//! Image rule 2: lengths and ends of fields, and registers.

ghost use Rattle.std.specs.Prelude.{◌≡◌, ◌↔◌, ◌<◌, IsTrue, map, All};
ghost use Rattle.paris_code.specs.Shapes.{shape_of};
ghost use Rattle.paris_code.specs.Operands.{coordinate_of, konst_of, register_of};
ghost use Rattle.paris_code.specs.RuleField.{KonstFits, IsSlot, CoordinateFits, OperandFits, KeepsField};
ghost use Rattle.paris_code.specs.Rows.{shown};

use crate::lookup::{coordinate_fits, fits, fits_at, fits_like, konst_fits, scan_bit_fits};
use paris_code::{
    Coordinate, GridStep, Instr, Length, Operand, RegisterCoordinate, ShapeBits, SignedCoordinate,
};

fn coordinates_fit(shapes: &[ShapeBits], slots: u32, coordinates: &[Coordinate]) -> bool
    ensures { IsTrue result ↔ All (CoordinateFits (map shape_of shapes.now) slots) coordinates.now }
{
    coordinates
        .iter()
        .all(|coordinate| coordinate_fits(shapes, slots, *coordinate))
}

fn signed_coordinates_fit(
    shapes: &[ShapeBits],
    slots: u32,
    coordinates: &[SignedCoordinate],
) -> bool
    ensures { IsTrue result ↔ All (λ c. CoordinateFits (map shape_of shapes.now) slots (coordinate_of c)) coordinates.now }
{
    coordinates
        .iter()
        .all(|c| coordinate_fits(shapes, slots, c.coordinate))
}

fn steps_fit(slots: u32, steps: &[GridStep]) -> bool
    ensures { IsTrue result ↔ All (λ s. KonstFits slots (konst_of s)) steps.now }
{
    steps.iter().all(|s| konst_fits(slots, s.step))
}

fn are_slots(slots: u32, registers: &[u32]) -> bool
    ensures { IsTrue result ↔ All (IsSlot slots) registers.now }
{
    registers.iter().all(|register| *register < slots)
}

fn register_coordinates_fit(slots: u32, coordinates: &[RegisterCoordinate]) -> bool
    ensures { IsTrue result ↔ All (λ c. register_of c < slots) coordinates.now }
{
    coordinates.iter().all(|c| c.register < slots)
}

/// Whether an operand is as its row asks.
fn operand_fits(shapes: &[ShapeBits], slots: u32, operand: &Operand<'_>) -> bool
    ensures { IsTrue result ↔ OperandFits (map shape_of shapes.now) slots (shown operand.now) }
{
    match operand {
        Operand::Bits(field, Length::Any) => fits(shapes, *field),
        Operand::Bits(field, Length::Exactly(bits)) => fits_at(shapes, *bits, *field),
        Operand::Bits(field, Length::Like(other)) => fits_like(shapes, *other, *field),
        Operand::Bit(mode, bit) => scan_bit_fits(shapes, *mode, *bit),
        Operand::Register(register) | Operand::Result(register) => *register < slots,
        Operand::Constant(constant) => konst_fits(slots, *constant),
        Operand::Coordinates(_, list) => coordinates_fit(shapes, slots, list),
        Operand::Checked(_, list) => signed_coordinates_fit(shapes, slots, list),
        Operand::Steps(_, list) => steps_fit(slots, list),
        Operand::Registers(_, list) => are_slots(slots, list),
        Operand::CheckedRegisters(_, list) => register_coordinates_fit(slots, list),
        Operand::Set(_)
        | Operand::Axis(_, _)
        | Operand::Immediate(_)
        | Operand::Target(_)
        | Operand::Callee(_)
        | Operand::At(_)
        | Operand::Kind(_)
        | Operand::Way(_)
        | Operand::Mode(_)
        | Operand::Bound(_)
        | Operand::Bytes(_) => true,
    }
}

fn operands_fit(shapes: &[ShapeBits], slots: u32, operands: &[Operand<'_>]) -> bool
    ensures { IsTrue result ↔ All (λ o. OperandFits (map shape_of shapes.now) slots (shown o)) operands.now }
{
    operands
        .iter()
        .all(|operand| operand_fits(shapes, slots, operand))
}

/// Whether an instruction keeps image rule 2.
pub fn keeps_field(shapes: &[ShapeBits], slots: u32, instr: &Instr) -> bool
    ensures { IsTrue result ↔ KeepsField (map shape_of shapes.now) slots instr.now }
{
    let row = instr.row();
    operands_fit(shapes, slots, row.operands())
}
