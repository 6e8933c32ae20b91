//! The lines of a listing.

ghost use Rattle.std.specs.Prelude.{ℕ, [], ◌∷◌, ◌++◌, map, flat_map, codes, decimal};
ghost use Rattle.paris_code.specs.Mnemonics.{mnemonic_of};
ghost use Rattle.paris_code.specs.Listing.{spaced, operands_of, extent_text, kind_text, field_text, shape_line, final_line, unit_line, instruction_line};
ghost use Rattle.std.specs.List.{concat};
ghost use Rattle.paris_text.specs.Operands.{operand_text};
ghost use Rattle.paris_text.specs.Puts.{Puts};

use crate::mnemonics::name_of;
use crate::operands::{Operand, listed_operands};
use crate::pieces::{Piece, Style, put_list, put_pieces};
use crate::words::{put_fixed, put_operands, put_rest};
use cstar_io::{Failed, Sink};
use paris_code::{Entry, Final, Instr, ShapeBits};

/// An extent in square brackets.
struct Extents;

impl Style<u32> for Extents {
    ghost text = { λ number item. extent_text item };

    fn put<O: Sink>(_number: usize, item: &u32, out: &mut O) -> Result<(), Failed> {
        let pieces = [
            Piece::Text(b"["),
            Piece::Number(u64::from(*item)),
            Piece::Text(b"]"),
        ];
        put_pieces(&pieces, out)
    }
}

/// The line of a shape.
pub struct ShapeLines;

impl Style<ShapeBits> for ShapeLines {
    ghost text = { shape_line };

    fn put<O: Sink>(number: usize, item: &ShapeBits, out: &mut O) -> Result<(), Failed> {
        match put_shape_number(number, out) {
            Ok(()) => put_grid(item, out),
            Err(failed) => Err(failed),
        }
    }
}

/// Puts what a shape's line begins with.
fn put_shape_number<O: Sink>(number: usize, out: &mut O) -> Result<(), Failed>
    ensures { Puts O.agrees O.faults out.old out.new result (concat (codes ".shape " ∷ decimal number ∷ codes " " ∷ [])) }
{
    let pieces = [
        Piece::Text(b".shape "),
        Piece::Number(number as u64),
        Piece::Text(b" "),
    ];
    put_pieces(&pieces, out)
}

/// Puts the extents of a shape, each in square brackets.
fn put_extents<O: Sink>(shape: &ShapeBits, out: &mut O) -> Result<(), Failed>
    ensures { Puts O.agrees O.faults out.old out.new result (flat_map extent_text shape.now.extents.items) }
{
    put_extent_list(shape.extents.as_slice(), out)
}

fn put_extent_list<O: Sink>(extents: &[u32], out: &mut O) -> Result<(), Failed>
    ensures { Puts O.agrees O.faults out.old out.new result (flat_map extent_text extents.now) }
{
    put_list::<u32, Extents, O>(extents, out)
}

/// Puts the number of bits that a shape's line ends with.
fn put_bits<O: Sink>(bits: u32, out: &mut O) -> Result<(), Failed>
    ensures { Puts O.agrees O.faults out.old out.new result (concat (codes " " ∷ decimal bits ∷ codes "\n" ∷ [])) }
{
    let pieces = [
        Piece::Text(b" "),
        Piece::Number(u64::from(bits)),
        Piece::Text(b"\n"),
    ];
    put_pieces(&pieces, out)
}

/// Puts the extents of a shape and its bits.
fn put_grid<O: Sink>(shape: &ShapeBits, out: &mut O) -> Result<(), Failed>
    ensures { Puts O.agrees O.faults out.old out.new result (flat_map extent_text shape.now.extents.items
        ++ concat (codes " " ∷ decimal shape.now.bits ∷ codes "\n" ∷ [])) }
{
    match put_extents(shape, out) {
        Ok(()) => put_bits(shape.bits, out),
        Err(failed) => Err(failed),
    }
}

/// The line of a final variable.
pub struct FinalLines;

impl Style<Final> for FinalLines {
    ghost text = { λ number item. final_line item };

    fn put<O: Sink>(_number: usize, item: &Final, out: &mut O) -> Result<(), Failed> {
        match put_final_name(item, out) {
            Ok(()) => put_final_field(item, out),
            Err(failed) => Err(failed),
        }
    }
}

/// Puts what the line of a final variable begins with.
fn put_final_name<O: Sink>(variable: &Final, out: &mut O) -> Result<(), Failed>
    ensures { Puts O.agrees O.faults out.old out.new result (concat (codes ".final " ∷ variable.now.name ∷ [])) }
{
    let name = variable.name.bytes();
    put_pieces(&[Piece::Text(b".final "), Piece::Text(name)], out)
}

/// Puts the kind and the field of a final variable, and the end of its line.
fn put_final_field<O: Sink>(variable: &Final, out: &mut O) -> Result<(), Failed>
    ensures { Puts O.agrees O.faults out.old out.new result ((spaced (kind_text variable.now.elem) ++ (spaced (field_text variable.now.field) ++ [])) ++ codes "\n") }
{
    put_ended(
        &[Operand::Kind(variable.elem), Operand::Field(variable.field)],
        out,
    )
}

/// Puts the end of a line.
fn put_end<O: Sink>(out: &mut O) -> Result<(), Failed>
    ensures { Puts O.agrees O.faults out.old out.new result (codes "\n") }
{
    put_pieces(&[Piece::Text(b"\n")], out)
}

/// Puts operands, each behind a space, and the end of the line.
fn put_ended<O: Sink>(operands: &[Operand], out: &mut O) -> Result<(), Failed>
    ensures { Puts O.agrees O.faults out.old out.new result (flat_map spaced (map operand_text operands.now) ++ codes "\n") }
{
    match put_operands(operands, out) {
        Ok(()) => put_end(out),
        Err(failed) => Err(failed),
    }
}

/// The line of a unit.
pub struct UnitLines;

impl Style<Entry> for UnitLines {
    ghost text = { unit_line };

    fn put<O: Sink>(number: usize, item: &Entry, out: &mut O) -> Result<(), Failed> {
        let pieces = [
            Piece::Text(b".unit "),
            Piece::Number(number as u64),
            Piece::Text(b" "),
            Piece::Text(item.name.bytes()),
            Piece::Text(b" "),
            Piece::Number(u64::from(item.start)),
            Piece::Text(b"\n"),
        ];
        put_pieces(&pieces, out)
    }
}

/// The line of an instruction.
pub struct InstructionLines;

impl Style<Instr> for InstructionLines {
    ghost text = { instruction_line };

    fn put<O: Sink>(number: usize, item: &Instr, out: &mut O) -> Result<(), Failed> {
        match put_name(number, item, out) {
            Ok(()) => put_tail(item, out),
            Err(failed) => Err(failed),
        }
    }
}

/// Puts the index of an instruction and its name.
fn put_name<O: Sink>(number: usize, instr: &Instr, out: &mut O) -> Result<(), Failed>
    ensures { Puts O.agrees O.faults out.old out.new result (decimal number ++ spaced (mnemonic_of instr.now)) }
{
    let name = name_of(instr);
    let pieces = [
        Piece::Number(number as u64),
        Piece::Text(b" "),
        Piece::Text(name.head),
        Piece::Text(name.middle),
        Piece::Text(name.tail),
    ];
    put_pieces(&pieces, out)
}

/// Puts the operands of an instruction and the end of its line.
fn put_tail<O: Sink>(instr: &Instr, out: &mut O) -> Result<(), Failed>
    ensures { Puts O.agrees O.faults out.old out.new result (flat_map spaced (operands_of instr.now) ++ codes "\n") }
{
    match put_operands_of(instr, out) {
        Ok(()) => put_end(out),
        Err(failed) => Err(failed),
    }
}

/// Puts the operands of an instruction, each behind a space.
fn put_operands_of<O: Sink>(instr: &Instr, out: &mut O) -> Result<(), Failed>
    ensures { Puts O.agrees O.faults out.old out.new result (flat_map spaced (operands_of instr.now)) }
{
    let operands = listed_operands(instr);
    match put_fixed(operands.fixed, out) {
        Ok(()) => put_rest(operands.rest, out),
        Err(failed) => Err(failed),
    }
}
