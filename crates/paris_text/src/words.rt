//! The words of a line.

ghost use Rattle.std.specs.Prelude.{◌≡◌, ℕ, ◌==◌, if◌then◌else◌, [], ◌∷◌, map, flat_map, codes};
ghost use Rattle.paris_code.specs.Listing.{spaced, field_text, coordinate_text, read_text, checked_text, step_text, register_text, checked_register_text, kind_text, hex_text, bytes_text};
ghost use Rattle.paris_code.specs.Mnemonics.{sign_name};
ghost use Rattle.paris_text.specs.Operands.{operand_text, fixed_list, rest_words};
ghost use Rattle.paris_text.specs.Puts.{Puts};

use crate::keywords::Keyword;
use crate::operands::{Fixed, Operand, Rest};
use crate::pieces::{Piece, Style, put_list, put_pieces};
use cstar_base::Elem;
use cstar_io::{Failed, Sink};
use paris_code::{Coordinate, Field, GridStep, Konst, RegisterCoordinate, SignedCoordinate};

fn kind_letter(kind: Elem) -> &'static [u8]
    ensures { result.now ≡ (if kind.bits == 1 then codes "b" else sign_name kind.signed) }
{
    if kind.bits == 1 {
        b"b"
    } else {
        kind.signed.spelling()
    }
}

/// Puts a space and a field.
pub fn put_field<O: Sink>(field: Field, out: &mut O) -> Result<(), Failed>
    ensures { Puts O.agrees O.faults out.old out.new result (spaced (field_text field)) }
{
    let pieces = [
        Piece::Text(b" "),
        Piece::Number(u64::from(field.set)),
        Piece::Text(b":"),
        Piece::Number(u64::from(field.offset)),
        Piece::Text(b":"),
        Piece::Number(u64::from(field.len)),
    ];
    put_pieces(&pieces, out)
}

/// Puts a space and a kind.
pub fn put_kind<O: Sink>(kind: Elem, out: &mut O) -> Result<(), Failed>
    ensures { Puts O.agrees O.faults out.old out.new result (spaced (kind_text kind)) }
{
    let pieces = [
        Piece::Text(b" "),
        Piece::Text(kind_letter(kind)),
        Piece::Number(u64::from(kind.bits)),
    ];
    put_pieces(&pieces, out)
}

/// Puts a space and an operand.
pub fn put_operand<O: Sink>(operand: Operand, out: &mut O) -> Result<(), Failed>
    ensures { Puts O.agrees O.faults out.old out.new result (spaced (operand_text operand)) }
{
    match operand {
        Operand::Field(field) | Operand::Bit(Some(field)) => put_field(field, out),
        Operand::Bit(None) => put_pieces(&[Piece::Text(b" -")], out),
        Operand::Register(r) | Operand::Konst(Konst::Reg(r)) => {
            put_pieces(&[Piece::Text(b" r"), Piece::Number(u64::from(r))], out)
        }
        Operand::Immediate(n) | Operand::Konst(Konst::Imm(n)) => {
            put_pieces(&[Piece::Text(b" #"), Piece::Number(u64::from(n))], out)
        }
        Operand::Target(n) => put_pieces(&[Piece::Text(b" @"), Piece::Number(u64::from(n))], out),
        Operand::Unit(n) => put_pieces(&[Piece::Text(b" u"), Piece::Number(u64::from(n))], out),
        Operand::Set(n) => put_pieces(&[Piece::Text(b" s"), Piece::Number(u64::from(n))], out),
        Operand::Axis(n) => put_pieces(&[Piece::Text(b" a"), Piece::Number(u64::from(n))], out),
        Operand::Place(place) => {
            let pieces = [
                Piece::Text(b" "),
                Piece::Number(u64::from(place.line)),
                Piece::Text(b","),
                Piece::Number(u64::from(place.col)),
            ];
            put_pieces(&pieces, out)
        }
        Operand::Kind(kind) => put_kind(kind, out),
        Operand::Direction(direction) => {
            put_pieces(&[Piece::Text(b" "), Piece::Text(direction.spelling())], out)
        }
        Operand::Mode(mode) => put_pieces(&[Piece::Text(b" "), Piece::Text(mode.spelling())], out),
        Operand::Inclusion(inclusion) => {
            put_pieces(&[Piece::Text(b" "), Piece::Text(inclusion.spelling())], out)
        }
    }
}

/// Each coordinate behind a space.
struct SpacedCoordinates;

impl Style<Coordinate> for SpacedCoordinates {
    ghost text = { λ number item. spaced (coordinate_text item) };

    fn put<O: Sink>(_number: usize, item: &Coordinate, out: &mut O) -> Result<(), Failed> {
        match item {
            Coordinate::Field(field) => put_field(*field, out),
            Coordinate::Reg(r) => put_operand(Operand::Register(*r), out),
        }
    }
}

/// Puts how a checked number is read.
fn put_sign<O: Sink>(signed: bool, out: &mut O) -> Result<(), Failed>
    ensures { Puts O.agrees O.faults out.old out.new result (read_text signed) }
{
    put_pieces(&[Piece::Text(b"/"), Piece::Text(signed.spelling())], out)
}

/// Each checked coordinate behind a space.
struct SpacedChecked;

impl Style<SignedCoordinate> for SpacedChecked {
    ghost text = { λ number item. spaced (checked_text item) };

    fn put<O: Sink>(number: usize, item: &SignedCoordinate, out: &mut O) -> Result<(), Failed> {
        match SpacedCoordinates::put(number, &item.coordinate, out) {
            Ok(()) => put_sign(item.signed, out),
            Err(failed) => Err(failed),
        }
    }
}

/// Each step of a grid check behind a space.
struct SpacedSteps;

impl Style<GridStep> for SpacedSteps {
    ghost text = { λ number item. spaced (step_text item) };

    fn put<O: Sink>(_number: usize, item: &GridStep, out: &mut O) -> Result<(), Failed> {
        let (mark, number) = match item.step {
            Konst::Imm(n) => (b"=#", n),
            Konst::Reg(r) => (b"=r", r),
        };
        let pieces = [
            Piece::Text(b" a"),
            Piece::Number(u64::from(item.axis)),
            Piece::Text(mark),
            Piece::Number(u64::from(number)),
        ];
        put_pieces(&pieces, out)
    }
}

/// Each register behind a space.
struct SpacedRegisters;

impl Style<u32> for SpacedRegisters {
    ghost text = { λ number item. spaced (register_text item) };

    fn put<O: Sink>(_number: usize, item: &u32, out: &mut O) -> Result<(), Failed> {
        put_operand(Operand::Register(*item), out)
    }
}

/// Each checked register behind a space.
struct SpacedCheckedRegisters;

impl Style<RegisterCoordinate> for SpacedCheckedRegisters {
    ghost text = { λ number item. spaced (checked_register_text item) };

    fn put<O: Sink>(_number: usize, item: &RegisterCoordinate, out: &mut O) -> Result<(), Failed> {
        let pieces = [
            Piece::Text(b" r"),
            Piece::Number(u64::from(item.register)),
            Piece::Text(b"/"),
            Piece::Text(item.signed.spelling()),
        ];
        put_pieces(&pieces, out)
    }
}

/// Each byte in two hexadecimal digits.
struct Hexadecimal;

/// The hexadecimal digits.
static DIGITS: &[u8; 16] = b"0123456789abcdef";

impl Style<u8> for Hexadecimal {
    ghost text = { λ number item. hex_text item };

    fn put<O: Sink>(_number: usize, item: &u8, out: &mut O) -> Result<(), Failed> {
        let byte = usize::from(*item);
        let digits = [DIGITS[byte / 16], DIGITS[byte % 16]];
        out.put(&digits)
    }
}

/// Each operand behind a space.
struct SpacedOperands;

impl Style<Operand> for SpacedOperands {
    ghost text = { λ number item. spaced (operand_text item) };

    fn put<O: Sink>(_number: usize, item: &Operand, out: &mut O) -> Result<(), Failed> {
        put_operand(*item, out)
    }
}

/// Puts the operands that every instruction of a kind has, each behind a space.
pub fn put_fixed<O: Sink>(fixed: Fixed, out: &mut O) -> Result<(), Failed>
    ensures { Puts O.agrees O.faults out.old out.new result (flat_map spaced (map operand_text (fixed_list fixed))) }
{
    match fixed {
        Fixed::Zero => put_operands(&[], out),
        Fixed::One(a) => put_operands(&[a], out),
        Fixed::Two(a, b) => put_operands(&[a, b], out),
        Fixed::Three(a, b, c) => put_operands(&[a, b, c], out),
        Fixed::Four(a, b, c, d) => put_operands(&[a, b, c, d], out),
        Fixed::Seven(a, b, c, d, e, f, g) => put_operands(&[a, b, c, d, e, f, g], out),
    }
}

/// Puts operands, each behind a space.
pub fn put_operands<O: Sink>(operands: &[Operand], out: &mut O) -> Result<(), Failed>
    ensures { Puts O.agrees O.faults out.old out.new result (flat_map spaced (map operand_text operands.now)) }
{
    put_list::<Operand, SpacedOperands, O>(operands, out)
}

/// Puts the list that some instructions end with, each item behind a space.
pub fn put_rest<O: Sink>(rest: Rest<'_>, out: &mut O) -> Result<(), Failed>
    ensures { Puts O.agrees O.faults out.old out.new result (flat_map spaced (rest_words rest.entry)) }
{
    match rest {
        Rest::Nothing => Ok(()),
        Rest::Coordinates(list) => put_list::<Coordinate, SpacedCoordinates, O>(list, out),
        Rest::Checked(list) => put_list::<SignedCoordinate, SpacedChecked, O>(list, out),
        Rest::Steps(list) => put_list::<GridStep, SpacedSteps, O>(list, out),
        Rest::Registers(list) => put_list::<u32, SpacedRegisters, O>(list, out),
        Rest::CheckedRegisters(list) => {
            put_list::<RegisterCoordinate, SpacedCheckedRegisters, O>(list, out)
        }
        Rest::Bytes(list) => put_bytes(list, out),
    }
}

/// Puts a space, an `x`, and two hexadecimal digits for each byte.
fn put_bytes<O: Sink>(bytes: &[u8], out: &mut O) -> Result<(), Failed>
    ensures { Puts O.agrees O.faults out.old out.new result (flat_map spaced (bytes_text bytes.now ∷ [])) }
{
    match put_pieces(&[Piece::Text(b" x")], out) {
        Ok(()) => put_list::<u8, Hexadecimal, O>(bytes, out),
        Err(failed) => Err(failed),
    }
}
