//! The numbers of an image have 32 bits, by their types: nothing else of the code says it.

ghost use Rattle.std.specs.Prelude.{◌≡◌, ◌<◌, ◌^◌, All, IfSome, length};
ghost use Rattle.plain_listings.specs.Contents.{BitHasWords, CheckedHasWords, CoordinateHasWords, EntryHasWords, FieldHasWords, FinalHasWords, HasWords, InstrHasWords, IsWord, KonstHasWords, PlaceHasWords, RegisterHasWords, ShapeHasWords, StepHasWords};

use cstar_base::{Place, Word};
use paris_code::{
    Coordinate, Entry, Field, Final, GridStep, Image, Instr, Konst, RegisterCoordinate, ShapeBits,
    SignedCoordinate,
};

fn in_place(place: Place)
    ensures { PlaceHasWords place }
{}

fn in_field(field: Field)
    ensures { FieldHasWords field }
{}

fn in_bit(bit: Option<Field>)
    ensures { BitHasWords bit }
{
    if let Some(field) = bit {
        in_field(field);
    }
}

fn in_number(number: Konst)
    ensures { KonstHasWords number }
{
    match number {
        Konst::Imm(_) | Konst::Reg(_) => (),
    }
}

fn in_coordinate(coordinate: &Coordinate)
    ensures { CoordinateHasWords coordinate.now }
{
    match coordinate {
        Coordinate::Field(field) => in_field(*field),
        Coordinate::Reg(register) => {
            let _register = *register;
        }
    }
}

fn in_checked(checked: &SignedCoordinate)
    ensures { CheckedHasWords checked.now }
{
    in_coordinate(&checked.coordinate);
}

fn in_register(checked: &RegisterCoordinate)
    ensures { RegisterHasWords checked.now }
{
    let _register = checked.register;
}

fn in_step(step: &GridStep)
    ensures { StepHasWords step.now }
{
    let _axis = step.axis;
    in_number(step.step);
}

fn in_shape(shape: &ShapeBits)
    ensures { ShapeHasWords shape.now }
{
    let _bits = shape.bits;
    in_words(shape.extents.as_slice());
}

fn in_final(last: &Final)
    ensures { FinalHasWords last.now }
{
    in_field(last.field);
}

fn in_unit(unit: &Entry)
    ensures { EntryHasWords unit.now }
{
    let _start = unit.start;
}

fn in_words(words: &[u32])
    ensures { All IsWord words.now }
{}

fn in_bytes(bytes: &[u8])
    ensures { All (λ byte. byte < 256) bytes.now }
{}

fn in_coordinates(coordinates: &[Coordinate])
    ensures { All CoordinateHasWords coordinates.now }
{
    for coordinate in coordinates {
        in_coordinate(coordinate);
    }
}

fn in_all_checked(coordinates: &[SignedCoordinate])
    ensures { All CheckedHasWords coordinates.now }
{
    for checked in coordinates {
        in_checked(checked);
    }
}

fn in_registers(coordinates: &[RegisterCoordinate])
    ensures { All RegisterHasWords coordinates.now }
{
    for checked in coordinates {
        in_register(checked);
    }
}

fn in_steps(steps: &[GridStep])
    ensures { All StepHasWords steps.now }
{
    for step in steps {
        in_step(step);
    }
}

fn in_shapes(shapes: &[ShapeBits])
    ensures { All ShapeHasWords shapes.now }
{
    for shape in shapes {
        in_shape(shape);
    }
}

fn in_finals(finals: &[Final])
    ensures { All FinalHasWords finals.now }
{
    for last in finals {
        in_final(last);
    }
}

fn in_units(units: &[Entry])
    ensures { All EntryHasWords units.now }
{
    for unit in units {
        in_unit(unit);
    }
}

fn in_code(code: &[Instr])
    ensures { All InstrHasWords code.now }
{
    for instr in code {
        in_instr(instr);
    }
}

/// Two fields.
fn in_fields(one: Field, other: Field)
    ensures { FieldHasWords one × FieldHasWords other }
{
    in_field(one);
    in_field(other);
}

#[tactic(auto, unfolding(plain_listings::specs::Contents::InstrHasWords))]
fn in_instr(instr: &Instr)
    ensures { InstrHasWords instr.now }
{
    match instr {
        Instr::Move { dest, source, .. }
        | Instr::MoveAlways { dest, source }
        | Instr::Negate { dest, source }
        | Instr::Lognot { dest, source } => in_fields(*dest, *source),
        Instr::MoveConstant { dest, value } => {
            in_field(*dest);
            in_number(*value);
        }
        Instr::MoveZeroAlways { dest } | Instr::StoreTest { dest } | Instr::StoreContext { dest } =>
            { in_field(*dest) }
        Instr::MyNewsCoordinate { dest, axis } => {
            let _axis = *axis;
            in_field(*dest);
        }
        Instr::MakeAddress {
            dest,
            set,
            coordinates,
        } => {
            let _set = *set;
            in_field(*dest);
            in_coordinates(coordinates.as_slice());
        }
        Instr::Operate {
            dest,
            left,
            right,
            ..
        } => {
            in_field(*dest);
            in_fields(*left, *right);
        }
        Instr::OperateConstant {
            dest,
            left,
            right,
            ..
        } => {
            in_fields(*dest, *left);
            in_number(*right);
        }
        Instr::Compare { left, right, .. } => in_fields(*left, *right),
        Instr::EqZero { source }
        | Instr::NeZero { source }
        | Instr::LoadTest { source }
        | Instr::LoadContext { source } => in_field(*source),
        Instr::SetContext { set }
        | Instr::LogandContextWithTest { set }
        | Instr::LogandcContextWithTest { set } => {
            let _set = *set;
        }
        Instr::CheckTarget {
            set,
            place,
            coordinates,
        } => {
            let _set = *set;
            in_place(*place);
            in_all_checked(coordinates.as_slice());
        }
        Instr::CheckGrid { set, place, steps } => {
            let _set = *set;
            in_place(*place);
            in_steps(steps.as_slice());
        }
        Instr::CheckDivisor { place, source } => {
            in_place(*place);
            in_field(*source);
        }
        Instr::GetFromNews {
            dest,
            source,
            axis,
            by,
        }
        | Instr::GetFromNewsAlways {
            dest,
            source,
            axis,
            by,
        } => {
            let _axis = *axis;
            in_fields(*dest, *source);
            in_number(*by);
        }
        Instr::Get {
            dest,
            address,
            source,
        }
        | Instr::SendWithOverwrite {
            dest,
            address,
            source,
            ..
        }
        | Instr::SendWithCombiner {
            dest,
            address,
            source,
            ..
        } => {
            in_field(*dest);
            in_fields(*address, *source);
        }
        Instr::Global { dest, source, .. } => {
            let _dest = *dest;
            in_field(*source);
        }
        Instr::Scan {
            dest,
            source,
            axis,
            bit,
            ..
        } => {
            let _axis = *axis;
            in_fields(*dest, *source);
            in_bit(*bit);
        }
        Instr::ReadFromProcessor {
            dest,
            processor,
            source,
            ..
        } => {
            let _numbers = (*dest, *processor);
            in_field(*source);
        }
        Instr::WriteToProcessor {
            dest,
            processor,
            value,
        } => {
            let _processor = *processor;
            in_field(*dest);
            in_number(*value);
        }
        Instr::FrontConst { dest, value } => {
            let _numbers = (*dest, *value);
        }
        Instr::FrontMove { dest, source }
        | Instr::FrontNegate { dest, source }
        | Instr::FrontLognot { dest, source }
        | Instr::FrontConvert { dest, source, .. } => {
            let _numbers = (*dest, *source);
        }
        Instr::FrontOperate {
            dest,
            left,
            right,
            ..
        }
        | Instr::FrontCompare {
            dest,
            left,
            right,
            ..
        } => {
            let _numbers = (*dest, *left, *right);
        }
        Instr::FrontMakeAddress {
            dest,
            set,
            coordinates,
        } => {
            let _numbers = (*dest, *set);
            in_words(coordinates.as_slice());
        }
        Instr::FrontCheckTarget {
            set,
            place,
            coordinates,
        } => {
            let _set = *set;
            in_place(*place);
            in_registers(coordinates.as_slice());
        }
        Instr::FrontCheckDivisor { place, source } => {
            let _source = *source;
            in_place(*place);
        }
        Instr::FrontJump { target } => {
            let _target = *target;
        }
        Instr::FrontJumpZero { test, target } | Instr::FrontJumpNonzero { test, target } => {
            let _numbers = (*test, *target);
        }
        Instr::FrontTurn | Instr::FrontReturn | Instr::FrontHalt => (),
        Instr::FrontCall { unit } => {
            let _unit = *unit;
        }
        Instr::FrontPutBytes { bytes } => in_bytes(bytes.bytes()),
        Instr::FrontPut { source, .. } => {
            let _source = *source;
        }
        Instr::FrontGetByte { dest } => {
            let _dest = *dest;
        }
    }
}

/// The numbers of an image have 32 bits, by their types. Goes through the whole image, and takes no
/// memory.
pub fn have_words(image: &Image)
    requires shapes { length image.now.shapes.items < 2 ^ 32 }
    requires units { length image.now.units.items < 2 ^ 32 }
    requires code { length image.now.code.items < 2 ^ 32 }
    ensures { HasWords image.now }
{
    in_head(image);
    in_shapes(image.shapes.as_slice());
    in_finals(image.finals.as_slice());
    in_units(image.units.as_slice());
    in_code(image.code.as_slice());
}

/// The number of registers, and that of open calls.
fn in_head(image: &Image)
    ensures { IsWord image.now.slots × IsWord image.now.depth }
{
    let _slots = image.slots;
    let _depth = image.depth;
}
