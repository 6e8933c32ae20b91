ghost use Rattle.std.specs.Prelude.{◌≡◌, ◌<◌, ℤ, pos, ◌++◌, length, codes};
ghost use Rattle.std.specs.Fmt.{signed_decimal};
ghost use Rattle.cstar_base.specs.Numbers.{number_of, residue};
ghost use Rattle.vp_sets.specs.Positions.{position_count};
ghost use Rattle.paris_code.specs.Shapes.{extents_at, shapes_of};
ghost use Rattle.phase_meaning.specs.Apply.{LiesIn};
ghost use Rattle.paris_text.specs.Puts.{Puts};
ghost use Rattle.final_values.specs.Finals.{finals_text, values_line, values_text};

use cstar_base::Elem;
use cstar_base::numbers::{value, wrap};
use cstar_io::{Failed, Sink};
use image_check::Sound;
use itoa::Buffer;
use paris_code::Final;
use phase_gate::Phases;
use vp_sets::Geometry;

/// Puts one line for each file-scope parallel variable in order of declaration: its name, a colon,
/// and for each position in order a space and the value there in decimal. `Failed` where the sink
/// failed; then it took the first bytes of these lines.
pub fn put_finals<P: Phases, O: Sink>(sound: &Sound, phases: &P, out: &mut O) -> Result<(), Failed>
    requires shapes { P.shapes phases.now ≡ shapes_of sound.now }
    requires settled { P.settled phases.now }
    ensures { Puts O.agrees O.faults out.old out.new result (finals_text (shapes_of sound.now) (P.memory phases.now) sound.now.finals.items) }
{
    'finals: for last in sound.image().finals.iter() {
        match put_final(sound, last, phases, out) {
            Ok(()) => {}
            Err(failed) => return Err(failed),
        }
    }
    Ok(())
}

/// The line of one variable.
fn put_final<P: Phases, O: Sink>(
    sound: &Sound,
    last: &Final,
    phases: &P,
    out: &mut O,
) -> Result<(), Failed>
    requires shapes { P.shapes phases.now ≡ shapes_of sound.now }
    requires settled { P.settled phases.now }
    requires field { LiesIn (shapes_of sound.now) last.now.field }
    ensures { Puts O.agrees O.faults out.old out.new result (values_line (shapes_of sound.now) (P.memory phases.now) last.now) }
{
    match put_name(last, out) {
        Ok(()) => put_row(sound, last, phases, out),
        Err(failed) => Err(failed),
    }
}

/// A name and a colon.
fn put_name<O: Sink>(last: &Final, out: &mut O) -> Result<(), Failed>
    ensures { Puts O.agrees O.faults out.old out.new result (last.now.name ++ codes ":") }
{
    match out.put(last.name.bytes()) {
        Ok(()) => out.put(b":"),
        Err(failed) => Err(failed),
    }
}

/// The values of a variable, and the end of its line.
fn put_row<P: Phases, O: Sink>(
    sound: &Sound,
    last: &Final,
    phases: &P,
    out: &mut O,
) -> Result<(), Failed>
    requires shapes { P.shapes phases.now ≡ shapes_of sound.now }
    requires settled { P.settled phases.now }
    requires field { LiesIn (shapes_of sound.now) last.now.field }
    ensures { Puts O.agrees O.faults out.old out.new result (values_text (shapes_of sound.now) (P.memory phases.now) last.now ++ codes "\n") }
{
    match put_values(sound, last, phases, out) {
        Ok(()) => out.put(b"\n"),
        Err(failed) => Err(failed),
    }
}

/// The values of a variable, each behind a space.
fn put_values<P: Phases, O: Sink>(
    sound: &Sound,
    last: &Final,
    phases: &P,
    out: &mut O,
) -> Result<(), Failed>
    requires shapes { P.shapes phases.now ≡ shapes_of sound.now }
    requires settled { P.settled phases.now }
    requires field { LiesIn (shapes_of sound.now) last.now.field }
    ensures { Puts O.agrees O.faults out.old out.new result (values_text (shapes_of sound.now) (P.memory phases.now) last.now) }
{
    'positions: for position in 0..positions(sound, last.field.set) {
        let number = value_of(last.elem, phases.read(last.field, position));
        match put_value(number, out) {
            Ok(()) => {}
            Err(failed) => return Err(failed),
        }
    }
    Ok(())
}

/// How many positions a set has.
fn positions(sound: &Sound, set: u16) -> u32
    requires { set < length (shapes_of sound.now) }
    ensures { result ≡ position_count (extents_at (shapes_of sound.now) set) }
{
    match Geometry::new(sound.image().shapes[usize::from(set)].extents.as_slice()) {
        Ok(geometry) => geometry.positions(),
        Err(_bad) => unreachable!(),
    }
}

/// The number of a type that the bits of a field stand for.
fn value_of(elem: Elem, bits: u32) -> i64
    ensures { result ≡ number_of elem.bits elem.signed (residue elem.bits (pos bits)) }
{
    value(elem, wrap(elem, i64::from(bits)))
}

/// A space and a number.
fn put_value<O: Sink>(number: i64, out: &mut O) -> Result<(), Failed>
    ensures { Puts O.agrees O.faults out.old out.new result (codes " " ++ signed_decimal number) }
{
    match out.put(b" ") {
        Ok(()) => out.put(Buffer::new().format(number).as_bytes()),
        Err(failed) => Err(failed),
    }
}
