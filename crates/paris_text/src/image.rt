//! The whole listing.

ghost use Rattle.std.specs.Prelude.{[], ◌∷◌, ◌++◌, flat_map, codes, decimal};
ghost use Rattle.std.specs.List.{concat};
ghost use Rattle.paris_code.specs.Listing.{listing, numbered, shape_line, slots_line, depth_line, final_line, unit_line, instruction_line};
ghost use Rattle.paris_text.specs.Puts.{Puts};

use crate::lines::{FinalLines, InstructionLines, ShapeLines, UnitLines};
use crate::pieces::{Piece, put_list, put_pieces};
use cstar_io::{Failed, Sink};
use paris_code::{Entry, Final, Image, Instr, ShapeBits};

/// Puts the listing of an image: a line for each shape, the number of registers and the greatest
/// number of open calls, and a line for each final variable, unit and instruction. `Failed` exactly
/// where the sink failed; then it took the first bytes of the listing. Takes no memory.
pub fn print<O: Sink>(image: &Image, out: &mut O) -> Result<(), Failed>
    ensures { Puts O.agrees O.faults out.old out.new result (listing image.now) }
{
    match put_shapes(image, out) {
        Ok(()) => behind_shapes(image, out),
        Err(failed) => Err(failed),
    }
}

/// Puts what stands behind the shapes.
fn behind_shapes<O: Sink>(image: &Image, out: &mut O) -> Result<(), Failed>
    ensures { Puts O.agrees O.faults out.old out.new result (slots_line image.now.slots ++ (depth_line image.now.depth ++ (flat_map final_line image.now.finals.items
        ++ (numbered unit_line 0 image.now.units.items ++ numbered instruction_line 0 image.now.code.items)))) }
{
    match put_sizes(image.slots, image.depth, out) {
        Ok(()) => behind_sizes(image, out),
        Err(failed) => Err(failed),
    }
}

/// Puts the final variables, the units and the code.
fn behind_sizes<O: Sink>(image: &Image, out: &mut O) -> Result<(), Failed>
    ensures { Puts O.agrees O.faults out.old out.new result (flat_map final_line image.now.finals.items
        ++ (numbered unit_line 0 image.now.units.items ++ numbered instruction_line 0 image.now.code.items)) }
{
    match put_finals(image, out) {
        Ok(()) => behind_finals(image, out),
        Err(failed) => Err(failed),
    }
}

/// Puts the units and the code.
fn behind_finals<O: Sink>(image: &Image, out: &mut O) -> Result<(), Failed>
    ensures { Puts O.agrees O.faults out.old out.new result (numbered unit_line 0 image.now.units.items ++ numbered instruction_line 0 image.now.code.items) }
{
    match put_units(image, out) {
        Ok(()) => put_code(image, out),
        Err(failed) => Err(failed),
    }
}

fn put_shapes<O: Sink>(image: &Image, out: &mut O) -> Result<(), Failed>
    ensures { Puts O.agrees O.faults out.old out.new result (numbered shape_line 0 image.now.shapes.items) }
{
    put_list::<ShapeBits, ShapeLines, O>(image.shapes.as_slice(), out)
}

fn put_sizes<O: Sink>(slots: u32, depth: u32, out: &mut O) -> Result<(), Failed>
    ensures { Puts O.agrees O.faults out.old out.new result (concat (codes ".slots " ∷ decimal slots ∷ codes "\n.depth " ∷ decimal depth ∷ codes "\n" ∷ [])) }
{
    let pieces = [
        Piece::Text(b".slots "),
        Piece::Number(u64::from(slots)),
        Piece::Text(b"\n.depth "),
        Piece::Number(u64::from(depth)),
        Piece::Text(b"\n"),
    ];
    put_pieces(&pieces, out)
}

fn put_finals<O: Sink>(image: &Image, out: &mut O) -> Result<(), Failed>
    ensures { Puts O.agrees O.faults out.old out.new result (flat_map final_line image.now.finals.items) }
{
    put_final_list(image.finals.as_slice(), out)
}

fn put_final_list<O: Sink>(finals: &[Final], out: &mut O) -> Result<(), Failed>
    ensures { Puts O.agrees O.faults out.old out.new result (flat_map final_line finals.now) }
{
    put_list::<Final, FinalLines, O>(finals, out)
}

fn put_units<O: Sink>(image: &Image, out: &mut O) -> Result<(), Failed>
    ensures { Puts O.agrees O.faults out.old out.new result (numbered unit_line 0 image.now.units.items) }
{
    put_list::<Entry, UnitLines, O>(image.units.as_slice(), out)
}

fn put_code<O: Sink>(image: &Image, out: &mut O) -> Result<(), Failed>
    ensures { Puts O.agrees O.faults out.old out.new result (numbered instruction_line 0 image.now.code.items) }
{
    put_list::<Instr, InstructionLines, O>(image.code.as_slice(), out)
}
