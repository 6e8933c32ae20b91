//! The placing of a whole program.

ghost use Rattle.std.specs.Prelude.{◌≡◌, IfOk, map};
ghost use Rattle.std.specs.List.{AllZip};
ghost use Rattle.field_alloc.specs.OverBits.{IsOverBits};
ghost use Rattle.paris_code.specs.Moving.{IsMoved};
ghost use Rattle.field_alloc.specs.Placed.{ArePlacedUnits, IsPlacedUnit};
ghost use Rattle.field_alloc.specs.Places.{items_of};

use crate::finals::placed_finals;
use crate::owns::own_places;
use crate::places::{places_of_units, row};
use cstar_base::Memory;
use paris_code::{Instr, Program, Unit};
use std::alloc::Global;

/// The program over bits. Fields that live at one time are apart, and an entry of another unit has
/// that unit's bits. Out of memory also where an entry would begin or end at a bit from 2^32 on, where
/// a unit has 2^32 instructions or more, and where a unit whose own entries have bits calls itself
/// through others, which none of a compiled program does.
pub fn place(alloc: Global, p: Program) -> Result<Program, Memory>
    ensures { IfOk result (λ q. IsOverBits p q) }
{
    let Program {
        shapes,
        slots,
        depth,
        units,
        finals,
    } = p;
    let mut ends = Vec::new(alloc);
    for _ in &shapes {
        ends.push(0u32)?;
    }
    let finals = placed_finals(alloc, finals, &mut ends)?;
    let own = own_places(alloc, units.as_slice(), ends.as_slice())?;
    let places = places_of_units(alloc, units.as_slice(), own.as_slice(), finals.as_slice())?;
    let units = placed_units(alloc, units, places.as_slice())?;
    Ok(Program {
        shapes,
        slots,
        depth,
        units,
        finals,
    })
}

/// The units over bits.
fn placed_units(alloc: Global, units: Vec<Unit>, places: &[Vec<u32>]) -> Result<Vec<Unit>, Memory>
    ensures { IfOk result (λ v. ArePlacedUnits (map items_of places.now) 0 units.items v.items) }
{
    let mut over = Vec::new(alloc);
    for unit in units {
        let mut unit = unit;
        place_unit(&mut unit, row(places, over.len()));
        over.push(unit)?;
    }
    Ok(over)
}

/// Moves the fields of the unit's instructions to their bits.
fn place_unit(unit: &mut Unit, places: &[u32])
    ensures { IsPlacedUnit places.now unit.old unit.new }
{
    place_code(unit.code.as_mut_slice(), places);
}

fn place_code(code: &mut [Instr], places: &[u32])
    ensures { AllZip (IsMoved places.now) code.old code.new }
{
    for instr in code.iter_mut() {
        instr.move_fields(places);
    }
}
