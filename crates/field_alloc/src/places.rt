//! Where each entry begins: at the bits of its owner.

ghost use Rattle.std.specs.Prelude.{◌≡◌, [], IfOk, map};
ghost use Rattle.std.specs.List.{slice_index, slice_index_or};
ghost use Rattle.field_alloc.specs.Places.{begin_of, entries_from, items_of, units_from};

use cstar_base::Memory;
use paris_code::{Final, Owner, Unit, Virtual};
use std::alloc::Global;

/// For each unit, the bits at which its entries begin.
pub fn places_of_units(
    alloc: Global,
    units: &[Unit],
    own: &[Vec<u32>],
    finals: &[Final],
) -> Result<Vec<Vec<u32>>, Memory>
    ensures { IfOk result (λ v. map items_of v.items ≡ units_from finals.now (map items_of own.now) 0 units.now) }
{
    let mut places = Vec::new(alloc);
    for unit in units {
        let entries = places_of(alloc, unit.fields.as_slice(), places.len(), own, finals)?;
        places.push(entries)?;
    }
    Ok(places)
}

/// The bits at which the entries of a unit begin.
fn places_of(
    alloc: Global,
    entries: &[Virtual],
    number: usize,
    own: &[Vec<u32>],
    finals: &[Final],
) -> Result<Vec<u32>, Memory>
    ensures { IfOk result (λ v. v.items ≡ entries_from finals.now (map items_of own.now) number 0 entries.now) }
{
    let mut places = Vec::new(alloc);
    for entry in entries {
        let place = place_of(entry.owner, number, places.len(), own, finals);
        places.push(place)?;
    }
    Ok(places)
}

/// The bit at which an entry of this owner begins.
fn place_of(owner: Owner, number: usize, entry: usize, own: &[Vec<u32>], finals: &[Final]) -> u32
    ensures { result ≡ begin_of finals.now (map items_of own.now) number entry owner }
{
    match owner {
        Owner::File(file) => match finals.get(file as usize) {
            Some(last) => last.field.offset,
            None => 0,
        },
        Owner::Own => number_at(row(own, number), entry),
        Owner::Of { unit, index } => number_at(row(own, unit as usize), index as usize),
    }
}

/// The number at an index, or 0 behind the last.
pub fn number_at(numbers: &[u32], index: usize) -> u32
    ensures { result ≡ slice_index numbers.now index }
{
    match numbers.get(index) {
        Some(number) => *number,
        None => 0,
    }
}

/// The numbers of one row, or none behind the last.
pub fn row(rows: &[Vec<u32>], number: usize) -> &[u32]
    ensures { result.now ≡ slice_index_or (map items_of rows.now) number [] }
{
    match rows.get(number) {
        Some(row) => row.as_slice(),
        None => &[],
    }
}
