//! The bits of each unit's own entries.

ghost use Rattle.std.specs.Prelude.{◌≡◌, IfOk, length, map, true};
ghost use Rattle.field_alloc.specs.Named.{AreAllAbove, AreAllApart, AreAllBehind, AreAllUnder, AreCallsBehind, AreLifted, AreStackedUnits, IsBehind};
ghost use Rattle.field_alloc.specs.Lent.{AreLentFlags, flags_of};
ghost use Rattle.field_alloc.specs.Places.{items_of};

use crate::chains::bases_of;
use crate::lent::{flags_at, lent_entries};
use crate::offsets::offsets_of;
use crate::places::{number_at, row};
use cstar_base::Memory;
use paris_code::{Instr, Unit, Virtual};
use std::alloc::Global;

/// For each unit, the bits at which its own entries begin. What `ends` says of each set is taken. Out
/// of memory also where a bit would be 2^32 or more, and where a unit whose own entries have bits calls
/// itself through others, which none of a compiled program does.
pub fn own_places(alloc: Global, units: &[Unit], ends: &[u32]) -> Result<Vec<Vec<u32>>, Memory>
    ensures apart { IfOk result (λ v. AreAllApart units.now (length ends.now) (map items_of v.items)) }
    ensures above { IfOk result (λ v. AreAllAbove units.now ends.now (map items_of v.items)) }
    ensures stacked { IfOk result (λ v. AreStackedUnits units.now (length ends.now) (map items_of v.items)) }
{
    let lent = lent_entries(alloc, units)?;
    let mut tops = Vec::new(alloc);
    let starts = starts_of_units(alloc, units, lent.as_slice(), ends.len(), &mut tops)?;
    let lowest = bases_of(alloc, units, tops.as_slice(), ends.len())?;
    let mut bases = Vec::new(alloc);
    let mut places = Vec::new(alloc);
    for unit in units {
        let number = places.len();
        let base = lowest.row(alloc, number, ends)?;
        let own = lifted(
            alloc,
            unit.fields.as_slice(),
            base.as_slice(),
            row(starts.as_slice(), number),
        )?;
        places.push(own)?;
        bases.push(base)?;
    }
    if are_all_behind(units, bases.as_slice(), tops.as_slice(), ends.len()) {
        Ok(places)
    } else {
        Err(Memory)
    }
}

/// For each unit, where its own entries begin, counted from where its own bits do; their greatest
/// ends are put into `tops`. Those that `lent` says are lent last through their unit.
fn starts_of_units(
    alloc: Global,
    units: &[Unit],
    lent: &[Vec<bool>],
    sets: usize,
    tops: &mut Vec<Vec<u32>>,
) -> Result<Vec<Vec<u32>>, Memory>
    requires lent { AreLentFlags units.now (map flags_of lent.now) }
    requires tops { length tops.old.items ≡ 0 }
    ensures apart { IfOk result (λ v. AreAllApart units.now sets (map items_of v.items)) }
    ensures under { IfOk result (λ v. AreAllUnder units.now sets (map items_of v.items) (map items_of tops.new.items)) }
{
    let mut starts = Vec::new(alloc);
    for unit in units {
        let own = offsets_of(alloc, unit, flags_at(lent, starts.len()), sets)?;
        starts.push(own.starts)?;
        tops.push(own.ends)?;
    }
    Ok(starts)
}

/// The bits at which a unit's entries begin: by the starts, behind where its bits of each set do.
fn lifted(
    alloc: Global,
    entries: &[Virtual],
    base: &[u32],
    starts: &[u32],
) -> Result<Vec<u32>, Memory>
    ensures { IfOk result (λ v. AreLifted entries.now base.now starts.now v.items) }
{
    let mut places = Vec::new(alloc);
    for entry in entries {
        let start = number_at(starts, places.len());
        let Some(place) = number_at(base, entry.set as usize).checked_add(start) else {
            return Err(Memory);
        };
        places.push(place)?;
    }
    Ok(places)
}

/// Whether the bits of each unit begin behind those of all units that call it.
fn are_all_behind(units: &[Unit], bases: &[Vec<u32>], tops: &[Vec<u32>], sets: usize) -> bool
    ensures { result ≡ true → AreAllBehind units.now sets (map items_of bases.now) (map items_of tops.now) }
{
    let mut number = 0;
    for unit in units {
        if !are_calls_behind(
            unit.code.as_slice(),
            row(bases, number),
            row(tops, number),
            bases,
            sets,
        ) {
            return false;
        }
        number += 1;
    }
    true
}

/// Whether the bits of each unit that the code calls begin behind the tops above the base.
fn are_calls_behind(
    code: &[Instr],
    base: &[u32],
    tops: &[u32],
    bases: &[Vec<u32>],
    sets: usize,
) -> bool
    ensures { result ≡ true → AreCallsBehind code.now sets base.now tops.now (map items_of bases.now) }
{
    for instr in code {
        if let Instr::FrontCall { unit } = instr {
            if !is_behind(base, tops, row(bases, *unit as usize), sets) {
                return false;
            }
        }
    }
    true
}

fn is_behind(base: &[u32], tops: &[u32], called: &[u32], sets: usize) -> bool
    ensures { result ≡ true → IsBehind sets base.now tops.now called.now }
{
    for set in 0..sets {
        match number_at(base, set).checked_add(number_at(tops, set)) {
            Some(end) if end <= number_at(called, set) => {}
            _ => return false,
        }
    }
    true
}
