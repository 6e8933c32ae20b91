//! Where the bits of each unit begin: behind those of the file, and behind those of every chain of
//! units that leads to it by calls.

ghost use Rattle.std.specs.Prelude.{ℕ, ◌<◌, ◌≤◌, IfOk, length};
ghost use Rattle.std.specs.List.{slice_index};

use crate::places::number_at;
use cstar_base::Memory;
use paris_code::{Instr, Unit};
use std::alloc::Global;

/// For each unit and set, the number at `unit * sets + set`: where the unit's bits begin, counted
/// from the end of the file's fields.
#[derive(Drop)]
pub struct Bases {
    pub sets: usize,
    pub list: Vec<u32>,
}

impl Bases {
    fn at(&self, unit: usize, set: usize) -> u32 {
        number_at(self.list.as_slice(), self.number(unit, set))
    }

    fn number(&self, unit: usize, set: usize) -> usize {
        unit.saturating_mul(self.sets).saturating_add(set)
    }

    /// Where the unit's bits of each set begin: behind the file's fields, which end there.
    pub fn row(&self, alloc: Global, unit: usize, files: &[u32]) -> Result<Vec<u32>, Memory>
        ensures { IfOk result (λ v. (set : ℕ) → set < length files.now → slice_index files.now set ≤ slice_index v.items set) }
    {
        let mut row = Vec::new(alloc);
        for end in files {
            let Some(base) = self.at(unit, row.len()).checked_add(*end) else {
                return Err(Memory);
            };
            row.push(base)?;
        }
        Ok(row)
    }

    /// No lower than this.
    fn raise(&mut self, unit: usize, set: usize, base: u32) {
        let number = self.number(unit, set);
        if number < self.list.len() && set < self.sets {
            if self.list[number] < base {
                self.list[number] = base;
            }
        }
    }
}

/// The bases of all units, whose own bits reach up to `tops`. Each unit comes once all its callers
/// have, so those on a cycle of calls get none. There is no clause here: `are_all_behind` verifies
/// the bases, and its clause is what the proof of the places stands on. Out of memory also where a
/// base is 2^32 or more.
pub fn bases_of(
    alloc: Global,
    units: &[Unit],
    tops: &[Vec<u32>],
    sets: usize,
) -> Result<Bases, Memory> {
    let mut bases = Bases {
        sets,
        list: Vec::new(alloc),
    };
    for _ in units {
        for _ in 0..sets {
            bases.list.push(0)?;
        }
    }
    let mut callers = count_callers(alloc, units)?;
    let mut ready = Vec::new(alloc);
    for (number, calls) in callers.iter().enumerate() {
        if *calls == 0 {
            ready.push(number)?;
        }
    }
    for _ in units {
        let Some(number) = ready.pop() else {
            return Ok(bases);
        };
        if let (Some(unit), Some(tops)) = (units.get(number), tops.get(number)) {
            pass_on(
                unit,
                number,
                tops.as_slice(),
                &mut bases,
                &mut callers,
                &mut ready,
            )?;
        }
    }
    Ok(bases)
}

/// How many calls of each unit the code has.
fn count_callers(alloc: Global, units: &[Unit]) -> Result<Vec<usize>, Memory> {
    let mut callers = Vec::new(alloc);
    for _ in units {
        callers.push(0usize)?;
    }
    for unit in units {
        for instr in &unit.code {
            if let Instr::FrontCall { unit: callee } = instr {
                let callee = *callee as usize;
                if callee < callers.len() {
                    callers[callee] = callers[callee].saturating_add(1);
                }
            }
        }
    }
    Ok(callers)
}

/// Raises the bases of the units that this one calls, behind its own bits.
fn pass_on(
    unit: &Unit,
    number: usize,
    tops: &[u32],
    bases: &mut Bases,
    callers: &mut Vec<usize>,
    ready: &mut Vec<usize>,
) -> Result<(), Memory> {
    for instr in &unit.code {
        if let Instr::FrontCall { unit: callee } = instr {
            let callee = *callee as usize;
            if callee < callers.len() {
                lift(number, callee, tops, bases)?;
                callers[callee] = callers[callee].saturating_sub(1);
                if callers[callee] == 0 {
                    ready.push(callee)?;
                }
            }
        }
    }
    Ok(())
}

/// The called unit's bits begin no lower than where the caller's end, in each set.
fn lift(caller: usize, callee: usize, tops: &[u32], bases: &mut Bases) -> Result<(), Memory> {
    for (set, end) in tops.iter().enumerate() {
        let Some(base) = bases.at(caller, set).checked_add(*end) else {
            return Err(Memory);
        };
        bases.raise(callee, set, base);
    }
    Ok(())
}
