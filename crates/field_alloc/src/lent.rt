//! Which entries are lent: an entry of some unit stands for them.

ghost use Rattle.std.specs.Prelude.{◌≡◌, [], false, IfOk, map};
ghost use Rattle.std.specs.List.{slice_index_or};
ghost use Rattle.paris_code.specs.declared.program.Owner.TheVariants as O;
ghost use Rattle.field_alloc.specs.Lent.{AreLentFlags, AreMarked, AreUnmarked, StandFor, flags_of};

use cstar_base::Memory;
use paris_code::{Owner, Unit, Virtual};
use std::alloc::Global;

/// For each unit and entry, whether an entry of some unit stands for it. Out of memory where the
/// flags find no room.
pub fn lent_entries(alloc: Global, units: &[Unit]) -> Result<Vec<Vec<bool>>, Memory>
    ensures { IfOk result (λ v. AreLentFlags units.now (map flags_of v.items)) }
{
    let mut flags = no_flags(alloc, units)?;
    for unit in units {
        mark_all(unit.fields.as_slice(), &mut flags);
    }
    Ok(flags)
}

/// For each unit and entry, a flag that is not set.
fn no_flags(alloc: Global, units: &[Unit]) -> Result<Vec<Vec<bool>>, Memory>
    ensures { IfOk result (λ v. AreUnmarked units.now (map flags_of v.items)) }
{
    let mut flags = Vec::new(alloc);
    for unit in units {
        let none = vec![in alloc; false; unit.fields.len()]?;
        flags.push(none)?;
    }
    Ok(flags)
}

/// Sets the flags of the entries that these stand for.
fn mark_all(entries: &[Virtual], flags: &mut Vec<Vec<bool>>)
    ensures { AreMarked (StandFor entries.now) (map flags_of flags.old.items) (map flags_of flags.new.items) }
{
    for entry in entries {
        mark_owner(entry.owner, flags);
    }
}

/// Sets the flag of the entry that one with this owner stands for, if it stands for one.
fn mark_owner(owner: Owner, flags: &mut Vec<Vec<bool>>)
    ensures { AreMarked (λ n e. owner ≡ O.Of n e) (map flags_of flags.old.items) (map flags_of flags.new.items) }
{
    if let Owner::Of { unit, index } = owner {
        mark(flags, unit as usize, index as usize);
    }
}

/// Sets the flag of one entry, if there is one.
fn mark(flags: &mut Vec<Vec<bool>>, number: usize, entry: usize)
    ensures { AreMarked (λ n e. (n ≡ number) × (e ≡ entry)) (map flags_of flags.old.items) (map flags_of flags.new.items) }
{
    if number < flags.len() {
        let row = &mut flags[number];
        if entry < row.len() {
            row[entry] = true;
        }
    }
}

/// The flags of one unit, or none behind the last.
pub fn flags_at(flags: &[Vec<bool>], number: usize) -> &[bool]
    ensures { result.now ≡ slice_index_or (map flags_of flags.now) number [] }
{
    match flags.get(number) {
        Some(row) => row.as_slice(),
        None => &[],
    }
}

/// Whether the flag of this number is set; not behind the last.
pub fn flag_at(flags: &[bool], number: usize) -> bool
    ensures { result ≡ slice_index_or flags.now number false }
{
    match flags.get(number) {
        Some(flag) => *flag,
        None => false,
    }
}
