//! The bits of the file's fields.

ghost use Rattle.std.specs.Prelude.{◌≡◌, ◌≢◌, ℕ, ◌+◌, ◌<◌, IfOk, length, OnOk};
ghost use Rattle.std.specs.List.{AllZip, slice_index};
ghost use Rattle.field_alloc.specs.Files.{AreFilesStacked, AreFilesUnder};
ghost use Rattle.field_alloc.specs.Placed.{IsPlacedFinal};

use cstar_base::Memory;
use paris_code::{Field, Final};
use std::alloc::Global;

/// The finals over bits: in each set one behind the other, from where `ends` says on. Then `ends`
/// says where the last ones end.
pub fn placed_finals(
    alloc: Global,
    finals: Vec<Final>,
    ends: &mut Vec<u32>,
) -> Result<Vec<Final>, Memory>
    ensures kept { IfOk result (λ v. AllZip IsPlacedFinal finals.items v.items) }
    ensures length { OnOk result (length ends.new.items ≡ length ends.old.items) }
    ensures under { IfOk result (λ v. AreFilesUnder v.items ends.new.items) }
    ensures stacked { IfOk result (λ v. AreFilesStacked (length ends.new.items) v.items) }
{
    let mut over = Vec::new(alloc);
    for last in finals {
        let offset = take_bits(ends, last.field)?;
        over.push(moved_final(last, offset))?;
    }
    Ok(over)
}

/// The next free bits of a file's field, which are then taken.
fn take_bits(ends: &mut Vec<u32>, field: Field) -> Result<u32, Memory>
    ensures length { length ends.new.items ≡ length ends.old.items }
    ensures taken { IfOk result (λ offset. field.set < length ends.old.items → (offset ≡ slice_index ends.old.items field.set) × (slice_index ends.new.items field.set ≡ offset + field.len)) }
    ensures others { (set : ℕ) → set ≢ field.set → slice_index ends.new.items set ≡ slice_index ends.old.items set }
{
    let set = field.set as usize;
    if set >= ends.len() {
        return Ok(0);
    }
    let offset = ends[set];
    let Some(end) = offset.checked_add(u32::from(field.len)) else {
        return Err(Memory);
    };
    ends[set] = end;
    Ok(offset)
}

fn moved_final(last: Final, offset: u32) -> Final
    ensures kept { IsPlacedFinal last result }
    ensures offset { result.field.offset ≡ offset }
{
    let Final { name, elem, field } = last;
    Final {
        name,
        elem,
        field: Field {
            set: field.set,
            offset,
            len: field.len,
        },
    }
}
