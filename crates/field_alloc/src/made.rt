//! Which entries are made where they are first named, and named again.

ghost use Rattle.std.specs.Prelude.{◌≡◌, ℕ, IfOk, None, true};
ghost use Rattle.std.specs.List.{slice_index_or};
ghost use Rattle.paris_code.specs.Spans.{fields_of};
ghost use Rattle.field_alloc.specs.Lent.{HasFlag};
ghost use Rattle.field_alloc.specs.Made.{IsFirstWritten, WritesOnly, made_by};

use crate::fields::named;
use crate::spans::Span;
use cstar_base::Memory;
use paris_code::{Field, Instr, Unit};
use std::alloc::Global;

/// The field that an instruction of the phases gives its results, whatever stands there before. What
/// is stored into is not: a send and a write to one processor leave all other positions as they are.
fn made_by(instr: &Instr) -> Option<Field>
    ensures { result ≡ made_by instr.now }
{
    match instr {
        Instr::Move { dest, .. }
        | Instr::MoveConstant { dest, .. }
        | Instr::MoveZeroAlways { dest }
        | Instr::MoveAlways { dest, .. }
        | Instr::MyNewsCoordinate { dest, .. }
        | Instr::MakeAddress { dest, .. }
        | Instr::Operate { dest, .. }
        | Instr::OperateConstant { dest, .. }
        | Instr::Negate { dest, .. }
        | Instr::Lognot { dest, .. }
        | Instr::StoreTest { dest }
        | Instr::StoreContext { dest }
        | Instr::GetFromNews { dest, .. }
        | Instr::GetFromNewsAlways { dest, .. }
        | Instr::Get { dest, .. }
        | Instr::Scan { dest, .. } => Some(*dest),
        _ => None,
    }
}

/// Whether an instruction, which names these fields, writes the entry and reads it nowhere.
fn writes_only(instr: &Instr, fields: &[Field], entry: usize) -> bool
    requires { fields.now ≡ fields_of instr.now }
    ensures { result ≡ true → WritesOnly instr.now entry }
{
    let (Some(dest), Some((first, rest))) = (made_by(instr), fields.split_first()) else {
        return false;
    };
    *first == dest
        && dest.offset as usize == entry
        && rest.iter().all(|field| field.offset as usize != entry)
}

/// For each entry, whether the instruction that first names it writes it and reads it nowhere, and a
/// later one names it again.
pub fn made_entries(alloc: Global, unit: &Unit, spans: &[Option<Span>]) -> Result<Vec<bool>, Memory>
    ensures { IfOk result (λ made. (entry : ℕ) → HasFlag made.items entry → IsFirstWritten unit.now (slice_index_or spans.now entry None) entry) }
{
    let mut made = Vec::new(alloc);
    let mut fields = Vec::new(alloc);
    for span in spans {
        let flag = is_first_written(unit, *span, made.len(), &mut fields)?;
        made.push(flag)?;
    }
    Ok(made)
}

/// Whether the first instruction of the span of an entry writes it and reads it nowhere, and is not
/// the last. `fields` is room for what the instruction names.
fn is_first_written(
    unit: &Unit,
    span: Option<Span>,
    entry: usize,
    fields: &mut Vec<Field>,
) -> Result<bool, Memory>
    ensures { IfOk result (λ flag. flag ≡ true → IsFirstWritten unit.now span entry) }
{
    let Some(span) = span else {
        return Ok(false);
    };
    if span.last <= span.first {
        return Ok(false);
    }
    let Some(instr) = unit.code.get(span.first as usize) else {
        return Ok(false);
    };
    fields.clear();
    named(instr, fields)?;
    Ok(writes_only(instr, fields.as_slice(), entry))
}
