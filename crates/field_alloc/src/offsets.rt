//! Where the entries of one unit stand, counted from where the unit's own bits begin: each behind
//! the earlier ones of its set whose spans meet its own.

ghost use Rattle.std.specs.Prelude.{◌≡◌, ℕ, ◌+◌, ◌-◌, ◌^◌, ◌<◌, ◌≤◌, List, length, IfOk, OnOk};
ghost use Rattle.std.specs.List.{slice_index};
ghost use Rattle.field_alloc.specs.Named.{AreUnitApart, IsInUseAt, IsUnitUnder};
ghost use Rattle.field_alloc.specs.Sweep.{AreBelow, AreHeights, AreStacked, Holds, IsSwept, KeepsOthers};

use crate::places::number_at;
use crate::spans::{Span, spans_of};
use cstar_base::Memory;
use paris_code::{Owner, Unit, Virtual};
use std::alloc::Global;

/// The offsets of a unit's own entries, and for each set the greatest end.
#[derive(Drop)]
pub struct Offsets {
    pub starts: Vec<u32>,
    pub ends: Vec<u32>,
}

/// The offsets of a unit's entries in so many sets. An entry that another unit names, as `lent`
/// says, lasts through the whole unit.
pub fn offsets_of(alloc: Global, unit: &Unit, lent: &[bool], sets: usize) -> Result<Offsets, Memory>
    ensures apart { IfOk result (λ o. AreUnitApart unit.now (IsInUseAt unit.now lent.now) sets o.starts.items) }
    ensures under { IfOk result (λ o. IsUnitUnder unit.now (IsInUseAt unit.now lent.now) sets o.starts.items o.ends.items) }
{
    let spans = spans_of(alloc, unit, lent)?;
    let Ok(length) = u32::try_from(unit.code.len()) else {
        return Err(Memory);
    };
    let mut starts = Vec::new(alloc);
    for _ in &unit.fields {
        starts.push(0)?;
    }
    let mut ends = Vec::new(alloc);
    let mut heights = Vec::new(alloc);
    for set in 0..sets {
        let end = place_set(
            unit.fields.as_slice(),
            spans.as_slice(),
            length,
            set,
            &mut heights,
            &mut starts,
        )?;
        ends.push(end)?;
    }
    Ok(Offsets { starts, ends })
}

/// Places the entries of one set, and answers the greatest end. `heights` is room for the end of
/// what stands at each instruction.
fn place_set(
    fields: &[Virtual],
    spans: &[Option<Span>],
    size: u32,
    set: usize,
    heights: &mut Vec<u32>,
    starts: &mut Vec<u32>,
) -> Result<u32, Memory>
    requires spans { length spans.now ≡ length fields.now }
    requires starts { length starts.old.items ≡ length fields.now }
    ensures length { OnOk result (length starts.new.items ≡ length starts.old.items) }
    ensures others { OnOk result (KeepsOthers fields.now set starts.old.items starts.new.items) }
    ensures stacked { OnOk result (AreStacked fields.now spans.now size set (length fields.now) starts.new.items) }
    ensures below { IfOk result (λ top. AreBelow fields.now spans.now set (length fields.now) starts.new.items top) }
{
    heights.clear();
    let mut greatest = 0u32;
    for number in 0..fields.len() {
        let end = place_entry(fields, spans, size, set, number, heights, starts)?;
        greatest = greatest.max(end);
    }
    Ok(greatest)
}

/// Places one entry, if it is an own one of the set and in use, and answers its end.
fn place_entry(
    fields: &[Virtual],
    spans: &[Option<Span>],
    size: u32,
    set: usize,
    number: usize,
    heights: &mut Vec<u32>,
    starts: &mut Vec<u32>,
) -> Result<u32, Memory>
    requires number { number < length fields.now }
    requires spans { length spans.now ≡ length fields.now }
    requires starts { length starts.old.items ≡ length fields.now }
    requires heights { AreHeights size heights.old.items }
    ensures swept { (before : List ℕ) → IsSwept fields.now spans.now size set number before starts.old.items heights.old.items → OnOk result (IsSwept fields.now spans.now size set (number + 1) before starts.new.items heights.new.items) }
    ensures below { IfOk result (λ end. (top : ℕ) → end ≤ top → AreBelow fields.now spans.now set number starts.old.items top → AreBelow fields.now spans.now set (number + 1) starts.new.items top) }
{
    let entry = fields[number];
    let Owner::Own = entry.owner else {
        return Ok(0);
    };
    if entry.set as usize != set {
        return Ok(0);
    }
    let Some(span) = spans[number] else {
        return Ok(0);
    };
    make_room(heights, size)?;
    let start = highest(heights.as_slice(), span);
    let Some(end) = start.checked_add(u32::from(entry.len)) else {
        return Err(Memory);
    };
    raise(heights, span, end);
    starts[number] = start;
    Ok(end)
}

/// A height for each instruction.
fn make_room(heights: &mut Vec<u32>, size: u32) -> Result<(), Memory>
    requires { AreHeights size heights.old.items }
    ensures length { OnOk result (length heights.new.items ≡ size) }
    ensures risen { OnOk result ((at : ℕ) → slice_index heights.old.items at ≤ slice_index heights.new.items at) }
{
    if heights.len() != size as usize {
        heights.clear();
        'more: while heights.len() < size as usize {
            heights.push(0)?;
        }
    }
    Ok(())
}

/// The greatest height in the span.
fn highest(heights: &[u32], span: Span) -> u32
    ensures { (at : ℕ) → at < 2 ^ 32 - 1 → Holds span at → slice_index heights.now at ≤ result }
{
    let mut most = 0;
    for at in span.first..span.last.saturating_add(1) {
        most = most.max(number_at(heights, at as usize));
    }
    most
}

/// The heights in the span are no lower than this.
fn raise(heights: &mut Vec<u32>, span: Span, end: u32)
    ensures length { length heights.new.items ≡ length heights.old.items }
    ensures risen { (at : ℕ) → slice_index heights.old.items at ≤ slice_index heights.new.items at }
    ensures raised { (at : ℕ) → at < 2 ^ 32 - 1 → at < length heights.old.items → Holds span at → end ≤ slice_index heights.new.items at }
{
    for at in span.first..span.last.saturating_add(1) {
        let at = at as usize;
        if at < heights.len() {
            heights[at] = heights[at].max(end);
        }
    }
}
