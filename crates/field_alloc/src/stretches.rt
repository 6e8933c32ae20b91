//! The stretches of the jumps back, and the spans that take in those that they meet.

ghost use Rattle.std.specs.Prelude.{◌≡◌, ℕ, ◌<◌, ◌≤◌, IfOk, length, OnOk, Some, true};
ghost use Rattle.std.specs.List.{slice_index};
ghost use Rattle.paris_code.specs.Spans.{JumpsTo};
ghost use Rattle.field_alloc.specs.Lasting.{AreBehindEnds, AreEndFlags, HasSpan, IsClosed, IsUncut};
ghost use Rattle.field_alloc.specs.Lent.{HasFlag};

use crate::lent::flag_at;
use crate::spans::Span;
use cstar_base::Memory;
use paris_code::Instr;
use std::alloc::Global;

/// Appends the stretch of the jump, if it is one that does not lead forward.
pub fn note_stretch(instr: &Instr, at: u32, loops: &mut Vec<Span>) -> Result<(), Memory>
    ensures kept { OnOk result ((first last : ℕ) → HasSpan loops.old.items first last → HasSpan loops.new.items first last) }
    ensures noted { OnOk result ((place : ℕ) → JumpsTo instr.now place → place ≤ at → HasSpan loops.new.items place at) }
{
    if let Some(target) = instr.target() {
        if target <= at {
            loops.push(Span {
                first: target,
                last: at,
            })?;
        }
    }
    Ok(())
}

/// For each of so many instructions, the number of the one behind the last, up to it, at which a
/// stretch begins or ends; 0 where none does.
pub fn behind_ends(alloc: Global, length: usize, loops: &[Span]) -> Result<Vec<usize>, Memory>
    ensures { IfOk result (λ v. AreBehindEnds loops.now v.items) }
{
    let ends = end_flags(alloc, length, loops)?;
    let mut behind = Vec::new(alloc);
    let mut last = 0;
    for at in 0..ends.len() {
        if flag_at(ends.as_slice(), at) {
            last = at + 1;
        }
        behind.push(last)?;
    }
    Ok(behind)
}

/// For each of so many instructions, whether a stretch begins or ends at it.
fn end_flags(alloc: Global, length: usize, loops: &[Span]) -> Result<Vec<bool>, Memory>
    ensures { IfOk result (λ v. AreEndFlags loops.now v.items) }
{
    let mut ends = vec![in alloc; false; length]?;
    for stretch in loops {
        set_flag(&mut ends, stretch.first as usize);
        set_flag(&mut ends, stretch.last as usize);
    }
    Ok(ends)
}

fn set_flag(flags: &mut Vec<bool>, at: usize)
    ensures length { length flags.new.items ≡ length flags.old.items }
    ensures kept { (other : ℕ) → HasFlag flags.old.items other → HasFlag flags.new.items other }
    ensures flagged { at < length flags.old.items → HasFlag flags.new.items at }
{
    if at < flags.len() {
        flags[at] = true;
    }
}

/// Whether no stretch begins or ends in the span, so that each one that meets it contains it.
pub fn is_straight(span: Span, behind: &[usize]) -> bool
    ensures { result ≡ true → (span.last < length behind.now) × (slice_index behind.now span.last ≤ span.first) }
{
    match behind.get(span.last as usize) {
        Some(end) => *end <= span.first as usize,
        None => false,
    }
}

/// The span with each loop's stretch that it meets, unless it lies inside that stretch.
pub fn lasting(span: Span, loops: &[Span]) -> Span
    ensures first { result.first ≤ span.first }
    ensures last { span.last ≤ result.last }
    ensures closed { IsClosed loops.now result }
{
    let mut wide = span;
    let mut next = wider(wide, loops);
    'more: while next.first < wide.first || wide.last < next.last {
        wide = next;
        next = wider(wide, loops);
    }
    wide
}

/// The span with the stretches that cut it, and no wider where none does.
fn wider(span: Span, loops: &[Span]) -> Span
    ensures first { result.first ≤ span.first }
    ensures last { span.last ≤ result.last }
    ensures closed { span.first ≤ result.first → result.last ≤ span.last → IsClosed loops.now span }
{
    let mut wide = span;
    for stretch in loops {
        wide = joined(wide, *stretch);
    }
    wide
}

/// The span with the stretch, if it meets the stretch and does not lie inside it.
fn joined(span: Span, stretch: Span) -> Span
    ensures first { result.first ≤ span.first }
    ensures last { span.last ≤ result.last }
    ensures uncut { span.first ≤ result.first → result.last ≤ span.last → IsUncut stretch span }
{
    let meets = stretch.first <= span.last && span.first <= stretch.last;
    let inside = stretch.first <= span.first && span.last <= stretch.last;
    if meets && !inside {
        Span {
            first: span.first.min(stretch.first),
            last: span.last.max(stretch.last),
        }
    } else {
        span
    }
}
