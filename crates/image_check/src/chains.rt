//! The units to which chains of calls lead.

ghost use Rattle.std.specs.Prelude.{ℕ, ◌≡◌, ◌≢◌, ◌↔◌, ◌<◌, ◌≤◌, ◌+◌, ◌⊎◌, IsTrue, IfOk, length, false};
ghost use Rattle.image_check.specs.Calls.{Chain, IsReached, IsBehind, AreMadeBy, AreMarks, AreCalled, IsClosed};
ghost use Rattle.image_check.specs.Marks.{IsMarked, unmarked};

use crate::marks::{is_marked, set_mark};
use std::alloc::{AllocError, Global};

/// A call of a unit by another.
#[derive(Clone, Copy)]
pub struct Call {
    pub from: u32,
    pub to: u32,
}

/// Marks the called unit of a call whose caller has a mark. Answers whether it had none.
fn spread(marks: &mut Vec<bool>, call: Call) -> bool
    ensures same { length marks.new.items ≡ length marks.old.items }
    ensures kept { (other : ℕ) → IsMarked marks.old.items other → IsMarked marks.new.items other }
    ensures only { (other : ℕ) → IsMarked marks.new.items other → IsMarked marks.old.items other ⊎ ((call.to ≡ other) × IsMarked marks.old.items call.from) }
    ensures more { IsTrue result → unmarked marks.new.items < unmarked marks.old.items }
    ensures no_more { unmarked marks.new.items ≤ unmarked marks.old.items }
    ensures still { result ≡ false → (marks.new.items ≡ marks.old.items) × (IsMarked marks.old.items call.from → call.to < length marks.old.items → IsMarked marks.old.items call.to) }
{
    let (from, to) = (call.from as usize, call.to as usize);
    if to < marks.len() && is_marked(marks.as_slice(), from) && !is_marked(marks.as_slice(), to) {
        set_mark(marks, to);
        return true;
    }
    false
}

/// Marks the called units of all calls whose callers have a mark. Answers whether one had none.
fn spread_each(marks: &mut Vec<bool>, calls: &[Call]) -> bool
    ensures same { length marks.new.items ≡ length marks.old.items }
    ensures kept { (other : ℕ) → IsMarked marks.old.items other → IsMarked marks.new.items other }
    ensures only { (other : ℕ) → IsMarked marks.new.items other → IsReached calls.now marks.old.items other }
    ensures more { IsTrue result → unmarked marks.new.items < unmarked marks.old.items }
    ensures still { result ≡ false → IsClosed calls.now marks.new.items }
{
    let mut spreads = false;
    for call in calls {
        if spread(marks, *call) {
            spreads = true;
        }
    }
    spreads
}

/// Marks all units to which chains of calls lead from one with a mark.
fn spread_all(marks: &mut Vec<bool>, calls: &[Call])
    ensures same { length marks.new.items ≡ length marks.old.items }
    ensures kept { (other : ℕ) → IsMarked marks.old.items other → IsMarked marks.new.items other }
    ensures only { (other : ℕ) → IsMarked marks.new.items other → IsReached calls.now marks.old.items other }
    ensures closed { IsClosed calls.now marks.new.items }
{
    'rounds: while spread_each(marks, calls) {}
}

/// The units to which chains of calls lead from one.
pub fn reached_from(
    alloc: Global,
    calls: &[Call],
    units: usize,
    start: u32,
) -> Result<Vec<bool>, AllocError>
    requires { AreMadeBy units calls.now }
    ensures { IfOk result (λ marks. AreMarks units marks.items (λ unit. (count : ℕ) × Chain calls.now count start unit)) }
{
    let mut marks = vec![in alloc; false; units]?;
    set_mark(&mut marks, start as usize);
    spread_all(&mut marks, calls);
    Ok(marks)
}

/// The units that one with a mark calls.
fn called_units(alloc: Global, calls: &[Call], marks: &[bool]) -> Result<Vec<bool>, AllocError>
    ensures { IfOk result (λ next. (length next.items ≡ length marks.now) × AreCalled calls.now marks.now next.items) }
{
    let mut next = vec![in alloc; false; marks.len()]?;
    for call in calls {
        if is_marked(marks, call.from as usize) {
            set_mark(&mut next, call.to as usize);
        }
    }
    Ok(next)
}

fn are_equal(marks: &[bool], others: &[bool]) -> bool
    ensures { IsTrue result ↔ (marks.now ≡ others.now) }
{
    marks == others
}

/// The units to which chains of so many calls lead from one with a mark.
pub fn after_calls(
    alloc: Global,
    calls: &[Call],
    start: Vec<bool>,
    rounds: usize,
) -> Result<Vec<bool>, AllocError>
    requires { AreMadeBy (length start.items) calls.now }
    ensures { IfOk result (λ marks. AreMarks (length start.items) marks.items (IsBehind calls.now start.items rounds)) }
{
    let mut marks = start;
    for done in 0..rounds {
        let next = called_units(alloc, calls, marks.as_slice())?;
        if are_equal(next.as_slice(), marks.as_slice()) {
            return Ok(marks);
        }
        marks = next;
    }
    Ok(marks)
}
