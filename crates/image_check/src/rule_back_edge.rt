//! Image rule 4: each way back, and each call, costs a turn.

ghost use Rattle.std.specs.Prelude.{ℕ, ◌≡◌, ◌≢◌, ◌↔◌, ◌<◌, ◌≤◌, ◌+◌, IsTrue, length, MatchOption, IfOk};
ghost use Rattle.paris_code.specs.Units.{unit_of, IsAt};
ghost use Rattle.paris_code.specs.RuleBackEdge.{IsNoJumpTo, IsNoTarget, IsBehindTurn, GoesBackToTurn, KeepsBackEdge};
ghost use Rattle.image_check.specs.Tables.{AreUnitNumbers, MarksTargets};
ghost use Rattle.image_check.specs.Marks.{IsMarked};

use crate::marks::{is_marked, set_mark};
use crate::units::instruction;
use paris_code::{Image, Instr};
use std::alloc::{AllocError, Global};

/// Marks the target of the instruction, if it is a jump.
fn mark(marks: &mut Vec<bool>, instr: &Instr)
    ensures same { length marks.new.items ≡ length marks.old.items }
    ensures marked { (place : ℕ) → place < length marks.old.items → (¬ IsMarked marks.new.items place) ↔ ((¬ IsMarked marks.old.items place) × IsNoJumpTo place instr.now) }
{
    match instr.target() {
        Some(target) => set_mark(marks, target as usize),
        None => {}
    }
}

/// Which places are the target of a jump.
pub fn jump_targets(alloc: Global, image: &Image) -> Result<Vec<bool>, AllocError>
    ensures { IfOk result (λ v. (length v.items ≡ length image.now.code.items) × MarksTargets image.now.code.items (length image.now.code.items) v.items) }
{
    let mut marks = vec![in alloc; false; image.code.len()]?;
    for place in 0..image.code.len() {
        mark(&mut marks, instruction(image, place));
    }
    Ok(marks)
}

fn is_front_turn(instr: &Instr) -> bool
    ensures { IsTrue result ↔ (instr.now ≡ Instr.FrontTurn) }
{
    matches!(instr, Instr::FrontTurn)
}

fn is_turn(image: &Image, place: usize) -> bool
    ensures { IsTrue result ↔ IsAt image.now place Instr.FrontTurn }
{
    place < image.code.len() && is_front_turn(instruction(image, place))
}

fn goes_back_to_turn(image: &Image, place: usize, target: usize) -> bool
    ensures { IsTrue result ↔ GoesBackToTurn image.now place target }
{
    target > place || is_turn(image, target)
}

/// Whether the place `before` the other is a turn of the same unit.
fn is_turn_before(image: &Image, numbers: &[u32], before: usize, place: usize) -> bool
    requires numbered { AreUnitNumbers image.now numbers.now }
    requires inside { place < length numbers.now }
    requires before { before < length numbers.now }
    ensures { IsTrue result ↔ (IsAt image.now before Instr.FrontTurn × (unit_of image.now before ≡ unit_of image.now place)) }
{
    is_turn(image, before) && numbers[before] == numbers[place]
}

fn is_behind_turn(image: &Image, numbers: &[u32], place: usize) -> bool
    requires numbered { AreUnitNumbers image.now numbers.now }
    requires inside { place < length numbers.now }
    ensures { IsTrue result ↔ IsBehindTurn image.now place }
{
    if place == 0 {
        return false;
    }
    is_turn_before(image, numbers, place - 1, place)
}

/// Whether no jump leads to a place.
fn is_no_target(image: &Image, marks: &[bool], place: usize) -> bool
    requires marked { MarksTargets image.now.code.items (length image.now.code.items) marks.now }
    requires inside { place < length marks.now }
    ensures { IsTrue result ↔ IsNoTarget image.now place }
{
    !is_marked(marks, place)
}

/// Whether an instruction keeps image rule 4.
pub fn keeps_back_edge(
    image: &Image,
    numbers: &[u32],
    marks: &[bool],
    place: usize,
    instr: &Instr,
) -> bool
    requires numbered { AreUnitNumbers image.now numbers.now }
    requires marked { MarksTargets image.now.code.items (length image.now.code.items) marks.now }
    requires inside { place < length numbers.now }
    requires marks { place < length marks.now }
    ensures { IsTrue result ↔ KeepsBackEdge image.now place instr.now }
{
    match instr {
        Instr::FrontJump { target }
        | Instr::FrontJumpZero { target, .. }
        | Instr::FrontJumpNonzero { target, .. } => {
            goes_back_to_turn(image, place, *target as usize)
        }
        Instr::FrontCall { .. } => {
            is_behind_turn(image, numbers, place) && is_no_target(image, marks, place)
        }
        _ => true,
    }
}
