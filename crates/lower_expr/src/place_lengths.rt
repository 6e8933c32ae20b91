//! How many instructions reads, assignments, steps and calls have beside the code of their parts.

ghost use Rattle.std.specs.Prelude.{◌≡◌, IfOk, slice_get};
ghost use Rattle.lower_base.specs.Layouts.{layout};
ghost use Rattle.lower_expr.specs.Lengths.{step_once_length, params_length, news_move, is_checked, moves_length, news_length, read_length, elements_length, index_check_length, load_length, store_length, send_length, set_length, compound_length, assign_length, step_length, call_length};

use crate::assign::is_send;
use crate::kinds::operator_bits;
use crate::operands::{held, in_place};
use crate::operator_lengths::{conversion, operate_length, right_length, spread_by};
use crate::spots::bare;
use crate::steps::stays_scalar;
use cstar_base::{Elem, Memory, Op};
use cstar_tree::syntax::AssignOp;
use cstar_tree::typed::{TExpr, Typed, ValueType, VarInfo};
use lower_base::View;
use lower_base::emit::plus;
use lower_base::kinds::fold_length;
use lower_base::operators::assign_op;
use lower_comm::news::{NewsStep, step_of};

/// A get by NEWS.
#[tactic(auto, unfolding(crate::specs::Lengths::news_length, crate::specs::Lengths::news_moves, crate::specs::Lengths::news_checked))]
pub fn news_length(bits: u8, of: u16, elem: Elem, indexes: &[TExpr]) -> Result<u32, Memory>
    ensures { IfOk result (λ n. n ≡ news_length bits of elem indexes.now) }
{
    let mut moves = 0u32;
    let mut is_checked = false;
    for (axis, index) in indexes.iter().enumerate() {
        let step = step_of(of, axis, index);
        moves = plus(moves, news_move(step))?;
        is_checked = is_checked || news_checked(step);
    }
    plus(
        moves_length(bits, elem, moves)?,
        if is_checked { 1 } else { 0 },
    )
}

/// So many moves, and that of what was got, where the last of them does not go to its destination.
#[tactic(auto, unfolding(crate::specs::Lengths::moves_length))]
fn moves_length(bits: u8, elem: Elem, moves: u32) -> Result<u32, Memory>
    ensures { IfOk result (λ n. n ≡ moves_length bits elem moves) }
{
    if moves != 0 && elem.bits >= bits {
        Ok(moves)
    } else {
        plus(moves, 1)
    }
}

/// The move of a step along an axis.
#[tactic(auto, unfolding(crate::specs::Lengths::news_move))]
fn news_move(step: Option<NewsStep>) -> u32
    ensures { result ≡ news_move step }
{
    match step {
        Some(step) => if step.by == 0 { 0 } else { 1 },
        None => 0,
    }
}

/// Whether the step may lead out of the grid.
#[tactic(auto, unfolding(crate::specs::Lengths::is_checked))]
fn news_checked(step: Option<NewsStep>) -> bool
    ensures { result ≡ is_checked step }
{
    match step {
        Some(step) => step.checked,
        None => false,
    }
}

/// What reads a located place.
#[tactic(auto, unfolding(crate::specs::Lengths::load_length, crate::specs::Lengths::load_length_of))]
fn load_length(view: &View, bits: u8, target: &TExpr) -> Result<u32, Memory>
    ensures { IfOk result (λ n. n ≡ load_length view.now.typed.now (layout view.now.names) bits target.now) }
{
    match bare(target) {
        TExpr::Element { array, .. } => elements_length(view, view.elements(*array)),
        TExpr::LeftIndex { ty, .. } => Ok(read_length(bits, *ty)),
        _ => Ok(1),
    }
}

/// A read through a left index: of every position, or of one.
#[tactic(auto, unfolding(crate::specs::Lengths::read_length))]
pub fn read_length(bits: u8, ty: ValueType) -> u32
    ensures { result ≡ read_length bits ty }
{
    if ty.shape.is_some() && ty.elem.bits < bits {
        2
    } else {
        1
    }
}

/// What writes a located place; a send beside its own code is counted with the assignment.
#[tactic(auto, unfolding(crate::specs::Lengths::store_length, crate::specs::Lengths::store_length_of))]
fn store_length(view: &View, target: &TExpr) -> Result<u32, Memory>
    ensures { IfOk result (λ n. n ≡ store_length view.now.typed.now (layout view.now.names) target.now) }
{
    match bare(target) {
        TExpr::Element { array, .. } => elements_length(view, view.elements(*array)),
        _ => Ok(1),
    }
}

/// The elements of an array: for each its number, a test, a jump and a move.
#[tactic(auto, using(crate::proofs::Elements::one_counted, crate::proofs::Elements::none_counted))]
pub fn elements_length(view: &View, elements: u32) -> Result<u32, Memory>
    ensures { IfOk result (λ n. n ≡ elements_length (layout view.now.names) elements 0) }
{
    let mut sum = 0;
    for element in 0..elements {
        sum = plus(sum, plus(view.word_length(element)?, 3)?)?;
    }
    Ok(sum)
}

/// The range check of the index of an array with so many elements.
#[tactic(auto, unfolding(crate::specs::Lengths::index_check_length))]
pub fn index_check_length(view: &View, elements: u32) -> Result<u32, Memory>
    ensures { IfOk result (λ n. n ≡ index_check_length (layout view.now.names) elements) }
{
    plus(view.word_length(elements)?, 4)
}

/// An assignment, by the lengths of its target and of its value.
#[tactic(auto, unfolding(crate::specs::Lengths::assign_length, crate::specs::Operands::operand_length))]
pub fn assign_length(
    view: &View,
    op: AssignOp,
    target: &TExpr,
    there: u32,
    n: u32,
    value: &TExpr,
) -> Result<u32, Memory>
    ensures { IfOk result (λ sum. sum ≡ assign_length view.now.typed.now (layout view.now.names) op target.now there n value.now) }
{
    if is_send(target) {
        return plus(plus(there, spread_by(n, value)?)?, send_length(op));
    }
    let ty = target.ty();
    let stored = plus(there, store_length(view, target)?)?;
    match assign_op(op) {
        None => set_length(ty.shape.is_none(), stored, n, value),
        Some(op) => {
            let both = plus(stored, load_length(view, 32, target)?)?;
            let own = operator_bits(op, ty.shape, value);
            let n = if held(view, value)?.is_some() || in_place(own, true, value).is_some() {
                0
            } else {
                n
            };
            compound_length(ty.shape.is_none(), ty.elem, both, op, n, value)
        }
    }
}

/// The send itself.
#[tactic(auto, unfolding(crate::specs::Lengths::send_length))]
fn send_length(op: AssignOp) -> u32
    ensures { result ≡ send_length op }
{
    match op {
        AssignOp::Sub => 2,
        _ => 1,
    }
}

/// An assignment without an operator.
#[tactic(auto, unfolding(crate::specs::Lengths::set_length))]
fn set_length(scalar: bool, stored: u32, n: u32, e: &TExpr) -> Result<u32, Memory>
    ensures { IfOk result (λ sum. sum ≡ set_length scalar stored n e.now) }
{
    if scalar {
        plus(stored, n)
    } else {
        plus(stored, spread_by(n, e)?)
    }
}

/// An assignment with an operator.
#[tactic(auto, unfolding(crate::specs::Lengths::compound_length))]
fn compound_length(
    scalar: bool,
    elem: Elem,
    both: u32,
    op: Op,
    n: u32,
    e: &TExpr,
) -> Result<u32, Memory>
    ensures { IfOk result (λ sum. sum ≡ compound_length scalar elem both op n e.now) }
{
    if scalar {
        if stays_scalar(e) {
            let operated = plus(n, operate_length(32, op, true))?;
            plus(plus(both, operated)?, conversion(true, elem))
        } else {
            plus(plus(both, n)?, plus(2, fold_length(op, e))?)
        }
    } else {
        let operated = right_length(32, n, op, e)?;
        plus(plus(both, operated)?, conversion(false, elem))
    }
}

/// A step, by the length of its target.
#[tactic(auto, unfolding(crate::specs::Lengths::step_length))]
pub fn step_length(view: &View, target: &TExpr, there: u32) -> Result<u32, Memory>
    ensures { IfOk result (λ n. n ≡ step_length view.now.typed.now (layout view.now.names) target.now there) }
{
    let ty = target.ty();
    let own = plus(
        step_once_length(view, ty.shape.is_none())?,
        conversion(ty.shape.is_none(), ty.elem),
    )?;
    let loaded = load_length(view, 32, target)?;
    let stored = store_length(view, target)?;
    plus(plus(there, own)?, plus(loaded, stored)?)
}

/// One more or one less.
#[tactic(auto, unfolding(crate::specs::Lengths::step_once_length))]
fn step_once_length(view: &View, scalar: bool) -> Result<u32, Memory>
    ensures { IfOk result (λ n. n ≡ step_once_length (layout view.now.names) scalar) }
{
    if scalar {
        plus(view.word_length(1)?, 1)
    } else {
        Ok(1)
    }
}

/// A call beside its arguments: zeroing and copying, the turn, the call, and the result.
#[tactic(auto, unfolding(crate::specs::Lengths::call_length))]
pub fn frame_length(t: &Typed, instance: u32, given: usize) -> Result<u32, Memory>
    ensures { IfOk result (λ n. n ≡ call_length (slice_get t.now.instances.items instance) given) }
{
    match t.instances.get(instance as usize) {
        Some(callee) => {
            let own = if callee.result.is_some() { 4 } else { 2 };
            params_length(callee.params.as_slice(), given, own)
        }
        None => Ok(0),
    }
}

/// The parameters that are given arguments.
#[tactic(auto, unfolding(crate::specs::Lengths::params_length))]
fn params_length(params: &[VarInfo], given: usize, own: u32) -> Result<u32, Memory>
    ensures { IfOk result (λ n. n ≡ params_length params.now given own) }
{
    let mut sum = own;
    let mut left = given;
    for param in params {
        if left == 0 {
            return Ok(sum);
        }
        left -= 1;
        sum = plus(sum, if param.shape.is_some() { 2 } else { 1 })?;
    }
    Ok(sum)
}
