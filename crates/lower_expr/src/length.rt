//! How many instructions an expression compiles to. Jumps are written once, since the lengths of
//! what they pass over are known beforehand.

ghost use Rattle.std.specs.Prelude.{◌≡◌, true, false, IfOk};
ghost use Rattle.lower_base.specs.Kinds.{bits_of, kind_of};
ghost use Rattle.lower_base.specs.Layouts.{layout};
ghost use Rattle.lower_expr.specs.Joined.{flag_length};
ghost use Rattle.lower_expr.specs.Lengths.{arm_length_of, cast_length, joined_length_of, tested_length, truth_length_of, used_length_of, logical_length, located_length, length_of, spot_length_of, lengths_in};
ghost use Rattle.lower_expr.specs.Operands.{all_quiet};
ghost use Rattle.lower_expr.specs.Steps.{has_truth, is_kept};

use crate::assign::is_send;
use crate::joined::{is_flag, joins};
use crate::kinds::{
    assigned_bits, done_as, list_bits, operand_bits, reduced_bits, relation_bits, test_bits,
    unary_bits,
};
use crate::operands::{are_quiet, held, in_place, is_plus, is_quiet};
use crate::operator_lengths::{
    binary_length, choice_length, compared_length, conversion, reduce_length, spread_by,
    test_put_length, unary_length,
};
use crate::place_lengths::{
    assign_length, elements_length, frame_length, index_check_length, news_length, read_length,
    step_length,
};
use crate::positions::known_position;
use crate::steps::{has_truth, has_word, stays_scalar};
use cstar_base::{Elem, Memory};
use cstar_tree::typed::{TExpr, ValueType};
use lower_base::View;
use lower_base::emit::{count, plus};
use lower_comm::messages::goes_by_news;

/// The instructions of so many bits of a value: what `value` appends.
#[cycle(length)]
#[tactic(auto, unfolding(crate::specs::Lengths::length_of, crate::specs::Lengths::arm_length_of, crate::specs::Lengths::tested_length))]
pub fn length(view: &View, bits: u8, e: &TExpr) -> Result<u32, Memory>
    ensures { IfOk result (λ n. n ≡ length_of view.now.typed.now (layout view.now.names) bits e.now) }
{
    match e {
        TExpr::Number { .. }
        | TExpr::Dot { .. }
        | TExpr::Pcoord { .. }
        | TExpr::PositionsOf { .. }
        | TExpr::RankOf { .. }
        | TExpr::DimOf { .. }
        | TExpr::GetChar { .. }
        | TExpr::Variable { .. } => Ok(1),
        TExpr::Enumerate { .. } => Ok(2),
        TExpr::Brackets { inner: operand, .. } | TExpr::Promote { operand, .. } => {
            length(view, bits, operand)
        }
        TExpr::Convert { ty, operand } => {
            if stays_scalar(operand) {
                plus(length(view, bits, operand)?, conversion(true, ty.elem))
            } else {
                cast_length(view, bits, ty.elem, operand)
            }
        }
        TExpr::Casts { elems, operand, .. } => {
            plus(length(view, bits, operand)?, count(elems.len())?)
        }
        TExpr::ParallelCast { ty, operand } => cast_length(view, bits, ty.elem, operand),
        TExpr::Unary { op, operand, .. } => {
            let n = if is_plus(*op) {
                length(view, bits, operand)?
            } else {
                used_length(view, unary_bits(bits, *op, operand), true, operand)?
            };
            let op = done_as(bits, *op, operand);
            plus(n, unary_length(view, bits, op, stays_scalar(operand))?)
        }
        TExpr::Reduce { op, operand, .. } => {
            let n = used_length(view, reduced_bits(*op, operand), true, operand)?;
            plus(n, reduce_length(*op, operand)?)
        }
        TExpr::Scan { source, .. } => plus(used_length(view, 32, true, source)?, 1),
        TExpr::Element { array, index, .. } => {
            let elements = view.elements(*array);
            let located = plus(
                length(view, 32, index)?,
                index_check_length(view, elements)?,
            )?;
            plus(located, elements_length(view, elements)?)
        }
        TExpr::Binary {
            ty,
            op,
            left,
            right,
            ..
        } => {
            let own = operand_bits(bits, *op, left, right);
            let a = used_length(view, own, is_quiet(right), left)?;
            let b = used_length(view, own, true, right)?;
            binary_length(ty.shape.is_none(), bits, *op, a, left, b, right)
        }
        TExpr::LogicalOr { ty, left, right } => {
            logical_length(view, ty.shape.is_none(), bits, left, right)
        }
        TExpr::LogicalAnd { ty, left, right } => {
            logical_length(view, ty.shape.is_none(), bits, left, right)
        }
        TExpr::Choice {
            ty,
            test,
            then,
            otherwise,
        } => {
            let quiet = stays_scalar(test) || is_quiet(then);
            let c = used_length(view, test_bits(test), quiet, test)?;
            let a = arm_length(view, *ty, bits, then)?;
            let b = arm_length(view, *ty, bits, otherwise)?;
            let operands = plus(c, plus(a, b)?)?;
            plus(operands, choice_length(stays_scalar(test)))
        }
        TExpr::Assign {
            op,
            target,
            value,
            ..
        } => {
            let there = spot_length(view, target)?;
            let own = assigned_bits(bits, *op, is_send(target), target.ty(), value);
            let n = length(view, own, value)?;
            assign_length(view, *op, target, there, n, value)
        }
        TExpr::Step { target, .. } => {
            let there = spot_length(view, target)?;
            step_length(view, target, there)
        }
        TExpr::LeftIndex {
            ty,
            indexes,
            of,
            ..
        } => {
            if goes_by_news(e) {
                return news_length(bits, *of, ty.elem, indexes.as_slice());
            }
            let located = located_length(view, indexes.as_slice(), e)?;
            plus(located, read_length(bits, *ty))
        }
        TExpr::Call {
            instance,
            arguments,
            ..
        } => {
            let own = frame_length(view.typed, *instance, arguments.len())?;
            plus(own, list_length(view, true, arguments.as_slice())?)
        }
        TExpr::Printf {
            pieces,
            arguments,
            ..
        } => {
            plus(
                count(pieces.len())?,
                list_length(view, false, arguments.as_slice())?,
            )
        }
    }
}

/// The instructions of an operand: none where it is used where it stands.
#[cycle(length)]
#[tactic(auto, unfolding(crate::specs::Operands::operand_length))]
pub fn used_length(view: &View, bits: u8, quiet: bool, e: &TExpr) -> Result<u32, Memory>
    ensures { IfOk result (λ n. n ≡ used_length_of view.now.typed.now (layout view.now.names) bits quiet e.now) }
{
    if held(view, e)?.is_some() {
        return Ok(0);
    }
    match in_place(bits, quiet, e) {
        Some(_) => Ok(0),
        None => length(view, bits, e),
    }
}

/// A conversion of a parallel value.
#[cycle(length)]
#[tactic(auto, unfolding(crate::specs::Lengths::cast_length, crate::specs::Lengths::tested_by_length))]
fn cast_length(view: &View, bits: u8, elem: Elem, e: &TExpr) -> Result<u32, Memory>
    ensures { IfOk result (λ n. n ≡ cast_length (layout view.now.names) bits elem e.now (truth_length_of view.now.typed.now (layout view.now.names) e.now) (λ own. length_of view.now.typed.now (layout view.now.names) own e.now)) }
{
    if elem.bits == 1 {
        let test = if has_truth(e) {
            truth_length(view, e)?
        } else {
            plus(spread_by(used_length(view, test_bits(e), true, e)?, e)?, 1)?
        };
        plus(test, test_put_length(bits))
    } else if elem.bits < bits {
        plus(spread_by(used_length(view, elem.bits, true, e)?, e)?, 1)
    } else {
        spread_by(length(view, bits, e)?, e)
    }
}

/// `&&` or `||`: a scalar operand by its value, a parallel one by its test or as a field of one bit.
#[cycle(length)]
#[tactic(auto, unfolding(crate::specs::Lengths::logical_length, crate::specs::Lengths::parallel_logical_length, crate::specs::Lengths::joined_length_of, crate::specs::Lengths::tested_length))]
fn logical_length(
    view: &View,
    scalar: bool,
    bits: u8,
    left: &TExpr,
    right: &TExpr,
) -> Result<u32, Memory>
    ensures { IfOk result (λ n. n ≡ logical_length scalar bits left.now right.now (used_length_of view.now.typed.now (layout view.now.names) (bits_of (kind_of left.now)) true left.now) (used_length_of view.now.typed.now (layout view.now.names) (bits_of (kind_of right.now)) true right.now) (tested_length view.now.typed.now (layout view.now.names) left.now) (tested_length view.now.typed.now (layout view.now.names) right.now)) }
{
    if scalar {
        let first = used_length(view, test_bits(left), true, left)?;
        let second = used_length(view, test_bits(right), true, right)?;
        plus(plus(first, second)?, 4)
    } else if joins(left, right) {
        joined_length(view, bits, left, right)
    } else if stays_scalar(left) {
        let first = used_length(view, test_bits(left), true, left)?;
        let own = plus(2, test_put_length(bits))?;
        plus(plus(first, test_length(view, right)?)?, own)
    } else {
        let second = if stays_scalar(right) {
            used_length(view, test_bits(right), true, right)?
        } else {
            test_length(view, right)?
        };
        plus(plus(test_length(view, left)?, second)?, 6)
    }
}

/// `&&` or `||` of two fields of one bit.
#[cycle(length)]
#[tactic(auto, unfolding(crate::specs::Lengths::joined_length_of, crate::specs::Lengths::joined_length))]
pub fn joined_length(view: &View, bits: u8, left: &TExpr, right: &TExpr) -> Result<u32, Memory>
    ensures { IfOk result (λ n. n ≡ joined_length_of view.now.typed.now (layout view.now.names) bits left.now right.now) }
{
    let first = flag_length(view, left)?;
    let second = flag_length(view, right)?;
    plus(plus(first, second)?, test_put_length(bits))
}

/// An operand of `&&` or `||` as a field of one bit.
#[cycle(length)]
#[tactic(auto, unfolding(crate::specs::Joined::flag_length))]
fn flag_length(view: &View, e: &TExpr) -> Result<u32, Memory>
    ensures { IfOk result (λ n. n ≡ flag_length (used_length_of view.now.typed.now (layout view.now.names) (bits_of (kind_of e.now)) true e.now) (tested_length view.now.typed.now (layout view.now.names) e.now) e.now) }
{
    if is_flag(e) {
        used_length(view, test_bits(e), true, e)
    } else {
        plus(test_length(view, e)?, 1)
    }
}

/// A parallel value as the test flags.
#[cycle(length)]
#[tactic(auto, unfolding(crate::specs::Lengths::tested_length, crate::specs::Lengths::tested_by_length))]
pub fn test_length(view: &View, e: &TExpr) -> Result<u32, Memory>
    ensures { IfOk result (λ n. n ≡ tested_length view.now.typed.now (layout view.now.names) e.now) }
{
    if has_truth(e) {
        truth_length(view, e)
    } else {
        plus(used_length(view, test_bits(e), true, e)?, 1)
    }
}

/// The test flags of a value that has a truth without its value.
#[cycle(length)]
#[tactic(auto, unfolding(crate::specs::Lengths::truth_length_of, crate::specs::Steps::has_truth))]
fn truth_length(view: &View, e: &TExpr) -> Result<u32, Memory>
    requires { has_truth e.now ≡ true }
    ensures { IfOk result (λ n. n ≡ truth_length_of view.now.typed.now (layout view.now.names) e.now) }
{
    match e {
        TExpr::Brackets { inner, .. } => truth_length(view, inner),
        TExpr::Variable { .. } => Ok(1),
        TExpr::Unary { operand, .. } => {
            plus(used_length(view, test_bits(operand), true, operand)?, 1)
        }
        TExpr::Binary {
            op,
            left,
            right,
            ..
        } => {
            let own = relation_bits(left, right);
            let a = spread_by(used_length(view, own, is_quiet(right), left)?, left)?;
            let n = used_length(view, own, true, right)?;
            plus(a, compared_length(n, *op, right)?)
        }
        _ => unreachable!(),
    }
}

/// An arm of `?:`.
#[cycle(length)]
#[tactic(auto, unfolding(crate::specs::Lengths::arm_length_of, crate::specs::Lengths::arm_length))]
pub fn arm_length(view: &View, ty: ValueType, bits: u8, e: &TExpr) -> Result<u32, Memory>
    ensures { IfOk result (λ n. n ≡ arm_length_of view.now.typed.now (layout view.now.names) ty bits e.now) }
{
    if has_word(ty.shape.is_none(), e) {
        Ok(1)
    } else {
        plus(used_length(view, bits, true, e)?, 1)
    }
}

/// What locates a left index by these indexes: their codes, their range check, and the address, or
/// the position where it is known.
#[cycle(length)]
#[tactic(auto, unfolding(crate::specs::Lengths::located_length))]
fn located_length(view: &View, indexes: &[TExpr], e: &TExpr) -> Result<u32, Memory>
    ensures { IfOk result (λ n. n ≡ located_length view.now.typed.now (layout view.now.names) e.now (lengths_in view.now.typed.now (layout view.now.names) false (all_quiet indexes.now) indexes.now)) }
{
    match known_position(view, e)? {
        Some(position) => view.word_length(position),
        None => plus(2, list_length(view, false, indexes)?),
    }
}

/// The instructions of a list of values, each as long as its own type or of 32 bits.
#[cycle(length)]
fn list_length(view: &View, own: bool, es: &[TExpr]) -> Result<u32, Memory>
    ensures { IfOk result (λ n. n ≡ lengths_in view.now.typed.now (layout view.now.names) own (all_quiet es.now) es.now) }
{
    lengths(view, own, are_quiet(es), es)
}

/// The instructions of a list of values, of which it is told whether all are quiet.
#[cycle(length)]
#[tactic(auto, unfolding(crate::specs::Lengths::lengths_in))]
fn lengths(view: &View, own: bool, quiet: bool, es: &[TExpr]) -> Result<u32, Memory>
    ensures { IfOk result (λ n. n ≡ lengths_in view.now.typed.now (layout view.now.names) own quiet es.now) }
{
    let mut sum = 0u32;
    for e in es {
        let next = used_length(view, list_bits(own, e), quiet, e)?;
        sum = plus(sum, next)?;
    }
    Ok(sum)
}

/// What locates a target or a reference; an expression that is neither is located by nothing.
#[cycle(length)]
#[tactic(auto, unfolding(crate::specs::Lengths::spot_length_of))]
fn spot_length(view: &View, e: &TExpr) -> Result<u32, Memory>
    ensures { IfOk result (λ n. n ≡ spot_length_of view.now.typed.now (layout view.now.names) e.now) }
{
    match e {
        TExpr::Brackets { inner, .. } => spot_length(view, inner),
        TExpr::Element { array, index, .. } => {
            let elements = view.elements(*array);
            plus(
                length(view, 32, index)?,
                index_check_length(view, elements)?,
            )
        }
        TExpr::LeftIndex { indexes, .. } => located_length(view, indexes.as_slice(), e),
        TExpr::Variable { .. }
        | TExpr::Assign { .. }
        | TExpr::Choice { .. }
        | TExpr::LogicalOr { .. }
        | TExpr::LogicalAnd { .. }
        | TExpr::Binary { .. }
        | TExpr::Unary { .. }
        | TExpr::Step { .. }
        | TExpr::Reduce { .. }
        | TExpr::Casts { .. }
        | TExpr::ParallelCast { .. }
        | TExpr::Convert { .. }
        | TExpr::Promote { .. }
        | TExpr::Number { .. }
        | TExpr::Dot { .. }
        | TExpr::Call { .. }
        | TExpr::Pcoord { .. }
        | TExpr::PositionsOf { .. }
        | TExpr::RankOf { .. }
        | TExpr::DimOf { .. }
        | TExpr::Scan { .. }
        | TExpr::Enumerate { .. }
        | TExpr::Printf { .. }
        | TExpr::GetChar { .. } => Ok(0),
    }
}
