//! Which gets go by NEWS: those whose every index is the own coordinate, with a constant step or
//! without, maybe modulo the extent.

ghost use Rattle.std.specs.Prelude.{◌≡◌};
ghost use Rattle.lower_comm.specs.News.{is_conversion, is_int, negated, near, step_number, is_dot, step_by, offset_of, is_extent, step_of, all_go_by_news};

use cstar_base::{Elem, Op};
use cstar_tree::typed::TExpr;
use source_meaning::constant;

/// How a get moves along one axis.
#[derive(Clone, Copy, PartialEq, Eq)]
pub struct NewsStep {
    /// How many positions away the value comes from: a number from -2^20 to 2^20, as its 32 bits in
    /// two's complement.
    pub by: u32,
    /// Whether the step may lead out of the grid. A step that is not checked wraps, or is 0.
    pub checked: bool,
}

/// The greatest step of a get by NEWS.
const MOST: u32 = 1_048_576;

/// Whether all indexes of a left-indexed reference of this shape go by NEWS.
#[tactic(auto, unfolding(crate::specs::News::all_go_by_news))]
pub fn all_go_by_news(of: u16, indexes: &[TExpr]) -> bool
    ensures { result ≡ all_go_by_news of 0 indexes.now }
{
    for (axis, index) in indexes.iter().enumerate() {
        if step_of(of, axis, index).is_none() {
            return false;
        }
    }
    true
}

/// The step of one index of a left-indexed reference of this shape, if it goes by NEWS.
#[tactic(auto, unfolding(crate::specs::News::step_of, crate::specs::News::checked_step, crate::specs::News::wrapped_step, crate::specs::News::offset_of))]
pub fn step_of(of: u16, axis: usize, index: &TExpr) -> Option<NewsStep>
    ensures { result ≡ step_of of axis index.now }
{
    match index {
        TExpr::Brackets { inner, .. } => step_of(of, axis, inner),
        TExpr::Binary {
            op: Op::Mod,
            left,
            right,
            ..
        } => {
            let by = offset(left)?;
            if is_extent(of, axis, right) {
                Some(NewsStep { by, checked: false })
            } else {
                None
            }
        }
        TExpr::Dot { .. } => Some(NewsStep {
            by: 0,
            checked: false,
        }),
        _ => {
            let by = offset(index)?;
            Some(NewsStep { by, checked: true })
        }
    }
}

/// The step of `. + k` or `. - k`.
#[tactic(auto, unfolding(crate::specs::News::offset_of))]
fn offset(e: &TExpr) -> Option<u32>
    ensures { result ≡ offset_of e.now }
{
    match e {
        TExpr::Brackets { inner, .. } => offset(inner),
        TExpr::Binary {
            op,
            left,
            right,
            ..
        } => {
            if !is_dot(left) {
                return None;
            }
            let k = step_number(right)?;
            step_by(*op, k)
        }
        _ => None,
    }
}

/// The step by an operator and a number.
#[tactic(auto, unfolding(crate::specs::News::step_by))]
fn step_by(op: Op, k: u32) -> Option<u32>
    ensures { result ≡ step_by op k }
{
    match op {
        Op::Add => Some(k),
        Op::Sub => Some(negated(k)),
        _ => None,
    }
}

/// The own coordinate, maybe in brackets.
#[tactic(auto, unfolding(crate::specs::News::is_dot))]
fn is_dot(e: &TExpr) -> bool
    ensures { result ≡ is_dot e.now }
{
    match e {
        TExpr::Brackets { inner, .. } => is_dot(inner),
        TExpr::Dot { .. } => true,
        _ => false,
    }
}

/// A constant expression of type `int` from -2^20 to 2^20, as its 32 bits.
#[tactic(auto, unfolding(crate::specs::News::step_number))]
fn step_number(e: &TExpr) -> Option<u32>
    ensures { result ≡ step_number e.now }
{
    let TExpr::Promote { operand, .. } = e else {
        return None;
    };
    if is_conversion(operand) || !is_int(operand.ty().elem) {
        return None;
    }
    let k = constant(operand)?;
    near(k)
}

/// A conversion to another element type.
#[tactic(auto, unfolding(crate::specs::News::is_conversion))]
fn is_conversion(e: &TExpr) -> bool
    ensures { result ≡ is_conversion e.now }
{
    matches!(e, TExpr::Convert { .. })
}

#[tactic(auto, unfolding(crate::specs::News::is_int))]
fn is_int(elem: Elem) -> bool
    ensures { result ≡ is_int elem }
{
    elem.signed && elem.bits == 32
}

/// The number, if it or its negative is at most 2^20.
#[tactic(auto, unfolding(crate::specs::News::near))]
fn near(k: u32) -> Option<u32>
    ensures { result ≡ near k }
{
    if k <= MOST || negated(k) <= MOST {
        Some(k)
    } else {
        None
    }
}

/// The negative of a number, modulo 2^32.
#[tactic(auto, unfolding(crate::specs::News::negated))]
fn negated(k: u32) -> u32
    ensures { result ≡ negated k }
{
    0u32.wrapping_sub(k)
}

/// The extent of a shape along an axis, maybe at every position.
#[tactic(auto, unfolding(crate::specs::News::is_extent))]
fn is_extent(of: u16, axis: usize, e: &TExpr) -> bool
    ensures { result ≡ is_extent of axis e.now }
{
    match e {
        TExpr::Promote { operand, .. } => is_extent(of, axis, operand),
        TExpr::Brackets { inner, .. } => is_extent(of, axis, inner),
        TExpr::DimOf {
            shape,
            axis: named,
            ..
        } => *shape == of && *named as usize == axis,
        _ => false,
    }
}
