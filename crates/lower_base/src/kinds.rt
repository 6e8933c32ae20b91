//! Of which narrow type the value of an expression is, where one is known, and at how many bits values of
//! it are folded.

ghost use Rattle.std.specs.Prelude.{◌≡◌, ◌≤◌, Some};
ghost use Rattle.lower_base.specs.Kinds.{binary_kind, bits_of, common_kind, converted_kind, fold_bits, fold_by, fold_kind, fold_length, folded_bits, folded_kind, has_all, is_bitwise, joins_bits, kind_of, narrow, truth_type};

use crate::operators::{fold_of, is_relation, negates, promoted_signed};
use cstar_base::{Elem, Op};
use cstar_tree::typed::TExpr;
use paris_code::Reduction;

/// Whether a type has all numbers of another one.
#[tactic(auto, unfolding(crate::specs::Kinds::has_all))]
fn has_all(elem: Elem, other: Elem) -> bool
    ensures { result ≡ has_all elem other }
{
    if other.signed {
        elem.signed && other.bits <= elem.bits
    } else if elem.signed {
        other.bits < elem.bits
    } else {
        other.bits <= elem.bits
    }
}

/// A type of fewer than 32 bits.
#[tactic(auto, unfolding(crate::specs::Kinds::narrow))]
fn narrow(elem: Elem) -> Option<Elem>
    ensures { result ≡ narrow elem }
{
    if elem.bits == 32 { None } else { Some(elem) }
}

/// The narrow type that has the numbers of two.
#[tactic(auto, unfolding(crate::specs::Kinds::common_kind))]
pub fn common_kind(one: Option<Elem>, other: Option<Elem>) -> Option<Elem>
    ensures { result ≡ common_kind one other }
{
    let a = one?;
    let b = other?;
    if has_all(a, b) {
        Some(a)
    } else if has_all(b, a) {
        Some(b)
    } else {
        None
    }
}

/// The narrow type of what is converted to a type, by that of the value.
#[tactic(auto, unfolding(crate::specs::Kinds::converted_kind))]
fn converted_kind(elem: Elem, value: Option<Elem>) -> Option<Elem>
    ensures { result ≡ converted_kind elem value }
{
    match value {
        Some(kind) if has_all(elem, kind) => Some(kind),
        Some(_) | None => narrow(elem),
    }
}

/// The narrow type of truth values.
fn truth_kind() -> Option<Elem>
    ensures { result ≡ Some truth_type }
{
    Some(Elem::BOOL)
}

#[tactic(auto, unfolding(crate::specs::Kinds::is_bitwise))]
pub fn is_bitwise(op: Op) -> bool
    ensures { result ≡ is_bitwise op }
{
    matches!(op, Op::And | Op::Or | Op::Xor)
}

#[tactic(auto, unfolding(crate::specs::Kinds::binary_kind))]
fn binary_kind(op: Op, left: Option<Elem>, right: Option<Elem>) -> Option<Elem>
    ensures { result ≡ binary_kind op left right }
{
    if is_relation(op) {
        truth_kind()
    } else if is_bitwise(op) {
        common_kind(left, right)
    } else {
        None
    }
}

/// The narrow type that has the value of an expression, if one is known.
#[tactic(auto, unfolding(crate::specs::Kinds::kind_of))]
pub fn kind_of(e: &TExpr) -> Option<Elem>
    ensures { result ≡ kind_of e.now }
{
    match e {
        TExpr::Brackets { inner: operand, .. } | TExpr::Promote { operand, .. } => kind_of(operand),
        TExpr::Convert { ty, operand } | TExpr::ParallelCast { ty, operand } => {
            converted_kind(ty.elem, kind_of(operand))
        }
        TExpr::Choice {
            then,
            otherwise,
            ..
        } => common_kind(kind_of(then), kind_of(otherwise)),
        TExpr::LogicalOr { .. } | TExpr::LogicalAnd { .. } => truth_kind(),
        TExpr::Binary {
            op,
            left,
            right,
            ..
        } => binary_kind(*op, kind_of(left), kind_of(right)),
        TExpr::Unary { op, .. } => if negates(*op) { truth_kind() } else { None },
        TExpr::Variable { ty, .. } | TExpr::Element { ty, .. } | TExpr::LeftIndex { ty, .. } => {
            narrow(ty.elem)
        }
        TExpr::Assign { .. }
        | TExpr::Step { .. }
        | TExpr::Reduce { .. }
        | TExpr::Casts { .. }
        | TExpr::Number { .. }
        | TExpr::Dot { .. }
        | TExpr::Call { .. }
        | TExpr::Pcoord { .. }
        | TExpr::PositionsOf { .. }
        | TExpr::RankOf { .. }
        | TExpr::DimOf { .. }
        | TExpr::Scan { .. }
        | TExpr::Enumerate { .. }
        | TExpr::Printf { .. }
        | TExpr::GetChar { .. } => None,
    }
}

/// The bits of a narrow type, or 32.
#[tactic(auto, unfolding(crate::specs::Kinds::bits_of))]
pub fn bits_of(kind: Option<Elem>) -> u8
    ensures { result ≡ bits_of kind }
{
    match kind {
        Some(kind) => kind.bits,
        None => 32,
    }
}

/// Whether a combiner takes each bit by itself.
#[tactic(auto, unfolding(crate::specs::Kinds::joins_bits))]
fn joins_bits(combiner: Reduction) -> bool
    ensures { result ≡ joins_bits combiner }
{
    matches!(
        combiner,
        Reduction::Logand | Reduction::Logior | Reduction::Logxor
    )
}

/// At how many bits the values of a narrow type are folded, so that each is read as its word. Where
/// numbers are read with a sign, one of an unsigned type has a bit more, which is 0; where they are read
/// without, one of a type with a sign has all 32.
#[tactic(auto, using(cstar_base::proofs::NumberLaws::kind_bits), unfolding(crate::specs::Kinds::folded_bits))]
fn folded_bits(combiner: Reduction, kind: Option<Elem>) -> u8
    ensures { result ≡ folded_bits combiner kind }
{
    let Some(kind) = kind else {
        return 32;
    };
    let (_, unsigned) = combiner.combiner();
    if joins_bits(combiner) {
        kind.bits
    } else if unsigned {
        if kind.signed { 32 } else { kind.bits }
    } else if kind.signed {
        kind.bits
    } else {
        kind.bits + 1
    }
}

/// The type to which the fold is then converted: bits of a type with a sign are joined without it.
#[tactic(auto, unfolding(crate::specs::Kinds::folded_kind))]
fn folded_kind(combiner: Reduction, kind: Option<Elem>) -> Option<Elem>
    ensures { result ≡ folded_kind combiner kind }
{
    let kind = kind?;
    if joins_bits(combiner) && kind.signed {
        Some(kind)
    } else {
        None
    }
}

/// What folds the values of an expression by an operator.
pub fn fold_by(op: Op, e: &TExpr) -> Reduction
    ensures { result ≡ fold_by op e.now }
{
    fold_of(op, promoted_signed(e.ty().elem))
}

/// At how many bits the values of an expression are folded by an operator.
pub fn fold_bits(op: Op, e: &TExpr) -> u8
    ensures { result ≡ fold_bits op e.now }
{
    folded_bits(fold_by(op, e), kind_of(e))
}

/// The type to which the fold is then converted.
pub fn fold_kind(op: Op, e: &TExpr) -> Option<Elem>
    ensures { result ≡ fold_kind op e.now }
{
    folded_kind(fold_by(op, e), kind_of(e))
}

/// How many instructions the fold has.
#[tactic(auto, unfolding(crate::specs::Kinds::fold_length))]
pub fn fold_length(op: Op, e: &TExpr) -> u32
    ensures value { result ≡ fold_length op e.now }
    ensures few { result ≤ 2 }
{
    if fold_kind(op, e).is_some() { 2 } else { 1 }
}
