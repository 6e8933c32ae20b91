//! Operands: a variable is used where it stands, or copied where a later part may change it, and a promoted
//! scalar is spread to a field; and conversions of parallel values.

ghost use Rattle.std.specs.Prelude.{◌≡◌, true, IfOk, OnOk};
ghost use Rattle.lower_base.specs.Drafts.{IsMade, Makes, draft};
ghost use Rattle.lower_base.specs.Kinds.{bits_of, kind_of};
ghost use Rattle.lower_base.specs.Layouts.{layout};
ghost use Rattle.lower_expr.specs.Steps.{has_truth};
ghost use Rattle.lower_expr.specs.Values.{cast_of, next_of, right_by, spread_by, spread_into, spread_of, tested_by, truth_of, value_of};

use crate::conditions::test_truth;
use crate::kinds::test_bits;
use crate::leaves::right_value;
use crate::operands::{held, in_place, standing};
use crate::steps::{
    Right, as_field, constant_word, extend, has_truth, immediate, spread_word, stays_scalar,
    test_value,
};
use crate::value::value;
use cstar_base::{Memory, Op};
use cstar_tree::typed::{TExpr, ValueType};
use lower_base::emit::{field, put};
use lower_base::{Out, View};
use paris_code::{Field, Instr, Konst, Unit};

/// So many bits of the value of a parallel expression in a field, of that of a promoted scalar too.
#[cycle(value)]
#[tactic(auto, unfolding(lower_base::specs::Drafts::IsMade, crate::specs::Values::spread_of, crate::specs::Values::spread_by, lower_base::specs::Drafts::then_make))]
pub fn spread(view: &View, bits: u8, e: &TExpr, shape: u16, u: &mut Unit) -> Result<Out, Memory>
    requires made { IsMade (spread_of view.now.typed.now (layout view.now.names) bits e.now shape (draft u.old)) }
    ensures draft { IfOk result (λ out. spread_of view.now.typed.now (layout view.now.names) bits e.now shape (draft u.old) ≡ Makes out (draft u.new)) }
{
    if stays_scalar(e) {
        let dest = field(u, shape, bits)?;
        Ok(Out::Field(spread_value(view, bits, e, dest, u)?))
    } else {
        value(view, bits, e, u)
    }
}

/// A value that stands in a register, spread into `dest`.
#[cycle(value)]
#[tactic(auto, unfolding(lower_base::specs::Drafts::IsMade, lower_base::specs::Drafts::IsSomewhere, crate::specs::Values::spread_into, crate::specs::Steps::in_a_field, lower_base::specs::Drafts::then_make))]
fn spread_value(
    view: &View,
    bits: u8,
    e: &TExpr,
    dest: Field,
    u: &mut Unit,
) -> Result<Field, Memory>
    requires made { IsMade (spread_into (value_of view.now.typed.now (layout view.now.names) bits e.now) e.now dest (draft u.old)) }
    ensures draft { IfOk result (λ f. spread_into (value_of view.now.typed.now (layout view.now.names) bits e.now) e.now dest (draft u.old) ≡ Makes f (draft u.new)) }
{
    match constant_word(e) {
        Some(word) => spread_word(word, dest, u),
        None => as_field(value(view, bits, e, u)?.operand(), dest, u),
    }
}

/// The value of a parallel operand in a field; that of a promoted scalar is spread into `dest`.
#[cycle(value)]
#[tactic(auto, unfolding(lower_base::specs::Drafts::IsMade, lower_base::specs::Drafts::IsSomewhere, crate::specs::Values::spread_into, crate::specs::Steps::in_a_field, lower_base::specs::Drafts::then_make))]
pub fn spread_to(
    view: &View,
    bits: u8,
    quiet: bool,
    e: &TExpr,
    dest: Field,
    u: &mut Unit,
) -> Result<Field, Memory>
    requires made { IsMade (spread_into (next_of view.now.typed.now (layout view.now.names) bits quiet e.now) e.now dest (draft u.old)) }
    ensures draft { IfOk result (λ f. spread_into (next_of view.now.typed.now (layout view.now.names) bits quiet e.now) e.now dest (draft u.old) ≡ Makes f (draft u.new)) }
{
    match constant_word(e) {
        Some(word) => spread_word(word, dest, u),
        None => as_field(operand(view, bits, quiet, e, u)?.operand(), dest, u),
    }
}

/// The right operand of a parallel operation: a constant that the instruction takes has no code.
#[cycle(value)]
#[tactic(auto, unfolding(lower_base::specs::Drafts::IsMade, lower_base::specs::Drafts::IsSomewhere, crate::specs::Values::right_by, crate::specs::Values::right_given, lower_base::specs::Drafts::then_make, lower_base::specs::Drafts::from))]
pub fn right_operand(
    view: &View,
    bits: u8,
    op: Op,
    e: &TExpr,
    u: &mut Unit,
) -> Result<Right, Memory>
    requires made { IsMade (right_by (next_of view.now.typed.now (layout view.now.names) bits true e.now) op e.now (draft u.old)) }
    ensures draft { IfOk result (λ right. right_by (next_of view.now.typed.now (layout view.now.names) bits true e.now) op e.now (draft u.old) ≡ Makes right (draft u.new)) }
{
    match immediate(op, e) {
        Some(word) => Ok(Right::Word(Konst::Imm(word))),
        None => Ok(right_value(operand(view, bits, true, e, u)?.operand())),
    }
}

/// So many bits of the value of an operand: a constant is used where it stands, and a variable too if
/// all is quiet that is evaluated before its use.
#[cycle(value)]
#[tactic(auto, unfolding(lower_base::specs::Drafts::IsMade, crate::specs::Operands::operand_by))]
pub fn operand(view: &View, bits: u8, quiet: bool, e: &TExpr, u: &mut Unit) -> Result<Out, Memory>
    requires made { IsMade (next_of view.now.typed.now (layout view.now.names) bits quiet e.now (draft u.old)) }
    ensures draft { IfOk result (λ out. next_of view.now.typed.now (layout view.now.names) bits quiet e.now (draft u.old) ≡ Makes out (draft u.new)) }
{
    if let Some(register) = held(view, e)? {
        return Ok(Out::Scalar(register));
    }
    match in_place(bits, quiet, e) {
        Some(own) => Ok(standing(view, bits, own, u)?.out()),
        None => value(view, bits, e, u),
    }
}

/// A conversion of a parallel value to a type: to `bool` by its test, to a type that has fewer bits than
/// are wanted by its bits of that type, which are extended. Else the wanted bits stay as they are.
#[cycle(value)]
#[tactic(auto, unfolding(lower_base::specs::Drafts::IsMade, lower_base::specs::Drafts::IsSomewhere, crate::specs::Values::cast_of, crate::specs::Values::cast_from, crate::specs::Values::cast_by, crate::specs::Values::extended, crate::specs::Values::truth_put, crate::specs::Values::spread_of, lower_base::specs::Drafts::then_make, lower_base::specs::Drafts::in_field))]
pub fn cast(
    view: &View,
    bits: u8,
    ty: ValueType,
    inner: &TExpr,
    u: &mut Unit,
) -> Result<Out, Memory>
    requires made { IsMade (cast_of view.now.typed.now (layout view.now.names) bits ty inner.now (draft u.old)) }
    ensures draft { IfOk result (λ out. cast_of view.now.typed.now (layout view.now.names) bits ty inner.now (draft u.old) ≡ Makes out (draft u.new)) }
{
    let set = ty.shape.unwrap_or(0);
    if ty.elem.bits == 1 {
        let dest = field(u, set, bits)?;
        test_spread(view, inner, set, u)?;
        test_value(dest, u)?;
        Ok(Out::Field(dest))
    } else if ty.elem.bits < bits {
        let dest = field(u, set, bits)?;
        let v = spread_operand(view, ty.elem.bits, inner, set, u)?;
        extend(ty.elem.signed, dest, v.operand(), u)?;
        Ok(Out::Field(dest))
    } else {
        spread(view, bits, inner, set, u)
    }
}

/// So many bits of the value of an operand in a field, of that of a promoted scalar too.
#[cycle(value)]
#[tactic(auto, unfolding(lower_base::specs::Drafts::IsMade, crate::specs::Values::spread_by, lower_base::specs::Drafts::then_make))]
fn spread_operand(view: &View, bits: u8, e: &TExpr, shape: u16, u: &mut Unit) -> Result<Out, Memory>
    requires made { IsMade (spread_by (next_of view.now.typed.now (layout view.now.names) bits true e.now) e.now shape bits (draft u.old)) }
    ensures draft { IfOk result (λ out. spread_by (next_of view.now.typed.now (layout view.now.names) bits true e.now) e.now shape bits (draft u.old) ≡ Makes out (draft u.new)) }
{
    if stays_scalar(e) {
        let dest = field(u, shape, bits)?;
        Ok(Out::Field(spread_to(view, bits, true, e, dest, u)?))
    } else {
        operand(view, bits, true, e, u)
    }
}

/// The test flags become whether the value is not zero, that of a promoted scalar too.
#[cycle(value)]
#[tactic(auto, unfolding(lower_base::specs::Drafts::IsMade, lower_base::specs::Drafts::InField, crate::specs::Values::tested_by, crate::specs::Values::nonzero_tested, lower_base::specs::Drafts::then_make, lower_base::specs::Drafts::in_field))]
fn test_spread(view: &View, e: &TExpr, shape: u16, u: &mut Unit) -> Result<(), Memory>
    requires made { IsMade (tested_by (has_truth e.now) (truth_of view.now.typed.now (layout view.now.names) e.now) (spread_by (next_of view.now.typed.now (layout view.now.names) (bits_of (kind_of e.now)) true e.now) e.now shape (bits_of (kind_of e.now))) (draft u.old)) }
    ensures draft { OnOk result (tested_by (has_truth e.now) (truth_of view.now.typed.now (layout view.now.names) e.now) (spread_by (next_of view.now.typed.now (layout view.now.names) (bits_of (kind_of e.now)) true e.now) e.now shape (bits_of (kind_of e.now))) (draft u.old) ≡ Makes tt (draft u.new)) }
{
    if has_truth(e) {
        return test_truth(view, e, u);
    }
    let source = spread_operand(view, test_bits(e), e, shape, u)?.field();
    put(u, Instr::NeZero { source })
}
