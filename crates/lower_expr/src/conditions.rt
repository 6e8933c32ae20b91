//! The test flags of a value, `&&`, `||` and `?:`.

ghost use Rattle.std.specs.Prelude.{◌≡◌, true, if◌then◌else◌, IfOk, OnOk};
ghost use Rattle.lower_base.specs.declared.emit.Out.TheVariants as O;
ghost use Rattle.lower_base.specs.Drafts.{IsMade, Makes, draft, out_of};
ghost use Rattle.lower_base.specs.Kinds.{bits_of, kind_of};
ghost use Rattle.lower_base.specs.Layouts.{layout};
ghost use Rattle.lower_base.specs.Operators.{relates};
ghost use Rattle.lower_expr.specs.Joined.{flag_by, is_flag};
ghost use Rattle.lower_expr.specs.Kinds.{relation_kind};
ghost use Rattle.lower_expr.specs.Lengths.{tested_length, used_length_of};
ghost use Rattle.lower_expr.specs.Operands.{is_quiet};
ghost use Rattle.lower_expr.specs.Steps.{has_truth, is_kept};
ghost use Rattle.lower_expr.specs.Values.{arm_of, choice_of, condition_of, decided_by, joined_of, jumped_over, limited_by, logical_by, narrowed_again, narrowing_by, next_of, parallel_choice_of, parallel_logical_by, relation_by, scalar_choice_of, scalar_logical_by, tested, truth_of};

use crate::conversions::{operand, right_operand, spread_to};
use crate::joined::{is_flag, join, joins, keep_test};
use crate::kinds::{relation_bits, test_bits};
use crate::length::{arm_length, test_length, used_length};
use crate::logical::{decide, end_logical, jump_to_end, limit, narrow, turn_over};
use crate::operands::is_quiet;
use crate::operator_lengths::test_put_length;
use crate::parts::{Binary, Choice, Operator};
use crate::steps::{
    compare, constant, has_truth, put_word, set, stays_scalar, test_value, word_for,
};
use cstar_base::Memory;
use cstar_tree::typed::{TExpr, ValueType};
use lower_base::emit::{field, flag, fresh, plus, put};
use lower_base::operators::{Machine, machine_op};
use lower_base::{Operand, Out, View};
use paris_code::{Field, Instr, Konst, Unit};

/// `||`, or else `&&`.
#[cycle(value)]
#[tactic(auto, unfolding(lower_base::specs::Drafts::IsMade, crate::specs::Values::logical_by, crate::specs::Values::condition_by, lower_base::specs::Drafts::then_make))]
pub fn logical(
    view: &View,
    is_or: bool,
    shape: Option<u16>,
    bits: u8,
    left: &TExpr,
    right: &TExpr,
    u: &mut Unit,
) -> Result<Out, Memory>
    requires made { IsMade (logical_by is_or shape bits (condition_of view.now.typed.now (layout view.now.names) left.now) (condition_of view.now.typed.now (layout view.now.names) right.now) (draft u.old)) }
    ensures draft { IfOk result (λ out. logical_by is_or shape bits (condition_of view.now.typed.now (layout view.now.names) left.now) (condition_of view.now.typed.now (layout view.now.names) right.now) (draft u.old) ≡ Makes out (draft u.new)) }
{
    match shape {
        None => scalar_logical(view, is_or, left, right, u),
        Some(set) => {
            let dest = field(u, set, bits)?;
            parallel_logical(view, is_or, left, right, dest, u)
        }
    }
}

/// `||`, or else `&&`, of scalars. The result begins as what a decided left operand gives.
#[cycle(value)]
#[tactic(auto, unfolding(lower_base::specs::Drafts::IsMade, lower_base::specs::Drafts::IsSomewhere, crate::specs::Values::scalar_logical_by, crate::specs::Values::decided, crate::specs::Values::logical_ended, lower_base::specs::Drafts::then_make, lower_base::specs::Drafts::in_register))]
fn scalar_logical(
    view: &View,
    is_or: bool,
    left: &TExpr,
    right: &TExpr,
    u: &mut Unit,
) -> Result<Out, Memory>
    requires made { IsMade (scalar_logical_by is_or (next_of view.now.typed.now (layout view.now.names) (bits_of (kind_of left.now)) true left.now) (next_of view.now.typed.now (layout view.now.names) (bits_of (kind_of right.now)) true right.now) (used_length_of view.now.typed.now (layout view.now.names) (bits_of (kind_of right.now)) true right.now) (draft u.old)) }
    ensures draft { IfOk result (λ out. scalar_logical_by is_or (next_of view.now.typed.now (layout view.now.names) (bits_of (kind_of left.now)) true left.now) (next_of view.now.typed.now (layout view.now.names) (bits_of (kind_of right.now)) true right.now) (used_length_of view.now.typed.now (layout view.now.names) (bits_of (kind_of right.now)) true right.now) (draft u.old) ≡ Makes out (draft u.new)) }
{
    let dest = constant(u32::from(is_or), u)?;
    let a = operand(view, test_bits(left), true, left, u)?;
    let length = used_length(view, test_bits(right), true, right)?;
    let end = decide(is_or, a.operand(), length, 3, u)?;
    let b = operand(view, test_bits(right), true, right, u)?;
    end_logical(is_or, dest, b.operand(), end, u)
}

/// The test flags become whether a parallel value is not zero.
#[cycle(value)]
#[tactic(auto, unfolding(lower_base::specs::Drafts::IsMade, lower_base::specs::Drafts::InField, crate::specs::Values::tested_by, crate::specs::Values::nonzero_tested, lower_base::specs::Drafts::then_make, lower_base::specs::Drafts::in_field))]
pub fn test(view: &View, e: &TExpr, u: &mut Unit) -> Result<(), Memory>
    requires made { IsMade (tested view.now.typed.now (layout view.now.names) e.now (draft u.old)) }
    ensures draft { OnOk result (tested view.now.typed.now (layout view.now.names) e.now (draft u.old) ≡ Makes tt (draft u.new)) }
{
    if has_truth(e) {
        return test_truth(view, e, u);
    }
    let source = operand(view, test_bits(e), true, e, u)?.field();
    put(u, Instr::NeZero { source })
}

/// The test flags of a value that has a truth without its value.
#[cycle(value)]
#[tactic(auto, using(crate::proofs::Relations::compares, crate::proofs::Relations::operates), unfolding(lower_base::specs::Drafts::IsMade, lower_base::specs::Drafts::InField, crate::specs::Steps::has_truth, crate::specs::Values::truth_of, crate::specs::Values::zero_tested, crate::specs::Values::relation_by, lower_base::specs::Drafts::then_make, lower_base::specs::Drafts::in_field))]
pub fn test_truth(view: &View, e: &TExpr, u: &mut Unit) -> Result<(), Memory>
    requires truth { has_truth e.now ≡ true }
    requires made { IsMade (truth_of view.now.typed.now (layout view.now.names) e.now (draft u.old)) }
    ensures draft { OnOk result (truth_of view.now.typed.now (layout view.now.names) e.now (draft u.old) ≡ Makes tt (draft u.new)) }
{
    match e {
        TExpr::Brackets { inner, .. } => test_truth(view, inner, u),
        TExpr::Variable { variable, .. } => {
            let source = view.field(*variable, 0, u)?;
            put(u, Instr::NeZero { source })
        }
        TExpr::Unary { operand: inner, .. } => {
            let source = operand(view, test_bits(inner), true, inner, u)?.field();
            put(u, Instr::EqZero { source })
        }
        TExpr::Binary {
            ty,
            place,
            op,
            left,
            right,
        } => {
            let binary = Binary {
                place: *place,
                op: *op,
                left,
                right,
            };
            test_relation(view, ty.shape.unwrap_or(0), &binary, u)
        }
        _ => unreachable!(),
    }
}

/// The test flags become whether a relation holds, that of the binary operator.
#[cycle(value)]
#[tactic(auto, using(crate::proofs::Relations::compares, crate::proofs::Relations::operates), unfolding(lower_base::specs::Drafts::IsMade, crate::specs::Values::relation_by, lower_base::specs::Drafts::then_make))]
fn test_relation(view: &View, set: u16, binary: &Binary, u: &mut Unit) -> Result<(), Memory>
    requires relation { relates binary.now.op ≡ true }
    requires made { IsMade (relation_by set binary.now.op (next_of view.now.typed.now (layout view.now.names) (bits_of (relation_kind binary.now.left.now binary.now.right.now)) (is_quiet binary.now.right.now) binary.now.left.now) binary.now.left.now (next_of view.now.typed.now (layout view.now.names) (bits_of (relation_kind binary.now.left.now binary.now.right.now)) true binary.now.right.now) binary.now.right.now (draft u.old)) }
    ensures draft { OnOk result (relation_by set binary.now.op (next_of view.now.typed.now (layout view.now.names) (bits_of (relation_kind binary.now.left.now binary.now.right.now)) (is_quiet binary.now.right.now) binary.now.left.now) binary.now.left.now (next_of view.now.typed.now (layout view.now.names) (bits_of (relation_kind binary.now.left.now binary.now.right.now)) true binary.now.right.now) binary.now.right.now (draft u.old) ≡ Makes tt (draft u.new)) }
{
    let Operator { op, signed, .. } = binary.parallel_operator();
    let bits = relation_bits(binary.left, binary.right);
    let spare = field(u, set, bits)?;
    let a = spread_to(view, bits, is_quiet(binary.right), binary.left, spare, u)?;
    let b = right_operand(view, bits, op, binary.right, u)?;
    match machine_op(op, signed) {
        Machine::Compare(relation) => compare(relation, a, b, spare, u),
        Machine::Operate(_) => unreachable!(),
    }
}

/// `||`, or else `&&`, with a parallel operand.
#[cycle(value)]
#[tactic(auto, unfolding(lower_base::specs::Drafts::IsMade, crate::specs::Values::parallel_logical_by, crate::specs::Values::joined_of, crate::specs::Values::condition_by, lower_base::specs::Drafts::then_make))]
fn parallel_logical(
    view: &View,
    is_or: bool,
    left: &TExpr,
    right: &TExpr,
    dest: Field,
    u: &mut Unit,
) -> Result<Out, Memory>
    requires made { IsMade (parallel_logical_by is_or dest (condition_of view.now.typed.now (layout view.now.names) left.now) (condition_of view.now.typed.now (layout view.now.names) right.now) (draft u.old)) }
    ensures draft { IfOk result (λ out. parallel_logical_by is_or dest (condition_of view.now.typed.now (layout view.now.names) left.now) (condition_of view.now.typed.now (layout view.now.names) right.now) (draft u.old) ≡ Makes out (draft u.new)) }
{
    if joins(left, right) {
        join_to(view, is_or, left, right, dest, u)?;
        Ok(Out::Field(dest))
    } else {
        decide_or_narrow(view, is_or, left, right, dest, u)
    }
}

/// `||`, or else `&&`, of two fields of one bit becomes the value of a field.
#[cycle(value)]
#[tactic(auto, unfolding(lower_base::specs::Drafts::IsMade, crate::specs::Values::joined_of, crate::specs::Values::joined_by, crate::specs::Values::flag_of, crate::specs::Values::condition_by, lower_base::specs::Drafts::then_make))]
pub fn join_to(
    view: &View,
    is_or: bool,
    left: &TExpr,
    right: &TExpr,
    dest: Field,
    u: &mut Unit,
) -> Result<(), Memory>
    requires made { IsMade (joined_of view.now.typed.now (layout view.now.names) is_or dest left.now right.now (draft u.old)) }
    ensures draft { OnOk result (joined_of view.now.typed.now (layout view.now.names) is_or dest left.now right.now (draft u.old) ≡ Makes (O.Field dest) (draft u.new)) }
{
    let a = flag_operand(view, left, dest.set, u)?;
    let b = flag_operand(view, right, dest.set, u)?;
    join(is_or, dest, a, b, u)
}

/// An operand of `&&` or `||` as a field of one bit: its value, if that has one, and else its test.
#[cycle(value)]
#[tactic(auto, unfolding(lower_base::specs::Drafts::IsMade, lower_base::specs::Drafts::InField, crate::specs::Joined::flag_by, lower_base::specs::Drafts::then_make, lower_base::specs::Drafts::in_field))]
fn flag_operand(view: &View, e: &TExpr, set: u16, u: &mut Unit) -> Result<Field, Memory>
    requires made { IsMade (flag_by (is_flag e.now) set (next_of view.now.typed.now (layout view.now.names) (bits_of (kind_of e.now)) true e.now) (tested view.now.typed.now (layout view.now.names) e.now) (draft u.old)) }
    ensures draft { IfOk result (λ f. flag_by (is_flag e.now) set (next_of view.now.typed.now (layout view.now.names) (bits_of (kind_of e.now)) true e.now) (tested view.now.typed.now (layout view.now.names) e.now) (draft u.old) ≡ Makes f (draft u.new)) }
{
    if is_flag(e) {
        return Ok(operand(view, test_bits(e), true, e, u)?.field());
    }
    test(view, e, u)?;
    keep_test(set, u)
}

/// The result of `||`, or else `&&`, begins as what a decided left operand gives.
#[cycle(value)]
#[tactic(auto, unfolding(lower_base::specs::Drafts::IsMade, crate::specs::Values::narrowing_by, crate::specs::Values::condition_by, lower_base::specs::Drafts::then_make))]
fn decide_or_narrow(
    view: &View,
    is_or: bool,
    left: &TExpr,
    right: &TExpr,
    dest: Field,
    u: &mut Unit,
) -> Result<Out, Memory>
    requires made { IsMade (narrowing_by is_or dest (condition_of view.now.typed.now (layout view.now.names) left.now) (condition_of view.now.typed.now (layout view.now.names) right.now) (draft u.old)) }
    ensures draft { IfOk result (λ out. narrowing_by is_or dest (condition_of view.now.typed.now (layout view.now.names) left.now) (condition_of view.now.typed.now (layout view.now.names) right.now) (draft u.old) ≡ Makes out (draft u.new)) }
{
    let saved = flag(u, dest.set)?;
    let value = Konst::Imm(u32::from(is_or));
    put(u, Instr::MoveConstant { dest, value })?;
    if stays_scalar(left) {
        jump_or_test(view, is_or, dest, left, right, u)
    } else {
        narrow_twice(view, is_or, dest, saved, left, right, u)
    }
}

/// A scalar left operand decides by a jump over the test of the parallel right one.
#[cycle(value)]
#[tactic(auto, unfolding(lower_base::specs::Drafts::IsMade, lower_base::specs::Drafts::IsSomewhere, crate::specs::Values::decided_by, crate::specs::Values::decided, crate::specs::Values::truth_put, lower_base::specs::Drafts::then_make, lower_base::specs::Drafts::in_register))]
fn jump_or_test(
    view: &View,
    is_or: bool,
    dest: Field,
    left: &TExpr,
    right: &TExpr,
    u: &mut Unit,
) -> Result<Out, Memory>
    requires made { IsMade (decided_by is_or dest (next_of view.now.typed.now (layout view.now.names) (bits_of (kind_of left.now)) true left.now) (tested view.now.typed.now (layout view.now.names) right.now) (tested_length view.now.typed.now (layout view.now.names) right.now) (draft u.old)) }
    ensures draft { IfOk result (λ out. decided_by is_or dest (next_of view.now.typed.now (layout view.now.names) (bits_of (kind_of left.now)) true left.now) (tested view.now.typed.now (layout view.now.names) right.now) (tested_length view.now.typed.now (layout view.now.names) right.now) (draft u.old) ≡ Makes out (draft u.new)) }
{
    let a = operand(view, test_bits(left), true, left, u)?;
    let own = plus(1, test_put_length(dest.len))?;
    decide(is_or, a.operand(), test_length(view, right)?, own, u)?;
    test(view, right, u)?;
    test_value(dest, u)?;
    Ok(Out::Field(dest))
}

/// Behind a parallel left operand: the context is narrowed by it for the right one, and by that one
/// for the result; then it is restored.
#[cycle(value)]
#[tactic(auto, unfolding(lower_base::specs::Drafts::IsMade, lower_base::specs::Drafts::IsSomewhere, crate::specs::Values::limited_by, crate::specs::Values::jumped_over, crate::specs::Values::jumped, crate::specs::Values::narrowed_again, lower_base::specs::Drafts::then_make, lower_base::specs::Drafts::in_register))]
fn narrow_twice(
    view: &View,
    is_or: bool,
    dest: Field,
    saved: Field,
    left: &TExpr,
    right: &TExpr,
    u: &mut Unit,
) -> Result<Out, Memory>
    requires made { IsMade (limited_by is_or dest saved (tested view.now.typed.now (layout view.now.names) left.now) (if is_kept right.now then jumped_over is_or (next_of view.now.typed.now (layout view.now.names) (bits_of (kind_of right.now)) true right.now) else narrowed_again is_or dest.set (tested view.now.typed.now (layout view.now.names) right.now)) (draft u.old)) }
    ensures draft { IfOk result (λ out. limited_by is_or dest saved (tested view.now.typed.now (layout view.now.names) left.now) (if is_kept right.now then jumped_over is_or (next_of view.now.typed.now (layout view.now.names) (bits_of (kind_of right.now)) true right.now) else narrowed_again is_or dest.set (tested view.now.typed.now (layout view.now.names) right.now)) (draft u.old) ≡ Makes out (draft u.new)) }
{
    test(view, left, u)?;
    put(u, Instr::StoreContext { dest: saved })?;
    narrow(is_or, dest.set, u)?;
    if stays_scalar(right) {
        let b = operand(view, test_bits(right), true, right, u)?;
        jump_to_end(is_or, b.operand(), u)?;
    } else {
        test(view, right, u)?;
        narrow(is_or, dest.set, u)?;
    }
    let value = Konst::Imm(u32::from(!is_or));
    put(u, Instr::MoveConstant { dest, value })?;
    put(u, Instr::LoadContext { source: saved })?;
    Ok(Out::Field(dest))
}

/// `?:`.
#[cycle(value)]
#[tactic(auto, unfolding(lower_base::specs::Drafts::IsMade, crate::specs::Values::choice_of, crate::specs::Values::choice_by, crate::specs::Values::scalar_choice_of, crate::specs::Values::parallel_choice_of, lower_base::specs::Drafts::then_make))]
pub fn choose(
    view: &View,
    ty: ValueType,
    bits: u8,
    choice: &Choice,
    u: &mut Unit,
) -> Result<Out, Memory>
    requires made { IsMade (choice_of view.now.typed.now (layout view.now.names) ty bits choice.now.test.now choice.now.then.now choice.now.otherwise.now (draft u.old)) }
    ensures draft { IfOk result (λ out. choice_of view.now.typed.now (layout view.now.names) ty bits choice.now.test.now choice.now.then.now choice.now.otherwise.now (draft u.old) ≡ Makes out (draft u.new)) }
{
    let dest = fresh(ty, bits, u)?;
    if stays_scalar(choice.test) {
        scalar_choice(view, ty, bits, choice, dest, u)?;
    } else {
        parallel_choice(view, bits, choice, dest, u)?;
    }
    Ok(dest.out())
}

/// `?:` with a scalar condition: one of the two is evaluated, into this register or field.
#[cycle(value)]
#[tactic(auto, unfolding(lower_base::specs::Drafts::IsMade, lower_base::specs::Drafts::IsSomewhere, crate::specs::Values::scalar_choice_of, crate::specs::Values::scalar_choice_by, crate::specs::Values::decided, lower_base::specs::Drafts::then_make, lower_base::specs::Drafts::in_register))]
pub fn scalar_choice(
    view: &View,
    ty: ValueType,
    bits: u8,
    choice: &Choice,
    dest: Operand,
    u: &mut Unit,
) -> Result<(), Memory>
    requires made { IsMade (scalar_choice_of view.now.typed.now (layout view.now.names) ty bits choice.now.test.now choice.now.then.now choice.now.otherwise.now (out_of dest) (draft u.old)) }
    ensures draft { OnOk result (scalar_choice_of view.now.typed.now (layout view.now.names) ty bits choice.now.test.now choice.now.then.now choice.now.otherwise.now (out_of dest) (draft u.old) ≡ Makes (out_of dest) (draft u.new)) }
{
    let c = operand(view, test_bits(choice.test), true, choice.test, u)?;
    let length = arm_length(view, ty, bits, choice.then)?;
    let other = decide(false, c.operand(), length, 2, u)?;
    arm(view, bits, dest, choice.then, u)?;
    let target = plus(other, arm_length(view, ty, bits, choice.otherwise)?)?;
    put(u, Instr::FrontJump { target })?;
    arm(view, bits, dest, choice.otherwise, u)
}

/// `?:` with a parallel condition: both are evaluated, each where it counts.
#[cycle(value)]
#[tactic(auto, unfolding(lower_base::specs::Drafts::IsMade, lower_base::specs::Drafts::IsSomewhere, lower_base::specs::Drafts::InField, crate::specs::Values::parallel_choice_of, crate::specs::Values::parallel_choice_by, crate::specs::Values::limited, lower_base::specs::Drafts::then_make, lower_base::specs::Drafts::in_field))]
fn parallel_choice(
    view: &View,
    bits: u8,
    choice: &Choice,
    dest: Operand,
    u: &mut Unit,
) -> Result<(), Memory>
    requires made { IsMade (parallel_choice_of view.now.typed.now (layout view.now.names) bits choice.now.test.now choice.now.then.now choice.now.otherwise.now (out_of dest) (draft u.old)) }
    ensures draft { OnOk result (parallel_choice_of view.now.typed.now (layout view.now.names) bits choice.now.test.now choice.now.then.now choice.now.otherwise.now (out_of dest) (draft u.old) ≡ Makes (out_of dest) (draft u.new)) }
{
    let saved = flag(u, dest.field().set)?;
    let c = operand(
        view,
        test_bits(choice.test),
        is_quiet(choice.then),
        choice.test,
        u,
    )?;
    let condition = limit(saved, c.operand(), u)?;
    arm(view, bits, dest, choice.then, u)?;
    turn_over(saved, condition, u)?;
    arm(view, bits, dest, choice.otherwise, u)?;
    put(u, Instr::LoadContext { source: saved })
}

/// An arm of `?:` becomes the value of a register or a field; a constant does so in one instruction.
#[cycle(value)]
#[tactic(auto, unfolding(lower_base::specs::Drafts::IsMade, lower_base::specs::Drafts::IsSomewhere, crate::specs::Values::arm_of, crate::specs::Values::arm_by, crate::specs::Steps::put_value, crate::specs::Steps::put_in_field, lower_base::specs::Drafts::then_make, lower_base::specs::Drafts::in_register))]
fn arm(view: &View, bits: u8, dest: Operand, e: &TExpr, u: &mut Unit) -> Result<(), Memory>
    requires made { IsMade (arm_of view.now.typed.now (layout view.now.names) bits e.now (out_of dest) (draft u.old)) }
    ensures draft { OnOk result (arm_of view.now.typed.now (layout view.now.names) bits e.now (out_of dest) (draft u.old) ≡ Makes (out_of dest) (draft u.new)) }
{
    match word_for(dest, e) {
        Some(word) => put_word(dest, word, u),
        None => {
            let v = operand(view, bits, true, e, u)?;
            set(dest, v.operand(), u)
        }
    }
}
