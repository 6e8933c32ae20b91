//! The code of an expression whose value goes to a variable, decides where a context is narrowed, or
//! is not used. The last instruction of a value writes the variable itself.

ghost use Rattle.std.specs.Prelude.{◌≡◌, true, false, IfOk, OnOk};
ghost use Rattle.lower_base.specs.declared.emit.Out.TheVariants as O;
ghost use Rattle.lower_base.specs.Drafts.{IsMade, Makes, draft, out_of, then_make};
ghost use Rattle.lower_base.specs.Layouts.{layout};
ghost use Rattle.lower_expr.specs.Effects.{assigned_own, assignment_effect, binary_to, bits_for, cast_to, computed_to, converted_to, effect_of, field_binary_to, field_operated, fits_field, folds, goes_unchanged, keeps_bits, logical_to, moved, put_to, register_converted, register_operated, stepped_own, variable_assigned, variable_operated, variable_stepped, whole_of, with_settled, writes_itself, written_register};
ghost use Rattle.lower_expr.specs.Kinds.{done_as, unary_bits};
ghost use Rattle.lower_expr.specs.Operands.{is_plus};
ghost use Rattle.lower_expr.specs.Steps.{negated};
ghost use Rattle.lower_expr.specs.Values.{next_of, step_operation, value_of};

use crate::assign::step_operation;
use crate::conditions::{join_to, scalar_choice, test};
use crate::conversions::{operand, right_operand};
use crate::joined::{is_flag, joins};
use crate::kinds::{done_as, operation_bits, reduced_bits, unary_bits, works_within};
use crate::operands::{Own, is_plus, own_of, standing};
use crate::parts::{Assignment, Binary, Choice, Operator};
use crate::places::{read_indexed_to, read_to};
use crate::steps::{
    assign_signed, extend, operate, operate_right, put_word, set, stays_scalar, test_value, unary,
    word_for,
};
use crate::value::{binary_in_field, binary_in_register, call_to, message_to, value};
use cstar_base::{Elem, Memory, Op};
use cstar_tree::syntax::{AssignOp, StepOp};
use cstar_tree::typed::{TExpr, UnaryOp};
use lower_base::emit::{field, put, register};
use lower_base::operators::{assign_op, is_relation};
use lower_base::{Operand, Out, View};
use paris_code::{Field, Instr, Konst, Unit};

/// An expression whose value is not used.
#[tactic(auto, unfolding(lower_base::specs::Drafts::IsMade, crate::specs::Effects::effect_of, crate::specs::Effects::step_effect, lower_base::specs::Drafts::then_make))]
pub fn effect(view: &View, e: &TExpr, u: &mut Unit) -> Result<Out, Memory>
    requires made { IsMade (effect_of view.now.typed.now (layout view.now.names) e.now (draft u.old)) }
    ensures draft { IfOk result (λ out. effect_of view.now.typed.now (layout view.now.names) e.now (draft u.old) ≡ Makes out (draft u.new)) }
{
    match e {
        TExpr::Brackets { inner, .. } => effect(view, inner, u),
        TExpr::Assign {
            ty,
            place,
            op,
            target,
            value,
        } => {
            let assignment = Assignment {
                whole: e,
                place: *place,
                op: *op,
                target,
                value,
            };
            assign_effect(view, ty.elem.bits, &assignment, u)
        }
        TExpr::Step { ty, op, target, .. } => {
            let Some(own) = stepped_own(target) else {
                return value(view, ty.elem.bits, e, u);
            };
            let dest = whole(view, target, own, u)?;
            step_variable(view, target.ty().elem, *op, dest, u)?;
            Ok(dest.out())
        }
        _ => value(view, e.ty().elem.bits, e, u),
    }
}

/// An assignment whose value is not used, of which else so many bits were wanted.
#[tactic(auto, unfolding(lower_base::specs::Drafts::IsMade, crate::specs::Effects::assignment_effect, lower_base::specs::Drafts::then_make))]
fn assign_effect(
    view: &View,
    bits: u8,
    assignment: &Assignment,
    u: &mut Unit,
) -> Result<Out, Memory>
    requires made { IsMade (assignment_effect view.now.typed.now (layout view.now.names) assignment.now.op assignment.now.place assignment.now.target.now assignment.now.value.now (value_of view.now.typed.now (layout view.now.names) bits assignment.now.whole.now) (draft u.old)) }
    ensures draft { IfOk result (λ out. assignment_effect view.now.typed.now (layout view.now.names) assignment.now.op assignment.now.place assignment.now.target.now assignment.now.value.now (value_of view.now.typed.now (layout view.now.names) bits assignment.now.whole.now) (draft u.old) ≡ Makes out (draft u.new)) }
{
    match assigned_own(assignment.op, assignment.target, assignment.value) {
        Some(own) => {
            let dest = whole(view, assignment.target, own, u)?;
            assign_variable(view, assignment, dest, u)?;
            Ok(dest.out())
        }
        None => value(view, bits, assignment.whole, u),
    }
}

/// A variable, with all its bits.
#[tactic(auto, unfolding(lower_base::specs::Drafts::IsMade))]
fn whole(view: &View, target: &TExpr, own: Own, u: &mut Unit) -> Result<Operand, Memory>
    requires made { IsMade (whole_of view.now.typed.now (layout view.now.names) target.now own (draft u.old)) }
    ensures draft { IfOk result (λ v. whole_of view.now.typed.now (layout view.now.names) target.now own (draft u.old) ≡ Makes (out_of v) (draft u.new)) }
{
    standing(view, target.ty().elem.bits, own, u)
}

/// The variable that an assignment writes itself. None for a fold of a parallel value into a scalar
/// variable, and for an operator that needs more bits than the variable has.
pub fn assigned_own(op: AssignOp, target: &TExpr, value: &TExpr) -> Option<Own>
    ensures { result ≡ assigned_own op target.now value.now }
{
    let own = own_of(1, target)?;
    if writes_itself(own, op, target.ty().elem, value) {
        Some(own)
    } else {
        None
    }
}

/// Whether an assignment to the variable writes it itself.
#[tactic(auto, unfolding(crate::specs::Effects::writes_itself))]
fn writes_itself(own: Own, op: AssignOp, elem: Elem, value: &TExpr) -> bool
    ensures { result ≡ writes_itself own op elem value.now }
{
    if folds(own, value) {
        return false;
    }
    match assign_op(op) {
        None => true,
        Some(op) => own.shape.is_none() || works_within(elem, op, value),
    }
}

/// The variable that a step writes itself. None for a parallel one of `bool`, which is converted behind
/// it.
pub fn stepped_own(target: &TExpr) -> Option<Own>
    ensures { result ≡ stepped_own target.now }
{
    let own = own_of(1, target)?;
    if own.shape.is_none() || target.ty().elem.bits != 1 {
        Some(own)
    } else {
        None
    }
}

/// Whether the value is parallel and the variable scalar, so that it is folded.
#[tactic(auto, unfolding(crate::specs::Effects::folds))]
fn folds(own: Own, value: &TExpr) -> bool
    ensures { result ≡ folds own value.now }
{
    own.shape.is_none() && !stays_scalar(value)
}

/// An assignment that writes its variable itself.
#[tactic(auto, unfolding(lower_base::specs::Drafts::IsMade))]
fn assign_variable(
    view: &View,
    assignment: &Assignment,
    dest: Operand,
    u: &mut Unit,
) -> Result<(), Memory>
    requires made { IsMade (variable_assigned view.now.typed.now (layout view.now.names) assignment.now.op assignment.now.place assignment.now.target.now assignment.now.value.now (out_of dest) (draft u.old)) }
    ensures draft { OnOk result (variable_assigned view.now.typed.now (layout view.now.names) assignment.now.op assignment.now.place assignment.now.target.now assignment.now.value.now (out_of dest) (draft u.old) ≡ Makes (out_of dest) (draft u.new)) }
{
    match assign_op(assignment.op) {
        None => put_to(view, dest, assignment.value, u),
        Some(op) => operate_variable(view, assignment, op, dest, u),
    }
}

/// A value becomes that of a register, or as many of its bits as a field has that of the field. Its last
/// instruction writes there.
#[tactic(auto, unfolding(lower_base::specs::Drafts::IsMade, crate::specs::Effects::put_to))]
pub fn put_to(view: &View, dest: Operand, e: &TExpr, u: &mut Unit) -> Result<(), Memory>
    requires made { IsMade (put_to view.now.typed.now (layout view.now.names) (out_of dest) e.now (draft u.old)) }
    ensures draft { OnOk result (put_to view.now.typed.now (layout view.now.names) (out_of dest) e.now (draft u.old) ≡ Makes (out_of dest) (draft u.new)) }
{
    match word_for(dest, e) {
        Some(word) => put_word(dest, word, u),
        None => compute_to(view, dest, e, u),
    }
}

/// A value that is no constant becomes that of a register or a field.
#[tactic(auto, unfolding(lower_base::specs::Drafts::IsMade, lower_base::specs::Drafts::InRegister, lower_base::specs::Drafts::InField, crate::specs::Effects::computed_to, crate::specs::Effects::gone_to, lower_base::specs::Drafts::then_make, lower_base::specs::Drafts::in_field, lower_base::specs::Drafts::in_register))]
fn compute_to(view: &View, dest: Operand, e: &TExpr, u: &mut Unit) -> Result<(), Memory>
    requires made { IsMade (computed_to view.now.typed.now (layout view.now.names) (out_of dest) e.now (draft u.old)) }
    ensures draft { OnOk result (computed_to view.now.typed.now (layout view.now.names) (out_of dest) e.now (draft u.old) ≡ Makes (out_of dest) (draft u.new)) }
{
    match e {
        TExpr::Brackets { inner, .. } => compute_to(view, dest, inner, u),
        TExpr::Convert { ty, operand } => {
            if goes_unchanged(dest, ty.elem, operand) {
                return compute_to(view, dest, operand, u);
            }
            convert_to(view, dest, e, ty.elem, operand, u)
        }
        TExpr::Unary {
            op,
            operand: inner,
            ..
        } => {
            if is_plus(*op) {
                return compute_to(view, dest, inner, u);
            }
            negate_to(view, dest, *op, inner, u)
        }
        TExpr::Binary {
            place,
            op,
            left,
            right,
            ..
        } => {
            let binary = Binary {
                place: *place,
                op: *op,
                left,
                right,
            };
            binary_to(view, dest, e, &binary, u)
        }
        TExpr::LogicalOr { left, right, .. } => logical_to(view, dest, e, true, left, right, u),
        TExpr::LogicalAnd { left, right, .. } => logical_to(view, dest, e, false, left, right, u),
        TExpr::Pcoord { axis, .. } => {
            let field = dest.field();
            put(
                u,
                Instr::MyNewsCoordinate {
                    dest: field,
                    axis: *axis,
                },
            )
        }
        TExpr::GetChar { .. } => {
            let register = dest.register();
            put(u, Instr::FrontGetByte { dest: register })
        }
        TExpr::Choice {
            ty,
            test,
            then,
            otherwise,
        } => {
            if !stays_scalar(test) {
                return move_to(view, dest, e, u);
            }
            let choice = Choice {
                test,
                then,
                otherwise,
            };
            scalar_choice(view, *ty, bits_for(dest), &choice, dest, u)
        }
        TExpr::Variable { .. } | TExpr::Element { .. } => read_to(view, e, dest, u),
        TExpr::LeftIndex { .. } => {
            read_indexed_to(view, e, dest, u)?;
            Ok(())
        }
        TExpr::Reduce { op, operand, .. } => {
            let bits = reduced_bits(*op, operand);
            message_to(view, e, bits, operand, dest, u)?;
            Ok(())
        }
        TExpr::Scan { source, .. } => {
            if bits_for(dest) != 32 {
                return move_to(view, dest, e, u);
            }
            message_to(view, e, 32, source, dest, u)?;
            Ok(())
        }
        TExpr::Call {
            instance,
            arguments,
            ..
        } => {
            call_to(view, *instance, arguments.as_slice(), dest, u)?;
            Ok(())
        }
        _ => {
            #[tactic(auto, unfolding(crate::specs::Effects::computed_to, crate::specs::Effects::gone_to, lower_base::specs::Drafts::then_make, lower_base::specs::Drafts::in_field, lower_base::specs::Drafts::in_register))]
            return move_to(view, dest, e, u);
        }
    }
}

/// A unary operator other than `+`, whose result goes to a register or a field.
#[tactic(auto, using(crate::proofs::Unary::is_plus_done), unfolding(lower_base::specs::Drafts::IsMade, lower_base::specs::Drafts::IsSomewhere, crate::specs::Steps::negated, lower_base::specs::Drafts::then_make, lower_base::specs::Drafts::in_register, lower_base::specs::Drafts::in_field))]
fn negate_to(
    view: &View,
    dest: Operand,
    op: UnaryOp,
    inner: &TExpr,
    u: &mut Unit,
) -> Result<(), Memory>
    requires coded { is_plus op ≡ false }
    requires made { IsMade (then_make (next_of view.now.typed.now (layout view.now.names) (unary_bits (bits_for (out_of dest)) op inner.now) true inner.now (draft u.old)) (λ v after. negated (layout view.now.names) (done_as (bits_for (out_of dest)) op inner.now) (out_of dest) v after)) }
    ensures draft { OnOk result (then_make (next_of view.now.typed.now (layout view.now.names) (unary_bits (bits_for (out_of dest)) op inner.now) true inner.now (draft u.old)) (λ v after. negated (layout view.now.names) (done_as (bits_for (out_of dest)) op inner.now) (out_of dest) v after) ≡ Makes (out_of dest) (draft u.new)) }
{
    let bits = bits_for(dest);
    let v = operand(view, unary_bits(bits, op, inner), true, inner, u)?;
    unary(view, done_as(bits, op, inner), dest, v.operand(), u)
}

/// `||`, or else `&&`, the value `e`, whose result goes to a register or a field: by its operation
/// where it is one of two fields of one bit.
#[tactic(auto, unfolding(lower_base::specs::Drafts::IsMade, crate::specs::Effects::logical_to))]
fn logical_to(
    view: &View,
    dest: Operand,
    e: &TExpr,
    is_or: bool,
    left: &TExpr,
    right: &TExpr,
    u: &mut Unit,
) -> Result<(), Memory>
    requires made { IsMade (logical_to view.now.typed.now (layout view.now.names) (out_of dest) e.now is_or left.now right.now (draft u.old)) }
    ensures draft { OnOk result (logical_to view.now.typed.now (layout view.now.names) (out_of dest) e.now is_or left.now right.now (draft u.old) ≡ Makes (out_of dest) (draft u.new)) }
{
    match dest {
        Operand::Field(field) if joins(left, right) => {
            join_to(view, is_or, left, right, field, u)
        }
        _ => move_to(view, dest, e, u),
    }
}

/// How many bits of a value go to a register or a field.
#[tactic(auto, unfolding(crate::specs::Effects::bits_for))]
fn bits_for(dest: Operand) -> u8
    ensures { result ≡ bits_for (out_of dest) }
{
    match dest {
        Operand::Register(_) => 32,
        Operand::Field(field) => field.len,
    }
}

/// Whether what goes there of a converted value is that of the value itself.
#[tactic(auto, unfolding(crate::specs::Effects::goes_unchanged))]
fn goes_unchanged(dest: Operand, elem: Elem, inner: &TExpr) -> bool
    ensures { result ≡ goes_unchanged (out_of dest) elem inner.now }
{
    match dest {
        Operand::Register(_) => elem.bits == 32,
        Operand::Field(field) => keeps_bits(field.len, elem, inner),
    }
}

/// Whether so many bits of a converted value are those of the value itself: a value of one bit is a
/// truth value already.
#[tactic(auto, unfolding(crate::specs::Effects::keeps_bits))]
pub fn keeps_bits(bits: u8, elem: Elem, inner: &TExpr) -> bool
    ensures { result ≡ keeps_bits bits elem inner.now }
{
    bits <= elem.bits && (elem.bits != 1 || is_flag(inner))
}

/// A value moved to a register or a field.
#[tactic(auto, unfolding(lower_base::specs::Drafts::IsMade, lower_base::specs::Drafts::IsSomewhere, crate::specs::Effects::moved, crate::specs::Steps::put_value, crate::specs::Steps::put_in_field, lower_base::specs::Drafts::then_make, lower_base::specs::Drafts::in_register))]
pub fn move_to(view: &View, dest: Operand, e: &TExpr, u: &mut Unit) -> Result<(), Memory>
    requires made { IsMade (moved view.now.typed.now (layout view.now.names) (out_of dest) e.now (draft u.old)) }
    ensures draft { OnOk result (moved view.now.typed.now (layout view.now.names) (out_of dest) e.now (draft u.old) ≡ Makes (out_of dest) (draft u.new)) }
{
    let v = operand(view, bits_for(dest), true, e, u)?;
    set(dest, v.operand(), u)
}

/// A value `e`, which is `inner` converted to a type.
#[tactic(auto, unfolding(lower_base::specs::Drafts::IsMade, crate::specs::Effects::converted_to))]
fn convert_to(
    view: &View,
    dest: Operand,
    e: &TExpr,
    elem: Elem,
    inner: &TExpr,
    u: &mut Unit,
) -> Result<(), Memory>
    requires made { IsMade (converted_to view.now.typed.now (layout view.now.names) (out_of dest) e.now elem inner.now (draft u.old)) }
    ensures draft { OnOk result (converted_to view.now.typed.now (layout view.now.names) (out_of dest) e.now elem inner.now (draft u.old) ≡ Makes (out_of dest) (draft u.new)) }
{
    match dest {
        Operand::Register(register) => convert_to_register(view, register, elem, inner, u),
        Operand::Field(field) => cast_to(view, field, e, elem, inner, u),
    }
}

/// A value `e` that goes to a field, which is `inner` converted to a type.
#[tactic(auto, unfolding(lower_base::specs::Drafts::IsMade, lower_base::specs::Drafts::IsSomewhere, crate::specs::Effects::cast_to, crate::specs::Values::truth_put, crate::specs::Values::extended, lower_base::specs::Drafts::then_make, lower_base::specs::Drafts::in_field))]
fn cast_to(
    view: &View,
    dest: Field,
    e: &TExpr,
    elem: Elem,
    inner: &TExpr,
    u: &mut Unit,
) -> Result<(), Memory>
    requires made { IsMade (cast_to view.now.typed.now (layout view.now.names) dest e.now elem inner.now (draft u.old)) }
    ensures draft { OnOk result (cast_to view.now.typed.now (layout view.now.names) dest e.now elem inner.now (draft u.old) ≡ Makes (O.Field dest) (draft u.new)) }
{
    if stays_scalar(inner) {
        move_to(view, Operand::Field(dest), e, u)
    } else if elem.bits == 1 {
        test(view, inner, u)?;
        test_value(dest, u)
    } else {
        let v = operand(view, elem.bits, true, inner, u)?;
        extend(elem.signed, dest, v.operand(), u)
    }
}

/// A value converted into a register.
#[tactic(auto, unfolding(lower_base::specs::Drafts::IsMade, lower_base::specs::Drafts::InRegister, crate::specs::Effects::register_converted, lower_base::specs::Drafts::then_make, lower_base::specs::Drafts::in_register))]
fn convert_to_register(
    view: &View,
    dest: u32,
    kind: Elem,
    inner: &TExpr,
    u: &mut Unit,
) -> Result<(), Memory>
    requires made { IsMade (register_converted view.now.typed.now (layout view.now.names) dest kind inner.now (draft u.old)) }
    ensures draft { OnOk result (register_converted view.now.typed.now (layout view.now.names) dest kind inner.now (draft u.old) ≡ Makes (O.Scalar dest) (draft u.new)) }
{
    let source = operand(view, 32, true, inner, u)?.register();
    put(u, Instr::FrontConvert { dest, source, kind })
}

/// A binary operator, the value `e`, whose result goes to a register or a field.
#[tactic(auto, unfolding(lower_base::specs::Drafts::IsMade, crate::specs::Effects::binary_to))]
fn binary_to(
    view: &View,
    dest: Operand,
    e: &TExpr,
    binary: &Binary,
    u: &mut Unit,
) -> Result<(), Memory>
    requires made { IsMade (binary_to view.now.typed.now (layout view.now.names) (out_of dest) e.now binary.now.op binary.now.place binary.now.left.now binary.now.right.now (draft u.old)) }
    ensures draft { OnOk result (binary_to view.now.typed.now (layout view.now.names) (out_of dest) e.now binary.now.op binary.now.place binary.now.left.now binary.now.right.now (draft u.old) ≡ Makes (out_of dest) (draft u.new)) }
{
    match dest {
        Operand::Register(register) => binary_in_register(view, 32, binary, register, u),
        Operand::Field(field) => binary_to_field(view, field, e, binary, u),
    }
}

/// A binary operator, the value `e`, whose result goes to a field: by its last instruction where it
/// works at as many bits.
#[tactic(auto, unfolding(lower_base::specs::Drafts::IsMade, crate::specs::Effects::field_binary_to, lower_base::specs::Drafts::then_make))]
fn binary_to_field(
    view: &View,
    dest: Field,
    e: &TExpr,
    binary: &Binary,
    u: &mut Unit,
) -> Result<(), Memory>
    requires made { IsMade (field_binary_to view.now.typed.now (layout view.now.names) dest e.now binary.now.op binary.now.place binary.now.left.now binary.now.right.now (draft u.old)) }
    ensures draft { OnOk result (field_binary_to view.now.typed.now (layout view.now.names) dest e.now binary.now.op binary.now.place binary.now.left.now binary.now.right.now (draft u.old) ≡ Makes (O.Field dest) (draft u.new)) }
{
    if !fits_field(dest.len, binary.op, binary.right) {
        return move_to(view, Operand::Field(dest), e, u);
    }
    let spare = field(u, dest.set, binary.operand_bits(dest.len))?;
    binary_in_field(view, dest.len, binary, dest, spare, u)
}

/// Whether a binary operator works at as many bits as the field has to which it goes.
#[tactic(auto, unfolding(crate::specs::Effects::fits_field))]
pub fn fits_field(bits: u8, op: Op, right: &TExpr) -> bool
    ensures { result ≡ fits_field bits op right.now }
{
    is_relation(op) || operation_bits(bits, op, right) == bits
}

/// The register that an operation writes: that of the variable, if its type has 32 bits.
#[tactic(auto, unfolding(crate::specs::Effects::written_register))]
fn written_register(elem: Elem, variable: u32, u: &mut Unit) -> Result<u32, Memory>
    ensures draft { IfOk result (λ r. written_register elem variable (draft u.old) ≡ Makes r (draft u.new)) }
{
    if elem.bits == 32 {
        Ok(variable)
    } else {
        register(u)
    }
}

/// Converts what was written into the variable, if its type is narrow.
#[tactic(auto, unfolding(crate::specs::Effects::with_settled))]
fn settle(kind: Elem, source: u32, dest: u32, u: &mut Unit) -> Result<(), Memory>
    ensures draft { OnOk result (with_settled kind source dest (draft u.old) ≡ draft u.new) }
{
    if kind.bits == 32 {
        return Ok(());
    }
    put(u, Instr::FrontConvert { dest, source, kind })
}

/// An operator on a variable and a value.
#[tactic(auto, unfolding(lower_base::specs::Drafts::IsMade, crate::specs::Effects::variable_operated))]
fn operate_variable(
    view: &View,
    assignment: &Assignment,
    op: Op,
    dest: Operand,
    u: &mut Unit,
) -> Result<(), Memory>
    requires made { IsMade (variable_operated view.now.typed.now (layout view.now.names) op assignment.now.place assignment.now.target.now assignment.now.value.now (out_of dest) (draft u.old)) }
    ensures draft { OnOk result (variable_operated view.now.typed.now (layout view.now.names) op assignment.now.place assignment.now.target.now assignment.now.value.now (out_of dest) (draft u.old) ≡ Makes (out_of dest) (draft u.new)) }
{
    let value = assignment.value;
    let elem = assignment.target.ty().elem;
    let signed = assign_signed(op, elem, value.ty().elem);
    let operator = Operator {
        op,
        signed,
        place: assignment.place,
    };
    match dest {
        Operand::Register(register) => operate_register(view, operator, elem, register, value, u),
        Operand::Field(field) => operate_field(view, operator, field, value, u),
    }
}

/// An operator on a scalar variable.
#[tactic(auto, unfolding(lower_base::specs::Drafts::IsMade, lower_base::specs::Drafts::InRegister, crate::specs::Effects::register_operated, lower_base::specs::Drafts::then_make, lower_base::specs::Drafts::in_register))]
fn operate_register(
    view: &View,
    operator: Operator,
    elem: Elem,
    variable: u32,
    value: &TExpr,
    u: &mut Unit,
) -> Result<(), Memory>
    requires made { IsMade (register_operated view.now.typed.now (layout view.now.names) operator.op operator.signed operator.place elem variable value.now (draft u.old)) }
    ensures draft { OnOk result (register_operated view.now.typed.now (layout view.now.names) operator.op operator.signed operator.place elem variable value.now (draft u.old) ≡ Makes (O.Scalar variable) (draft u.new)) }
{
    let right = operand(view, 32, true, value, u)?.register();
    let written = written_register(elem, variable, u)?;
    operate(operator, written, variable, right, u)?;
    settle(elem, written, variable, u)
}

/// An operator on a parallel variable, at its bits.
#[tactic(auto, unfolding(lower_base::specs::Drafts::IsMade, crate::specs::Effects::field_operated, lower_base::specs::Drafts::then_make))]
fn operate_field(
    view: &View,
    operator: Operator,
    variable: Field,
    value: &TExpr,
    u: &mut Unit,
) -> Result<(), Memory>
    requires made { IsMade (field_operated view.now.typed.now (layout view.now.names) operator.op operator.signed operator.place variable value.now (draft u.old)) }
    ensures draft { OnOk result (field_operated view.now.typed.now (layout view.now.names) operator.op operator.signed operator.place variable value.now (draft u.old) ≡ Makes (O.Field variable) (draft u.new)) }
{
    let spare = field(u, variable.set, variable.len)?;
    let right = right_operand(view, variable.len, operator.op, value, u)?;
    operate_right(operator, variable, variable, right, spare, u)
}

/// A step of a variable.
#[tactic(auto, unfolding(crate::specs::Effects::variable_stepped, lower_base::specs::Drafts::then_make))]
fn step_variable(
    view: &View,
    elem: Elem,
    op: StepOp,
    dest: Operand,
    u: &mut Unit,
) -> Result<(), Memory>
    ensures draft { OnOk result (variable_stepped (layout view.now.names) elem op (out_of dest) (draft u.old) ≡ Makes (out_of dest) (draft u.new)) }
{
    let op = step_operation(op);
    match dest {
        Operand::Register(left) => {
            let right = view.word(1, u)?;
            let written = written_register(elem, left, u)?;
            put(
                u,
                Instr::FrontOperate {
                    op,
                    dest: written,
                    left,
                    right,
                },
            )?;
            settle(elem, written, left, u)
        }
        Operand::Field(variable) => put(
            u,
            Instr::OperateConstant {
                op,
                dest: variable,
                left: variable,
                right: Konst::Imm(1),
            },
        ),
    }
}
