//! The code of an expression, of whose value so many bits are wanted where it is parallel: its field has
//! so many. A value goes to a register or a field that is taken first; those of its parts are taken
//! behind it, in the order of the text.

ghost use Rattle.std.specs.Prelude.{◌≡◌, [], true, IfOk, OnOk};
ghost use Rattle.lower_base.specs.Drafts.{IsMade, Makes, draft, out_of};
ghost use Rattle.lower_base.specs.Layouts.{layout};
ghost use Rattle.lower_base.specs.declared.emit.Out.TheVariants as O;
ghost use Rattle.lower_expr.specs.Kinds.{done_as, unary_bits};
ghost use Rattle.lower_expr.specs.Values.{binary_of, call_of, field_binary_of, message_to, next_of, print_of, register_binary_of, spare_for, unary_by, value_of, values_in};

use crate::conditions::{choose, logical};
use crate::conversions::{cast, operand, right_operand, spread_to};
use crate::frames::enter;
use crate::kinds::{done_as, list_bits, reduced_bits, result_bits, unary_bits};
use crate::leaves::{cast_all, coordinate, next_byte};
use crate::listed::{call_is_made, print_is_made};
use crate::operands::{are_quiet, is_plus, is_quiet};
use crate::parts::{Assignment, Binary, Choice};
use crate::places::{assign, read_indexed_to, read_to, step};
use crate::steps::{constant, convert, operate, operate_right, print_pieces, stays_scalar, unary};
use cstar_base::{Memory, Op};
use cstar_tree::typed::{Piece, TExpr, UnaryOp, ValueType};
use lower_base::emit::{field, first_bits, fresh, register};
use lower_base::operators::is_relation;
use lower_base::{Operand, Out, View};
use lower_comm::messages::comm_in;
use paris_code::{Field, Unit};

/// So many bits of the value of an expression. That of a promoted scalar stays in its register.
#[cycle(value)]
#[tactic(auto, using(crate::proofs::Lists::value_of_left_index), unfolding(lower_base::specs::Drafts::IsMade, lower_base::specs::Drafts::InRegister, lower_base::specs::Drafts::IsSomewhere, crate::specs::Values::value_of, crate::specs::Values::spot_of, crate::specs::Values::spread_of, crate::specs::Values::binary_of, crate::specs::Values::choice_of, crate::specs::Values::arm_of, crate::specs::Values::cast_of, crate::specs::Values::register_cast_by, crate::specs::Steps::converted_in_place, crate::specs::Values::lowest, crate::specs::Values::read_by, crate::specs::Values::index_read_by, crate::specs::Values::message_by, lower_base::specs::Drafts::then_make, lower_base::specs::Drafts::in_register))]
pub fn value(view: &View, bits: u8, e: &TExpr, u: &mut Unit) -> Result<Out, Memory>
    requires made { IsMade (value_of view.now.typed.now (layout view.now.names) bits e.now (draft u.old)) }
    ensures draft { IfOk result (λ out. value_of view.now.typed.now (layout view.now.names) bits e.now (draft u.old) ≡ Makes out (draft u.new)) }
{
    match e {
        TExpr::Number { value, .. }
        | TExpr::PositionsOf { value, .. }
        | TExpr::RankOf { value, .. }
        | TExpr::DimOf { value, .. } => Ok(Out::Scalar(constant(*value, u)?)),
        TExpr::Dot { ty, axis } | TExpr::Pcoord { ty, axis } => coordinate(
            ty.shape, bits, *axis, u,
        ),
        TExpr::GetChar { .. } => next_byte(u),
        TExpr::Brackets { inner: operand, .. } | TExpr::Promote { operand, .. } => {
            value(view, bits, operand, u)
        }
        TExpr::Convert { ty, operand } => {
            if !stays_scalar(operand) {
                return cast(view, bits, *ty, operand, u);
            }
            let v = value(view, bits, operand, u)?.operand();
            convert(v, ty.elem, u)?;
            Ok(v.out())
        }
        TExpr::Casts { elems, operand, .. } => {
            let v = value(view, bits, operand, u)?;
            cast_all(elems.as_slice(), v.register(), u)?;
            Ok(v)
        }
        TExpr::ParallelCast { ty, operand } => cast(view, bits, *ty, operand, u),
        TExpr::Unary { ty, op, operand } => prefixed(view, *ty, bits, *op, operand, u),
        TExpr::Binary {
            ty,
            place,
            op,
            left,
            right,
        } => {
            let binary = Binary {
                place: *place,
                op: *op,
                left,
                right,
            };
            operate_binary(view, ty.shape, bits, &binary, u)
        }
        TExpr::LogicalOr { ty, left, right } => logical(view, true, ty.shape, bits, left, right, u),
        TExpr::LogicalAnd { ty, left, right } => logical(
            view, false, ty.shape, bits, left, right, u,
        ),
        TExpr::Choice {
            ty,
            test,
            then,
            otherwise,
        } => {
            choose(
                view,
                *ty,
                bits,
                &Choice {
                    test,
                    then,
                    otherwise,
                },
                u,
            )
        }
        TExpr::Variable { ty, .. } | TExpr::Element { ty, .. } => {
            let dest = fresh(*ty, bits, u)?;
            read_to(view, e, dest, u)?;
            Ok(dest.out())
        }
        TExpr::LeftIndex { ty, .. } => {
            let dest = fresh(*ty, bits, u)?;
            read_indexed_to(view, e, dest, u)
        }
        TExpr::Assign {
            place,
            op,
            target,
            value,
            ..
        } => {
            let assignment = Assignment {
                whole: e,
                place: *place,
                op: *op,
                target,
                value,
            };
            assign(view, bits, &assignment, u)
        }
        TExpr::Step {
            op,
            order,
            target,
            ..
        } => step(view, e, bits, *op, *order, target, u),
        TExpr::Reduce { ty, op, operand } => {
            let dest = fresh(*ty, 32, u)?;
            let own = reduced_bits(*op, operand);
            Ok(message_to(view, e, own, operand, dest, u)?.shortened(bits))
        }
        TExpr::Scan { ty, source, .. } => {
            let dest = fresh(*ty, 32, u)?;
            Ok(message_to(view, e, 32, source, dest, u)?.shortened(bits))
        }
        TExpr::Enumerate { ty, .. } => {
            let dest = fresh(*ty, 32, u)?;
            let v = comm_in(view, e, Out::Nothing, &[], dest.out(), u)?;
            Ok(v.shortened(bits))
        }
        TExpr::Call {
            ty,
            instance,
            arguments,
        } => {
            let given = arguments.as_slice();
            call_is_made(view, bits, e, *ty, *instance, arguments, given, u);
            let dest = fresh(*ty, bits, u)?;
            call_to(view, *instance, given, dest, u)
        }
        TExpr::Printf {
            ty,
            pieces,
            arguments,
        } => {
            let texts = pieces.as_slice();
            let given = arguments.as_slice();
            print_is_made(view, bits, e, *ty, pieces, arguments, texts, given, u);
            print(view, texts, given, u)
        }
    }
}

/// A unary operator; `+` has no code.
#[cycle(value)]
#[tactic(auto, using(crate::proofs::Unary::is_plus_done), unfolding(lower_base::specs::Drafts::IsMade, lower_base::specs::Drafts::IsSomewhere, crate::specs::Values::unary_by, crate::specs::Steps::negated, lower_base::specs::Drafts::then_make, lower_base::specs::Drafts::in_register, lower_base::specs::Drafts::in_field))]
fn prefixed(
    view: &View,
    ty: ValueType,
    bits: u8,
    op: UnaryOp,
    inner: &TExpr,
    u: &mut Unit,
) -> Result<Out, Memory>
    requires made { IsMade (unary_by (layout view.now.names) ty bits (done_as bits op inner.now) (value_of view.now.typed.now (layout view.now.names) bits inner.now) (next_of view.now.typed.now (layout view.now.names) (unary_bits bits op inner.now) true inner.now) (draft u.old)) }
    ensures draft { IfOk result (λ out. unary_by (layout view.now.names) ty bits (done_as bits op inner.now) (value_of view.now.typed.now (layout view.now.names) bits inner.now) (next_of view.now.typed.now (layout view.now.names) (unary_bits bits op inner.now) true inner.now) (draft u.old) ≡ Makes out (draft u.new)) }
{
    if is_plus(op) {
        return value(view, bits, inner, u);
    }
    let dest = fresh(ty, bits, u)?;
    let v = operand(view, unary_bits(bits, op, inner), true, inner, u)?;
    unary(view, done_as(bits, op, inner), dest, v.operand(), u)?;
    Ok(dest.out())
}

/// A binary operator, into a fresh register or field.
#[cycle(value)]
#[tactic(auto, unfolding(lower_base::specs::Drafts::IsMade, crate::specs::Values::binary_of, crate::specs::Values::binary_by, crate::specs::Values::parallel_binary_by, crate::specs::Values::register_binary_of, crate::specs::Values::field_binary_of, crate::specs::Values::lowest, lower_base::specs::Drafts::shortened, lower_base::specs::Drafts::then_make))]
fn operate_binary(
    view: &View,
    shape: Option<u16>,
    bits: u8,
    binary: &Binary,
    u: &mut Unit,
) -> Result<Out, Memory>
    requires made { IsMade (binary_of view.now.typed.now (layout view.now.names) shape bits binary.now.op binary.now.place binary.now.left.now binary.now.right.now (draft u.old)) }
    ensures draft { IfOk result (λ out. binary_of view.now.typed.now (layout view.now.names) shape bits binary.now.op binary.now.place binary.now.left.now binary.now.right.now (draft u.old) ≡ Makes out (draft u.new)) }
{
    match shape {
        None => {
            let dest = register(u)?;
            binary_in_register(view, bits, binary, dest, u)?;
            Ok(Out::Scalar(dest))
        }
        Some(set) => {
            let dest = field(u, set, result_bits(bits, binary.op, binary.right))?;
            let spare = spare_for(binary.op, dest, binary.operand_bits(bits), u)?;
            binary_in_field(view, bits, binary, dest, spare, u)?;
            Ok(Out::Field(first_bits(bits, dest)))
        }
    }
}

/// The field of what has to be spread for a binary operator: the result's own, but for a relation, whose
/// operands have other bits.
#[tactic(auto, unfolding(crate::specs::Values::spare_for))]
fn spare_for(op: Op, dest: Field, bits: u8, u: &mut Unit) -> Result<Field, Memory>
    ensures draft { IfOk result (λ f. spare_for op dest bits (draft u.old) ≡ Makes f (draft u.new)) }
{
    if is_relation(op) {
        field(u, dest.set, bits)
    } else {
        Ok(dest)
    }
}

/// A binary operator of scalars, whose last instruction writes this register.
#[cycle(value)]
#[tactic(auto, unfolding(lower_base::specs::Drafts::IsMade, lower_base::specs::Drafts::InRegister, crate::specs::Values::register_binary_of, crate::specs::Values::registers_by, lower_base::specs::Drafts::then_make, lower_base::specs::Drafts::in_register))]
pub fn binary_in_register(
    view: &View,
    bits: u8,
    binary: &Binary,
    dest: u32,
    u: &mut Unit,
) -> Result<(), Memory>
    requires made { IsMade (register_binary_of view.now.typed.now (layout view.now.names) bits binary.now.op binary.now.place binary.now.left.now binary.now.right.now dest (draft u.old)) }
    ensures draft { OnOk result (register_binary_of view.now.typed.now (layout view.now.names) bits binary.now.op binary.now.place binary.now.left.now binary.now.right.now dest (draft u.old) ≡ Makes (O.Scalar dest) (draft u.new)) }
{
    let operator = binary.operator();
    let own = binary.operand_bits(bits);
    let a = operand(view, own, is_quiet(binary.right), binary.left, u)?.register();
    let b = operand(view, own, true, binary.right, u)?.register();
    operate(operator, dest, a, b, u)
}

/// A parallel binary operator, of whose result so many bits are wanted, and whose last instruction
/// writes this field. A scalar operand that the operation does not take is spread into `spare`.
#[cycle(value)]
#[tactic(auto, unfolding(lower_base::specs::Drafts::IsMade, crate::specs::Values::field_binary_of, crate::specs::Values::fields_by, lower_base::specs::Drafts::then_make))]
pub fn binary_in_field(
    view: &View,
    bits: u8,
    binary: &Binary,
    dest: Field,
    spare: Field,
    u: &mut Unit,
) -> Result<(), Memory>
    requires made { IsMade (field_binary_of view.now.typed.now (layout view.now.names) bits binary.now.op binary.now.place binary.now.left.now binary.now.right.now dest spare (draft u.old)) }
    ensures draft { OnOk result (field_binary_of view.now.typed.now (layout view.now.names) bits binary.now.op binary.now.place binary.now.left.now binary.now.right.now dest spare (draft u.old) ≡ Makes (O.Field dest) (draft u.new)) }
{
    let operator = binary.parallel_operator();
    let own = binary.operand_bits(bits);
    let a = spread_to(view, own, is_quiet(binary.right), binary.left, spare, u)?;
    let b = right_operand(view, own, binary.op, binary.right, u)?;
    operate_right(operator, dest, a, b, spare, u)
}

/// The values of a list of expressions, in the order of the text, each as long as its own type or of 32
/// bits. Variables are used where they stand if all are quiet.
#[cycle(value)]
#[tactic(auto, unfolding(lower_base::specs::Drafts::IsMade, crate::specs::Values::values_in, lower_base::specs::Drafts::then_make))]
pub fn values(
    view: &View,
    own: bool,
    quiet: bool,
    es: &[TExpr],
    u: &mut Unit,
) -> Result<Vec<Out>, Memory>
    requires made { IsMade (values_in view.now.typed.now (layout view.now.names) own quiet es.now [] (draft u.old)) }
    ensures draft { IfOk result (λ outs. values_in view.now.typed.now (layout view.now.names) own quiet es.now [] (draft u.old) ≡ Makes outs.items (draft u.new)) }
{
    let mut outs = Vec::new(view.alloc);
    for e in es {
        let v = operand(view, list_bits(own, e), quiet, e, u)?;
        outs.push(v)?;
    }
    Ok(outs)
}

/// A reduction or a scan of so many bits of this operand, to a register or a field.
#[cycle(value)]
#[tactic(auto, unfolding(lower_base::specs::Drafts::IsMade, crate::specs::Values::message_to, lower_base::specs::Drafts::then_make))]
pub fn message_to(
    view: &View,
    e: &TExpr,
    bits: u8,
    source: &TExpr,
    dest: Operand,
    u: &mut Unit,
) -> Result<Out, Memory>
    requires made { IsMade (message_to view.now.typed.now (layout view.now.names) e.now (next_of view.now.typed.now (layout view.now.names) bits true source.now) (out_of dest) (draft u.old)) }
    ensures draft { IfOk result (λ out. message_to view.now.typed.now (layout view.now.names) e.now (next_of view.now.typed.now (layout view.now.names) bits true source.now) (out_of dest) (draft u.old) ≡ Makes out (draft u.new)) }
{
    let v = operand(view, bits, true, source, u)?;
    comm_in(view, e, Out::Nothing, &[v], dest.out(), u)
}

/// A call, behind the values of its arguments, whose result goes to a register or a field.
#[cycle(value)]
#[tactic(auto, unfolding(lower_base::specs::Drafts::IsMade, crate::specs::Values::call_of, crate::specs::Values::call_to, lower_base::specs::Drafts::then_make))]
pub fn call_to(
    view: &View,
    instance: u32,
    arguments: &[TExpr],
    dest: Operand,
    u: &mut Unit,
) -> Result<Out, Memory>
    requires made { IsMade (call_of view.now.typed.now (layout view.now.names) instance arguments.now (out_of dest) (draft u.old)) }
    ensures draft { IfOk result (λ out. call_of view.now.typed.now (layout view.now.names) instance arguments.now (out_of dest) (draft u.old) ≡ Makes out (draft u.new)) }
{
    let outs = values(view, true, are_quiet(arguments), arguments, u)?;
    enter(view, instance, outs.as_slice(), dest, u)
}

/// `printf`, behind the values of its arguments.
#[cycle(value)]
#[tactic(auto, unfolding(lower_base::specs::Drafts::IsMade, crate::specs::Values::print_of, lower_base::specs::Drafts::then_make))]
fn print(view: &View, pieces: &[Piece], arguments: &[TExpr], u: &mut Unit) -> Result<Out, Memory>
    requires made { IsMade (print_of view.now.typed.now (layout view.now.names) pieces.now arguments.now (draft u.old)) }
    ensures draft { IfOk result (λ out. print_of view.now.typed.now (layout view.now.names) pieces.now arguments.now (draft u.old) ≡ Makes out (draft u.new)) }
{
    let outs = values(view, false, are_quiet(arguments), arguments, u)?;
    print_pieces(view.alloc, pieces, outs.as_slice(), u)?;
    Ok(Out::Nothing)
}
