//! Variables, elements and left indexes: where they are, what is read there, and what assignments and
//! steps do there.

ghost use Rattle.std.specs.Prelude.{◌≡◌, true, false, IfOk, OnOk};
ghost use Rattle.cstar_tree.specs.Typed.{type_of};
ghost use Rattle.lower_base.specs.Drafts.{IsMade, Makes, draft, out_of};
ghost use Rattle.lower_base.specs.Layouts.{layout};
ghost use Rattle.lower_comm.specs.Messages.{is_left_index};
ghost use Rattle.lower_expr.specs.Kinds.{operator_bits};
ghost use Rattle.lower_expr.specs.Operands.{all_quiet};
ghost use Rattle.lower_expr.specs.Values.{assign_by, index_read_to, indexed_spot, read_to, spot_of, step_by, taken_bits, updated_by, value_of, values_in};

use crate::assign::{Located, fold_into_register, is_send, step_in, update_field, update_register};
use crate::conversions::{operand, right_operand, spread};
use crate::kinds::operator_bits;
use crate::leaves::news_to;
use crate::listed::spot_is_made;
use crate::operands::are_quiet;
use crate::parts::{Assignment, Operator};
use crate::positions::known_position;
use crate::spots::{Spot, check_index, load, store};
use crate::steps::{assign_signed, stays_scalar};
use crate::value::{value, values};
use cstar_base::{Memory, Op};
use cstar_tree::syntax::StepOp;
use cstar_tree::typed::{StepOrder, TExpr};
use lower_base::emit::{field, fresh, register};
use lower_base::operators::assign_op;
use lower_base::{Operand, Out, View};
use lower_comm::Indexes;
use lower_comm::messages::goes_by_news;
use paris_code::Unit;

/// The value of a variable, of an element of an array, or through a left index, in a register or a
/// field.
#[cycle(value)]
#[tactic(auto, unfolding(lower_base::specs::Drafts::IsMade, crate::specs::Values::read_to, lower_base::specs::Drafts::then_make))]
pub fn read_to(view: &View, e: &TExpr, dest: Operand, u: &mut Unit) -> Result<(), Memory>
    requires made { IsMade (read_to view.now.typed.now (layout view.now.names) e.now (spot_of view.now.typed.now (layout view.now.names) e.now) (out_of dest) (draft u.old)) }
    ensures draft { OnOk result (read_to view.now.typed.now (layout view.now.names) e.now (spot_of view.now.typed.now (layout view.now.names) e.now) (out_of dest) (draft u.old) ≡ Makes (out_of dest) (draft u.new)) }
{
    let spot = locate(view, e, u)?;
    load(view, e, spot, dest, u)
}

/// A get, or a read of one element, to a register or a field.
#[cycle(value)]
#[tactic(auto, unfolding(lower_base::specs::Drafts::IsMade, crate::specs::Values::index_read_to))]
pub fn read_indexed_to(view: &View, e: &TExpr, dest: Operand, u: &mut Unit) -> Result<Out, Memory>
    requires made { IsMade (index_read_to view.now.typed.now (layout view.now.names) e.now (spot_of view.now.typed.now (layout view.now.names) e.now) (out_of dest) (draft u.old)) }
    ensures draft { IfOk result (λ out. index_read_to view.now.typed.now (layout view.now.names) e.now (spot_of view.now.typed.now (layout view.now.names) e.now) (out_of dest) (draft u.old) ≡ Makes out (draft u.new)) }
{
    if goes_by_news(e) {
        news_to(view, e, dest, u)
    } else {
        read_to(view, e, dest, u)?;
        Ok(dest.out())
    }
}

/// Locates a target or a reference: its indexes, their range check, and the address.
#[cycle(value)]
#[tactic(auto, unfolding(lower_base::specs::Drafts::IsMade, lower_base::specs::Drafts::InRegister, crate::specs::Values::spot_of, crate::specs::Values::element_spot, crate::specs::Spots::variable_spot, lower_comm::specs::Messages::is_left_index, lower_base::specs::Drafts::then_make, lower_base::specs::Drafts::in_register))]
fn locate(view: &View, e: &TExpr, u: &mut Unit) -> Result<Spot, Memory>
    requires made { IsMade (spot_of view.now.typed.now (layout view.now.names) e.now (draft u.old)) }
    ensures draft { IfOk result (λ there. spot_of view.now.typed.now (layout view.now.names) e.now (draft u.old) ≡ Makes there (draft u.new)) }
{
    match e {
        TExpr::Brackets { inner, .. } => locate(view, inner, u),
        TExpr::Variable { ty, variable } => match ty.shape {
            Some(_) => Ok(Spot::Whole(*variable)),
            None => Ok(Spot::Register(view.register(*variable)?)),
        },
        TExpr::Element {
            ty,
            place,
            array,
            index,
        } => {
            let index = value(view, 32, index, u)?.register();
            let set = ty.shape.unwrap_or(0);
            check_index(view, *array, set, *place, index, u)?;
            Ok(Spot::Element(*array, index))
        }
        TExpr::LeftIndex {
            ty,
            place,
            indexes,
            variable,
            of,
        } => {
            let given = indexes.as_slice();
            spot_is_made(view, e, *ty, *place, indexes, *variable, *of, given, u);
            locate_indexed(view, given, e, u)
        }
        _ => unreachable!(),
    }
}

/// Locates a left index by these indexes, or by its position where that is known.
#[cycle(value)]
#[tactic(auto, unfolding(lower_base::specs::Drafts::IsMade, crate::specs::Values::indexed_spot, lower_comm::specs::Messages::located, lower_comm::specs::Messages::is_left_index, lower_base::specs::Drafts::then_make))]
fn locate_indexed(view: &View, indexes: &[TExpr], e: &TExpr, u: &mut Unit) -> Result<Spot, Memory>
    requires left_index { is_left_index e.now ≡ true }
    requires made { IsMade (indexed_spot view.now.typed.now (layout view.now.names) e.now (values_in view.now.typed.now (layout view.now.names) false (all_quiet indexes.now) indexes.now) (draft u.old)) }
    ensures draft { IfOk result (λ there. indexed_spot view.now.typed.now (layout view.now.names) e.now (values_in view.now.typed.now (layout view.now.names) false (all_quiet indexes.now) indexes.now) (draft u.old) ≡ Makes there (draft u.new)) }
{
    let TExpr::LeftIndex {
        ty,
        place,
        indexes: each,
        of,
        ..
    } = e
    else {
        unreachable!()
    };
    if let Some(position) = known_position(view, e)? {
        let at = view.word(position, u)?;
        return Ok(Spot::Indexed(Out::Scalar(at)));
    }
    let at = fresh(*ty, 32, u)?;
    let parts = values(view, false, are_quiet(indexes), indexes, u)?;
    let reference = Indexes {
        place: *place,
        of: *of,
        each: each.as_slice(),
    };
    reference.locate(view.alloc, parts.as_slice(), at, u)?;
    Ok(Spot::Indexed(at.out()))
}

/// An assignment.
#[cycle(value)]
#[tactic(auto, unfolding(lower_base::specs::Drafts::IsMade, crate::specs::Values::assign_by, crate::specs::Values::sent_by, crate::specs::Values::assigned_by, crate::specs::Values::plainly_set_by, crate::specs::Values::set_by, crate::specs::Values::spread_of, crate::specs::Values::lowest, crate::specs::Kinds::assigned_bits, lower_base::specs::Drafts::then_make))]
pub fn assign(view: &View, bits: u8, assignment: &Assignment, u: &mut Unit) -> Result<Out, Memory>
    requires made { IsMade (assign_by view.now.typed.now (layout view.now.names) assignment.now.whole.now bits assignment.now.op assignment.now.place assignment.now.target.now assignment.now.value.now (spot_of view.now.typed.now (layout view.now.names) assignment.now.target.now) (value_of view.now.typed.now (layout view.now.names) (taken_bits bits assignment.now.op assignment.now.target.now assignment.now.value.now) assignment.now.value.now) (draft u.old)) }
    ensures draft { IfOk result (λ out. assign_by view.now.typed.now (layout view.now.names) assignment.now.whole.now bits assignment.now.op assignment.now.place assignment.now.target.now assignment.now.value.now (spot_of view.now.typed.now (layout view.now.names) assignment.now.target.now) (value_of view.now.typed.now (layout view.now.names) (taken_bits bits assignment.now.op assignment.now.target.now assignment.now.value.now) assignment.now.value.now) (draft u.old) ≡ Makes out (draft u.new)) }
{
    let (target, right) = (assignment.target, assignment.value);
    let shape = target.ty().shape;
    let own = assignment.taken_bits(bits);
    if is_send(target) {
        let spot = locate(view, target, u)?;
        let v = spread(view, own, right, shape.unwrap_or(0), u)?;
        store(view, assignment.whole, spot, v, u)?;
        return Ok(Out::Nothing);
    }
    if let Some(op) = assign_op(assignment.op) {
        return Ok(update(view, assignment, op, u)?.shortened(bits));
    }
    let spot = locate(view, target, u)?;
    let v = match shape {
        Some(set) => spread(view, own, right, set, u)?,
        None => value(view, own, right, u)?,
    };
    store(view, assignment.whole, spot, v, u)?;
    Ok(v.shortened(bits))
}

/// An assignment with an operator.
#[cycle(value)]
#[tactic(auto, unfolding(lower_base::specs::Drafts::IsMade, crate::specs::Values::updated_by, crate::specs::Kinds::operator_bits, lower_base::specs::Drafts::then_make))]
fn update(view: &View, assignment: &Assignment, op: Op, u: &mut Unit) -> Result<Out, Memory>
    requires made { IsMade (updated_by view.now.typed.now (layout view.now.names) assignment.now.whole.now op assignment.now.place assignment.now.target.now assignment.now.value.now (type_of assignment.now.target.now).shape (spot_of view.now.typed.now (layout view.now.names) assignment.now.target.now) (value_of view.now.typed.now (layout view.now.names) (operator_bits op (type_of assignment.now.target.now).shape assignment.now.value.now) assignment.now.value.now) (draft u.old)) }
    ensures draft { IfOk result (λ out. updated_by view.now.typed.now (layout view.now.names) assignment.now.whole.now op assignment.now.place assignment.now.target.now assignment.now.value.now (type_of assignment.now.target.now).shape (spot_of view.now.typed.now (layout view.now.names) assignment.now.target.now) (value_of view.now.typed.now (layout view.now.names) (operator_bits op (type_of assignment.now.target.now).shape assignment.now.value.now) assignment.now.value.now) (draft u.old) ≡ Makes out (draft u.new)) }
{
    let (whole, target, right) = (assignment.whole, assignment.target, assignment.value);
    let ty = target.ty();
    let signed = assign_signed(op, ty.elem, right.ty().elem);
    let operator = Operator {
        op,
        signed,
        place: assignment.place,
    };
    match ty.shape {
        Some(set) => {
            let dest = field(u, set, 32)?;
            let spare = field(u, set, 32)?;
            let spot = locate(view, target, u)?;
            let v = right_operand(view, 32, op, right, u)?;
            let located = Located {
                whole,
                target,
                spot,
            };
            update_field(view, &located, operator, dest, spare, v, u)
        }
        None => {
            let dest = register(u)?;
            let spot = locate(view, target, u)?;
            let v = operand(view, operator_bits(op, None, right), true, right, u)?;
            let located = Located {
                whole,
                target,
                spot,
            };
            if stays_scalar(right) {
                update_register(view, &located, operator, dest, v, u)
            } else {
                fold_into_register(view, &located, dest, v, u)
            }
        }
    }
}

/// `++` or `--`, with the value before it and the value behind it in two registers or fields.
#[cycle(value)]
#[tactic(auto, unfolding(lower_base::specs::Drafts::IsMade, crate::specs::Values::step_by, crate::specs::Values::lowest, lower_base::specs::Drafts::then_make))]
pub fn step(
    view: &View,
    e: &TExpr,
    bits: u8,
    op: StepOp,
    order: StepOrder,
    target: &TExpr,
    u: &mut Unit,
) -> Result<Out, Memory>
    requires made { IsMade (step_by view.now.typed.now (layout view.now.names) e.now bits op order target.now (spot_of view.now.typed.now (layout view.now.names) target.now) (draft u.old)) }
    ensures draft { IfOk result (λ out. step_by view.now.typed.now (layout view.now.names) e.now bits op order target.now (spot_of view.now.typed.now (layout view.now.names) target.now) (draft u.old) ≡ Makes out (draft u.new)) }
{
    let ty = target.ty();
    let outcome = fresh(ty, 32, u)?;
    let second = fresh(ty, 32, u)?;
    let spot = locate(view, target, u)?;
    let located = Located {
        whole: e,
        target,
        spot,
    };
    Ok(step_in(view, &located, op, order, outcome, second, u)?.shortened(bits))
}
