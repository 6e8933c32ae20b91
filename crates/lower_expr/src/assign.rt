//! What an assignment or a step does once its target is located and its value is there.

ghost use Rattle.std.specs.Prelude.{◌≡◌, IfOk, OnOk};
ghost use Rattle.lower_base.specs.Drafts.{IsMade, Makes, draft, out_of};
ghost use Rattle.lower_base.specs.Layouts.{layout};
ghost use Rattle.lower_expr.specs.Lengths.{is_send};
ghost use Rattle.lower_expr.specs.Values.{field_updated, register_updated, register_folded, step_operation, stepped_once, stepped_at, stepped_in};

use crate::parts::Operator;
use crate::spots::{Spot, bare, load, store};
use crate::steps::{Right, convert, operate, operate_right};
use cstar_base::Memory;
use cstar_tree::syntax::StepOp;
use cstar_tree::typed::{StepOrder, TExpr};
use lower_base::emit::{put, register};
use lower_base::{Operand, Out, View};
use lower_comm::messages::comm_in;
use paris_code::{Field, Instr, Konst, Unit};

/// An assignment or a step, its target, and where that was located.
#[derive(Clone, Copy)]
pub struct Located<'a> {
    pub whole: &'a TExpr,
    pub target: &'a TExpr,
    pub spot: Spot,
}

/// A located parallel target takes the result of the operator on its old value and the new one.
#[tactic(auto, unfolding(lower_base::specs::Drafts::IsMade, crate::specs::Values::field_updated, lower_base::specs::Drafts::then_make))]
pub fn update_field(
    view: &View,
    located: &Located,
    operator: Operator,
    dest: Field,
    spare: Field,
    v: Right,
    u: &mut Unit,
) -> Result<Out, Memory>
    requires made { IsMade (field_updated view.now.typed.now (layout view.now.names) located.now.whole.now operator.op operator.signed operator.place located.now.target.now dest spare located.now.spot v (draft u.old)) }
    ensures draft { IfOk result (λ out. field_updated view.now.typed.now (layout view.now.names) located.now.whole.now operator.op operator.signed operator.place located.now.target.now dest spare located.now.spot v (draft u.old) ≡ Makes out (draft u.new)) }
{
    let result = Operand::Field(dest);
    load(view, located.target, located.spot, result, u)?;
    operate_right(operator, dest, dest, v, spare, u)?;
    convert(result, located.target.ty().elem, u)?;
    store(view, located.whole, located.spot, result.out(), u)?;
    Ok(result.out())
}

/// A located scalar target takes the result of the operator on its old value and a scalar one.
#[tactic(auto, unfolding(lower_base::specs::Drafts::IsMade, lower_base::specs::Drafts::InRegister, crate::specs::Values::register_updated, lower_base::specs::Drafts::then_make, lower_base::specs::Drafts::in_register))]
pub fn update_register(
    view: &View,
    located: &Located,
    operator: Operator,
    dest: u32,
    v: Out,
    u: &mut Unit,
) -> Result<Out, Memory>
    requires made { IsMade (register_updated view.now.typed.now (layout view.now.names) located.now.whole.now operator.op operator.signed operator.place located.now.target.now dest located.now.spot v (draft u.old)) }
    ensures draft { IfOk result (λ out. register_updated view.now.typed.now (layout view.now.names) located.now.whole.now operator.op operator.signed operator.place located.now.target.now dest located.now.spot v (draft u.old) ≡ Makes out (draft u.new)) }
{
    let result = Operand::Register(dest);
    load(view, located.target, located.spot, result, u)?;
    operate(operator, dest, dest, v.register(), u)?;
    convert(result, located.target.ty().elem, u)?;
    store(view, located.whole, located.spot, result.out(), u)?;
    Ok(result.out())
}

/// A located scalar target takes the result of the operator on its old value and the elements of a
/// parallel one.
#[tactic(auto, unfolding(lower_base::specs::Drafts::IsMade, crate::specs::Values::register_folded, lower_base::specs::Drafts::then_make))]
pub fn fold_into_register(
    view: &View,
    located: &Located,
    dest: u32,
    v: Out,
    u: &mut Unit,
) -> Result<Out, Memory>
    requires made { IsMade (register_folded view.now.typed.now (layout view.now.names) located.now.whole.now located.now.target.now dest located.now.spot v (draft u.old)) }
    ensures draft { IfOk result (λ out. register_folded view.now.typed.now (layout view.now.names) located.now.whole.now located.now.target.now dest located.now.spot v (draft u.old) ≡ Makes out (draft u.new)) }
{
    let old = Operand::Register(register(u)?);
    let result = Operand::Register(dest);
    load(view, located.target, located.spot, old, u)?;
    let parts = [v, old.out()];
    comm_in(view, located.whole, Out::Nothing, &parts, result.out(), u)?;
    store(view, located.whole, located.spot, result.out(), u)?;
    Ok(result.out())
}

/// Whether an assignment to the target is a send.
#[tactic(auto, unfolding(crate::specs::Lengths::is_send, crate::specs::Lengths::is_sent))]
pub fn is_send(target: &TExpr) -> bool
    ensures { result ≡ is_send target.now }
{
    match bare(target) {
        TExpr::LeftIndex { ty, .. } => ty.shape.is_some(),
        _ => false,
    }
}

/// `++` or `--` of a located target: the value before it, and the value behind it in a second
/// register or field.
#[tactic(auto, unfolding(lower_base::specs::Drafts::IsMade, crate::specs::Values::stepped_in, lower_base::specs::Drafts::then_make))]
pub fn step_in(
    view: &View,
    located: &Located,
    op: StepOp,
    order: StepOrder,
    outcome: Operand,
    second: Operand,
    u: &mut Unit,
) -> Result<Out, Memory>
    requires made { IsMade (stepped_in view.now.typed.now (layout view.now.names) located.now.whole.now op order located.now.target.now located.now.spot (out_of outcome) (out_of second) (draft u.old)) }
    ensures draft { IfOk result (λ out. stepped_in view.now.typed.now (layout view.now.names) located.now.whole.now op order located.now.target.now located.now.spot (out_of outcome) (out_of second) (draft u.old) ≡ Makes out (draft u.new)) }
{
    match order {
        StepOrder::Prefix => {
            step_at(view, located, op, second, outcome, u)?;
        }
        StepOrder::Postfix => {
            step_at(view, located, op, outcome, second, u)?;
        }
    }
    Ok(outcome.out())
}

/// The step itself, from the old value to the new one.
#[tactic(auto, unfolding(lower_base::specs::Drafts::IsMade, crate::specs::Values::stepped_at, lower_base::specs::Drafts::then_make))]
fn step_at(
    view: &View,
    located: &Located,
    op: StepOp,
    before: Operand,
    behind: Operand,
    u: &mut Unit,
) -> Result<(), Memory>
    requires made { IsMade (stepped_at view.now.typed.now (layout view.now.names) located.now.whole.now op located.now.target.now located.now.spot (out_of before) (out_of behind) (draft u.old)) }
    ensures draft { OnOk result (stepped_at view.now.typed.now (layout view.now.names) located.now.whole.now op located.now.target.now located.now.spot (out_of before) (out_of behind) (draft u.old) ≡ Makes (out_of behind) (draft u.new)) }
{
    load(view, located.target, located.spot, before, u)?;
    step_once(view, op, before, behind, u)?;
    convert(behind, located.target.ty().elem, u)?;
    store(view, located.whole, located.spot, behind.out(), u)
}

/// One more or one less.
#[tactic(auto, unfolding(lower_base::specs::Drafts::IsMade, lower_base::specs::Drafts::InRegister, lower_base::specs::Drafts::InField, crate::specs::Values::stepped_once, lower_base::specs::Drafts::then_make, lower_base::specs::Drafts::in_register, lower_base::specs::Drafts::in_field))]
fn step_once(
    view: &View,
    op: StepOp,
    before: Operand,
    behind: Operand,
    u: &mut Unit,
) -> Result<(), Memory>
    requires made { IsMade (stepped_once (layout view.now.names) op (out_of before) (out_of behind) (draft u.old)) }
    ensures draft { OnOk result (stepped_once (layout view.now.names) op (out_of before) (out_of behind) (draft u.old) ≡ Makes (out_of behind) (draft u.new)) }
{
    let op = step_operation(op);
    match behind {
        Operand::Register(dest) => {
            let left = before.register();
            let right = view.word(1, u)?;
            put(
                u,
                Instr::FrontOperate {
                    op,
                    dest,
                    left,
                    right,
                },
            )
        }
        Operand::Field(dest) => {
            let left = before.field();
            let right = Konst::Imm(1);
            put(
                u,
                Instr::OperateConstant {
                    op,
                    dest,
                    left,
                    right,
                },
            )
        }
    }
}

/// The operation of a step, with 1 as its right operand.
#[tactic(auto, unfolding(crate::specs::Values::step_operation))]
pub fn step_operation(op: StepOp) -> paris_code::Operation
    ensures { result ≡ step_operation op }
{
    match op {
        StepOp::Increment => paris_code::Operation::SAdd,
        StepOp::Decrement => paris_code::Operation::SSubtract,
    }
}
