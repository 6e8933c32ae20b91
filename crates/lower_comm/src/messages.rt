//! The code of one communication, over parts that stand in registers and fields already.

ghost use Rattle.std.specs.Prelude.{◌≡◌, IfOk, IfSome, IsSome, OnOk, Some, slice_get};
ghost use Rattle.lower_base.specs.declared.emit.Out.TheVariants as O;
ghost use Rattle.lower_base.specs.Drafts.{InField, InRegister, IsMade, Makes, draft, then_make};
ghost use Rattle.lower_base.specs.Layouts.{layout};
ghost use Rattle.lower_comm.specs.Messages.{folded_onto, with_fold, with_sign, negated_by, part_field, reduced, indexed, indexed_field, stored, sent_value, sent_to, sent, assigned, scanned, segment_field, enumerated, communicated};
ghost use Rattle.lower_comm.specs.News.{goes_by_news};

use crate::gets::read;
use crate::news::all_go_by_news;
use cstar_base::{Direction, Elem, Inclusion, Memory, Op, SegmentMode};
use cstar_tree::syntax::ReduceOp;
use cstar_tree::typed::{TExpr, Typed, Variable};
use lower_base::View;
use lower_base::emit::{Out, field, put, register};
use lower_base::kinds::{fold_by, fold_kind};
use lower_base::operators::{assign_op, fold_of, operation, promoted_signed, reduce_op, scan_fold};
use paris_code::{Field, Instr, Konst, Reduction, Unit};

/// Whether the get goes by NEWS: each index is a step along its own axis.
#[tactic(auto, unfolding(crate::specs::News::goes_by_news))]
pub fn goes_by_news(e: &TExpr) -> bool
    ensures { result ≡ goes_by_news e.now }
{
    let TExpr::LeftIndex {
        ty,
        indexes,
        of,
        ..
    } = e
    else {
        return false;
    };
    if ty.shape.is_none() {
        return false;
    }
    all_go_by_news(*of, indexes)
}

/// The code of one communication.
#[tactic(auto, unfolding(lower_base::specs::Drafts::IsMade, lower_base::specs::Drafts::InRegister, crate::specs::Messages::communicated, crate::specs::Messages::part_register, crate::specs::Messages::part_field, lower_base::specs::Drafts::from, lower_base::specs::Drafts::in_register, lower_base::specs::Drafts::in_field, lower_base::specs::Drafts::then_make))]
pub fn comm_in(
    view: &View,
    e: &TExpr,
    at: Out,
    parts: &[Out],
    into: Out,
    u: &mut Unit,
) -> Result<Out, Memory>
    requires made { IsMade (communicated view.now.typed.now (layout view.now.names) e.now at parts.now into (draft u.old)) }
    ensures draft { IfOk result (λ out. communicated view.now.typed.now (layout view.now.names) e.now at parts.now into (draft u.old) ≡ Makes out (draft u.new)) }
{
    match e {
        TExpr::LeftIndex {
            ty,
            indexes,
            variable,
            of,
            ..
        } => {
            let source = view.field(*variable, 0, u)?;
            read(view.alloc, *of, indexes, ty.elem, source, at, into, u)
        }
        TExpr::Assign {
            op,
            target,
            value,
            ..
        } => { assign(view, target, assign_op(*op), value, at, parts, into, u) }
        TExpr::Step { target, .. } => {
            let processor = at.register();
            store(view, target, processor, parts, u)
        }
        TExpr::Reduce { op, operand, .. } => reduce(*op, operand, parts, into, u),
        TExpr::Scan {
            source,
            axis,
            combiner,
            direction,
            mode,
            bit,
            inclusion,
            ..
        } => {
            let line = Line {
                axis: *axis,
                direction: *direction,
                mode: *mode,
                inclusion: *inclusion,
            };
            let combiner = scan_fold(*combiner, promoted_signed(source.ty().elem));
            scan_part(view, combiner, line, *bit, parts, into, u)
        }
        TExpr::Enumerate {
            axis,
            direction,
            inclusion,
            mode,
            bit,
            ..
        } => {
            let line = Line {
                axis: *axis,
                direction: *direction,
                mode: *mode,
                inclusion: *inclusion,
            };
            enumerate(view, line, *bit, into, u)
        }
        _ => unreachable!(),
    }
}

/// A scan of the values in the first part.
#[tactic(auto, unfolding(lower_base::specs::Drafts::IsMade, lower_base::specs::Drafts::InField, crate::specs::Messages::part_field, lower_base::specs::Drafts::from, lower_base::specs::Drafts::in_field, lower_base::specs::Drafts::then_make))]
fn scan_part(
    view: &View,
    combiner: Reduction,
    line: Line,
    bit: Option<Variable>,
    parts: &[Out],
    into: Out,
    u: &mut Unit,
) -> Result<Out, Memory>
    requires made { IsMade (part_field parts.now 0 (λ values. then_make (segment_field view.now.typed.now (layout view.now.names) bit (draft u.old)) (λ bits after. scanned combiner values line bits into after))) }
    ensures draft { IfOk result (λ out. part_field parts.now 0 (λ values. then_make (segment_field view.now.typed.now (layout view.now.names) bit (draft u.old)) (λ bits after. scanned combiner values line bits into after)) ≡ Makes out (draft u.new)) }
{
    let source = part_field(parts, 0);
    let bit = segment_field(view, bit, u)?;
    scan(combiner, source, line, bit, into, u)
}

/// An assignment: a fold onto a scalar, a store to one element, or a send.
#[tactic(auto, unfolding(lower_base::specs::Drafts::IsMade, crate::specs::Messages::assigned))]
fn assign(
    view: &View,
    target: &TExpr,
    op: Option<Op>,
    value: &TExpr,
    at: Out,
    parts: &[Out],
    into: Out,
    u: &mut Unit,
) -> Result<Out, Memory>
    requires made { IsMade (assigned view.now.typed.now (layout view.now.names) target.now op value.now at parts.now into (draft u.old)) }
    ensures draft { IfOk result (λ out. assigned view.now.typed.now (layout view.now.names) target.now op value.now at parts.now into (draft u.old) ≡ Makes out (draft u.new)) }
{
    match at {
        Out::Nothing => fold_onto(op, value, target.ty().elem, parts, into, u),
        Out::Scalar(processor) => store(view, target, processor, parts, u),
        Out::Field(address) => {
            let signed = promoted_signed(value.ty().elem);
            send(view, target, op, signed, address, parts, u)
        }
    }
}

/// The register of a part that stands in one.
fn part_register(parts: &[Out], number: usize) -> u32
    requires there { IsSome (slice_get parts.now number) }
    requires stands { IfSome (slice_get parts.now number) InRegister }
    ensures { slice_get parts.now number ≡ Some (O.Scalar result) }
{
    parts[number].register()
}

/// The field of a part that stands in one.
fn part_field(parts: &[Out], number: usize) -> Field
    requires there { IsSome (slice_get parts.now number) }
    requires stands { IfSome (slice_get parts.now number) InField }
    ensures { slice_get parts.now number ≡ Some (O.Field result) }
{
    parts[number].field()
}

/// `s op= p`: the fold of the elements, and then the operator on the old value and it.
#[tactic(auto, unfolding(lower_base::specs::Drafts::IsMade, lower_base::specs::Drafts::InRegister, lower_base::specs::Drafts::InField, crate::specs::Messages::folded_onto, crate::specs::Messages::part_register, crate::specs::Messages::part_field, lower_base::specs::Drafts::from, lower_base::specs::Drafts::in_register, lower_base::specs::Drafts::in_field, lower_base::specs::Drafts::then_make))]
fn fold_onto(
    op: Option<Op>,
    value: &TExpr,
    elem: Elem,
    parts: &[Out],
    into: Out,
    u: &mut Unit,
) -> Result<Out, Memory>
    requires made { IsMade (folded_onto op value.now elem parts.now into (draft u.old)) }
    ensures draft { IfOk result (λ out. folded_onto op value.now elem parts.now into (draft u.old) ≡ Makes out (draft u.new)) }
{
    let op = op.unwrap_or(Op::Add);
    let source = part_field(parts, 0);
    let old = part_register(parts, 1);
    let dest = into.register();
    let folded = register(u)?;
    fold(op, value, folded, source, u)?;
    put(
        u,
        Instr::FrontOperate {
            op: operation(op, promoted_signed(value.ty().elem)),
            dest,
            left: old,
            right: folded,
        },
    )?;
    put(
        u,
        Instr::FrontConvert {
            dest,
            source: dest,
            kind: elem,
        },
    )?;
    Ok(into)
}

/// The fold of the values of an expression, at their own length. Where a type with a sign was folded
/// without it, that is put back.
#[tactic(auto, unfolding(crate::specs::Messages::with_fold, crate::specs::Messages::with_sign))]
fn fold(op: Op, e: &TExpr, dest: u32, source: Field, u: &mut Unit) -> Result<(), Memory>
    ensures draft { OnOk result (with_fold op e.now dest source (draft u.old) ≡ draft u.new) }
{
    put(
        u,
        Instr::Global {
            combiner: fold_by(op, e),
            dest,
            source,
        },
    )?;
    match fold_kind(op, e) {
        Some(kind) => put(
            u,
            Instr::FrontConvert {
                dest,
                source: dest,
                kind,
            },
        ),
        None => Ok(()),
    }
}

/// A unary reduction. With `-=` it is the negative of the sum.
#[tactic(auto, unfolding(lower_base::specs::Drafts::IsMade, lower_base::specs::Drafts::InRegister, lower_base::specs::Drafts::InField, crate::specs::Messages::reduced, crate::specs::Messages::part_register, crate::specs::Messages::part_field, lower_base::specs::Drafts::from, lower_base::specs::Drafts::in_register, lower_base::specs::Drafts::in_field, lower_base::specs::Drafts::then_make))]
fn reduce(
    op: ReduceOp,
    operand: &TExpr,
    parts: &[Out],
    into: Out,
    u: &mut Unit,
) -> Result<Out, Memory>
    requires made { IsMade (reduced op operand.now parts.now into (draft u.old)) }
    ensures draft { IfOk result (λ out. reduced op operand.now parts.now into (draft u.old) ≡ Makes out (draft u.new)) }
{
    let source = part_field(parts, 0);
    let dest = into.register();
    fold(reduce_op(op), operand, dest, source, u)?;
    negate_by(op, dest, u)?;
    Ok(into)
}

/// The negative of a register, behind `-=`.
#[tactic(auto, unfolding(crate::specs::Messages::negated_by))]
fn negate_by(op: ReduceOp, dest: u32, u: &mut Unit) -> Result<(), Memory>
    ensures draft { OnOk result (negated_by op dest (draft u.old) ≡ draft u.new) }
{
    match op {
        ReduceOp::Sub => put(u, Instr::FrontNegate { dest, source: dest }),
        _ => Ok(()),
    }
}

/// The variable that a left index is before, maybe in brackets.
#[tactic(auto, unfolding(crate::specs::Messages::indexed))]
fn indexed(e: &TExpr) -> Option<Variable>
    ensures { result ≡ indexed e.now }
{
    match e {
        TExpr::Brackets { inner, .. } => indexed(inner),
        TExpr::LeftIndex { variable, .. } => Some(*variable),
        _ => None,
    }
}

/// The field of the variable of a left index.
#[tactic(auto, unfolding(lower_base::specs::Drafts::IsMade, crate::specs::Messages::indexed_field, lower_base::specs::Drafts::from))]
fn indexed_field(view: &View, e: &TExpr, u: &mut Unit) -> Result<Field, Memory>
    requires made { IsMade (indexed_field view.now.typed.now (layout view.now.names) e.now (draft u.old)) }
    ensures draft { IfOk result (λ f. indexed_field view.now.typed.now (layout view.now.names) e.now (draft u.old) ≡ Makes f (draft u.new)) }
{
    let Some(variable) = indexed(e) else {
        unreachable!()
    };
    view.field(variable, 0, u)
}

/// A store to one element.
#[tactic(auto, unfolding(lower_base::specs::Drafts::IsMade, lower_base::specs::Drafts::InRegister, crate::specs::Messages::stored, crate::specs::Messages::part_register, crate::specs::Messages::part_field, lower_base::specs::Drafts::from, lower_base::specs::Drafts::in_register, lower_base::specs::Drafts::in_field, lower_base::specs::Drafts::then_make))]
fn store(
    view: &View,
    target: &TExpr,
    processor: u32,
    parts: &[Out],
    u: &mut Unit,
) -> Result<Out, Memory>
    requires made { IsMade (stored view.now.typed.now (layout view.now.names) target.now processor parts.now (draft u.old)) }
    ensures draft { IfOk result (λ out. stored view.now.typed.now (layout view.now.names) target.now processor parts.now (draft u.old) ≡ Makes out (draft u.new)) }
{
    let dest = indexed_field(view, target, u)?;
    let value = part_register(parts, 0);
    put(
        u,
        Instr::WriteToProcessor {
            dest,
            processor,
            value: Konst::Reg(value),
        },
    )?;
    Ok(Out::Nothing)
}

/// A send through a left index.
#[tactic(auto, unfolding(lower_base::specs::Drafts::IsMade, lower_base::specs::Drafts::InRegister, lower_base::specs::Drafts::InField, crate::specs::Messages::sent, crate::specs::Messages::part_register, crate::specs::Messages::part_field, lower_base::specs::Drafts::from, lower_base::specs::Drafts::in_register, lower_base::specs::Drafts::in_field, lower_base::specs::Drafts::then_make))]
fn send(
    view: &View,
    target: &TExpr,
    op: Option<Op>,
    signed: bool,
    address: Field,
    parts: &[Out],
    u: &mut Unit,
) -> Result<Out, Memory>
    requires made { IsMade (sent view.now.typed.now (layout view.now.names) target.now op signed address parts.now (draft u.old)) }
    ensures draft { IfOk result (λ out. sent view.now.typed.now (layout view.now.names) target.now op signed address parts.now (draft u.old) ≡ Makes out (draft u.new)) }
{
    let dest = indexed_field(view, target, u)?;
    let value = part_field(parts, 0);
    send_to(op, signed, target.ty().elem, dest, address, value, u)
}

/// A send to a field: without a combiner of a value of the field's length, else of 32 bits.
#[tactic(auto, unfolding(crate::specs::Messages::sent_to, lower_base::specs::Drafts::then_make))]
fn send_to(
    op: Option<Op>,
    signed: bool,
    kind: Elem,
    dest: Field,
    address: Field,
    value: Field,
    u: &mut Unit,
) -> Result<Out, Memory>
    ensures draft { IfOk result (λ out. sent_to op signed kind dest address value (draft u.old) ≡ Makes out (draft u.new)) }
{
    let Some(op) = op else {
        put(
            u,
            Instr::SendWithOverwrite {
                dest,
                kind,
                address,
                source: value,
            },
        )?;
        return Ok(Out::Nothing);
    };
    let source = sent_value(op, value, u)?;
    put(
        u,
        Instr::SendWithCombiner {
            combiner: fold_of(op, signed),
            dest,
            kind,
            address,
            source,
        },
    )?;
    Ok(Out::Nothing)
}

/// What is sent with a combiner. What is to be subtracted is added as its negative.
#[tactic(auto, unfolding(crate::specs::Messages::sent_value, lower_base::specs::Drafts::then_make))]
fn sent_value(op: Op, value: Field, u: &mut Unit) -> Result<Field, Memory>
    ensures draft { IfOk result (λ f. sent_value op value (draft u.old) ≡ Makes f (draft u.new)) }
{
    match op {
        Op::Sub => {
            let source = field(u, value.set, 32)?;
            put(
                u,
                Instr::Negate {
                    dest: source,
                    source: value,
                },
            )?;
            Ok(source)
        }
        _ => Ok(value),
    }
}

/// How a scan goes along its lines.
#[derive(Clone, Copy)]
struct Line {
    axis: u32,
    direction: Direction,
    mode: SegmentMode,
    inclusion: Inclusion,
}

/// An enumeration: a scan of ones.
#[tactic(auto, unfolding(lower_base::specs::Drafts::IsMade, lower_base::specs::Drafts::InField, crate::specs::Messages::enumerated, lower_base::specs::Drafts::in_field, lower_base::specs::Drafts::then_make))]
fn enumerate(
    view: &View,
    line: Line,
    bit: Option<Variable>,
    into: Out,
    u: &mut Unit,
) -> Result<Out, Memory>
    requires made { IsMade (enumerated view.now.typed.now (layout view.now.names) line bit into (draft u.old)) }
    ensures draft { IfOk result (λ out. enumerated view.now.typed.now (layout view.now.names) line bit into (draft u.old) ≡ Makes out (draft u.new)) }
{
    let dest = into.field();
    let ones = field(u, dest.set, 32)?;
    put(
        u,
        Instr::MoveConstant {
            dest: ones,
            value: Konst::Imm(1),
        },
    )?;
    let bits = segment_field(view, bit, u)?;
    scan(Reduction::SAdd, ones, line, bits, into, u)
}

/// A scan along its lines.
#[tactic(auto, unfolding(lower_base::specs::Drafts::IsMade, lower_base::specs::Drafts::InField, crate::specs::Messages::scanned, lower_base::specs::Drafts::in_field))]
fn scan(
    combiner: Reduction,
    source: Field,
    line: Line,
    bit: Option<Field>,
    into: Out,
    u: &mut Unit,
) -> Result<Out, Memory>
    requires made { IsMade (scanned combiner source line bit into (draft u.old)) }
    ensures draft { IfOk result (λ out. scanned combiner source line bit into (draft u.old) ≡ Makes out (draft u.new)) }
{
    let dest = into.field();
    put(
        u,
        Instr::Scan {
            combiner,
            dest,
            source,
            axis: line.axis,
            direction: line.direction,
            mode: line.mode,
            bit,
            inclusion: line.inclusion,
        },
    )?;
    Ok(into)
}

/// The field of a scan's segment bits.
#[tactic(auto, unfolding(lower_base::specs::Drafts::IsMade, crate::specs::Messages::segment_field, lower_base::specs::Drafts::then_make))]
fn segment_field(view: &View, bit: Option<Variable>, u: &mut Unit) -> Result<Option<Field>, Memory>
    requires made { IsMade (segment_field view.now.typed.now (layout view.now.names) bit (draft u.old)) }
    ensures draft { IfOk result (λ bits. segment_field view.now.typed.now (layout view.now.names) bit (draft u.old) ≡ Makes bits (draft u.new)) }
{
    match bit {
        Some(variable) => {
            let bits = view.field(variable, 0, u)?;
            Ok(Some(bits))
        }
        None => Ok(None),
    }
}
