//! Short stretches of code over values that stand in registers and fields already.

ghost use Rattle.std.specs.Prelude.{◌≡◌, false, IfOk, OnOk};
ghost use Rattle.lower_base.specs.declared.emit.Out.TheVariants as O;
ghost use Rattle.lower_base.specs.declared.operators.Machine.TheVariants as M;
ghost use Rattle.lower_base.specs.Drafts.{IsMade, Makes, draft, in_field, out_of, with_instr};
ghost use Rattle.paris_code.specs.declared.instr.Instr.TheVariants as I;
ghost use Rattle.paris_code.specs.declared.operands.Konst.TheVariants as K;
ghost use Rattle.lower_base.specs.Layouts.{layout};
ghost use Rattle.lower_expr.specs.Operands.{is_plus};
ghost use Rattle.lower_expr.specs.Steps.{is_kept, has_truth, has_word, word_for, word_put, register_word, word_of, word_taken, constant_in, put_test, field_converted, converted_in_place, put_in_field, put_value, operated, fields_operated, right_operated, takes_word, in_a_field, register_negated, field_negated, negated, pieces_printed, assigned_signed};
ghost use Rattle.lower_expr.specs.Values.{compared};

use crate::parts::Operator;
use cstar_base::{Elem, Memory, Op, numbers};
use cstar_tree::typed::{Piece, TExpr, UnaryOp};
use lower_base::emit::{flag, put};
use lower_base::operators::{Machine, divides, is_relation, machine_op, negates, promoted_signed};
use lower_base::{Operand, Out, View};
use paris_code::{Compare, Field, Instr, Konst, Operation, Unit};
use source_meaning::constant as constant_value;
use std::alloc::Global;

/// The right operand of a parallel operation: a field, or one word for all positions.
#[derive(Clone, Copy)]
pub enum Right {
    Field(Field),
    Word(Konst),
}

/// Whether the value stands in a register: that of a scalar, and that of a promoted scalar before
/// it is spread.
#[tactic(auto, unfolding(crate::specs::Steps::is_kept))]
pub fn stays_scalar(e: &TExpr) -> bool
    ensures { result ≡ is_kept e.now }
{
    match e {
        TExpr::Promote { .. } => true,
        TExpr::Convert { operand, .. } => stays_scalar(operand),
        TExpr::Brackets { inner, .. } => stays_scalar(inner),
        _ => e.ty().shape.is_none(),
    }
}

/// The word that a promoted constant is at every position, promoted to 32 bits.
#[tactic(auto, unfolding(crate::specs::Steps::word_of))]
pub fn constant_word(e: &TExpr) -> Option<u32>
    ensures value { result ≡ word_of e.now }
{
    match e {
        TExpr::Promote { operand, .. } => register_word(operand),
        TExpr::Brackets { inner, .. } => constant_word(inner),
        _ => None,
    }
}

/// The word of a scalar constant, promoted to 32 bits.
#[tactic(auto, unfolding(crate::specs::Steps::register_word, cstar_base::specs::Numbers::converted))]
pub fn register_word(e: &TExpr) -> Option<u32>
    ensures value { result ≡ register_word e.now }
{
    let value = constant_value(e)?;
    Some(numbers::convert(Elem::INT, e.ty().elem, value))
}

/// The word of a constant right operand, which has no code of its own; a divisor of 0 is left to its
/// check.
#[tactic(auto, unfolding(crate::specs::Steps::word_taken))]
pub fn immediate(op: Op, e: &TExpr) -> Option<u32>
    ensures { result ≡ word_taken op e.now }
{
    let word = constant_word(e)?;
    if divides(op) && word == 0 {
        None
    } else {
        Some(word)
    }
}

/// The word of a constant that goes to a register, or to every position of a field.
#[tactic(auto, unfolding(crate::specs::Steps::word_for))]
pub fn word_for(dest: Operand, e: &TExpr) -> Option<u32>
    ensures value { result ≡ word_for (out_of dest) e.now }
{
    match dest {
        Operand::Register(_) => register_word(e),
        Operand::Field(_) => constant_word(e),
    }
}

/// A constant becomes that of a register, or of every position of a field.
#[tactic(auto, unfolding(crate::specs::Steps::word_put))]
pub fn put_word(dest: Operand, word: u32, u: &mut Unit) -> Result<(), Memory>
    ensures draft { OnOk result (word_put (out_of dest) word (draft u.old) ≡ Makes (out_of dest) (draft u.new)) }
{
    match dest {
        Operand::Register(dest) => put(u, Instr::FrontConst { dest, value: word }),
        Operand::Field(dest) => {
            let value = Konst::Imm(word);
            put(u, Instr::MoveConstant { dest, value })
        }
    }
}

/// Whether the value is a constant, which goes to a register or to a field.
#[tactic(auto, unfolding(crate::specs::Steps::has_word))]
pub fn has_word(scalar: bool, e: &TExpr) -> bool
    ensures value { result ≡ has_word scalar e.now }
{
    if scalar {
        register_word(e).is_some()
    } else {
        constant_word(e).is_some()
    }
}

/// Whether the test flag tells if the value is not zero, without the value itself: that of a
/// relation, of a negation, and of a variable.
#[tactic(auto, unfolding(crate::specs::Steps::has_truth))]
pub fn has_truth(e: &TExpr) -> bool
    ensures { result ≡ has_truth e.now }
{
    match e {
        TExpr::Brackets { inner, .. } => has_truth(inner),
        TExpr::Variable { .. } => true,
        TExpr::Binary { op, .. } => is_relation(*op),
        TExpr::Unary { op, .. } => negates(*op),
        _ => false,
    }
}

/// A number in a fresh register.
#[tactic(auto, unfolding(crate::specs::Steps::constant_in, lower_base::specs::Drafts::then_make))]
pub fn constant(value: u32, u: &mut Unit) -> Result<u32, Memory>
    ensures draft { IfOk result (λ r. constant_in value (draft u.old) ≡ Makes (O.Scalar r) (draft u.new)) }
{
    let dest = lower_base::emit::register(u)?;
    put(u, Instr::FrontConst { dest, value })?;
    Ok(dest)
}

/// The conversion of a value to an element type, in place.
#[tactic(auto, unfolding(crate::specs::Steps::converted_in_place))]
pub fn convert(v: Operand, elem: Elem, u: &mut Unit) -> Result<(), Memory>
    ensures draft { OnOk result (converted_in_place (out_of v) elem (draft u.old) ≡ Makes (out_of v) (draft u.new)) }
{
    match v {
        Operand::Register(r) => {
            if elem.bits < 32 {
                put(
                    u,
                    Instr::FrontConvert {
                        dest: r,
                        source: r,
                        kind: elem,
                    },
                )?;
            }
            Ok(())
        }
        Operand::Field(f) => convert_field(f, elem, u),
    }
}

/// The conversion of a field of 32 bits, in place: to `bool` by a test, to another narrow type by
/// shifting its bits to the top and back.
#[tactic(auto, unfolding(crate::specs::Steps::field_converted, crate::specs::Steps::shifted_back))]
fn convert_field(f: Field, elem: Elem, u: &mut Unit) -> Result<(), Memory>
    ensures draft { OnOk result (field_converted f elem (draft u.old) ≡ Makes (O.Field f) (draft u.new)) }
{
    if elem.bits == 1 {
        put(u, Instr::NeZero { source: f })?;
        test_value(f, u)
    } else if elem.bits < 32 {
        let by = Konst::Imm(32 - u32::from(elem.bits));
        let back = if elem.signed {
            Operation::SShiftRight
        } else {
            Operation::UShiftRight
        };
        put(
            u,
            Instr::OperateConstant {
                op: Operation::UShiftLeft,
                dest: f,
                left: f,
                right: by,
            },
        )?;
        put(
            u,
            Instr::OperateConstant {
                op: back,
                dest: f,
                left: f,
                right: by,
            },
        )
    } else {
        Ok(())
    }
}

/// The test flag as a value, 0 or 1: of one bit at once, and else from a flag.
#[tactic(auto, unfolding(crate::specs::Steps::put_test, lower_base::specs::Drafts::then_make))]
pub fn test_value(dest: Field, u: &mut Unit) -> Result<(), Memory>
    ensures draft { OnOk result (put_test dest (draft u.old) ≡ Makes (O.Field dest) (draft u.new)) }
{
    if dest.len == 1 {
        return put(u, Instr::StoreTest { dest });
    }
    let source = flag(u, dest.set)?;
    put(u, Instr::StoreTest { dest: source })?;
    put(
        u,
        Instr::Move {
            signed: false,
            dest,
            source,
        },
    )
}

/// A value becomes that of a longer field, with its sign or with zeros in front.
#[tactic(auto, unfolding(lower_base::specs::Drafts::IsMade, lower_base::specs::Drafts::InField, lower_base::specs::Drafts::in_field))]
pub fn extend(signed: bool, dest: Field, v: Operand, u: &mut Unit) -> Result<(), Memory>
    requires made { IsMade (in_field (out_of v) (λ source. Makes (O.Field dest) (with_instr (I.Move signed dest source) (draft u.old)))) }
    ensures draft { OnOk result (in_field (out_of v) (λ source. Makes (O.Field dest) (with_instr (I.Move signed dest source) (draft u.old))) ≡ Makes (O.Field dest) (draft u.new)) }
{
    let source = v.field();
    put(
        u,
        Instr::Move {
            signed,
            dest,
            source,
        },
    )
}

/// Compares fields; a word is spread into `spare` first.
#[tactic(auto, unfolding(crate::specs::Values::compared))]
pub fn compare(
    relation: Compare,
    left: Field,
    right: Right,
    spare: Field,
    u: &mut Unit,
) -> Result<(), Memory>
    ensures draft { OnOk result (compared (M.Compare relation) left right spare (draft u.old) ≡ Makes tt (draft u.new)) }
{
    let right = match right {
        Right::Field(right) => right,
        Right::Word(value) => {
            put(u, Instr::MoveConstant { dest: spare, value })?;
            spare
        }
    };
    put(
        u,
        Instr::Compare {
            relation,
            left,
            right,
        },
    )
}

/// A value becomes that of a field: copied, or spread from a register.
#[tactic(auto, unfolding(crate::specs::Steps::put_in_field))]
pub fn set_field(dest: Field, v: Operand, u: &mut Unit) -> Result<(), Memory>
    ensures draft { OnOk result (put_in_field dest (out_of v) (draft u.old) ≡ Makes (O.Field dest) (draft u.new)) }
{
    match v {
        Operand::Register(r) => put(
            u,
            Instr::MoveConstant {
                dest,
                value: Konst::Reg(r),
            },
        ),
        Operand::Field(source) => put(
            u,
            Instr::Move {
                signed: true,
                dest,
                source,
            },
        ),
    }
}

/// A value becomes that of a register or a field.
#[tactic(auto, unfolding(lower_base::specs::Drafts::IsMade, lower_base::specs::Drafts::InRegister, crate::specs::Steps::put_value, lower_base::specs::Drafts::in_register))]
pub fn set(dest: Operand, v: Operand, u: &mut Unit) -> Result<(), Memory>
    requires made { IsMade (put_value (out_of dest) (out_of v) (draft u.old)) }
    ensures draft { OnOk result (put_value (out_of dest) (out_of v) (draft u.old) ≡ Makes (out_of dest) (draft u.new)) }
{
    match dest {
        Operand::Register(register) => {
            let source = v.register();
            put(
                u,
                Instr::FrontMove {
                    dest: register,
                    source,
                },
            )
        }
        Operand::Field(field) => set_field(field, v, u),
    }
}

/// A binary operator on registers. A zero divisor is a fault at the place.
#[tactic(auto, unfolding(crate::specs::Steps::operated, crate::specs::Steps::on_registers, crate::specs::Steps::with_register_check))]
pub fn operate(
    operator: Operator,
    dest: u32,
    left: u32,
    right: u32,
    u: &mut Unit,
) -> Result<(), Memory>
    ensures draft { OnOk result (operated operator.op operator.signed operator.place dest left right (draft u.old) ≡ draft u.new) }
{
    if divides(operator.op) {
        put(
            u,
            Instr::FrontCheckDivisor {
                place: operator.place,
                source: right,
            },
        )?;
    }
    match machine_op(operator.op, operator.signed) {
        Machine::Operate(op) => put(
            u,
            Instr::FrontOperate {
                op,
                dest,
                left,
                right,
            },
        ),
        Machine::Compare(relation) => put(
            u,
            Instr::FrontCompare {
                relation,
                dest,
                left,
                right,
            },
        ),
    }
}

/// A binary operator on fields. A zero divisor at an active position is a fault at the place.
#[tactic(auto, unfolding(crate::specs::Steps::fields_operated, crate::specs::Steps::on_fields, crate::specs::Steps::with_field_check))]
pub fn operate_fields(
    operator: Operator,
    dest: Field,
    left: Field,
    right: Field,
    u: &mut Unit,
) -> Result<(), Memory>
    ensures draft { OnOk result (fields_operated operator.op operator.signed operator.place dest left right (draft u.old) ≡ Makes (O.Field dest) (draft u.new)) }
{
    if divides(operator.op) {
        put(
            u,
            Instr::CheckDivisor {
                place: operator.place,
                source: right,
            },
        )?;
    }
    match machine_op(operator.op, operator.signed) {
        Machine::Operate(op) => put(
            u,
            Instr::Operate {
                op,
                dest,
                left,
                right,
            },
        ),
        Machine::Compare(relation) => {
            put(
                u,
                Instr::Compare {
                    relation,
                    left,
                    right,
                },
            )?;
            test_value(dest, u)
        }
    }
}

/// A binary operator on a field and a right operand. A word that the instruction cannot take, or
/// that has to be checked as a divisor, is spread into `spare`.
#[tactic(auto, unfolding(crate::specs::Steps::right_operated, crate::specs::Steps::on_word, crate::specs::Steps::fields_operated))]
pub fn operate_right(
    operator: Operator,
    dest: Field,
    left: Field,
    right: Right,
    spare: Field,
    u: &mut Unit,
) -> Result<(), Memory>
    ensures draft { OnOk result (right_operated operator.op operator.signed operator.place dest left right spare (draft u.old) ≡ Makes (O.Field dest) (draft u.new)) }
{
    match right {
        Right::Field(right) => operate_fields(operator, dest, left, right, u),
        Right::Word(word) => match machine_op(operator.op, operator.signed) {
            Machine::Operate(operation) if takes_word(operator.op, word) => put(
                u,
                Instr::OperateConstant {
                    op: operation,
                    dest,
                    left,
                    right: word,
                },
            ),
            _ => {
                put(
                    u,
                    Instr::MoveConstant {
                        dest: spare,
                        value: word,
                    },
                )?;
                operate_fields(operator, dest, left, spare, u)
            }
        },
    }
}

/// Whether the operation takes the word as it is: a divisor only where it is known not to be 0.
#[tactic(auto, unfolding(crate::specs::Steps::takes_word))]
fn takes_word(op: Op, word: Konst) -> bool
    ensures { result ≡ takes_word op word }
{
    match word {
        Konst::Imm(_) => true,
        Konst::Reg(_) => !divides(op),
    }
}

/// A word at every position of a field.
pub fn spread_word(word: u32, dest: Field, u: &mut Unit) -> Result<Field, Memory>
    ensures draft { IfOk result (λ f. Makes dest (with_instr (I.MoveConstant dest (K.Imm word)) (draft u.old)) ≡ Makes f (draft u.new)) }
{
    let value = Konst::Imm(word);
    put(u, Instr::MoveConstant { dest, value })?;
    Ok(dest)
}

/// An operand of a parallel operation as a field: a register is spread into `spare`.
#[tactic(auto, unfolding(crate::specs::Steps::in_a_field))]
pub fn as_field(v: Operand, spare: Field, u: &mut Unit) -> Result<Field, Memory>
    ensures draft { IfOk result (λ f. in_a_field (out_of v) spare (draft u.old) ≡ Makes f (draft u.new)) }
{
    match v {
        Operand::Field(field) => Ok(field),
        Operand::Register(r) => {
            put(
                u,
                Instr::MoveConstant {
                    dest: spare,
                    value: Konst::Reg(r),
                },
            )?;
            Ok(spare)
        }
    }
}

/// A unary operator other than `+`, which has no code.
#[tactic(auto, unfolding(lower_base::specs::Drafts::IsMade, lower_base::specs::Drafts::InRegister, lower_base::specs::Drafts::InField, crate::specs::Steps::negated, lower_base::specs::Drafts::in_register, lower_base::specs::Drafts::in_field))]
pub fn unary(
    view: &View,
    op: UnaryOp,
    dest: Operand,
    v: Operand,
    u: &mut Unit,
) -> Result<(), Memory>
    requires coded { is_plus op ≡ false }
    requires made { IsMade (negated (layout view.now.names) op (out_of dest) (out_of v) (draft u.old)) }
    ensures draft { OnOk result (negated (layout view.now.names) op (out_of dest) (out_of v) (draft u.old) ≡ Makes (out_of dest) (draft u.new)) }
{
    match dest {
        Operand::Register(dest) => {
            let source = v.register();
            unary_register(view, op, dest, source, u)
        }
        Operand::Field(dest) => {
            let source = v.field();
            unary_field(op, dest, source, u)
        }
    }
}

#[tactic(auto, unfolding(crate::specs::Operands::is_plus, crate::specs::Steps::register_negated, lower_base::specs::Drafts::then_make))]
fn unary_register(
    view: &View,
    op: UnaryOp,
    dest: u32,
    source: u32,
    u: &mut Unit,
) -> Result<(), Memory>
    requires coded { is_plus op ≡ false }
    ensures draft { OnOk result (register_negated (layout view.now.names) op dest source (draft u.old) ≡ Makes (O.Scalar dest) (draft u.new)) }
{
    match op {
        UnaryOp::Plus => unreachable!(),
        UnaryOp::Minus => put(u, Instr::FrontNegate { dest, source }),
        UnaryOp::Complement => put(u, Instr::FrontLognot { dest, source }),
        UnaryOp::Not => {
            let zero = view.word(0, u)?;
            put(
                u,
                Instr::FrontCompare {
                    relation: Compare::UEq,
                    dest,
                    left: source,
                    right: zero,
                },
            )
        }
    }
}

#[tactic(auto, unfolding(crate::specs::Operands::is_plus, crate::specs::Steps::field_negated))]
fn unary_field(op: UnaryOp, dest: Field, source: Field, u: &mut Unit) -> Result<(), Memory>
    requires coded { is_plus op ≡ false }
    ensures draft { OnOk result (field_negated op dest source (draft u.old) ≡ Makes (O.Field dest) (draft u.new)) }
{
    match op {
        UnaryOp::Plus => unreachable!(),
        UnaryOp::Minus => put(u, Instr::Negate { dest, source }),
        UnaryOp::Complement => put(u, Instr::Lognot { dest, source }),
        UnaryOp::Not => {
            put(u, Instr::EqZero { source })?;
            test_value(dest, u)
        }
    }
}

/// Prints the pieces of a text; each conversion takes the next value.
#[tactic(auto, unfolding(lower_base::specs::Drafts::IsMade, lower_base::specs::Drafts::InRegister, crate::specs::Steps::pieces_printed, lower_base::specs::Drafts::in_register))]
pub fn print_pieces(
    alloc: Global,
    pieces: &[Piece],
    values: &[Out],
    u: &mut Unit,
) -> Result<(), Memory>
    requires made { IsMade (pieces_printed pieces.now values.now (draft u.old)) }
    ensures draft { OnOk result (pieces_printed pieces.now values.now (draft u.old) ≡ Makes O.Nothing (draft u.new)) }
{
    let mut next = 0usize;
    for piece in pieces {
        match piece {
            Piece::Bytes(bytes) => {
                let bytes = bytes.copied(alloc)?;
                put(u, Instr::FrontPutBytes { bytes })?;
            }
            Piece::Argument(format) => {
                let Some(value) = values.get(next) else {
                    unreachable!()
                };
                let source = value.register();
                put(
                    u,
                    Instr::FrontPut {
                        format: *format,
                        source,
                    },
                )?;
                next = next.saturating_add(1);
            }
        }
    }
    Ok(())
}

/// Whether the operator of a compound assignment reads its operands signed: a shift has the type of
/// the target, and every other operator that of the value, which is the common type.
#[tactic(auto, unfolding(crate::specs::Steps::assigned_signed))]
pub fn assign_signed(op: Op, target: Elem, value: Elem) -> bool
    ensures { result ≡ assigned_signed op target value }
{
    if op == Op::Shl || op == Op::Shr {
        promoted_signed(target)
    } else {
        promoted_signed(value)
    }
}
