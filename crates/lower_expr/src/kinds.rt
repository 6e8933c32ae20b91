//! At how many bits a parallel value is computed: of each as many are wanted as its user needs. An
//! operator works at fewer bits than 32 where the lowest bits of its result depend on the lowest bits of
//! its operands alone, and a relation compares in a narrow type that has the numbers of both sides.

ghost use Rattle.std.specs.Prelude.{◌≡◌, Some, true};
ghost use Rattle.cstar_tree.specs.Typed.{type_of};
ghost use Rattle.lower_base.specs.Kinds.{bits_of, kind_of};
ghost use Rattle.lower_expr.specs.Kinds.{assigned_bits, done_as, has_number, is_modular, is_unchanged, kind_with, list_bits, longer, operand_bits, operation_bits, operator_bits, reads_signed, reduced_bits, relation_kind, result_bits, shifts_within, unary_bits, works_within};

use crate::steps::{constant_word, stays_scalar};
use cstar_base::{Elem, Op, numbers};
use cstar_tree::syntax::{AssignOp, ReduceOp};
use cstar_tree::typed::{TExpr, UnaryOp, ValueType};
use lower_base::kinds::{bits_of, common_kind, fold_bits, is_bitwise, kind_of};
use lower_base::operators::{assign_op, is_relation, negates, promoted_signed, reduce_op};

/// How many bits of a value its narrow type has, or 32: a test needs no others.
pub fn test_bits(e: &TExpr) -> u8
    ensures { result ≡ bits_of (kind_of e.now) }
{
    bits_of(kind_of(e))
}

/// Whether a type has the number of a promoted constant.
#[tactic(auto, unfolding(crate::specs::Kinds::has_number))]
fn has_number(kind: Elem, word: u32) -> bool
    ensures { result ≡ has_number kind word }
{
    numbers::convert(Elem::INT, kind, numbers::convert(kind, Elem::INT, word)) == word
}

#[tactic(auto, unfolding(crate::specs::Kinds::kind_with))]
fn kind_with(kind: Option<Elem>, word: u32) -> Option<Elem>
    ensures { result ≡ kind_with kind word }
{
    let kind = kind?;
    if has_number(kind, word) {
        Some(kind)
    } else {
        None
    }
}

/// The narrow type in which the two sides of a relation are compared, if there is one.
#[tactic(auto, unfolding(crate::specs::Kinds::relation_kind))]
fn relation_kind(left: &TExpr, right: &TExpr) -> Option<Elem>
    ensures { result ≡ relation_kind left.now right.now }
{
    if let Some(word) = constant_word(right) {
        return kind_with(kind_of(left), word);
    }
    match constant_word(left) {
        Some(word) => kind_with(kind_of(right), word),
        None => common_kind(kind_of(left), kind_of(right)),
    }
}

/// At how many bits the two sides of a relation are compared.
pub fn relation_bits(left: &TExpr, right: &TExpr) -> u8
    ensures { result ≡ bits_of (relation_kind left.now right.now) }
{
    bits_of(relation_kind(left, right))
}

/// Whether the lowest bits of the result depend on the lowest bits of the operands alone.
#[tactic(auto, unfolding(crate::specs::Kinds::is_modular, lower_base::specs::Kinds::is_bitwise))]
fn is_modular(op: Op) -> bool
    ensures { result ≡ is_modular op }
{
    matches!(op, Op::Add | Op::Sub | Op::Mul | Op::And | Op::Or | Op::Xor)
}

/// Whether the operator is a shift to the left by a constant below the number of bits.
#[tactic(auto, unfolding(crate::specs::Kinds::shifts_within))]
fn shifts_within(bits: u8, op: Op, right: &TExpr) -> bool
    ensures { result ≡ shifts_within bits op right.now }
{
    match (op, constant_word(right)) {
        (Op::Shl, Some(word)) => word < u32::from(bits),
        _ => false,
    }
}

/// At how many bits an operator works of whose result so many are wanted.
#[tactic(auto, unfolding(crate::specs::Kinds::operation_bits))]
pub fn operation_bits(bits: u8, op: Op, right: &TExpr) -> u8
    ensures { result ≡ operation_bits bits op right.now }
{
    if is_modular(op) || shifts_within(bits, op, right) {
        bits
    } else {
        32
    }
}

/// How many bits the result of a binary operator has.
#[tactic(auto, unfolding(crate::specs::Kinds::result_bits))]
pub fn result_bits(bits: u8, op: Op, right: &TExpr) -> u8
    ensures { result ≡ result_bits bits op right.now }
{
    if is_relation(op) {
        bits
    } else {
        operation_bits(bits, op, right)
    }
}

/// How many bits the operands of a binary operator have.
#[tactic(auto, unfolding(crate::specs::Kinds::operand_bits))]
pub fn operand_bits(bits: u8, op: Op, left: &TExpr, right: &TExpr) -> u8
    ensures { result ≡ operand_bits bits op left.now right.now }
{
    if is_relation(op) {
        relation_bits(left, right)
    } else {
        operation_bits(bits, op, right)
    }
}

/// Whether a parallel operator reads its operands signed: a relation as the type in which it compares.
#[tactic(auto, unfolding(crate::specs::Kinds::reads_signed))]
pub fn reads_signed(op: Op, left: &TExpr, right: &TExpr) -> bool
    ensures { result ≡ reads_signed op left.now right.now }
{
    if is_relation(op) {
        match relation_kind(left, right) {
            Some(kind) => kind.signed,
            None => promoted_signed(left.ty().elem),
        }
    } else {
        promoted_signed(left.ty().elem)
    }
}

/// How many bits of its operand a unary operator needs.
#[tactic(auto, unfolding(crate::specs::Kinds::unary_bits))]
pub fn unary_bits(bits: u8, op: UnaryOp, operand: &TExpr) -> u8
    ensures { result ≡ unary_bits bits op operand.now }
{
    if negates(op) {
        test_bits(operand)
    } else {
        bits
    }
}

/// The unary operator that is done: `!` of a parallel value that has one bit, where one bit is wanted, is
/// done as its complement.
#[tactic(auto, unfolding(crate::specs::Kinds::done_as))]
pub fn done_as(bits: u8, op: UnaryOp, operand: &TExpr) -> UnaryOp
    ensures { result ≡ done_as bits op operand.now }
{
    if negates(op) && bits == 1 && !stays_scalar(operand) && test_bits(operand) == 1 {
        UnaryOp::Complement
    } else {
        op
    }
}

/// Whether what is wanted of a converted value is that of the value itself. One that is kept in a
/// register is converted there, unless it keeps all its bits.
#[tactic(auto, unfolding(crate::specs::Kinds::is_unchanged))]
pub fn is_unchanged(bits: u8, elem: Elem, kept: bool) -> bool
    ensures { result ≡ is_unchanged bits elem kept }
{
    if kept {
        elem.bits == 32
    } else {
        bits <= elem.bits && elem.bits != 1
    }
}

#[tactic(auto, unfolding(crate::specs::Kinds::longer))]
fn longer(bits: u8, other: u8) -> u8
    ensures { result ≡ longer bits other }
{
    if bits < other { other } else { bits }
}

/// How many bits the operand of a unary reduction has.
pub fn reduced_bits(op: ReduceOp, operand: &TExpr) -> u8
    ensures { result ≡ reduced_bits op operand.now }
{
    fold_bits(reduce_op(op), operand)
}

/// How many bits an operator takes of the value that it assigns to a target of the shape: all, but for a
/// parallel value that is folded onto a scalar.
#[tactic(auto, unfolding(crate::specs::Kinds::operator_bits))]
pub fn operator_bits(op: Op, shape: Option<u16>, value: &TExpr) -> u8
    ensures { result ≡ operator_bits op shape value.now }
{
    if shape.is_some() || stays_scalar(value) {
        32
    } else {
        fold_bits(op, value)
    }
}

/// How many bits a value has that is assigned: those of the target, and what is wanted of the
/// assignment, but as many as an operator or a combiner takes.
#[tactic(auto, unfolding(crate::specs::Kinds::assigned_bits))]
pub fn assigned_bits(bits: u8, op: AssignOp, sends: bool, ty: ValueType, value: &TExpr) -> u8
    ensures { result ≡ assigned_bits bits op sends ty value.now }
{
    match assign_op(op) {
        Some(op) => operator_bits(op, ty.shape, value),
        None => if sends {
            ty.elem.bits
        } else {
            longer(bits, ty.elem.bits)
        },
    }
}

/// Whether an operator on a variable of a type needs no more bits than that has. That of `bool` is one
/// of truth values.
#[tactic(auto, unfolding(crate::specs::Kinds::works_within))]
pub fn works_within(elem: Elem, op: Op, value: &TExpr) -> bool
    ensures { result ≡ works_within elem op value.now }
{
    if elem.bits == 1 {
        is_bitwise(op) && test_bits(value) == 1
    } else {
        operation_bits(elem.bits, op, value) == elem.bits
    }
}

/// How many bits the members of a list have: as many as their own types, or 32.
#[tactic(auto, unfolding(crate::specs::Kinds::list_bits))]
pub fn list_bits(own: bool, e: &TExpr) -> u8
    ensures { result ≡ list_bits own e.now }
{
    if own { e.ty().elem.bits } else { 32 }
}
