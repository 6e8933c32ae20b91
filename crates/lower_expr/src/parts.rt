//! The parts of expressions, taken apart once.

ghost use Rattle.std.specs.Prelude.{◌≡◌};
ghost use Rattle.cstar_tree.specs.Typed.{type_of};
ghost use Rattle.lower_base.specs.Operators.{is_signed};
ghost use Rattle.lower_expr.specs.Kinds.{operand_bits, reads_signed};
ghost use Rattle.lower_expr.specs.Values.{taken_bits};

use crate::assign::is_send;
use crate::kinds::{assigned_bits, operand_bits, reads_signed};
use cstar_base::{Op, Place};
use cstar_tree::syntax::AssignOp;
use cstar_tree::typed::TExpr;
use lower_base::operators::promoted_signed;

/// A binary operator: whether it reads its operands signed, and the place where a zero divisor is a
/// fault.
#[derive(Clone, Copy)]
pub struct Operator {
    pub op: Op,
    pub signed: bool,
    pub place: Place,
}

/// A binary operator and its operands. A zero divisor is a fault at the place.
#[derive(Clone, Copy)]
pub struct Binary<'a> {
    pub place: Place,
    pub op: Op,
    pub left: &'a TExpr,
    pub right: &'a TExpr,
}

impl Binary<'_> {
    /// How many bits of the operands are needed for so many of the result.
    pub fn operand_bits(&self, bits: u8) -> u8
        ensures { result ≡ operand_bits bits self.now.op self.now.left.now self.now.right.now }
    {
        operand_bits(bits, self.op, self.left, self.right)
    }

    /// The operator on fields: a relation reads them as the type says in which it compares.
    pub fn parallel_operator(&self) -> Operator
        ensures { result ≡ record { op = self.now.op; signed = reads_signed self.now.op self.now.left.now self.now.right.now; place = self.now.place } }
    {
        Operator {
            op: self.op,
            signed: reads_signed(self.op, self.left, self.right),
            place: self.place,
        }
    }

    /// The operator on registers, which reads both operands as the left one's type says.
    pub fn operator(&self) -> Operator
        ensures { result ≡ record { op = self.now.op; signed = is_signed (type_of self.now.left.now).elem; place = self.now.place } }
    {
        Operator {
            op: self.op,
            signed: promoted_signed(self.left.ty().elem),
            place: self.place,
        }
    }
}

/// The operands of `?:`.
#[derive(Clone, Copy)]
pub struct Choice<'a> {
    pub test: &'a TExpr,
    pub then: &'a TExpr,
    pub otherwise: &'a TExpr,
}

/// An assignment: the whole, which says how it is sent where its target is left-indexed, and its
/// parts. A zero divisor is a fault at the place.
#[derive(Clone, Copy)]
pub struct Assignment<'a> {
    pub whole: &'a TExpr,
    pub place: Place,
    pub op: AssignOp,
    pub target: &'a TExpr,
    pub value: &'a TExpr,
}

impl Assignment<'_> {
    /// How many bits of the value are computed where so many of the assignment's are wanted.
    pub fn taken_bits(&self, bits: u8) -> u8
        ensures { result ≡ taken_bits bits self.now.op self.now.target.now self.now.value.now }
    {
        assigned_bits(
            bits,
            self.op,
            is_send(self.target),
            self.target.ty(),
            self.value,
        )
    }
}
