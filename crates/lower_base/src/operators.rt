//! Which instruction does what an operator of the language means.

ghost use Rattle.std.specs.Prelude.{◌≡◌};
ghost use Rattle.cstar_base.specs.Operators.{divides};
ghost use Rattle.lower_base.specs.Operators.{operation_of, machine_of, assign_op_of, fold_of, reduce_op_of, scan_fold_of, is_signed, negates, relates};

use cstar_base::{Combiner, Elem, Op};
use cstar_tree::syntax::{AssignOp, ReduceOp};
use cstar_tree::typed::UnaryOp;
use paris_code::{Compare, Operation, Reduction};

/// What a binary operator compiles to: an operation or a relation.
#[derive(Clone, Copy, PartialEq, Eq)]
pub enum Machine {
    Operate(Operation),
    Compare(Compare),
}

/// The instruction's operator, for operands that are read signed or unsigned.
#[tactic(auto, unfolding(crate::specs::Operators::machine_of))]
pub fn machine_op(op: Op, signed: bool) -> Machine
    ensures { result ≡ machine_of op signed }
{
    match op {
        Op::Eq => Machine::Compare(Compare::UEq),
        Op::Ne => Machine::Compare(Compare::UNe),
        Op::Lt => Machine::Compare(if signed { Compare::SLt } else { Compare::ULt }),
        Op::Le => Machine::Compare(if signed { Compare::SLe } else { Compare::ULe }),
        Op::Gt => Machine::Compare(if signed { Compare::SGt } else { Compare::UGt }),
        Op::Ge => Machine::Compare(if signed { Compare::SGe } else { Compare::UGe }),
        _ => Machine::Operate(operation(op, signed)),
    }
}

/// The operation of an operator on numbers that is no relation. Modulo by an unsigned divisor is
/// the remainder.
#[tactic(auto, unfolding(crate::specs::Operators::operation_of))]
pub fn operation(op: Op, signed: bool) -> Operation
    ensures { result ≡ operation_of op signed }
{
    match op {
        Op::Sub => Operation::SSubtract,
        Op::Mul => Operation::SMultiply,
        Op::Div => if signed {
            Operation::STruncate
        } else {
            Operation::UTruncate
        },
        Op::Rem => if signed {
            Operation::SRem
        } else {
            Operation::URem
        },
        Op::Mod => if signed {
            Operation::SMod
        } else {
            Operation::URem
        },
        Op::And => Operation::Logand,
        Op::Or => Operation::Logior,
        Op::Xor => Operation::Logxor,
        Op::Min => if signed {
            Operation::SMin
        } else {
            Operation::UMin
        },
        Op::Max => if signed {
            Operation::SMax
        } else {
            Operation::UMax
        },
        Op::Shl => Operation::UShiftLeft,
        Op::Shr => if signed {
            Operation::SShiftRight
        } else {
            Operation::UShiftRight
        },
        _ => Operation::SAdd,
    }
}

/// Whether the operator has a divisor, which is to be checked.
#[tactic(auto, unfolding(cstar_base::specs::Operators::divides))]
pub fn divides(op: Op) -> bool
    ensures { result ≡ divides op }
{
    matches!(op, Op::Div | Op::Rem | Op::Mod)
}

/// Whether the operator is a relation.
#[tactic(auto, unfolding(crate::specs::Operators::relates))]
pub fn is_relation(op: Op) -> bool
    ensures { result ≡ relates op }
{
    matches!(op, Op::Eq | Op::Ne | Op::Lt | Op::Le | Op::Gt | Op::Ge)
}

/// Whether the operator's value is whether its operand is zero.
#[tactic(auto, unfolding(crate::specs::Operators::negates))]
pub fn negates(op: UnaryOp) -> bool
    ensures { result ≡ negates op }
{
    matches!(op, UnaryOp::Not)
}

/// The operator of a compound assignment.
#[tactic(auto, unfolding(crate::specs::Operators::assign_op_of))]
pub fn assign_op(op: AssignOp) -> Option<Op>
    ensures { result ≡ assign_op_of op }
{
    match op {
        AssignOp::Set => None,
        AssignOp::Add => Some(Op::Add),
        AssignOp::Sub => Some(Op::Sub),
        AssignOp::Mul => Some(Op::Mul),
        AssignOp::Div => Some(Op::Div),
        AssignOp::Rem => Some(Op::Rem),
        AssignOp::Mod => Some(Op::Mod),
        AssignOp::And => Some(Op::And),
        AssignOp::Or => Some(Op::Or),
        AssignOp::Xor => Some(Op::Xor),
        AssignOp::Shl => Some(Op::Shl),
        AssignOp::Shr => Some(Op::Shr),
        AssignOp::Min => Some(Op::Min),
        AssignOp::Max => Some(Op::Max),
    }
}

/// What folds the elements that an operator combines. A difference is folded as a sum.
#[tactic(auto, unfolding(crate::specs::Operators::fold_of))]
pub fn fold_of(op: Op, signed: bool) -> Reduction
    ensures { result ≡ fold_of op signed }
{
    match op {
        Op::And => Reduction::Logand,
        Op::Or => Reduction::Logior,
        Op::Xor => Reduction::Logxor,
        Op::Min => if signed {
            Reduction::SMin
        } else {
            Reduction::UMin
        },
        Op::Max => if signed {
            Reduction::SMax
        } else {
            Reduction::UMax
        },
        _ => Reduction::SAdd,
    }
}

/// The operator of a unary reduction.
#[tactic(auto, unfolding(crate::specs::Operators::reduce_op_of))]
pub fn reduce_op(op: ReduceOp) -> Op
    ensures { result ≡ reduce_op_of op }
{
    match op {
        ReduceOp::Add => Op::Add,
        ReduceOp::Sub => Op::Sub,
        ReduceOp::And => Op::And,
        ReduceOp::Xor => Op::Xor,
        ReduceOp::Or => Op::Or,
        ReduceOp::Min => Op::Min,
        ReduceOp::Max => Op::Max,
    }
}

/// What folds the steps of a scan.
#[tactic(auto, unfolding(crate::specs::Operators::scan_fold_of))]
pub fn scan_fold(combiner: Combiner, signed: bool) -> Reduction
    ensures { result ≡ scan_fold_of combiner signed }
{
    match combiner {
        Combiner::And => Reduction::Logand,
        Combiner::Or => Reduction::Logior,
        Combiner::Xor => Reduction::Logxor,
        Combiner::Min => if signed {
            Reduction::SMin
        } else {
            Reduction::UMin
        },
        Combiner::Max => if signed {
            Reduction::SMax
        } else {
            Reduction::UMax
        },
        Combiner::Add | Combiner::Last => Reduction::SAdd,
    }
}

/// Whether a value of the type, promoted to 32 bits, is read in two's complement.
#[tactic(auto, unfolding(crate::specs::Operators::is_signed))]
pub fn promoted_signed(elem: Elem) -> bool
    ensures { result ≡ is_signed elem }
{
    elem.signed || elem.bits < 32
}
