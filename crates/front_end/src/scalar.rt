//! What the scalar instructions compute.

ghost use Rattle.std.specs.Prelude.{◌≡◌, neg_ℤ, pos};
ghost use Rattle.cstar_base.specs.Numbers.{number_of, residue};
ghost use Rattle.paris_code.specs.Checking.{is_outside};
ghost use Rattle.paris_code.specs.Scalar.{operated, compared, rounded};

use cstar_base::numbers::{convert, op, value, wrap};
use cstar_base::{Elem, Op};
use paris_code::{Compare, Operation};

/// The operation on two words. A division by 0 gives 0. The operations that most code is made of
/// are single operations of the machine here.
#[tactic(auto, unfolding(paris_code::specs::Scalar::operated, cstar_base::specs::Operators::operate, cstar_base::specs::Operators::outcome, cstar_base::specs::Operators::divides), using(cstar_base::proofs::OperatorLaws::sum_by_residues, cstar_base::proofs::OperatorLaws::difference_by_residues, cstar_base::proofs::OperatorLaws::product_by_residues))]
#[inline(always)]
pub fn operate(operation: Operation, x: u32, y: u32) -> u32
    ensures { result ≡ operated operation x y }
{
    match operation {
        Operation::SAdd => x.wrapping_add(y),
        Operation::SSubtract => x.wrapping_sub(y),
        Operation::SMultiply => x.wrapping_mul(y),
        Operation::Logand => x & y,
        Operation::Logior => x | y,
        Operation::Logxor => x ^ y,
        Operation::UShiftLeft => op(Op::Shl, true, x, y).unwrap_or(0),
        Operation::SShiftRight => op(Op::Shr, false, x, y).unwrap_or(0),
        Operation::UShiftRight => op(Op::Shr, true, x, y).unwrap_or(0),
        Operation::STruncate => op(Op::Div, false, x, y).unwrap_or(0),
        Operation::UTruncate => op(Op::Div, true, x, y).unwrap_or(0),
        Operation::SRem => op(Op::Rem, false, x, y).unwrap_or(0),
        Operation::URem => op(Op::Rem, true, x, y).unwrap_or(0),
        Operation::SMod => op(Op::Mod, false, x, y).unwrap_or(0),
        Operation::SMin => op(Op::Min, false, x, y).unwrap_or(0),
        Operation::UMin => op(Op::Min, true, x, y).unwrap_or(0),
        Operation::SMax => op(Op::Max, false, x, y).unwrap_or(0),
        Operation::UMax => op(Op::Max, true, x, y).unwrap_or(0),
    }
}

/// 1 where the relation holds of two words, else 0.
#[tactic(auto, unfolding(paris_code::specs::Scalar::compared))]
#[inline(always)]
pub fn compare(relation: Compare, x: u32, y: u32) -> u32
    ensures { result ≡ compared relation x y }
{
    match relation {
        Compare::UEq => op(Op::Eq, true, x, y).unwrap_or(0),
        Compare::UNe => op(Op::Ne, true, x, y).unwrap_or(0),
        Compare::SLt => op(Op::Lt, false, x, y).unwrap_or(0),
        Compare::SLe => op(Op::Le, false, x, y).unwrap_or(0),
        Compare::SGt => op(Op::Gt, false, x, y).unwrap_or(0),
        Compare::SGe => op(Op::Ge, false, x, y).unwrap_or(0),
        Compare::ULt => op(Op::Lt, true, x, y).unwrap_or(0),
        Compare::ULe => op(Op::Le, true, x, y).unwrap_or(0),
        Compare::UGt => op(Op::Gt, true, x, y).unwrap_or(0),
        Compare::UGe => op(Op::Ge, true, x, y).unwrap_or(0),
    }
}

/// The negative of a word.
pub fn negate(x: u32) -> u32
    ensures { result ≡ residue 32 (neg_ℤ (pos x)) }
{
    wrap(Elem::INT, -i64::from(x))
}

/// The word converted to a type and promoted again.
#[tactic(auto, unfolding(paris_code::specs::Scalar::rounded, cstar_base::specs::Numbers::converted))]
pub fn round(kind: Elem, x: u32) -> u32
    ensures { result ≡ rounded kind x }
{
    convert(Elem::INT, kind, convert(kind, Elem::INT, x))
}

/// Whether the word, read by its sign, is no coordinate of an axis with this extent.
#[tactic(auto, unfolding(paris_code::specs::Checking::is_outside))]
pub fn is_outside(extent: u32, signed: bool, x: u32) -> bool
    ensures { result ≡ is_outside extent (number_of 32 signed x) }
{
    let kind = if signed { Elem::INT } else { Elem::UNSIGNED };
    let number = value(kind, x);
    (number < 0) | (i64::from(extent) <= number)
}
