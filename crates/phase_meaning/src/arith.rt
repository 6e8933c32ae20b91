//! Arithmetic on fields: on numbers of 32 bits that were extended from the field's length.

ghost use Rattle.std.specs.Prelude.{◌≡◌, ◌-◌, ◌%◌, ◌^◌, ◌<◌, ◌≤◌, true, not, if◌then◌else◌};
ghost use Rattle.std.specs.Int.{from_bool};
ghost use Rattle.cstar_base.specs.Numbers.{residue, number_of};
ghost use Rattle.cstar_base.specs.Operators.{outcome};
ghost use Rattle.paris_code.specs.Operators.{operator_of, comparison_of};
ghost use Rattle.phase_meaning.specs.Shifts.{is_shift};

use cstar_base::Elem;
use cstar_base::numbers::{op, value};
use paris_code::{Compare, Operation};

/// The lowest `len` bits, all 1.
pub fn mask(len: u8) -> u32
    requires { (1 ≤ len) × (len ≤ 32) }
    ensures { result ≡ 2 ^ len - 1 }
{
    u32::MAX >> (32 - u32::from(len))
}

/// The number of a field of `len` bits as a word: in two's complement where it is signed.
pub fn extended(signed: bool, len: u8, n: u32) -> u32
    requires len { (1 ≤ len) × (len ≤ 32) }
    requires number { n < 2 ^ len }
    ensures { result ≡ residue 32 (number_of len signed n) }
{
    if !signed {
        return n;
    }
    let ones = mask(len);
    if n <= ones >> 1 { n } else { n + !ones }
}

/// Whether the right operand is the amount of a shift, which is read unsigned.
fn is_shift(operation: Operation) -> bool
    ensures { result ≡ is_shift operation }
{
    matches!(
        operation,
        Operation::UShiftLeft | Operation::SShiftRight | Operation::UShiftRight
    )
}

/// The right operand as a word: the amount of a shift is unsigned.
fn right_word(operation: Operation, len: u8, b: u32) -> u32
    requires len { (1 ≤ len) × (len ≤ 32) }
    requires number { b < 2 ^ len }
    ensures { result ≡ (if is_shift operation then b else residue 32 (number_of len (not (operator_of operation).1) b)) }
{
    if is_shift(operation) {
        b
    } else {
        let (_, unsigned) = operation.operator();
        extended(!unsigned, len, b)
    }
}

/// The operation on two fields of `len` bits. A division by 0 gives 0.
pub fn operate(operation: Operation, len: u8, a: u32, b: u32) -> u32
    requires len { (1 ≤ len) × (len ≤ 32) }
    requires left { a < 2 ^ len }
    requires right { b < 2 ^ len }
    ensures { result % 2 ^ len ≡ outcome (operator_of operation).0 len (operator_of operation).1 a b }
{
    let (operator, unsigned) = operation.operator();
    let left = extended(!unsigned, len, a);
    op(operator, unsigned, left, right_word(operation, len, b)).unwrap_or(0)
}

/// Whether the relation holds of two fields of `len` bits.
pub fn holds(relation: Compare, len: u8, a: u32, b: u32) -> bool
    requires len { (1 ≤ len) × (len ≤ 32) }
    requires left { a < 2 ^ len }
    requires right { b < 2 ^ len }
    ensures { from_bool result ≡ outcome (comparison_of relation).0 len (comparison_of relation).1 a b }
{
    let (operator, unsigned) = relation.operator();
    let left = extended(!unsigned, len, a);
    let right = extended(!unsigned, len, b);
    op(operator, unsigned, left, right) == Some(1)
}

/// The whole number that a word stands for.
pub fn whole(signed: bool, w: u32) -> i64
    ensures { result ≡ number_of 32 signed w }
{
    if signed {
        value(Elem::INT, w)
    } else {
        value(Elem::UNSIGNED, w)
    }
}

/// The number that a word stands for in two's complement.
#[tactic(auto, unfolding(cstar_base::specs::Numbers::least_of, cstar_base::specs::Numbers::greatest_of))]
pub fn signed(w: u32) -> i32
    ensures { result ≡ number_of 32 true w }
{
    value(Elem::INT, w) as i32
}
