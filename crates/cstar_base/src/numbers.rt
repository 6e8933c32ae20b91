//! The arithmetic of the language: residues, conversions, operators and folds. Numbers of a type
//! are held as residues modulo 2 to its number of bits. None of the calls takes memory.

ghost use Rattle.std.specs.Prelude.{ℕ, ◌≡◌, ◌<◌, ◌^◌, ◌≤ℤ◌, ◌≢◌, pos, neg_ℤ, not, ◌-◌, ◌&&◌, nat_le, bit_and, bit_or, bit_xor};
ghost use Rattle.cstar_base.specs.Numbers.{residue, number_of, least_of, greatest_of, converted};
ghost use Rattle.cstar_base.specs.Operators.{operand, sum_of, difference_of, product_of, quotient_of, remainder_of, modulus_of, floor_rem, lesser_of, greater_of, shifted_left, shifted_right, is_below, is_at_most, outcome, divides, operate};
ghost use Rattle.cstar_base.specs.Folds.{fold_once, identity_of};

use crate::elem::Elem;
use crate::operators::{Combiner, Op};

/// How many residues the type has: 2 to its number of bits.
fn residue_count(e: Elem) -> i64
    ensures { result ≡ pos (2 ^ e.bits) }
{
    1 << e.bits
}

/// The residue of a whole number modulo 2 to the type's number of bits.
pub fn wrap(e: Elem, v: i64) -> u32
    ensures value { result ≡ residue e.bits v }
    ensures bound { result < 2 ^ e.bits }
{
    v.rem_euclid(residue_count(e)) as u32
}

/// Does the residue stand for a number below 0? In two's complement the upper half does.
fn is_below_zero(e: Elem, w: u32) -> bool
    requires { w < 2 ^ e.bits }
    ensures { result ≡ (e.signed && nat_le (2 ^ (e.bits - 1)) w) }
{
    e.signed && residue_count(e) <= 2 * i64::from(w)
}

/// The number that the residue stands for.
fn number(e: Elem, w: u32) -> i64
    requires { w < 2 ^ e.bits }
    ensures { result ≡ number_of e.bits e.signed w }
{
    if is_below_zero(e, w) {
        i64::from(w) - residue_count(e)
    } else {
        i64::from(w)
    }
}

/// The number of the type whose residue is `w`.
pub fn value(e: Elem, w: u32) -> i64
    requires { w < 2 ^ e.bits }
    ensures value { result ≡ number_of e.bits e.signed w }
    ensures same { residue e.bits result ≡ w }
    ensures least { least_of e.bits e.signed ≤ℤ result }
    ensures greatest { result ≤ℤ greatest_of e.bits e.signed }
{
    number(e, w)
}

/// The residue `w` of one type converted to another: by its number, and to `bool` 1 exactly where
/// that is not zero.
pub fn convert(to: Elem, from: Elem, w: u32) -> u32
    requires { w < 2 ^ from.bits }
    ensures value { result ≡ converted to from w }
    ensures bound { result < 2 ^ to.bits }
{
    let number = value(from, w);
    if to.bits == 1 {
        u32::from(number != 0)
    } else {
        wrap(to, number)
    }
}

/// The number that a word stands for as an operand.
#[tactic(auto, unfolding(crate::specs::Operators::operand, crate::specs::Numbers::least_of, crate::specs::Numbers::greatest_of))]
fn operand(unsigned: bool, w: u32) -> i64
    ensures value { result ≡ operand 32 unsigned w }
    ensures zero { result ≡ pos 0 → w ≡ 0 }
    ensures least { neg_ℤ (pos (2 ^ 31)) ≤ℤ result }
    ensures greatest { result ≤ℤ pos (2 ^ 32 - 1) }
{
    if unsigned {
        value(Elem::UNSIGNED, w)
    } else {
        value(Elem::INT, w)
    }
}

/// The residue of a whole number as a word.
fn word(v: i64) -> u32
    ensures { result ≡ residue 32 v }
{
    wrap(Elem::UNSIGNED, v)
}

#[tactic(auto, unfolding(crate::specs::Operators::sum_of))]
fn sum(unsigned: bool, a: u32, b: u32) -> u32
    ensures { result ≡ sum_of 32 unsigned a b }
{
    word(operand(unsigned, a) + operand(unsigned, b))
}

#[tactic(auto, unfolding(crate::specs::Operators::difference_of))]
fn difference(unsigned: bool, a: u32, b: u32) -> u32
    ensures { result ≡ difference_of 32 unsigned a b }
{
    word(operand(unsigned, a) - operand(unsigned, b))
}

#[tactic(auto, unfolding(crate::specs::Operators::product_of))]
fn product(unsigned: bool, a: u32, b: u32) -> u32
    ensures { result ≡ product_of 32 unsigned a b }
{
    a.wrapping_mul(b)
}

#[tactic(auto, unfolding(crate::specs::Operators::quotient_of))]
fn quotient(unsigned: bool, a: u32, b: u32) -> u32
    ensures { result ≡ quotient_of 32 unsigned a b }
{
    if b == 0 {
        return 0;
    }
    word(operand(unsigned, a) / operand(unsigned, b))
}

#[tactic(auto, unfolding(crate::specs::Operators::remainder_of))]
fn remainder(unsigned: bool, a: u32, b: u32) -> u32
    ensures { result ≡ remainder_of 32 unsigned a b }
{
    if b == 0 {
        return 0;
    }
    word(operand(unsigned, a) % operand(unsigned, b))
}

/// The remainder that has the divisor's sign, or is 0.
#[tactic(auto, unfolding(crate::specs::Operators::floor_rem))]
fn floor_remainder(x: i64, y: i64) -> i64
    requires least { neg_ℤ (pos (2 ^ 62)) ≤ℤ x }
    requires divisor { y ≢ pos 0 }
    requires least_divisor { neg_ℤ (pos (2 ^ 62)) ≤ℤ y }
    ensures { result ≡ floor_rem x y }
{
    if y > 0 {
        x.rem_euclid(y)
    } else {
        -(-x).rem_euclid(-y)
    }
}

#[tactic(auto, unfolding(crate::specs::Operators::modulus_of))]
fn modulus(unsigned: bool, a: u32, b: u32) -> u32
    ensures { result ≡ modulus_of 32 unsigned a b }
{
    if b == 0 {
        return 0;
    }
    word(floor_remainder(operand(unsigned, a), operand(unsigned, b)))
}

#[tactic(auto, unfolding(crate::specs::Operators::lesser_of))]
fn lesser(unsigned: bool, a: u32, b: u32) -> u32
    ensures { result ≡ lesser_of 32 unsigned a b }
{
    word(operand(unsigned, a).min(operand(unsigned, b)))
}

#[tactic(auto, unfolding(crate::specs::Operators::greater_of))]
fn greater(unsigned: bool, a: u32, b: u32) -> u32
    ensures { result ≡ greater_of 32 unsigned a b }
{
    word(operand(unsigned, a).max(operand(unsigned, b)))
}

#[tactic(auto, unfolding(crate::specs::Operators::shifted_left))]
fn shift_left(a: u32, b: u32) -> u32
    ensures { result ≡ shifted_left 32 a b }
{
    if b < 32 { a << b } else { 0 }
}

#[tactic(auto, unfolding(crate::specs::Operators::shifted_right))]
fn shift_right(unsigned: bool, a: u32, b: u32) -> u32
    ensures { result ≡ shifted_right 32 unsigned a b }
{
    let x = operand(unsigned, a);
    if b < 32 {
        word(x >> b)
    } else if x < 0 {
        u32::MAX
    } else {
        0
    }
}

#[tactic(auto, unfolding(crate::specs::Operators::is_below))]
fn is_below(unsigned: bool, a: u32, b: u32) -> bool
    ensures { result ≡ is_below 32 unsigned a b }
{
    operand(unsigned, a) < operand(unsigned, b)
}

#[tactic(auto, unfolding(crate::specs::Operators::is_at_most))]
fn is_at_most(unsigned: bool, a: u32, b: u32) -> bool
    ensures { result ≡ is_at_most 32 unsigned a b }
{
    operand(unsigned, a) <= operand(unsigned, b)
}

/// What the operator gives, and 0 for a division by 0.
#[tactic(auto, unfolding(crate::specs::Operators::outcome))]
fn outcome(o: Op, unsigned: bool, a: u32, b: u32) -> u32
    ensures { result ≡ outcome o 32 unsigned a b }
{
    match o {
        Op::Add => sum(unsigned, a, b),
        Op::Sub => difference(unsigned, a, b),
        Op::Mul => product(unsigned, a, b),
        Op::Div => quotient(unsigned, a, b),
        Op::Rem => remainder(unsigned, a, b),
        Op::Mod => modulus(unsigned, a, b),
        Op::And => a & b,
        Op::Or => a | b,
        Op::Xor => a ^ b,
        Op::Min => lesser(unsigned, a, b),
        Op::Max => greater(unsigned, a, b),
        Op::Shl => shift_left(a, b),
        Op::Shr => shift_right(unsigned, a, b),
        Op::Eq => u32::from(a == b),
        Op::Ne => u32::from(a != b),
        Op::Lt => u32::from(is_below(unsigned, a, b)),
        Op::Le => u32::from(is_at_most(unsigned, a, b)),
        Op::Gt => u32::from(is_below(unsigned, b, a)),
        Op::Ge => u32::from(is_at_most(unsigned, b, a)),
    }
}

#[tactic(auto, unfolding(crate::specs::Operators::divides))]
fn divides(o: Op) -> bool
    ensures { result ≡ divides o }
{
    matches!(o, Op::Div | Op::Rem | Op::Mod)
}

/// The operator at its common type, a signed or unsigned word. None exactly for a division by 0.
/// Results are taken modulo 2 to the 32, and comparisons give 0 or 1. `Div` truncates, `Rem` has
/// the dividend's sign and `Mod` the divisor's. The amount of a shift is unsigned; from 32 on a
/// left shift gives 0, and a right shift the sign in every bit.
#[tactic(auto, unfolding(crate::specs::Operators::operate))]
pub fn op(o: Op, unsigned: bool, a: u32, b: u32) -> Option<u32>
    ensures { result ≡ operate o unsigned a b }
{
    if divides(o) && b == 0 {
        None
    } else {
        Some(outcome(o, unsigned, a, b))
    }
}

/// The fold so far combined with one more value. `Last` gives that value.
#[tactic(auto, unfolding(crate::specs::Folds::fold_once))]
pub fn fold_step(c: Combiner, unsigned: bool, acc: u32, v: u32) -> u32
    ensures { result ≡ fold_once c unsigned acc v }
{
    match c {
        Combiner::Add => sum(unsigned, acc, v),
        Combiner::And => acc & v,
        Combiner::Or => acc | v,
        Combiner::Xor => acc ^ v,
        Combiner::Min => lesser(unsigned, acc, v),
        Combiner::Max => greater(unsigned, acc, v),
        Combiner::Last => v,
    }
}

/// The greatest number of the type, as a word.
#[tactic(auto, unfolding(crate::specs::Numbers::greatest_of, crate::specs::Numbers::residue))]
fn greatest_word(unsigned: bool) -> u32
    ensures { result ≡ residue 32 (greatest_of 32 (not unsigned)) }
{
    if unsigned { u32::MAX } else { 0x7fff_ffff }
}

/// The least number of the type, as a word.
#[tactic(auto, unfolding(crate::specs::Numbers::least_of, crate::specs::Numbers::residue))]
fn least_word(unsigned: bool) -> u32
    ensures { result ≡ residue 32 (least_of 32 (not unsigned)) }
{
    if unsigned { 0 } else { 0x8000_0000 }
}

#[tactic(auto, unfolding(crate::specs::Folds::identity_of))]
fn empty_fold(c: Combiner, unsigned: bool) -> u32
    ensures { result ≡ identity_of c unsigned }
{
    match c {
        Combiner::And => u32::MAX,
        Combiner::Min => greatest_word(unsigned),
        Combiner::Max => least_word(unsigned),
        Combiner::Add | Combiner::Or | Combiner::Xor | Combiner::Last => 0,
    }
}

/// The fold over no value: the greatest word of the type for `Min`, the least for `Max`, all ones
/// for `And`, and 0 for the others. Combined with a value it gives that value.
pub fn identity(c: Combiner, unsigned: bool) -> u32
    ensures value { result ≡ identity_of c unsigned }
    ensures neutral { (v : ℕ) → v < 2 ^ 32 → fold_once c unsigned result v ≡ v }
{
    empty_fold(c, unsigned)
}
