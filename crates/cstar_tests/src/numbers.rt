//! Values of operators and conversions, worked out by hand.

use cstar_base::numbers::{convert, fold_step, identity, op, value, wrap};
use cstar_base::{Combiner, Elem, Op};

const MINUS_ONE: u32 = u32::MAX;

const LEAST: u32 = 0x8000_0000;

/// The operator, whether it is unsigned, two operands, and the result.
static TABLE: [(Op, bool, u32, u32, Option<u32>); 30] = [
    (Op::Add, false, 0x7fff_ffff, 1, Some(LEAST)),
    (Op::Sub, true, 0, 1, Some(MINUS_ONE)),
    (Op::Mul, false, 65536, 65536, Some(0)),
    (Op::Mul, false, 0xffff_fffd, 5, Some(0xffff_fff1)),
    (Op::Div, false, 0xffff_fff9, 2, Some(0xffff_fffd)),
    (Op::Div, true, 0xffff_fff9, 2, Some(0x7fff_fffc)),
    (Op::Div, false, LEAST, MINUS_ONE, Some(LEAST)),
    (Op::Div, true, LEAST, MINUS_ONE, Some(0)),
    (Op::Div, false, 7, 0, None),
    (Op::Rem, false, 0xffff_fff9, 3, Some(MINUS_ONE)),
    (Op::Rem, false, 7, 0xffff_fffd, Some(1)),
    (Op::Rem, false, LEAST, MINUS_ONE, Some(0)),
    (Op::Rem, true, 7, 0, None),
    (Op::Mod, false, 0xffff_fff9, 3, Some(2)),
    (Op::Mod, false, 7, 0xffff_fffd, Some(0xffff_fffe)),
    (Op::Mod, false, 0xffff_fffa, 0xffff_fffd, Some(0)),
    (Op::Mod, false, 0, 0, None),
    (Op::And, false, 12, 10, Some(8)),
    (Op::Xor, false, 12, 10, Some(6)),
    (Op::Min, false, MINUS_ONE, 1, Some(MINUS_ONE)),
    (Op::Min, true, MINUS_ONE, 1, Some(1)),
    (Op::Max, false, MINUS_ONE, 1, Some(1)),
    (Op::Shl, false, 1, 31, Some(LEAST)),
    (Op::Shl, false, 1, 32, Some(0)),
    (Op::Shr, false, MINUS_ONE, 40, Some(MINUS_ONE)),
    (Op::Shr, true, MINUS_ONE, 40, Some(0)),
    (Op::Shr, false, 0xffff_fff9, 1, Some(0xffff_fffc)),
    (Op::Shr, false, 5, MINUS_ONE, Some(0)),
    (Op::Lt, false, MINUS_ONE, 0, Some(1)),
    (Op::Ge, true, MINUS_ONE, 0, Some(1)),
];

#[test]
fn operators_follow_the_language(rt: HostRuntime) {
    for (o, unsigned, a, b, want) in &TABLE {
        assert!(rt; op(*o, *unsigned, *a, *b) == *want, "at {o:?} {a} {b}");
    }
}

#[test]
fn conversions_follow_the_language(rt: HostRuntime) {
    assert_eq!(rt; value(Elem::CHAR, 200), -56);
    assert_eq!(rt; wrap(Elem::SHORT, -1), 65535);
    assert_eq!(rt; convert(Elem::BOOL, Elem::INT, 256), 1);
    assert_eq!(rt; convert(Elem::BOOL, Elem::CHAR, 0), 0);
    assert_eq!(rt; convert(Elem::CHAR, Elem::INT, 0x1234_5680), 128);
    assert_eq!(rt; convert(Elem::INT, Elem::CHAR, 128), 0xffff_ff80);
    assert_eq!(rt; convert(Elem::INT, Elem::UNSIGNED_CHAR, 128), 128);
    assert_eq!(rt; identity(Combiner::Min, false), 0x7fff_ffff);
    assert_eq!(rt; identity(Combiner::Max, false), LEAST);
    assert_eq!(rt; fold_step(Combiner::Max, true, 1, MINUS_ONE), MINUS_ONE);
    assert_eq!(rt; fold_step(Combiner::Last, false, 1, 2), 2);
}
