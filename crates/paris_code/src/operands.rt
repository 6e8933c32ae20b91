//! The operands of instructions.

ghost use Rattle.std.specs.Prelude.{◌≡◌};
ghost use Rattle.paris_code.specs.Operators.{operator_of, comparison_of, combiner_of};

use cstar_base::{Combiner, Op};

/// A run of `len` bits of a set, from the bit `offset`, the lowest first. Before placing, `offset`
/// is the number of an entry of the unit's fields.
#[derive(Clone, Copy, PartialEq, Eq)]
pub struct Field {
    pub set: u16,
    pub offset: u32,
    pub len: u8,
}

/// An immediate number, or the register that holds it.
#[derive(Clone, Copy, PartialEq, Eq)]
pub enum Konst {
    Imm(u32),
    Reg(u32),
}

/// A coordinate of an address: one for each processor, or one register for all.
#[derive(Clone, Copy, PartialEq, Eq)]
pub enum Coordinate {
    Field(Field),
    Reg(u32),
}

/// A coordinate that is checked against its extent, read in two's complement or unsigned.
#[derive(Clone, Copy, PartialEq, Eq)]
pub struct SignedCoordinate {
    pub coordinate: Coordinate,
    pub signed: bool,
}

/// A register that is checked against an extent, read in two's complement or unsigned.
#[derive(Clone, Copy, PartialEq, Eq)]
pub struct RegisterCoordinate {
    pub register: u32,
    pub signed: bool,
}

/// A signed step along an axis of a grid.
#[derive(Clone, Copy, PartialEq, Eq)]
pub struct GridStep {
    pub axis: u32,
    pub step: Konst,
}

/// The operations on two numbers, with the names that the instructions have. `S` reads both in
/// two's complement, `U` unsigned.
#[derive(Clone, Copy, PartialEq, Eq)]
pub enum Operation {
    SAdd,
    SSubtract,
    SMultiply,
    STruncate,
    UTruncate,
    SRem,
    URem,
    SMod,
    SMin,
    UMin,
    SMax,
    UMax,
    Logand,
    Logior,
    Logxor,
    UShiftLeft,
    SShiftRight,
    UShiftRight,
}

impl Operation {
    /// The operator of the language that the operation does, and whether that reads its operands
    /// unsigned.
    pub fn operator(self) -> (Op, bool)
        ensures { result ≡ operator_of self }
    {
        match self {
            Operation::SAdd => (Op::Add, false),
            Operation::SSubtract => (Op::Sub, false),
            Operation::SMultiply => (Op::Mul, false),
            Operation::STruncate => (Op::Div, false),
            Operation::UTruncate => (Op::Div, true),
            Operation::SRem => (Op::Rem, false),
            Operation::URem => (Op::Rem, true),
            Operation::SMod => (Op::Mod, false),
            Operation::SMin => (Op::Min, false),
            Operation::UMin => (Op::Min, true),
            Operation::SMax => (Op::Max, false),
            Operation::UMax => (Op::Max, true),
            Operation::Logand => (Op::And, true),
            Operation::Logior => (Op::Or, true),
            Operation::Logxor => (Op::Xor, true),
            Operation::UShiftLeft => (Op::Shl, true),
            Operation::SShiftRight => (Op::Shr, false),
            Operation::UShiftRight => (Op::Shr, true),
        }
    }
}

/// The relations of two numbers.
#[derive(Clone, Copy, PartialEq, Eq)]
pub enum Compare {
    UEq,
    UNe,
    SLt,
    SLe,
    SGt,
    SGe,
    ULt,
    ULe,
    UGt,
    UGe,
}

impl Compare {
    /// The comparison of the language that the relation is, and whether that reads its operands
    /// unsigned.
    pub fn operator(self) -> (Op, bool)
        ensures { result ≡ comparison_of self }
    {
        match self {
            Compare::UEq => (Op::Eq, true),
            Compare::UNe => (Op::Ne, true),
            Compare::SLt => (Op::Lt, false),
            Compare::SLe => (Op::Le, false),
            Compare::SGt => (Op::Gt, false),
            Compare::SGe => (Op::Ge, false),
            Compare::ULt => (Op::Lt, true),
            Compare::ULe => (Op::Le, true),
            Compare::UGt => (Op::Gt, true),
            Compare::UGe => (Op::Ge, true),
        }
    }
}

/// What combines the messages of a send, the fields of a reduction or the steps of a scan.
#[derive(Clone, Copy, PartialEq, Eq)]
pub enum Reduction {
    SAdd,
    Logand,
    Logior,
    Logxor,
    SMin,
    UMin,
    SMax,
    UMax,
}

impl Reduction {
    /// The combiner of the language that the reduction folds by, and whether that reads its
    /// operands unsigned.
    pub fn combiner(self) -> (Combiner, bool)
        ensures { result ≡ combiner_of self }
    {
        match self {
            Reduction::SAdd => (Combiner::Add, false),
            Reduction::Logand => (Combiner::And, true),
            Reduction::Logior => (Combiner::Or, true),
            Reduction::Logxor => (Combiner::Xor, true),
            Reduction::SMin => (Combiner::Min, false),
            Reduction::UMin => (Combiner::Min, true),
            Reduction::SMax => (Combiner::Max, false),
            Reduction::UMax => (Combiner::Max, true),
        }
    }
}
