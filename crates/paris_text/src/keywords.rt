//! The keywords of a listing: what stands in the middle of mnemonics, and operands that are words.

ghost use Rattle.std.specs.Prelude.{◌≡◌, ℕ, List, IfSome};
ghost use Rattle.paris_code.specs.Mnemonics.{sign_name, operation_name, relation_name, reduction_name, format_name};
ghost use Rattle.paris_code.specs.Listing.{direction_text, mode_text, inclusion_text};

use cstar_base::{Direction, Inclusion, NumberFormat, SegmentMode};
use paris_code::{Compare, Operation, Reduction};

/// A value that a listing spells as a word, one of few.
pub trait Keyword: Copy + 'static {
    /// How the value is spelled.
    ghost text: { Self → List ℕ };

    /// All values of the type.
    fn all() -> &'static [Self];

    /// How the value is spelled.
    fn spelling(self) -> &'static [u8]
        ensures { result.now ≡ text self };
}

/// The value that is spelled so; `None` where none of `all` is.
pub fn keyword_of<K: Keyword>(spelling: &[u8]) -> Option<K>
    ensures { IfSome result (λ value. K.text value ≡ spelling.now) }
{
    for value in K::all() {
        if value.spelling() == spelling {
            return Some(*value);
        }
    }
    None
}

static SIGNS: [bool; 2] = [true, false];

/// How a number is read: in two's complement or unsigned.
impl Keyword for bool {
    ghost text = { sign_name };

    fn all() -> &'static [bool] {
        &SIGNS
    }

    fn spelling(self) -> &'static [u8] {
        if self { b"s" } else { b"u" }
    }
}

static OPERATIONS: [Operation; 18] = [
    Operation::SAdd,
    Operation::SSubtract,
    Operation::SMultiply,
    Operation::STruncate,
    Operation::UTruncate,
    Operation::SRem,
    Operation::URem,
    Operation::SMod,
    Operation::SMin,
    Operation::UMin,
    Operation::SMax,
    Operation::UMax,
    Operation::Logand,
    Operation::Logior,
    Operation::Logxor,
    Operation::UShiftLeft,
    Operation::SShiftRight,
    Operation::UShiftRight,
];

impl Keyword for Operation {
    ghost text = { operation_name };

    fn all() -> &'static [Operation] {
        &OPERATIONS
    }

    fn spelling(self) -> &'static [u8] {
        match self {
            Operation::SAdd => b"s_add",
            Operation::SSubtract => b"s_subtract",
            Operation::SMultiply => b"s_multiply",
            Operation::STruncate => b"s_truncate",
            Operation::UTruncate => b"u_truncate",
            Operation::SRem => b"s_rem",
            Operation::URem => b"u_rem",
            Operation::SMod => b"s_mod",
            Operation::SMin => b"s_min",
            Operation::UMin => b"u_min",
            Operation::SMax => b"s_max",
            Operation::UMax => b"u_max",
            Operation::Logand => b"logand",
            Operation::Logior => b"logior",
            Operation::Logxor => b"logxor",
            Operation::UShiftLeft => b"u_shift_left",
            Operation::SShiftRight => b"s_shift_right",
            Operation::UShiftRight => b"u_shift_right",
        }
    }
}

static RELATIONS: [Compare; 10] = [
    Compare::UEq,
    Compare::UNe,
    Compare::SLt,
    Compare::SLe,
    Compare::SGt,
    Compare::SGe,
    Compare::ULt,
    Compare::ULe,
    Compare::UGt,
    Compare::UGe,
];

impl Keyword for Compare {
    ghost text = { relation_name };

    fn all() -> &'static [Compare] {
        &RELATIONS
    }

    fn spelling(self) -> &'static [u8] {
        match self {
            Compare::UEq => b"u_eq",
            Compare::UNe => b"u_ne",
            Compare::SLt => b"s_lt",
            Compare::SLe => b"s_le",
            Compare::SGt => b"s_gt",
            Compare::SGe => b"s_ge",
            Compare::ULt => b"u_lt",
            Compare::ULe => b"u_le",
            Compare::UGt => b"u_gt",
            Compare::UGe => b"u_ge",
        }
    }
}

static REDUCTIONS: [Reduction; 8] = [
    Reduction::SAdd,
    Reduction::Logand,
    Reduction::Logior,
    Reduction::Logxor,
    Reduction::SMin,
    Reduction::UMin,
    Reduction::SMax,
    Reduction::UMax,
];

impl Keyword for Reduction {
    ghost text = { reduction_name };

    fn all() -> &'static [Reduction] {
        &REDUCTIONS
    }

    fn spelling(self) -> &'static [u8] {
        match self {
            Reduction::SAdd => b"s_add",
            Reduction::Logand => b"logand",
            Reduction::Logior => b"logior",
            Reduction::Logxor => b"logxor",
            Reduction::SMin => b"s_min",
            Reduction::UMin => b"u_min",
            Reduction::SMax => b"s_max",
            Reduction::UMax => b"u_max",
        }
    }
}

static FORMATS: [NumberFormat; 5] = [
    NumberFormat::Signed,
    NumberFormat::Unsigned,
    NumberFormat::Hexadecimal,
    NumberFormat::Octal,
    NumberFormat::Character,
];

impl Keyword for NumberFormat {
    ghost text = { format_name };

    fn all() -> &'static [NumberFormat] {
        &FORMATS
    }

    fn spelling(self) -> &'static [u8] {
        match self {
            NumberFormat::Signed => b"s",
            NumberFormat::Unsigned => b"u",
            NumberFormat::Hexadecimal => b"x",
            NumberFormat::Octal => b"o",
            NumberFormat::Character => b"c",
        }
    }
}

static DIRECTIONS: [Direction; 2] = [Direction::Upward, Direction::Downward];

impl Keyword for Direction {
    ghost text = { direction_text };

    fn all() -> &'static [Direction] {
        &DIRECTIONS
    }

    fn spelling(self) -> &'static [u8] {
        match self {
            Direction::Upward => b"up",
            Direction::Downward => b"down",
        }
    }
}

static MODES: [SegmentMode; 3] = [
    SegmentMode::NoSegments,
    SegmentMode::StartBit,
    SegmentMode::SegmentBit,
];

impl Keyword for SegmentMode {
    ghost text = { mode_text };

    fn all() -> &'static [SegmentMode] {
        &MODES
    }

    fn spelling(self) -> &'static [u8] {
        match self {
            SegmentMode::NoSegments => b"none",
            SegmentMode::StartBit => b"start",
            SegmentMode::SegmentBit => b"segment",
        }
    }
}

static INCLUSIONS: [Inclusion; 2] = [Inclusion::Inclusive, Inclusion::Exclusive];

impl Keyword for Inclusion {
    ghost text = { inclusion_text };

    fn all() -> &'static [Inclusion] {
        &INCLUSIONS
    }

    fn spelling(self) -> &'static [u8] {
        match self {
            Inclusion::Inclusive => b"in",
            Inclusion::Exclusive => b"ex",
        }
    }
}
