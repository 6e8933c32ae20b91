ghost use Rattle.std.specs.Prelude.{◌≡◌, true};
ghost use Rattle.cstar_base.specs.Kinds.{is_kind};

/// An element type of the language: a width in bits, and whether numbers are read in two's
/// complement. Only the seven types of the language exist.
#[derive(Clone, Copy, Debug, PartialEq, Eq)]
pub struct Elem {
    pub bits: u8,
    pub signed: bool,
    pub ghost kind: { is_kind bits signed ≡ true },
}

impl Elem {
    /// `bool`: one bit, 0 or 1.
    pub const BOOL: Elem = Elem {
        bits: 1,
        signed: false,
    };
    /// `char` and `signed char`: 8 bits in two's complement.
    pub const CHAR: Elem = Elem {
        bits: 8,
        signed: true,
    };
    /// `unsigned char`.
    pub const UNSIGNED_CHAR: Elem = Elem {
        bits: 8,
        signed: false,
    };
    /// `short`: 16 bits in two's complement.
    pub const SHORT: Elem = Elem {
        bits: 16,
        signed: true,
    };
    /// `unsigned short`.
    pub const UNSIGNED_SHORT: Elem = Elem {
        bits: 16,
        signed: false,
    };
    /// `int` and `long`: 32 bits in two's complement.
    pub const INT: Elem = Elem {
        bits: 32,
        signed: true,
    };
    /// `unsigned` and `unsigned long`.
    pub const UNSIGNED: Elem = Elem {
        bits: 32,
        signed: false,
    };
}
