//! The faults of a text, of a listing, of a saved point and of a run: what each is called and by which number it is
//! printed.
ghost use Rattle.std.specs.Prelude.{◌≡◌};
ghost use Rattle.cstar_base.specs.Faults.{name_of, number_of, run_name_of, run_number_of};

/// Why a text, a listing or a saved point is refused, named as it is printed: a text up to
/// `ArrayUse`, a listing from `Listing` on, a saved point from `Point` on. `CodeSpace` is a
/// listing's `Space`.
#[derive(Clone, Copy, PartialEq, Eq)]
pub enum Fault {
    NotBuilt,
    BadByte,
    Open,
    Wide,
    Directive,
    Syntax,
    Redeclared,
    Unknown,
    WrongKind,
    Extent,
    NoShape,
    OtherShape,
    ScalarWanted,
    ParallelWanted,
    IndexCount,
    Dot,
    NotAPlace,
    SendValue,
    SendOperator,
    Arguments,
    Return,
    Axis,
    LoopWord,
    Recursion,
    NoMain,
    Format,
    Constant,
    Depth,
    Space,
    Size,
    TooLong,
    ArrayDecl,
    ArrayUse,
    Listing,
    Target,
    Field,
    Stack,
    BackEdge,
    Set,
    Operands,
    CodeSpace,
    Slots,
    Point,
    State,
}

impl Fault {
    /// The number that is printed, 5 of E05.
    pub fn number(self) -> u8
        ensures { result ≡ number_of self }
    {
        match self {
            Fault::NotBuilt => 0,
            Fault::BadByte => 1,
            Fault::Open => 2,
            Fault::Wide => 3,
            Fault::Directive => 4,
            Fault::Syntax => 5,
            Fault::Redeclared => 6,
            Fault::Unknown => 7,
            Fault::WrongKind => 8,
            Fault::Extent => 9,
            Fault::NoShape => 10,
            Fault::OtherShape => 11,
            Fault::ScalarWanted => 12,
            Fault::ParallelWanted => 13,
            Fault::IndexCount => 14,
            Fault::Dot => 15,
            Fault::NotAPlace => 16,
            Fault::SendValue => 17,
            Fault::SendOperator => 18,
            Fault::Arguments => 19,
            Fault::Return => 20,
            Fault::Axis => 21,
            Fault::LoopWord => 22,
            Fault::Recursion => 23,
            Fault::NoMain => 24,
            Fault::Format => 25,
            Fault::Constant => 26,
            Fault::Depth => 27,
            Fault::Space => 28,
            Fault::Size => 29,
            Fault::TooLong => 30,
            Fault::ArrayDecl => 31,
            Fault::ArrayUse => 32,
            Fault::Listing => 40,
            Fault::Target => 41,
            Fault::Field => 42,
            Fault::Stack => 43,
            Fault::BackEdge => 44,
            Fault::Set => 45,
            Fault::Operands => 46,
            Fault::CodeSpace => 47,
            Fault::Slots => 48,
            Fault::Point => 50,
            Fault::State => 51,
        }
    }

    /// The name that is printed behind the number.
    pub fn name(self) -> &'static str
        ensures { result.now ≡ name_of self }
    {
        match self {
            Fault::NotBuilt => "NotBuilt",
            Fault::BadByte => "BadByte",
            Fault::Open => "Open",
            Fault::Wide => "Wide",
            Fault::Directive => "Directive",
            Fault::Syntax => "Syntax",
            Fault::Redeclared => "Redeclared",
            Fault::Unknown => "Unknown",
            Fault::WrongKind => "WrongKind",
            Fault::Extent => "Extent",
            Fault::NoShape => "NoShape",
            Fault::OtherShape => "OtherShape",
            Fault::ScalarWanted => "ScalarWanted",
            Fault::ParallelWanted => "ParallelWanted",
            Fault::IndexCount => "IndexCount",
            Fault::Dot => "Dot",
            Fault::NotAPlace => "NotAPlace",
            Fault::SendValue => "SendValue",
            Fault::SendOperator => "SendOperator",
            Fault::Arguments => "Arguments",
            Fault::Return => "Return",
            Fault::Axis => "Axis",
            Fault::LoopWord => "LoopWord",
            Fault::Recursion => "Recursion",
            Fault::NoMain => "NoMain",
            Fault::Format => "Format",
            Fault::Constant => "Constant",
            Fault::Depth => "Depth",
            Fault::Space => "Space",
            Fault::Size => "Size",
            Fault::TooLong => "TooLong",
            Fault::ArrayDecl => "ArrayDecl",
            Fault::ArrayUse => "ArrayUse",
            Fault::Listing => "Listing",
            Fault::Target => "Target",
            Fault::Field => "Field",
            Fault::Stack => "Stack",
            Fault::BackEdge => "BackEdge",
            Fault::Set => "Set",
            Fault::Operands => "Operands",
            Fault::CodeSpace => "Space",
            Fault::Slots => "Slots",
            Fault::Point => "Point",
            Fault::State => "State",
        }
    }

    /// The fault that has a number.
    pub fn numbered(number: u8) -> Fault
        requires { (fault : Fault) × number_of fault ≡ number }
        ensures number { number_of result ≡ number }
        ensures only { (fault : Fault) → number_of fault ≡ number → result ≡ fault }
    {
        match number {
            0 => Fault::NotBuilt,
            1 => Fault::BadByte,
            2 => Fault::Open,
            3 => Fault::Wide,
            4 => Fault::Directive,
            5 => Fault::Syntax,
            6 => Fault::Redeclared,
            7 => Fault::Unknown,
            8 => Fault::WrongKind,
            9 => Fault::Extent,
            10 => Fault::NoShape,
            11 => Fault::OtherShape,
            12 => Fault::ScalarWanted,
            13 => Fault::ParallelWanted,
            14 => Fault::IndexCount,
            15 => Fault::Dot,
            16 => Fault::NotAPlace,
            17 => Fault::SendValue,
            18 => Fault::SendOperator,
            19 => Fault::Arguments,
            20 => Fault::Return,
            21 => Fault::Axis,
            22 => Fault::LoopWord,
            23 => Fault::Recursion,
            24 => Fault::NoMain,
            25 => Fault::Format,
            26 => Fault::Constant,
            27 => Fault::Depth,
            28 => Fault::Space,
            29 => Fault::Size,
            30 => Fault::TooLong,
            31 => Fault::ArrayDecl,
            32 => Fault::ArrayUse,
            40 => Fault::Listing,
            41 => Fault::Target,
            42 => Fault::Field,
            43 => Fault::Stack,
            44 => Fault::BackEdge,
            45 => Fault::Set,
            46 => Fault::Operands,
            47 => Fault::CodeSpace,
            48 => Fault::Slots,
            50 => Fault::Point,
            _ => Fault::State,
        }
    }
}

/// Why a run ends before its program does: an index out of its extent, or a divisor of zero.
#[derive(Clone, Copy, PartialEq, Eq)]
pub enum RunFault {
    Index,
    DivZero,
}

impl RunFault {
    /// The number that is printed, 1 of F1.
    pub fn number(self) -> u8
        ensures { result ≡ run_number_of self }
    {
        match self {
            RunFault::Index => 1,
            RunFault::DivZero => 2,
        }
    }

    /// The name that is printed behind the number.
    pub fn name(self) -> &'static str
        ensures { result.now ≡ run_name_of self }
    {
        match self {
            RunFault::Index => "Index",
            RunFault::DivZero => "DivZero",
        }
    }

    /// The fault of a run that has a number.
    pub fn numbered(number: u8) -> RunFault
        requires { (fault : RunFault) × run_number_of fault ≡ number }
        ensures number { run_number_of result ≡ number }
        ensures only { (fault : RunFault) → run_number_of fault ≡ number → result ≡ fault }
    {
        if number == 1 {
            RunFault::Index
        } else {
            RunFault::DivZero
        }
    }
}
