/// A place in a text: line and column, both from 1. The column counts bytes.
#[derive(Clone, Copy, Debug, PartialEq, Eq, PartialOrd, Ord)]
pub struct Place {
    pub line: u32,
    pub col: u32,
}

/// How the messages of a send, the elements of a reduction or the steps of a scan are combined.
/// `Last` is the send without a combiner, where one sender wins.
#[derive(Clone, Copy, Debug, PartialEq, Eq)]
pub enum Combiner {
    Add,
    And,
    Or,
    Xor,
    Min,
    Max,
    Last,
}

/// Which sender of a colliding send without a combiner wins: the one with the greatest number,
/// or the one with the least.
#[derive(Clone, Copy, Debug, PartialEq, Eq)]
pub enum Winner {
    High,
    Low,
}

/// The binary operators on numbers. `Rem` has the dividend's sign, `Mod` the divisor's.
#[derive(Clone, Copy, Debug, PartialEq, Eq)]
pub enum Op {
    Add,
    Sub,
    Mul,
    Div,
    Rem,
    Mod,
    And,
    Or,
    Xor,
    Min,
    Max,
    Shl,
    Shr,
    Eq,
    Ne,
    Lt,
    Le,
    Gt,
    Ge,
}

/// The direction of a scan: towards greater coordinates, or towards lesser ones.
#[derive(Clone, Copy, Debug, PartialEq, Eq)]
pub enum Direction {
    Upward,
    Downward,
}

/// Where the segments of a scan begin: nowhere but at the end of the line, at active positions
/// whose bit is 1 in the scan's direction, or at every position whose bit is 1, upward.
#[derive(Clone, Copy, Debug, PartialEq, Eq)]
pub enum SegmentMode {
    NoSegments,
    StartBit,
    SegmentBit,
}

/// Whether a scan's fold takes a position's own value in.
#[derive(Clone, Copy, Debug, PartialEq, Eq)]
pub enum Inclusion {
    Inclusive,
    Exclusive,
}
