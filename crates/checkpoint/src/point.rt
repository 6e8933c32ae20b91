use crate::bits::Bits;
use cstar_base::{Numbers, Winner, Word};

/// A run that was stopped: what it needs to run on.
#[derive(Drop)]
pub struct Point {
    /// Which sender of a colliding send without a combiner wins.
    pub winner: Winner,
    /// Whether the input has ended.
    pub ended: bool,
    /// The instruction that is to be begun next.
    pub at: u32,
    /// The registers.
    pub regs: Numbers,
    /// The places behind the calls that are open, the outermost first.
    pub returns: Numbers,
    /// The listing of the image that runs.
    pub listing: Word,
    /// The bits of the sets, one set behind the other, eight to a byte.
    pub bits: Bits,
}
