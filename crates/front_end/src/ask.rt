use cstar_base::Place;

/// What a step of the front end came to.
#[derive(Clone, Copy)]
pub enum Ask {
    /// The instruction is done.
    Ran,
    /// The parallel instruction at this index is to be applied to the arguments. Where it has a
    /// result register, its value is wanted as an answer.
    Apply { at: u32 },
    /// The bytes of the instruction at this index are to be printed.
    Literal { at: u32 },
    /// The first `len` bytes of the text are to be printed.
    Digits { text: [u8; 11], len: u8 },
    /// The next byte of the input, or 4294967295 at its end, is wanted as an answer.
    Byte,
    /// A check of the front end failed: `kind` is the number of the fault.
    Fault { kind: u8, place: Place },
    /// There is no turn left for the turn that the code wants to spend.
    Stopped,
    /// The run is done.
    Halted,
}
