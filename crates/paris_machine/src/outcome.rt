use cstar_base::Place;

/// How a run ended.
#[derive(Clone, Copy)]
pub enum End {
    /// The code came to its end.
    Done,
    /// A check failed at a place of the program: `kind` is the number of the fault, and `position`
    /// the least processor whose check failed, or none where the front end's failed.
    Fault {
        kind: u8,
        place: Place,
        position: Option<u32>,
    },
    /// No turn was left.
    Stopped,
    /// A call on the input failed.
    InputBroken,
    /// A call on the output failed.
    OutputBroken,
    /// There was no memory.
    Memory,
}

/// The end of a run, how many instructions it began, and the turns that it left.
#[derive(Clone, Copy)]
pub struct Outcome {
    pub end: End,
    pub steps: u64,
    pub turns_left: u32,
}
