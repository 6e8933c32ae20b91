use cstar_base::Winner;

/// What the command does.
#[derive(Clone, Copy, PartialEq, Eq)]
pub enum Mode {
    /// Compile the file and run it.
    Run,
    /// Compile the file and put its listing.
    List,
    /// Compile the file up to its types, and put nothing.
    Check,
    /// Run a text made from the seed.
    Drill,
    /// Run a listing.
    Asm,
    /// Run on from a saved point.
    Resume,
}

/// The words of a command, read. Options that a mode does not use are read all the same.
#[derive(Clone, Copy)]
pub struct Options<'a> {
    pub mode: Mode,
    /// FILE, and `drill` in mode drill, which has no use for a FILE.
    pub file: &'a str,
    /// 1 to 64.
    pub workers: u32,
    /// The turns that a run may spend.
    pub turns: u32,
    pub finals: bool,
    pub listing: bool,
    pub seed: u32,
    pub winner: Winner,
    /// The name to save a stopped run under.
    pub save: Option<&'a str>,
}
