//! How far the tokens are read.

ghost use Rattle.std.specs.Prelude.{◌≤◌};

/// How far the tokens of a text are read.
#[derive(Clone, Copy)]
pub struct Spot {
    /// The number of the token that is read next.
    pub at: usize,
    /// How many operators the whole expression has so far, at most 1,000.
    pub operators: u32,
    pub ghost few: { operators ≤ 1000 },
}
