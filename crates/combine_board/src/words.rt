ghost use Rattle.std.specs.Prelude.{◌≡◌, ◌<◌, length, slice_index};

use std::marker::Model;

/// The folded values of a board that was closed, one for each home value. Contracts see the list.
#[derive(Drop)]
pub struct Words {
    values: Vec<u32>,
}

impl Model for Words {
    ghost use Rattle.std.specs.Prelude.{ℕ, List};

    ghost Value = { List ℕ };

    ghost view = { λ w. w.values.items };
}

impl Words {
    pub(crate) fn of(values: Vec<u32>) -> Words
        ensures { result ≡ values.items }
    {
        Words { values }
    }

    /// The folded values, as a list of their own.
    pub fn into_values(self) -> Vec<u32>
        ensures { result.items ≡ self }
    {
        self.values
    }

    /// The folded values, that of target 0 first.
    pub fn as_slice(&self) -> &[u32]
        ensures { result.now ≡ self.now }
    {
        self.values.as_slice()
    }

    /// The folded value of this target.
    pub fn get(&self, target: u32) -> u32
        requires { target < length self.now }
        ensures { result ≡ slice_index self.now target }
    {
        self.values[target as usize]
    }
}
