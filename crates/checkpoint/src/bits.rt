//! The bits of a point.

ghost use Rattle.std.specs.Prelude.{◌≡◌};

use std::marker::Model;

/// The bits of the sets in bytes, whose memory can be taken back. They are the most of a point, so
/// there is no call that copies them.
#[derive(Drop)]
pub struct Bits {
    bytes: Vec<u8>,
}

impl Model for Bits {
    ghost use Rattle.std.specs.Prelude.{ℕ, List};

    ghost Value = { List ℕ };

    ghost view = { λ bits. bits.bytes.items };
}

impl Bits {
    /// These bytes.
    pub fn of(bytes: Vec<u8>) -> Bits
        ensures { result ≡ bytes.items }
    {
        Bits { bytes }
    }

    /// The bytes, to be read.
    pub fn bytes(&self) -> &[u8]
        ensures { result.now ≡ self.now }
    {
        self.bytes.as_slice()
    }

    /// The bytes, with their memory.
    pub fn into_bytes(self) -> Vec<u8>
        ensures { result.items ≡ self }
    {
        self.bytes
    }
}
