ghost use Rattle.std.specs.Prelude.{◌≡◌, ℕ, ◌<◌, ◌≤◌, ◌%◌, ◌^◌, slice_index};
ghost use Rattle.bit_planes.specs.Planes.{number};

use crate::plane::Plane;
use crate::rows::Rows;

/// A column of 512 numbers of `len` bits, one in each lane. Bit j of all numbers is plane j; the
/// planes from `len` on mean nothing.
#[derive(Drop)]
pub struct Lanes {
    pub planes: [Plane; 32],
    pub len: u8,
    pub ghost in_range: { (1 ≤ len) × (len ≤ 32) },
}

impl Lanes {
    /// The column of these numbers, each cut to `len` bits.
    pub fn from_values(v: &[u32; 512], len: u8) -> Lanes
        requires { (1 ≤ len) × (len ≤ 32) }
        ensures len { result.len ≡ len }
        ensures numbers { (i : ℕ) → i < 512 → number result.planes 0 len i ≡ slice_index v.now i % 2 ^ len }
    {
        Rows::from_values(v).column(len)
    }

    /// The numbers of the column.
    pub fn values(&self) -> [u32; 512]
        ensures { (i : ℕ) → i < 512 → slice_index result i ≡ number self.now.planes 0 self.now.len i }
    {
        Rows::of_field(&self.planes, 0, self.len).values()
    }
}
