//! Gates over planes: what one bit of a result is, by the bits that it comes from.
ghost use Rattle.std.specs.Prelude.{◌≡◌, ℕ, ◌<◌, ◌+◌, ◌/◌, ◌%◌, if◌then◌else◌, nat_eq};
ghost use Rattle.bit_planes.specs.Bits.{bit};

use bit_planes::plane::{both, differ, either};
use std::simd::prelude::*;

/// A gate of two bits.
#[derive(Clone, Copy)]
pub enum Gate {
    And,
    Or,
    Xor,
}

impl Gate {
    ghost use Rattle.lane_kernels.specs.Gates.{gate_bit};

    /// The bits of two planes through the gate.
    #[inline(always)]
    pub fn through(self, a: u64x8, b: u64x8) -> u64x8
        ensures { (i : ℕ) → i < 512 → bit result i ≡ gate_bit self (bit a i) (bit b i) }
    {
        match self {
            Gate::And => both(a, b),
            Gate::Or => either(a, b),
            Gate::Xor => differ(a, b),
        }
    }
}

/// The lower bit of the sum of three bits.
#[inline(always)]
pub fn sum_bit(a: u64x8, b: u64x8, c: u64x8) -> u64x8
    ensures { (i : ℕ) → i < 512 → bit result i ≡ (bit a i + bit b i + bit c i) % 2 }
{
    differ(differ(a, c), b)
}

/// The upper bit of the sum of three bits: the third, unless both others differ from it. So it is what the
/// lower bit begins with, and a loop that carries keeps all of its planes in registers.
#[inline(always)]
pub fn carry_bit(a: u64x8, b: u64x8, c: u64x8) -> u64x8
    ensures { (i : ℕ) → i < 512 → bit result i ≡ (bit a i + bit b i + bit c i) / 2 }
{
    differ(c, both(differ(a, c), differ(b, c)))
}

/// The first where the mask is 1, and the second where it is 0.
#[inline(always)]
pub fn choose(mask: u64x8, a: u64x8, b: u64x8) -> u64x8
    ensures { (i : ℕ) → i < 512 → bit result i ≡ (if nat_eq (bit mask i) 1 then bit a i else bit b i) }
{
    differ(b, both(mask, differ(a, b)))
}
