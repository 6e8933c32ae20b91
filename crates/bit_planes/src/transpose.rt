ghost use Rattle.std.specs.Prelude.{◌≡◌, ℕ, ◌<◌, ◌≤◌, ◌+◌, ◌*◌, ◌-◌, ◌/◌, ◌%◌, ◌⊎◌, if◌then◌else◌, nat_eq, length};
ghost use Rattle.std.specs.Int.{bit_at};
ghost use Rattle.bit_planes.specs.Bits.{bit};
ghost use Rattle.bit_planes.specs.Planes.{plane_at};
ghost use Rattle.bit_planes.specs.Steps.{IsStep, PairExchanged, Exchanged, Transposed};

use crate::plane::{Plane, both, each_word, either, moved_down, moved_up, opposite};
use std::simd::prelude::*;

/// Two planes that stand `step` apart, after the bits of the first at odd multiples of `step` lanes
/// and those of the second at even multiples have changed places.
#[inline(always)]
fn swapped(first: u64x8, second: u64x8, step: u64, even: u64x8) -> (u64x8, u64x8)
    requires step { IsStep step }
    requires even { (i : ℕ) → i < 512 → bit even i ≡ 1 - i / step % 2 }
    ensures first { (i : ℕ) → i < 512 → bit result.0 i ≡ (if nat_eq (i / step % 2) 0 then bit first i else bit second (i - step)) }
    ensures second { (i : ℕ) → i < 512 → bit result.1 i ≡ (if nat_eq (i / step % 2) 0 then bit first (i + step) else bit second i) }
{
    let odd = opposite(even);
    (
        either(both(first, even), both(moved_up(second, step), odd)),
        either(both(moved_down(first, step), even), both(second, odd)),
    )
}

#[inline(always)]
fn exchange_pair(planes: &mut [Plane], first: usize, step: usize, even: u64x8)
    requires step { IsStep step }
    requires even { (i : ℕ) → i < 512 → bit even i ≡ 1 - i / step % 2 }
    requires within { first + step < length planes.old }
    ensures { PairExchanged step first planes.old planes.new }
{
    let (low, high) = swapped(
        planes[first].bits,
        planes[first + step].bits,
        step as u64,
        even,
    );
    planes[first] = Plane { bits: low };
    planes[first + step] = Plane { bits: high };
}

/// Exchanges the parities at `step` in the numbers of plane and lane.
#[inline(always)]
fn exchange(planes: &mut [Plane], step: usize, even: u64)
    requires step { IsStep step }
    requires even { (j : ℕ) → j < 64 → bit_at even j ≡ 1 - j / step % 2 }
    requires long { length planes.old ≡ 32 }
    ensures { Exchanged step planes.old planes.new }
{
    let even = each_word(even);
    for pair in 0..16 {
        exchange_pair(planes, pair + pair / step * step, step, even);
    }
}

/// Within each 32 lanes, the bits of plane r and lane i become those of plane i and lane r.
pub(crate) fn transpose(planes: &mut [Plane])
    requires { length planes.old ≡ 32 }
    ensures { Transposed planes.old planes.new }
{
    exchange(planes, 16, 0x0000_FFFF_0000_FFFF);
    exchange(planes, 8, 0x00FF_00FF_00FF_00FF);
    exchange(planes, 4, 0x0F0F_0F0F_0F0F_0F0F);
    exchange(planes, 2, 0x3333_3333_3333_3333);
    exchange(planes, 1, 0x5555_5555_5555_5555);
}
