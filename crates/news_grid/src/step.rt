//! A step along an axis, in position numbers.

ghost use Rattle.std.specs.Prelude.{◌≡◌, ℕ, ◌<◌, ◌≤◌, ◌+◌, ◌-◌, ◌*◌, ◌/◌, ◌%◌, ◌^◌, length, nat_lt, if◌then◌else◌, slice_index};
ghost use Rattle.bit_planes.specs.Bits.{bit};
ghost use Rattle.vp_sets.specs.Positions.{position_count, coordinate};
ghost use Rattle.news_grid.specs.Steps.{led, turn_blocks, position_seen, Leads, Views};

use crate::window::{Window, lanes_beside};
use bit_planes::Plane;
use bit_planes::plane::{both, either, first_lanes, opposite, repeated};
use std::simd::prelude::*;
use vp_sets::{BLOCK_SIZE, Geometry};

/// A step along an axis of a set. The axis begins anew after each `turn` positions; the step leads
/// `ahead` positions on, fewer than a turn, and round the end of its turn. Where each turn is made of
/// whole blocks, `blocks` says of how many, and else it may be 0.
#[derive(Clone, Copy)]
pub struct Step {
    pub(crate) turn: u32,
    pub(crate) ahead: u32,
    pub(crate) blocks: u32,
}

/// The blocks of a turn of so many positions, where the turns begin at blocks; else 0.
fn blocks_of_turn(turn: u32) -> u32
    ensures { result ≡ turn_blocks turn }
{
    if turn % BLOCK_SIZE == 0 {
        turn / BLOCK_SIZE
    } else {
        0
    }
}

/// A number below twice a count, modulo the count, without a division.
fn round(n: u32, count: u32) -> u32
    requires { n < 2 * count }
    ensures { result ≡ n % count }
{
    if n < count { n } else { n - count }
}

impl Step {
    /// So many steps along an axis.
    pub fn along(geometry: &Geometry, axis: u32, by: i32) -> Step
        requires { axis < length geometry.now }
        ensures { Leads geometry.now axis by result }
    {
        let turn = geometry.extent(axis) * geometry.stride(axis);
        Step {
            turn,
            ahead: geometry.shift(0, axis, by),
            blocks: blocks_of_turn(turn),
        }
    }

    /// The lanes of block `k` from which the step leads past the end of their turn.
    pub(crate) fn crossing_lanes(self, k: u32) -> u64x8
        requires step { (self.ahead < self.turn) × (self.turn < 2 ^ 30) }
        requires block { k < 2 ^ 16 }
        ensures { (i : ℕ) → i < 512 → bit result i ≡ (if nat_lt ((512 * k + i) % self.turn + self.ahead) self.turn then 0 else 1) }
    {
        let past = k * BLOCK_SIZE % self.turn;
        if past + BLOCK_SIZE + self.ahead <= self.turn {
            return repeated(false);
        }
        if past + BLOCK_SIZE <= self.turn && self.turn <= past + self.ahead {
            return repeated(true);
        }
        self.lanes_crossing(past)
    }

    /// The same of a block whose first lane is so many positions past the start of its turn.
    fn lanes_crossing(self, past: u32) -> u64x8
        requires step { (self.ahead < self.turn) × (self.turn < 2 ^ 30) }
        requires past { past < self.turn }
        ensures { (i : ℕ) → i < 512 → bit result i ≡ (if nat_lt ((past + i) % self.turn + self.ahead) self.turn then 0 else 1) }
    {
        let rest = self.turn - past;
        let last = self.turn - self.ahead;
        let in_this = both(
            first_lanes(rest),
            opposite(first_lanes(last.saturating_sub(past))),
        );
        let in_next = both(first_lanes(self.turn), opposite(first_lanes(rest + last)));
        repeated_lanes(either(in_this, in_next), self.turn)
    }

    /// The window through which block `k` takes where each turn is made of whole blocks: it goes round
    /// the end of the block's own turn.
    pub(crate) fn own_window(self, k: u32) -> Window
        requires step { (0 < self.blocks) × (self.turn ≡ 512 * self.blocks) × (self.ahead < self.turn) }
        requires block { k < 2 ^ 16 }
        ensures from { result.from < 512 }
        ensures own_turn { (result.first / self.blocks ≡ k / self.blocks) × (result.next / self.blocks ≡ k / self.blocks) }
        ensures shows { (i : ℕ) → i < 512 → position_seen result i ≡ led self (512 * k + i) }
    {
        let past = k % self.blocks;
        let start = k - past;
        let first = past + self.ahead / BLOCK_SIZE;
        Window {
            first: (start + round(first, self.blocks)) as usize,
            next: (start + round(first + 1, self.blocks)) as usize,
            from: self.ahead % BLOCK_SIZE,
        }
    }

    /// What the lanes of block `k` take from in a set of so many blocks: where the step stays in
    /// its turn, and where it leads round its end.
    pub(crate) fn windows(self, k: u32, blocks: u32) -> (Window, Window)
        requires step { (self.ahead < self.turn) × (self.turn ≤ 512 * blocks) }
        requires block { (k < blocks) × (blocks < 2 ^ 16) }
        ensures stays { Views result.0 (512 * k + self.ahead) blocks }
        ensures crosses { Views result.1 (512 * k + self.ahead + (512 * blocks - self.turn)) blocks }
    {
        let lane = k * BLOCK_SIZE + self.ahead;
        let back = blocks * BLOCK_SIZE - self.turn;
        (Window::at(lane, blocks), Window::at(lane + back, blocks))
    }
}

/// The lanes of block `k` whose coordinate along an axis is not below this one: a step from it to the
/// end of the axis leads past the end from them.
pub fn lanes_from(geometry: &Geometry, axis: u32, from: u32, k: u32) -> u64x8
    requires axis { axis < length geometry.now }
    requires from { from ≤ slice_index geometry.now axis }
    requires block { k < 2 ^ 16 }
    ensures { (i : ℕ) → i < 512 → bit result i ≡ (if nat_lt (coordinate geometry.now (512 * k + i) axis) from then 0 else 1) }
{
    if from == 0 {
        return repeated(true);
    }
    let stride = geometry.stride(axis);
    let extent = geometry.extent(axis);
    let to_end = Step {
        turn: extent * stride,
        ahead: (extent - from) * stride,
        blocks: 0,
    };
    to_end.crossing_lanes(k)
}

/// The plane that repeats its first `count` lanes, where 0 stands in all others.
fn repeated_lanes(first: u64x8, count: u32) -> u64x8
    requires count { 0 < count }
    requires rest { (i : ℕ) → count ≤ i → i < 512 → bit first i ≡ 0 }
    ensures { (i : ℕ) → i < 512 → bit result i ≡ bit first (i % count) }
{
    let mut lanes = first;
    let mut known = count;
    'known: while known < BLOCK_SIZE {
        lanes = either(
            lanes,
            lanes_beside(Plane::zero().bits, lanes, BLOCK_SIZE - known),
        );
        known *= 2;
    }
    lanes
}
