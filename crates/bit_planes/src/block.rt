ghost use Rattle.std.specs.Prelude.{◌≡◌, ◌≢◌, ℕ, ◌<◌, ◌≤◌, ◌+◌, ◌%◌, ◌^◌, IfOk, slice_set, vec_len};
ghost use Rattle.bit_planes.specs.Bits.{bit};
ghost use Rattle.bit_planes.specs.Planes.{plane_at, number, SetsField, SetsNumber};

use crate::lanes::Lanes;
use crate::plane::{Plane, lane, with_lane};
use cstar_base::Memory;
use std::alloc::Global;
use std::simd::prelude::*;

/// The planes of one block of a set: one plane for each bit of its 512 processors. A field is a run
/// of planes, the lowest bit first, and a row is the field's number of one processor.
#[derive(Drop)]
pub struct Block {
    pub planes: Vec<Plane>,
}

impl Block {
    /// A block of so many planes, with 0 everywhere.
    pub fn new(alloc: Global, bits: u32) -> Result<Block, Memory>
        ensures long { IfOk result (λ b. vec_len b.planes ≡ bits) }
        ensures zeros { IfOk result (λ b. (j i : ℕ) → j < bits → i < 512 → bit (plane_at b.planes.items j) i ≡ 0) }
    {
        let planes = vec![in alloc; Plane::zero(); bits as usize]?;
        Ok(Block { planes })
    }

    /// The plane of a bit.
    #[inline(always)]
    pub fn plane(&self, bit: u32) -> u64x8
        requires { bit < vec_len self.now.planes }
        ensures { result ≡ plane_at self.now.planes.items bit }
    {
        self.planes[bit as usize].bits
    }

    /// Replaces the plane of a bit.
    #[inline(always)]
    pub fn set_plane(&mut self, bit: u32, p: u64x8)
        requires { bit < vec_len self.old.planes }
        ensures { self.new.planes.items ≡ slice_set self.old.planes.items bit (record { bits = p }) }
    {
        self.planes[bit as usize] = Plane { bits: p };
    }

    /// The field of `len` bits at the offset, as a column of numbers.
    pub fn lanes(&self, offset: u32, len: u8) -> Lanes
        requires len { (1 ≤ len) × (len ≤ 32) }
        requires within { offset + len ≤ vec_len self.now.planes }
        ensures len { result.len ≡ len }
        ensures planes { (j : ℕ) → j < len → plane_at result.planes j ≡ plane_at self.now.planes.items (offset + j) }
        ensures numbers { (i : ℕ) → number result.planes 0 len i ≡ number self.now.planes.items offset len i }
    {
        let mut planes = [Plane::zero(); 32];
        for j in 0..len as usize {
            planes[j] = self.planes[offset as usize + j];
        }
        Lanes { planes, len }
    }

    /// Makes the field at the offset, as long as the column, the column's numbers.
    pub fn set_lanes(&mut self, offset: u32, l: &Lanes)
        requires { offset + l.now.len ≤ vec_len self.old.planes }
        ensures { SetsField offset l.now.len l.now.planes self.old.planes.items self.new.planes.items }
    {
        for j in 0..l.len as usize {
            self.planes[offset as usize + j] = l.planes[j];
        }
    }

    /// The number of one row in the field of `len` bits at the offset.
    pub fn number(&self, row: u32, offset: u32, len: u8) -> u32
        requires row { row < 512 }
        requires len { (1 ≤ len) × (len ≤ 32) }
        requires within { offset + len ≤ vec_len self.now.planes }
        ensures { result ≡ number self.now.planes.items offset len row }
    {
        let mut number = 0;
        for j in 0..len as usize {
            number += lane(self.planes[offset as usize + j].bits, row) << j;
        }
        number
    }

    /// Makes the number of one row in the field of `len` bits at the offset `v`, cut to `len` bits.
    pub fn set_number(&mut self, row: u32, offset: u32, len: u8, v: u32)
        requires row { row < 512 }
        requires len { (1 ≤ len) × (len ≤ 32) }
        requires within { offset + len ≤ vec_len self.old.planes }
        ensures { SetsNumber offset len row v self.old.planes.items self.new.planes.items }
    {
        for j in 0..len as usize {
            let at = offset as usize + j;
            let one = (v >> j) % 2 == 1;
            self.planes[at] = Plane {
                bits: with_lane(self.planes[at].bits, row, one),
            };
        }
    }
}
