ghost use Rattle.std.specs.Prelude.{◌≡◌, ℕ, ◌<◌, ◌≤◌, ◌+◌, ◌*◌, ◌-◌, ◌/◌, ◌%◌, ◌^◌, length, slice_index};
ghost use Rattle.bit_planes.specs.Bits.{bit};
ghost use Rattle.bit_planes.specs.Planes.{plane_at, number};
ghost use Rattle.bit_planes.specs.Rows.{half, held};

use crate::lanes::Lanes;
use crate::plane::Plane;
use crate::transpose::transpose;
use std::simd::prelude::*;

/// 512 numbers of 32 bits, one of each lane. Plane r has the numbers of the lanes r, 32 + r, 64 + r
/// and so on, each as 32 bits side by side.
#[derive(Drop)]
pub struct Rows {
    pub planes: [Plane; 32],
}

impl Rows {
    /// The numbers of the field of `len` bits at the offset.
    pub fn of_field(planes: &[Plane], offset: u32, len: u8) -> Rows
        requires len { (1 ≤ len) × (len ≤ 32) }
        requires within { offset + len ≤ length planes.now }
        ensures { (i : ℕ) → i < 512 → held result.planes i ≡ number planes.now offset len i }
    {
        let mut rows = Rows {
            planes: [Plane::zero(); 32],
        };
        rows.read(planes, offset, len);
        rows
    }

    /// Makes the numbers those of the field of `len` bits at the offset.
    pub fn read(&mut self, planes: &[Plane], offset: u32, len: u8)
        requires len { (1 ≤ len) × (len ≤ 32) }
        requires within { offset + len ≤ length planes.now }
        ensures { (i : ℕ) → i < 512 → held self.new.planes i ≡ number planes.now offset len i }
    {
        copy_field(&mut self.planes, planes, offset, len);
        transpose(&mut self.planes);
    }

    /// The same number in every lane.
    pub fn repeated(number: u32) -> Rows
        ensures { (i : ℕ) → i < 512 → held result.planes i ≡ number }
    {
        let row = Plane {
            bits: u64x8::splat(paired(number, number)),
        };
        Rows { planes: [row; 32] }
    }

    /// These numbers.
    pub fn from_values(v: &[u32; 512]) -> Rows
        ensures { (i : ℕ) → i < 512 → held result.planes i ≡ slice_index v.now i }
    {
        let mut planes = [Plane::zero(); 32];
        for row in 0..32 {
            planes[row] = Plane {
                bits: packed(v, row),
            };
        }
        Rows { planes }
    }

    /// The numbers, lane by lane.
    pub fn values(&self) -> [u32; 512]
        ensures { (i : ℕ) → i < 512 → slice_index result i ≡ held self.now.planes i }
    {
        let mut v = [0; 512];
        for row in 0..32 {
            let words = self.planes[row].bits.to_array();
            for word in 0..8 {
                v[64 * word + row] = low_half(words[word]);
                v[64 * word + 32 + row] = high_half(words[word]);
            }
        }
        v
    }

    /// Makes plane j bit j of all numbers: they are then a column of 32 bits.
    pub fn turn(&mut self)
        ensures { (len i : ℕ) → len ≤ 32 → i < 512 → number self.new.planes 0 len i ≡ held self.old.planes i % 2 ^ len }
    {
        transpose(&mut self.planes);
    }

    /// The column of these numbers, each cut to `len` bits.
    pub fn column(mut self, len: u8) -> Lanes
        requires { (1 ≤ len) × (len ≤ 32) }
        ensures len { result.len ≡ len }
        ensures numbers { (i : ℕ) → i < 512 → number result.planes 0 len i ≡ held self.planes i % 2 ^ len }
    {
        self.turn();
        Lanes {
            planes: self.planes,
            len,
        }
    }

    /// Multiplies each number by that of the same lane, modulo 2 to the 32.
    pub fn multiply(&mut self, by: &Rows)
        ensures { (i : ℕ) → i < 512 → held self.new.planes i ≡ held self.old.planes i * held by.now.planes i % 2 ^ 32 }
    {
        for row in 0..32 {
            self.planes[row] = Plane {
                bits: products(self.planes[row].bits, by.planes[row].bits),
            };
        }
    }
}

/// Makes the planes those of the field of `len` bits at the offset, and 0 above them.
#[inline(always)]
fn copy_field(to: &mut [Plane], planes: &[Plane], offset: u32, len: u8)
    requires to { length to.old ≡ 32 }
    requires len { len ≤ 32 }
    requires within { offset + len ≤ length planes.now }
    ensures long { length to.new ≡ 32 }
    ensures inside { (j : ℕ) → j < len → plane_at to.new j ≡ plane_at planes.now (offset + j) }
    ensures above { (j i : ℕ) → len ≤ j → j < 32 → i < 512 → bit (plane_at to.new j) i ≡ 0 }
{
    for j in 0..len as usize {
        to[j] = planes[offset as usize + j];
    }
    'above: for j in len as usize..32 {
        to[j] = Plane::zero();
    }
}

/// The word of two numbers.
#[inline(always)]
fn paired(low: u32, high: u32) -> u64
    ensures { result ≡ high * 2 ^ 32 + low }
{
    ((high as u64) << 32) + low as u64
}

#[inline(always)]
fn low_half(word: u64) -> u32
    ensures { result ≡ word % 2 ^ 32 }
{
    (word % (1 << 32)) as u32
}

#[inline(always)]
fn high_half(word: u64) -> u32
    ensures { result ≡ word / 2 ^ 32 % 2 ^ 32 }
{
    (word >> 32) as u32
}

/// The word of the numbers of a lane and the one 32 behind it.
#[inline(always)]
fn word_from(v: &[u32; 512], at: usize) -> u64
    requires { at + 32 < 512 }
    ensures { result ≡ slice_index v.now (at + 32) * 2 ^ 32 + slice_index v.now at }
{
    paired(v[at], v[at + 32])
}

/// The numbers of the lanes `row`, 32 behind it and so on, as one plane.
#[inline(always)]
fn packed(v: &[u32; 512], row: usize) -> u64x8
    requires { row < 32 }
    ensures { (i : ℕ) → i < 512 → i % 32 ≡ row → half result i ≡ slice_index v.now i }
{
    u64x8::from_array([
        word_from(v, row),
        word_from(v, row + 64),
        word_from(v, row + 128),
        word_from(v, row + 192),
        word_from(v, row + 256),
        word_from(v, row + 320),
        word_from(v, row + 384),
        word_from(v, row + 448),
    ])
}

/// The products of both halves, each modulo 2 to the 32.
#[inline(always)]
fn product_of_halves(x: u64, y: u64) -> u64
    ensures { result ≡ x / 2 ^ 32 % 2 ^ 32 * (y / 2 ^ 32 % 2 ^ 32) % 2 ^ 32 * 2 ^ 32 + x % 2 ^ 32 * (y % 2 ^ 32) % 2 ^ 32 }
{
    let low = low_half(x).wrapping_mul(low_half(y));
    paired(low, high_half(x).wrapping_mul(high_half(y)))
}

/// The products of the numbers in two planes.
#[inline(always)]
fn products(x: u64x8, y: u64x8) -> u64x8
    ensures { (i : ℕ) → i < 512 → half result i ≡ half x i * half y i % 2 ^ 32 }
{
    let a = x.to_array();
    let b = y.to_array();
    u64x8::from_array([
        product_of_halves(a[0], b[0]),
        product_of_halves(a[1], b[1]),
        product_of_halves(a[2], b[2]),
        product_of_halves(a[3], b[3]),
        product_of_halves(a[4], b[4]),
        product_of_halves(a[5], b[5]),
        product_of_halves(a[6], b[6]),
        product_of_halves(a[7], b[7]),
    ])
}
