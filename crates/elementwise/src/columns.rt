//! Numbers of the lanes of a block that are made a column at a time.

ghost use Rattle.std.specs.Prelude.{◌≡◌, ℕ, suc, ◌+◌, ◌*◌, ◌%◌, ◌^◌, ◌<◌, ◌≤◌, All, length, drop, slice_index};
ghost use Rattle.vp_sets.specs.Blocks.{block_count};
ghost use Rattle.vp_sets.specs.Positions.{coordinate, number_at, position_count};
ghost use Rattle.paris_code.specs.Arguments.{coordinate_number, coordinate_numbers};
ghost use Rattle.elementwise.specs.Blocks.{block_memory};
ghost use Rattle.elementwise.specs.Columns.{Counts, IsCoordinateWithin};

use bit_planes::Block;
use block_store::words_of;
use paris_code::Coordinate;
use phase_elements::{behind, next};
use vp_sets::{BLOCK_SIZE, Geometry};

/// The same number for each lane.
pub(crate) fn all_lanes(number: u32) -> [u32; 512]
    ensures { (i : ℕ) → i < 512 → slice_index result i ≡ number }
{
    let mut words = [0; 512];
    'lanes: for i in 0..512 {
        words[i] = number;
    }
    words
}

/// A coordinate of an address in each lane; a register's is the next argument.
fn coordinate_words(block: &Block, coordinate: Coordinate, args: &[u32]) -> [u32; 512]
    requires { IsCoordinateWithin block.now.planes.items coordinate }
    ensures { (p : ℕ) → slice_index result (p % 512) ≡ coordinate_number (block_memory block.now.planes.items) coordinate args.now p }
{
    match coordinate {
        Coordinate::Field(f) => words_of(block, f.offset, f.len),
        Coordinate::Reg(_) => all_lanes(next(args)),
    }
}

/// The row-major numbers, modulo 2 to the 32, of coordinates of which these are the last, on an axis
/// of this extent, and the others have these numbers.
#[inline(always)]
fn joined(numbers: &[u32; 512], extent: u32, last: &[u32; 512]) -> [u32; 512]
    ensures { (i : ℕ) → i < 512 → slice_index result i ≡ (slice_index numbers.now i * extent % 2 ^ 32 + slice_index last.now i) % 2 ^ 32 }
{
    let mut words = [0; 512];
    'lanes: for i in 0..512 {
        words[i] = numbers[i].wrapping_mul(extent).wrapping_add(last[i]);
    }
    words
}

/// Goes on with the row-major numbers of coordinates, modulo 2 to the 32, from those of the axes
/// before.
pub(crate) fn addresses(
    block: &Block,
    extents: &[u32],
    list: &[Coordinate],
    args: &[u32],
    numbers: [u32; 512],
) -> [u32; 512]
    requires fields { All (IsCoordinateWithin block.now.planes.items) list.now }
    requires rank { length list.now ≡ length extents.now }
    ensures { (p : ℕ) → slice_index result (p % 512) % 2 ^ 32
        ≡ (slice_index numbers (p % 512) * position_count extents.now + number_at extents.now (coordinate_numbers (block_memory block.now.planes.items) list.now args.now p)) % 2 ^ 32 }
{
    match (extents.split_first(), list.split_first()) {
        (Some((extent, later)), Some((first, rest))) => {
            let here = coordinate_words(block, *first, args);
            let numbers = joined(&numbers, *extent, &here);
            addresses(block, later, rest, behind(*first, args), numbers)
        }
        _ => numbers,
    }
}

/// The coordinate of the next position along an axis, and how many positions from it on have it.
#[inline(always)]
fn counted(own: u32, rest: u32, stride: u32, extent: u32) -> (u32, u32)
    requires stride { 0 < stride }
    requires own { own < extent }
    requires rest { (0 < rest) × (rest ≤ stride) }
    ensures counts { (n : ℕ) → Counts stride extent n own rest → Counts stride extent (n + 1) result.0 result.1 }
    ensures own { result.0 < extent }
    ensures rest { (0 < result.1) × (result.1 ≤ stride) }
{
    if rest > 1 {
        (own, rest - 1)
    } else if own + 1 < extent {
        (own + 1, stride)
    } else {
        (0, stride)
    }
}

/// The coordinates of the positions of block `k` along an axis.
pub(crate) fn own_coordinates(geometry: &Geometry, axis: u32, k: u32) -> [u32; 512]
    requires axis { axis < length geometry.now }
    requires block { k < block_count geometry.now }
    ensures { (i : ℕ) → i < 512 → slice_index result i ≡ coordinate geometry.now (512 * k + i) axis }
{
    let stride = geometry.stride(axis);
    let extent = geometry.extent(axis);
    let start = k * BLOCK_SIZE;
    let mut own = start / stride % extent;
    let mut rest = stride - start % stride;
    let mut words = [0; 512];
    'lanes: for i in 0..512 {
        words[i] = own;
        (own, rest) = counted(own, rest, stride, extent);
    }
    words
}
