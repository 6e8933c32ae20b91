ghost use Rattle.std.specs.Prelude.{ℕ, suc, ◌≡◌, ◌<◌, ◌≤◌, ◌+◌, ◌*◌, ◌^◌, true, false, length, slice_index, drop, MatchResult, MatchOption, IfSome, slice_set};
ghost use Rattle.vp_sets.specs.Positions.{position_count, are_positive, positions_fit, is_geometry, coordinates, coordinate, are_inside, number_at, moved, shifted};
ghost use Rattle.vp_sets.specs.Blocks.{block_count, block_start, block_end};

use std::marker::Model;

/// The most axes that a geometry has.
pub const MOST_AXES: u32 = 4;

/// The most positions that a geometry has.
pub const MOST_POSITIONS: u32 = 1 << 20;

/// The positions of a block. The last block of a set may have fewer.
pub const BLOCK_SIZE: u32 = 512;

/// The refusal of extents that are no geometry: not 1 to 4 of them, one that is 0, or more than
/// 1,048,576 positions.
#[derive(Clone, Copy, Debug, PartialEq, Eq)]
pub struct BadExtent;

/// The extents of a set of positions. Contracts see it as their list.
#[derive(Clone, Copy)]
pub struct Geometry {
    extents: [u32; 4],
    rank: usize,
}

impl Model for Geometry {
    ghost use Rattle.std.specs.Prelude.{◌≡◌, ◌≤◌, ◌++◌, ◌-◌, true, ℕ, List, length, take, drop, replicate};
    ghost use Rattle.std.proofs.Common.{arith, take-append-drop, length-take-le};
    ghost use Rattle.vp_sets.specs.Positions.{is_geometry};
    ghost use Rattle.vp_sets.specs.Padding.{padded, padded_again};

    ghost Value = { List ℕ };

    ghost view = { λ g. take g.rank g.extents };

    ghost invariant = { λ g. (g.rank ≤ 4) × (length g.extents ≡ 4) × (drop g.rank g.extents ≡ replicate (4 - g.rank) 1) × (is_geometry (take g.rank g.extents) ≡ true) };

    ghost inverse = { λ l. record { extents = padded l; rank = length l } };

    ghost inverse_ok = { λ g h i. record {
      extents = padded_again g.rank g.extents h.0 h.1 h.2 i;
      rank = length-take-le g.rank g.extents (omega (arith, h.0, h.1)) i;
    } };
}

/// The product of the extents.
fn product(extents: &[u32]) -> u32
    requires positive { are_positive extents.now ≡ true }
    requires bound { position_count extents.now ≤ 2 ^ 20 }
    ensures { result ≡ position_count extents.now }
{
    match extents.split_first() {
        None => 1,
        Some((first, later)) => *first * product(later),
    }
}

/// The product of the extents where none is 0 and it is not above the most positions.
fn counted(extents: &[u32]) -> Option<u32>
    ensures { MatchOption result (positions_fit extents.now ≡ false) (λ count. (positions_fit extents.now ≡ true) × (count ≡ position_count extents.now)) }
{
    match extents.split_first() {
        None => Some(1),
        Some((first, later)) => {
            let Some(rest) = counted(later) else {
                return None;
            };
            let count = u64::from(*first) * u64::from(rest);
            if count == 0 {
                return None;
            }
            if count > u64::from(MOST_POSITIONS) {
                return None;
            }
            Some(count as u32)
        }
    }
}

/// Are these the extents of a set?
fn is_geometry(extents: &[u32]) -> bool
    ensures { result ≡ is_geometry extents.now }
{
    if extents.is_empty() {
        return false;
    }
    if extents.len() > MOST_AXES as usize {
        return false;
    }
    counted(extents).is_some()
}

/// The number of the position with these coordinates, if there is one.
fn position(extents: &[u32], coords: &[u32]) -> Option<u32>
    requires positive { are_positive extents.now ≡ true }
    requires bound { position_count extents.now ≤ 2 ^ 20 }
    ensures { MatchOption result (are_inside extents.now coords.now ≡ false) (λ n. (are_inside extents.now coords.now ≡ true) × (n ≡ number_at extents.now coords.now)) }
{
    match (extents.split_first(), coords.split_first()) {
        (None, None) => Some(0),
        (Some((extent, later)), Some((coord, others))) if coord < extent => {
            let Some(within) = position(later, others) else {
                return None;
            };
            Some(*coord * product(later) + within)
        }
        _ => None,
    }
}

/// A coordinate moved by `k`, round the ends of its axis.
fn moved(extent: u32, own: u32, k: i32) -> u32
    requires { 0 < extent }
    ensures value { result ≡ moved extent own k }
    ensures inside { result < extent }
{
    (i64::from(own) + i64::from(k)).rem_euclid(i64::from(extent)) as u32
}

impl Geometry {
    /// The geometry with these extents, the last axis the fastest. BadExtent exactly where there
    /// are not 1 to 4 extents, one is 0, or their product is above 1,048,576.
    pub fn new(extents: &[u32]) -> Result<Geometry, BadExtent>
        ensures { MatchResult result (λ g. (g ≡ extents.now) × (is_geometry extents.now ≡ true)) (λ _. is_geometry extents.now ≡ false) }
    {
        if !is_geometry(extents) {
            return Err(BadExtent);
        }
        let mut held = [1; 4];
        held[..extents.len()].copy_from_slice(extents);
        Ok(Geometry {
            extents: held,
            rank: extents.len(),
        })
    }

    /// The extents, one for each axis. None is 0, and their product is at most 1,048,576.
    pub fn extents(&self) -> &[u32]
        ensures value { result.now ≡ self.now }
        ensures valid { is_geometry self.now ≡ true }
        ensures positive { are_positive result.now ≡ true }
        ensures bound { position_count result.now ≤ 2 ^ 20 }
    {
        &self.extents[..self.rank]
    }

    /// How many axes there are, 1 to 4.
    pub fn rank(&self) -> u32
        ensures value { result ≡ length self.now }
        ensures valid { is_geometry self.now ≡ true }
    {
        self.rank as u32
    }

    /// The extent along an axis, at least 1 and at most 1,048,576.
    pub fn extent(&self, axis: u32) -> u32
        requires { axis < length self.now }
        ensures value { result ≡ slice_index self.now axis }
        ensures positive { 0 < result }
        ensures bound { result ≤ 2 ^ 20 }
        ensures valid { is_geometry self.now ≡ true }
    {
        self.extents()[axis as usize]
    }

    /// How many positions there are, at least 1 and at most 1,048,576.
    pub fn positions(&self) -> u32
        ensures value { result ≡ position_count self.now }
        ensures positive { 0 < result }
        ensures bound { result ≤ 2 ^ 20 }
    {
        product(self.extents())
    }

    /// How far apart the numbers of neighbours along an axis are: the product of the extents behind it.
    pub fn stride(&self, axis: u32) -> u32
        requires { axis < length self.now }
        ensures value { result ≡ position_count (drop (suc axis) self.now) }
        ensures positive { 0 < result }
    {
        product(&self.extents()[axis as usize + 1..])
    }

    /// The coordinate of position `n` along an axis.
    pub fn coord(&self, n: u32, axis: u32) -> u32
        requires position { n < position_count self.now }
        requires axis { axis < length self.now }
        ensures value { result ≡ coordinate self.now n axis }
        ensures inside { result < slice_index self.now axis }
        // the number and the coordinates determine each other
        ensures number { number_at self.now (coordinates self.now n) ≡ n }
    {
        n / self.stride(axis) % self.extent(axis)
    }

    /// The position whose coordinate along the axis is that of position `n` plus `k` modulo the
    /// extent, and whose other coordinates are those of `n`.
    pub fn shift(&self, n: u32, axis: u32, k: i32) -> u32
        requires position { n < position_count self.now }
        requires axis { axis < length self.now }
        ensures value { result ≡ shifted self.now n axis k }
        ensures bound { result < position_count self.now }
        ensures coords { coordinates self.now result ≡ slice_set (coordinates self.now n) axis (moved (slice_index self.now axis) (coordinate self.now n axis) k) }
    {
        let own = self.coord(n, axis);
        let there = moved(self.extent(axis), own, k);
        let stride = self.stride(axis);
        n - own * stride + there * stride
    }

    /// The number of the position with these coordinates. None exactly where they are not as many
    /// as the axes, or one is not below its extent.
    pub fn number(&self, coords: &[u32]) -> Option<u32>
        ensures value { MatchOption result (are_inside self.now coords.now ≡ false) (λ n. (are_inside self.now coords.now ≡ true) × (n ≡ number_at self.now coords.now)) }
        ensures bound { IfSome result (λ n. n < position_count self.now) }
        ensures coords { IfSome result (λ n. coordinates self.now n ≡ coords.now) }
    {
        position(self.extents(), coords)
    }

    /// How many blocks hold all positions, at least 1.
    pub fn block_count(&self) -> u32
        ensures value { result ≡ block_count self.now }
        ensures positive { 0 < result }
    {
        self.positions().div_ceil(BLOCK_SIZE)
    }

    /// The first position number of block `b`, and the one past its last.
    pub fn block_range(&self, b: u32) -> (u32, u32)
        requires { b < block_count self.now }
        ensures start { result.0 ≡ block_start b }
        ensures end { result.1 ≡ block_end self.now b }
        ensures some { result.0 < result.1 }
    {
        let positions = self.positions();
        let start = b * BLOCK_SIZE;
        (start, (start + BLOCK_SIZE).min(positions))
    }
}
