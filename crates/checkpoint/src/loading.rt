//! From bytes to the point whose they are.

ghost use Rattle.std.specs.Prelude.{◌≡◌, ◌++◌, ◌-◌, ◌<◌, ◌≤◌, ◌^◌, IfErr, IfOk, MatchOption, drop, length, min, ℕ, List, false, slice_index};
ghost use Rattle.std.specs.List.{flat_map};
ghost use Rattle.checkpoint.specs.Bytes.{AreWords, HasWords, IsCounted, IsHeld, LeavesAt, Stand, body_of, bytes_of, counted, eight_bytes, four_bytes, may_stand, measured, point_in, winner_byte};
ghost use Rattle.checkpoint.specs.declared.loading.LoadFault.TheVariants.{Bad};
ghost use Rattle.checkpoint.specs.declared.loading.Stop.TheVariants.{Short};
ghost use Rattle.checkpoint.specs.declared.point.Point.{Point};

use crate::bits::Bits;
use crate::point::Point;
use crate::saving::MARK;
use cstar_base::{Numbers, Winner, Word};
use std::alloc::{AllocError, AllocFailed, Global};

/// Why bytes are not loaded: they are no point's, and leave those of all points at their byte of
/// this number, from 0; or there is no memory.
#[derive(Clone, Copy, PartialEq, Eq)]
pub enum LoadFault {
    Bad { at: u32 },
    Memory,
}

/// Why a part of a point is not read: the bytes end within it, or there is no memory.
#[derive(Clone, Copy)]
pub enum Stop {
    Short,
    Memory,
}

impl From<AllocError> for Stop {
    ghost use Rattle.checkpoint.specs.declared.loading.Stop.TheVariants.{Memory};

    ghost from_gives = { λ _ stop. stop ≡ Memory };

    fn from(_error: AllocError) -> Stop {
        Stop::Memory
    }
}

impl<T: Drop> From<AllocFailed<T>> for Stop {
    ghost use Rattle.checkpoint.specs.declared.loading.Stop.TheVariants.{Memory};

    ghost from_gives = { λ _ stop. stop ≡ Memory };

    fn from(_error: AllocFailed<T>) -> Stop {
        Stop::Memory
    }
}

/// How many bytes stand before the numbers of a point: its mark, and two bytes that are 0 or 1.
const HEAD: usize = 10;

/// A point as it is found among bytes, which still hold its bits.
#[derive(Drop)]
pub struct Found<'a> {
    pub winner: Winner,
    pub ended: bool,
    pub at: u32,
    pub regs: Numbers,
    pub returns: Numbers,
    pub listing: Word,
    pub bits: &'a [u8],
}

/// The point whose bytes these are; its bits stay in their memory. Where they are no point's, `Bad`
/// has the number of the first byte with which they begin none, or their count where they end too
/// early.
pub fn load(alloc: Global, bytes: Vec<u8>) -> Result<Point, LoadFault>
    requires { length bytes.items < 2 ^ 32 }
    ensures held { IfOk result IsHeld }
    ensures inverse { IfOk result (λ point. bytes_of point ≡ bytes.items) }
    ensures bad { IfErr result (λ fault. (at : ℕ) → fault ≡ Bad at → LeavesAt bytes.items at) }
{
    match find(alloc, bytes.as_slice()) {
        Ok(
            Found {
                winner,
                ended,
                at,
                regs,
                returns,
                listing,
                bits,
            },
        ) => {
            let count = bits.len();
            Ok(Point {
                winner,
                ended,
                at,
                regs,
                returns,
                listing,
                bits: Bits::of(last(bytes, count)),
            })
        }
        Err(fault) => Err(fault),
    }
}

/// The last bytes, so many, in the memory that held all.
fn last(mut bytes: Vec<u8>, count: usize) -> Vec<u8>
    requires { count ≤ length bytes.items }
    ensures { result.items ≡ drop (length bytes.items - count) bytes.items }
{
    let before = bytes.len() - count;
    bytes.rotate_left(before);
    bytes.truncate(count);
    bytes
}

/// The point whose bytes these are, or why they are no point's.
fn find(alloc: Global, bytes: &[u8]) -> Result<Found, LoadFault>
    requires { length bytes.now < 2 ^ 32 }
    ensures held { IfOk result (λ found. IsHeld (point_in found)) }
    ensures inverse { IfOk result (λ found. bytes_of (point_in found) ≡ bytes.now) }
    ensures bad { IfErr result (λ fault. (at : ℕ) → fault ≡ Bad at → LeavesAt bytes.now at) }
{
    if let Some(at) = first_wrong(bytes) {
        return Err(LoadFault::Bad { at: at as u32 });
    }
    if bytes.len() < HEAD {
        return Err(LoadFault::Bad {
            at: bytes.len() as u32,
        });
    }
    match point_of(alloc, winner_of(bytes[8]), bytes[9] == 1, &bytes[HEAD..]) {
        Ok((found, rest)) => {
            if rest.is_empty() {
                Ok(found)
            } else {
                Err(LoadFault::Bad {
                    at: (bytes.len() - rest.len()) as u32,
                })
            }
        }
        Err(Stop::Short) => Err(LoadFault::Bad {
            at: bytes.len() as u32,
        }),
        Err(Stop::Memory) => Err(LoadFault::Memory),
    }
}

/// The first place of the head whose byte no point has there.
fn first_wrong(bytes: &[u8]) -> Option<usize>
    ensures { MatchOption result (Stand bytes.now (min 10 (length bytes.now)))
        (λ place. (place < 10) × (place < length bytes.now) × Stand bytes.now place
        × (may_stand place (slice_index bytes.now place) ≡ false)) }
{
    for place in 0..HEAD.min(bytes.len()) {
        if !may_stand(place, bytes[place]) {
            return Some(place);
        }
    }
    None
}

/// Whether a point can have this byte at this place of its head.
fn may_stand(place: usize, byte: u8) -> bool
    ensures { result ≡ may_stand place byte }
{
    if place < MARK.len() {
        byte == MARK[place]
    } else {
        byte <= 1
    }
}

fn winner_of(byte: u8) -> Winner
    requires { byte ≤ 1 }
    ensures { winner_byte result ≡ byte }
{
    if byte == 0 { Winner::High } else { Winner::Low }
}

/// The point with this head whose numbers and lists these bytes begin with, and the bytes behind.
fn point_of(
    alloc: Global,
    winner: Winner,
    ended: bool,
    bytes: &[u8],
) -> Result<(Found, &[u8]), Stop>
    ensures point { IfOk result (λ read. IsCounted (point_in read.0)) }
    ensures words { IfOk result (λ read. HasWords (point_in read.0)) }
    ensures winner { IfOk result (λ read. read.0.winner ≡ winner) }
    ensures ended { IfOk result (λ read. read.0.ended ≡ ended) }
    ensures read { IfOk result (λ read. bytes.now ≡ body_of (point_in read.0) ++ read.1.now) }
    ensures short { IfErr result (λ stop. stop ≡ Short → (point : Point) (rest : List ℕ) → IsCounted point
        → bytes.now ≡ body_of point ++ rest → ⊥) }
{
    let (at, rest) = number_of(bytes)?;
    let (regs, rest) = numbers_of(alloc, rest)?;
    let (returns, rest) = numbers_of(alloc, rest)?;
    let (listing, rest) = word_of(alloc, rest)?;
    let (bits, rest) = measured_of(rest)?;
    let found = Found {
        winner,
        ended,
        at,
        regs,
        returns,
        listing,
        bits,
    };
    Ok((found, rest))
}

/// The list of numbers that these bytes begin with, behind its count, and the bytes behind.
fn numbers_of(alloc: Global, bytes: &[u8]) -> Result<(Numbers, &[u8]), Stop>
    ensures count { IfOk result (λ read. length read.0 < 2 ^ 32) }
    ensures words { IfOk result (λ read. AreWords read.0) }
    ensures read { IfOk result (λ read. bytes.now ≡ counted read.0 ++ read.1.now) }
    ensures short { IfErr result (λ stop. stop ≡ Short → (numbers rest : List ℕ) → length numbers < 2 ^ 32
        → bytes.now ≡ counted numbers ++ rest → ⊥) }
{
    let (count, mut rest) = number_of(bytes)?;
    let mut list = Vec::with_capacity(alloc, (count as usize).min(rest.len() / 4))?;
    for _ in 0..count {
        let (number, behind) = number_of(rest)?;
        list.push(number)?;
        rest = behind;
    }
    Ok((Numbers::of(list), rest))
}

/// A copy of the bytes that these begin with, behind their length, and the bytes behind.
fn word_of(alloc: Global, bytes: &[u8]) -> Result<(Word, &[u8]), Stop>
    ensures length { IfOk result (λ read. length read.0 < 2 ^ 64) }
    ensures read { IfOk result (λ read. bytes.now ≡ measured read.0 ++ read.1.now) }
    ensures short { IfErr result (λ stop. stop ≡ Short → (word rest : List ℕ) → length word < 2 ^ 64
        → bytes.now ≡ measured word ++ rest → ⊥) }
{
    let (word, rest) = measured_of(bytes)?;
    Ok((Word::of(Vec::from_slice(alloc, word)?), rest))
}

/// The bytes that these begin with, behind their length, and the bytes behind.
fn measured_of(bytes: &[u8]) -> Result<(&[u8], &[u8]), Stop>
    ensures length { IfOk result (λ read. length read.0.now < 2 ^ 64) }
    ensures read { IfOk result (λ read. bytes.now ≡ measured read.0.now ++ read.1.now) }
    ensures short { IfErr result (λ stop. stop ≡ Short → (word rest : List ℕ) → length word < 2 ^ 64
        → bytes.now ≡ measured word ++ rest → ⊥) }
{
    let (count, rest) = length_of(bytes)?;
    if (rest.len() as u64) < count {
        return Err(Stop::Short);
    }
    Ok(rest.split_at(count as usize))
}

/// The number of 32 bits that these bytes begin with, and the bytes behind.
#[tactic(auto, unfolding(crate::specs::Bytes::four_bytes))]
fn number_of(bytes: &[u8]) -> Result<(u32, &[u8]), Stop>
    ensures read { IfOk result (λ read. bytes.now ≡ four_bytes read.0 ++ read.1.now) }
    ensures small { IfOk result (λ read. read.0 < 2 ^ 32) }
    ensures short { IfErr result (λ stop. length bytes.now < 4) }
{
    match bytes {
        [a, b, c, d, rest @ ..] => Ok((u32::from_le_bytes([*a, *b, *c, *d]), rest)),
        _ => Err(Stop::Short),
    }
}

/// The number of 64 bits that these bytes begin with, and the bytes behind.
#[tactic(auto, unfolding(crate::specs::Bytes::eight_bytes))]
fn length_of(bytes: &[u8]) -> Result<(u64, &[u8]), Stop>
    ensures read { IfOk result (λ read. bytes.now ≡ eight_bytes read.0 ++ read.1.now) }
    ensures small { IfOk result (λ read. read.0 < 2 ^ 64) }
    ensures short { IfErr result (λ stop. length bytes.now < 8) }
{
    match bytes {
        [a, b, c, d, e, f, g, h, rest @ ..] => {
            Ok((u64::from_le_bytes([*a, *b, *c, *d, *e, *f, *g, *h]), rest))
        }
        _ => Err(Stop::Short),
    }
}
