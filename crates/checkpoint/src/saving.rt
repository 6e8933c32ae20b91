//! From a point to its bytes.

ghost use Rattle.std.specs.Prelude.{◌≡◌, ◌++◌, ◌<◌, ◌^◌, IfOk, OnOk, length};
ghost use Rattle.checkpoint.specs.Bytes.{bytes_of, counted, eight_bytes, flag_byte, four_bytes, measured, winner_byte};

use crate::point::Point;
use cstar_base::{Memory, Numbers, Winner, Word};
use std::alloc::Global;

/// What the bytes of every point begin with.
pub const MARK: &[u8; 8] = b"PARISCP1";

/// The bytes of a point. Its bits stay in their memory: what stands before them is put there.
pub fn save(alloc: Global, point: Point) -> Result<Vec<u8>, Memory>
    requires regs { length point.regs < 2 ^ 32 }
    requires returns { length point.returns < 2 ^ 32 }
    ensures { IfOk result (λ bytes. bytes.items ≡ bytes_of point) }
{
    let front = front(alloc, &point)?;
    let mut bytes = point.bits.into_bytes();
    put_before(front.as_slice(), &mut bytes)?;
    Ok(bytes)
}

/// What stands before the bits of a point.
#[tactic(auto, using(crate::proofs::Lists::all_parts))]
fn front(alloc: Global, point: &Point) -> Result<Vec<u8>, Memory>
    requires regs { length point.now.regs < 2 ^ 32 }
    requires returns { length point.now.returns < 2 ^ 32 }
    ensures { IfOk result (λ front. front.items ++ point.now.bits ≡ bytes_of point.now) }
{
    let mut bytes = Vec::new(alloc);
    bytes.extend_from_slice(MARK)?;
    bytes.push(winner_byte(point.winner))?;
    bytes.push(flag_byte(point.ended))?;
    push_number(&mut bytes, point.at)?;
    push_numbers(&mut bytes, &point.regs)?;
    push_numbers(&mut bytes, &point.returns)?;
    push_word(&mut bytes, &point.listing)?;
    push_length(&mut bytes, point.bits.bytes())?;
    Ok(bytes)
}

/// Puts bytes before others, in the memory of these.
fn put_before(front: &[u8], bytes: &mut Vec<u8>) -> Result<(), Memory>
    ensures { OnOk result (bytes.new.items ≡ front.now ++ bytes.old.items) }
{
    bytes.reserve_exact(front.len())?;
    bytes.extend_from_slice(front)?;
    bytes.rotate_right(front.len());
    Ok(())
}

fn winner_byte(winner: Winner) -> u8
    ensures { result ≡ winner_byte winner }
{
    match winner {
        Winner::High => 0,
        Winner::Low => 1,
    }
}

fn flag_byte(flag: bool) -> u8
    ensures { result ≡ flag_byte flag }
{
    u8::from(flag)
}

/// A number of 32 bits.
#[tactic(auto, unfolding(crate::specs::Bytes::four_bytes))]
fn push_number(bytes: &mut Vec<u8>, number: u32) -> Result<(), Memory>
    ensures { OnOk result (bytes.new.items ≡ bytes.old.items ++ four_bytes number) }
{
    bytes.extend_from_slice(&number.to_le_bytes())?;
    Ok(())
}

/// Numbers behind their count.
#[tactic(auto, using(crate::proofs::Lists::counted_none, crate::proofs::Lists::counted_more, crate::proofs::Lists::counted_all))]
fn push_numbers(bytes: &mut Vec<u8>, numbers: &Numbers) -> Result<(), Memory>
    requires { length numbers.now < 2 ^ 32 }
    ensures { OnOk result (bytes.new.items ≡ bytes.old.items ++ counted numbers.now) }
{
    let list = numbers.list();
    push_number(bytes, list.len() as u32)?;
    for number in list {
        push_number(bytes, *number)?;
    }
    Ok(())
}

/// Bytes behind their length.
#[tactic(auto, unfolding(crate::specs::Bytes::measured))]
fn push_word(bytes: &mut Vec<u8>, word: &Word) -> Result<(), Memory>
    ensures { OnOk result (bytes.new.items ≡ bytes.old.items ++ measured word.now) }
{
    push_length(bytes, word.bytes())?;
    bytes.extend_from_slice(word.bytes())?;
    Ok(())
}

/// The length of bytes, a number of 64 bits.
#[tactic(auto, unfolding(crate::specs::Bytes::eight_bytes))]
fn push_length(bytes: &mut Vec<u8>, list: &[u8]) -> Result<(), Memory>
    ensures { OnOk result (bytes.new.items ≡ bytes.old.items ++ eight_bytes (length list.now)) }
{
    bytes.extend_from_slice(&(list.len() as u64).to_le_bytes())?;
    Ok(())
}
