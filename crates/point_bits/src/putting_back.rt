//! From bytes to the bits of the sets.

ghost use Rattle.std.specs.Prelude.{◌≡◌, ℕ, ◌*◌, ◌+◌, ◌/◌, ◌<◌, ◌≤◌, IfOk, MatchBool, OnOk, drop, length, reverse, take};
ghost use Rattle.block_store.specs.Stored.{AreWhole, stored};
ghost use Rattle.cstar_base.specs.declared.operators.Winner.{Winner};
ghost use Rattle.paris_code.specs.Memory.{SameBits};
ghost use Rattle.paris_code.specs.Shapes.{shapes_of};
ghost use Rattle.point_bits.specs.Strings.{AreBits, IsSetOf, IsString, byte_bit, restored};

use crate::gathering::total_size;
use crate::parts::block_of;
use crate::strings::{SetString, string_of};
use block_store::BlockSet;
use cstar_base::Memory;
use image_check::Sound;
use std::alloc::Global;

/// Whether these are bytes of bits of all sets of an image: they are as many as the sets ask, and
/// behind the last bit of each set there are zeros.
pub fn are_bits(sound: &Sound, bytes: &[u8]) -> bool
    ensures { MatchBool result (AreBits (shapes_of sound.now) bytes.now) (AreBits (shapes_of sound.now) bytes.now → ⊥) }
{
    if bytes.len() != total_size(sound) {
        return false;
    }
    let mut rest = bytes;
    'sets: for set in 0..sound.image().shapes.len() {
        let string = string_of(sound, set as u16);
        let (own, behind) = rest.split_at(string.size());
        if !is_filled(string, own) {
            return false;
        }
        rest = behind;
    }
    true
}

/// Whether there are zeros behind the last bit of a set.
fn is_filled(string: SetString, bytes: &[u8]) -> bool
    requires string { IsString string }
    requires long { length bytes.now ≡ (string.positions * string.width + 7) / 8 }
    ensures { MatchBool result
        ((n : ℕ) → string.positions * string.width ≤ n → n < 8 * length bytes.now → byte_bit bytes.now n ≡ 0)
        (((n : ℕ) → string.positions * string.width ≤ n → n < 8 * length bytes.now → byte_bit bytes.now n ≡ 0) → ⊥) }
{
    let used = (string.bits() % 8) as u8;
    used == 0 || bytes[bytes.len() - 1] >> used == 0
}

/// The sets whose bytes these are. Their bytes are turned and let go from the end on as the blocks come
/// to be, so that the system has the memory of the ones back while the others become more.
pub fn restored(alloc: Global, sound: &Sound, mut bytes: Vec<u8>) -> Result<Vec<BlockSet>, Memory>
    requires { AreBits (shapes_of sound.now) bytes.items }
    ensures whole { IfOk result (λ sets. AreWhole (shapes_of sound.now) sets.items) }
    ensures memory { IfOk result (λ sets. (w : Winner) → SameBits (shapes_of sound.now) (stored sets.items w) (restored (shapes_of sound.now) bytes.items w)) }
{
    bytes.reverse();
    let mut sets = Vec::new(alloc);
    'each: for set in 0..sound.image().shapes.len() {
        sets.push(set_of(alloc, string_of(sound, set as u16), &mut bytes)?)?;
    }
    Ok(sets)
}

/// The set whose bytes are the last of these, the last byte first. They are let go.
fn set_of(alloc: Global, string: SetString, backward: &mut Vec<u8>) -> Result<BlockSet, Memory>
    requires string { IsString string }
    requires long { (string.positions * string.width + 7) / 8 ≤ length backward.old.items }
    ensures rest { OnOk result (reverse backward.new.items ≡ drop ((string.positions * string.width + 7) / 8) (reverse backward.old.items)) }
    ensures set { IfOk result (λ set. IsSetOf string (reverse backward.old.items) set.blocks.items) }
{
    let mut blocks = Vec::with_capacity(alloc, string.blocks() as usize)?;
    'each: for block in 0..string.blocks() {
        let part = string.part(block);
        let own = taken(alloc, part.size(), backward)?;
        blocks.push(block_of(alloc, part, own.as_slice())?)?;
    }
    Ok(BlockSet { blocks })
}

/// The last bytes, so many, turned. They are let go.
fn taken(alloc: Global, count: usize, backward: &mut Vec<u8>) -> Result<Vec<u8>, Memory>
    requires { count ≤ length backward.old.items }
    ensures own { IfOk result (λ own. own.items ≡ take count (reverse backward.old.items)) }
    ensures rest { OnOk result (reverse backward.new.items ≡ drop count (reverse backward.old.items)) }
{
    let from = backward.len() - count;
    let (_, last) = backward.split_at(from);
    let mut own = Vec::from_slice(alloc, last)?;
    own.reverse();
    backward.truncate(from);
    backward.shrink_to_fit();
    Ok(own)
}
