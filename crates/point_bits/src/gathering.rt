//! From the bits of the sets to bytes.

ghost use Rattle.std.specs.Prelude.{◌≡◌, ◌<◌, ◌≤◌, ◌+◌, ◌/◌, ◌++◌, IfOk, OnOk, ℕ, List, length, reverse};
ghost use Rattle.block_store.specs.Planes.{HasPlanes, block_bit};
ghost use Rattle.block_store.specs.Stored.{AreWhole, stored};
ghost use Rattle.cstar_base.specs.declared.operators.Winner.{Winner};
ghost use Rattle.paris_code.specs.Memory.{BitMemory};
ghost use Rattle.paris_code.specs.Shapes.{SetShape, shapes_of};
ghost use Rattle.point_bits.specs.Strings.{IsString, IsStringOf, bits_bytes, set_bytes, total_size};

use crate::parts::part_of;
use crate::strings::{SetString, string_of};
use block_store::BlockSet;
use cstar_base::Memory;
use image_check::Sound;
use std::alloc::Global;

/// How many bytes the bits of all sets take.
pub(crate) fn total_size(sound: &Sound) -> usize
    ensures size { result ≡ total_size (shapes_of sound.now) }
    ensures few { length (shapes_of sound.now) ≤ 65536 }
{
    let mut size = 0;
    'sets: for set in 0..sound.image().shapes.len() {
        size += string_of(sound, set as u16).size();
    }
    size
}

/// The bits of all sets of an image, set behind set. Each block is let go as soon as its bits are
/// taken, from the last one on, so that the system has its memory back while the bytes become more.
pub fn gather(alloc: Global, sound: &Sound, mut sets: Vec<BlockSet>) -> Result<Vec<u8>, Memory>
    requires { AreWhole (shapes_of sound.now) sets.items }
    ensures { IfOk result (λ bytes. (w : Winner) → bytes.items ≡ bits_bytes (shapes_of sound.now) (stored sets.items w)) }
{
    let mut backward = Vec::with_capacity(alloc, total_size(sound))?;
    'sets: while let Some(set) = sets.pop() {
        let string = string_of(sound, sets.len() as u16);
        put_set(alloc, string, set, &mut backward)?;
    }
    backward.reverse();
    Ok(backward)
}

/// Puts the bytes of a set behind others, the last byte first.
fn put_set(
    alloc: Global,
    string: SetString,
    set: BlockSet,
    backward: &mut Vec<u8>,
) -> Result<(), Memory>
    requires string { IsString string }
    requires count { length set.blocks.items ≡ (string.positions + 511) / 512 }
    requires planes { HasPlanes string.width set.blocks.items }
    ensures { OnOk result ((shapes : List SetShape) (m : BitMemory) → IsStringOf shapes string
        → ((p i : ℕ) → p < string.positions → i < string.width → m.bit string.set p i ≡ block_bit set.blocks.items p i)
        → reverse backward.new.items ≡ set_bytes shapes m string.set ++ reverse backward.old.items) }
{
    let mut blocks = set.blocks;
    'each: while let Some(block) = blocks.pop() {
        let mut part = part_of(alloc, string.part(blocks.len() as u32), &block)?;
        part.reverse();
        backward.extend_from_slice(part.as_slice())?;
    }
    Ok(())
}
