//! A listing read back.

ghost use Rattle.std.specs.Prelude.{◌≡◌, ◌<◌, ◌^◌, IfOk, length};
ghost use Rattle.paris_code.specs.Listing.{listing};
ghost use Rattle.paris_code.specs.Plain.{IsPlain};

use crate::differences::first_difference;
use crate::lines::Reading;
use crate::words::Stop;
use cstar_base::Memory;
use paris_code::Image;
use std::alloc::Global;

/// Why bytes are no listing: the number of a line, from 1, or want of memory.
#[derive(Drop)]
pub enum AsmFault {
    Line { line: u32 },
    Memory,
}

/// Reads the listing of an image back. The bytes are fewer than 2^32. `Line` is the first line such
/// that no listing begins with the bytes up to its end; a rest without a newline is a line, and the
/// line behind the last is answered where the bytes end too early.
pub fn read(alloc: Global, bytes: &[u8]) -> Result<Image, AsmFault>
    requires { length bytes.now < 2 ^ 32 }
    ensures listed { IfOk result (λ image. listing image ≡ bytes.now) }
    ensures plain { IfOk result (λ image. IsPlain image) }
{
    let mut reading = Reading::new(alloc);
    let lines = match read_lines(alloc, &mut reading, bytes) {
        Ok(lines) => lines,
        Err(Memory) => return Err(AsmFault::Memory),
    };
    match first_difference(alloc, &reading.image, bytes) {
        Ok(None) => Ok(reading.image),
        Err(Memory) => Err(AsmFault::Memory),
        Ok(Some(at)) => Err(AsmFault::Line {
            line: line_of(&bytes[..at]).min(lines.saturating_add(1)),
        }),
    }
}

/// Reads lines up to the first that cannot be read, and answers how many were read.
fn read_lines(alloc: Global, reading: &mut Reading, bytes: &[u8]) -> Result<u32, Memory>
    ensures { IsPlain reading.old.image → IsPlain reading.new.image }
{
    let mut rest = bytes;
    let mut lines = 0u32;
    'more: while let Some(end) = rest.iter().position(|byte| *byte == b'\n') {
        match reading.line(alloc, &rest[..end]) {
            Ok(()) => lines = lines.saturating_add(1),
            Err(Stop::NoLine) => return Ok(lines),
            Err(Stop::Memory) => return Err(Memory),
        }
        rest = &rest[end + 1..];
    }
    Ok(lines)
}

/// The number of the line that stands behind these bytes.
fn line_of(before: &[u8]) -> u32 {
    let ends = before.iter().filter(|byte| **byte == b'\n').count();
    u32::try_from(ends).unwrap_or(u32::MAX).saturating_add(1)
}
