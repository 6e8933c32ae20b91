ghost use Rattle.std.specs.Prelude.{OnOk};
ghost use Rattle.std.specs.Io.KnownBytes.{Appends};

use crate::errors::Failed;
use std::io::Write;

/// How many bytes are read, or gathered before they are written, at once.
pub const PIECE: usize = 65536;

/// Writes all of these bytes. A write that takes none of them fails.
#[tactic(auto, using(crate::proofs::Writing::appends_rest))]
pub fn write_out<W: Write>(writer: &mut W, bytes: &[u8]) -> Result<(), Failed>
    ensures { OnOk result (Appends (W.contents writer.old) (W.contents writer.new) bytes.now) }
{
    let mut rest = bytes;
    'more: while !rest.is_empty() {
        match writer.write(rest) {
            Ok(0) | Err(_) => return Err(Failed),
            Ok(count) => rest = &rest[count..],
        }
    }
    Ok(())
}
