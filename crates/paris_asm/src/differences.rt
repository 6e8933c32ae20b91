//! Where a listing and bytes differ.

ghost use Rattle.std.specs.Prelude.{◌≡◌, ◌<◌, ◌≤◌, ◌-◌, ◌^◌, IfOk, MatchOption, length, take};
ghost use Rattle.paris_code.specs.Listing.{listing};

use cstar_base::Memory;
use cstar_io::MemSink;
use paris_code::Image;
use std::alloc::Global;

/// How many bytes two texts begin with alike.
fn alike(left: &[u8], right: &[u8]) -> usize
    ensures left { result ≤ length left.now }
    ensures right { result ≤ length right.now }
{
    let mut count = 0;
    'more: while count < left.len() && count < right.len() && left[count] == right[count] {
        count += 1;
    }
    count
}

/// Where the listing of the image and the bytes first differ; `None` where they are the same.
pub fn first_difference(alloc: Global, image: &Image, bytes: &[u8]) -> Result<Option<usize>, Memory>
    requires { length bytes.now < 2 ^ 32 }
    ensures { IfOk result (λ found. MatchOption found (listing image.now ≡ bytes.now) (λ at. at ≤ length bytes.now)) }
{
    let room = bytes.len() as u32;
    let mut out = MemSink::partial(alloc, room, Vec::new(alloc), room)?;
    match paris_text::print(image, &mut out) {
        Ok(()) if out.taken() == bytes => Ok(None),
        _ => Ok(Some(alike(out.taken(), bytes))),
    }
}
