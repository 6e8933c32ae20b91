//! Whether a field can be read while a target is written over it.

ghost use Rattle.std.specs.Prelude.{◌≡◌, ℕ, ◌+◌, ◌≤◌, List, length, IsTrue};
ghost use Rattle.bit_planes.specs.declared.plane.Plane.{Plane};
ghost use Rattle.lane_kernels.specs.Kernels.{IsFieldReadable, IsReadableDown};

use lane_kernels::Target;

/// Whether a field can be read while the target is written from its lowest bit up.
pub(crate) fn is_readable_up(offset: u32, len: u8, to: &Target) -> bool
    ensures { (planes : List Plane) → IsTrue result → offset + len ≤ length planes → IsFieldReadable offset len to.now planes }
{
    to.offset <= offset || u64::from(offset) + u64::from(len) <= u64::from(to.offset)
}

/// Whether a field as long as the target can be read while the target is written from its highest
/// bit down.
pub(crate) fn is_readable_down(offset: u32, to: &Target) -> bool
    ensures { (planes : List Plane) → IsTrue result → offset + to.now.len ≤ length planes → IsReadableDown offset to.now planes }
{
    offset <= to.offset || u64::from(to.offset) + u64::from(to.len) <= u64::from(offset)
}
