//! Where a run begins.

ghost use Rattle.std.specs.Prelude.{◌≡◌, IfOk};
ghost use Rattle.paris_code.specs.Sound.{IsSound};
ghost use Rattle.point_runs.specs.Starts.{CanStart, new_start, origin_of};

use checkpoint::Bits;
use cstar_base::{Memory, Winner};
use front_end::Kept;
use image_check::Sound;
use std::alloc::Global;

/// Where a run begins.
#[derive(Drop)]
pub struct Start {
    /// The image whose code is run.
    pub sound: Sound,
    /// The state of the scalar code.
    pub kept: Kept,
    /// Which sender of a colliding send without a combiner wins.
    pub winner: Winner,
    /// The bits of the sets, as a point has them; none are those of new phases.
    pub bits: Option<Bits>,
}

impl Start {
    /// The start of a new run.
    pub fn new(alloc: Global, sound: Sound, winner: Winner) -> Result<Start, Memory>
        ensures new { IfOk result (λ start. origin_of start ≡ new_start sound winner) }
        ensures can { IfOk result CanStart }
    {
        let kept = Kept::new(alloc, &sound)?;
        Ok(Start {
            sound,
            kept,
            winner,
            bits: None,
        })
    }
}
