//! The lines of a grid, and a scan along them.

ghost use Rattle.std.specs.Prelude.{◌≡◌, ◌<◌, ◌*◌, IsTrue, length};
ghost use Rattle.cstar_base.specs.declared.operators.Direction.TheVariants as D;
ghost use Rattle.vp_sets.specs.Lines.{steps_before};
ghost use Rattle.reduce_scan.specs.Order.{position_at};
ghost use Rattle.reduce_scan.specs.Parts.{AreLines};
ghost use Rattle.reduce_scan.specs.Along.{scan_over, lines_of};

use cstar_base::{Direction, Inclusion, SegmentMode};
use paris_code::{Field, Reduction};
use vp_sets::Geometry;

/// The positions of a set, line by line in a direction along an axis: each line has so many
/// positions, so far apart.
#[derive(Clone, Copy)]
pub(crate) struct Lines {
    pub(crate) direction: Direction,
    pub(crate) extent: u32,
    pub(crate) apart: u32,
    pub(crate) positions: u32,
}

/// A scan along an axis. The bit parts the segments, in the modes that have such.
#[derive(Clone, Copy)]
pub struct AxisScan {
    pub combiner: Reduction,
    pub source: Field,
    pub axis: u32,
    pub direction: Direction,
    pub mode: SegmentMode,
    pub bit: Option<Field>,
    pub inclusion: Inclusion,
}

/// The same but for the lines, with the place of its set's context flag.
#[derive(Clone, Copy)]
pub(crate) struct Scan {
    pub(crate) combiner: Reduction,
    pub(crate) source: Field,
    pub(crate) mode: SegmentMode,
    pub(crate) bit: Option<Field>,
    pub(crate) inclusion: Inclusion,
    pub(crate) context: u32,
}

/// A scan of a set along its lines, and the field that takes it.
#[derive(Clone, Copy)]
pub(crate) struct LineScan {
    pub(crate) scan: Scan,
    pub(crate) lines: Lines,
    pub(crate) dest: Field,
}

/// How many coordinates of a line lie before one in a direction.
pub(crate) fn steps_before(direction: Direction, extent: u32, k: u32) -> u32
    requires { k < extent }
    ensures { result ≡ steps_before direction extent k }
{
    match direction {
        Direction::Upward => k,
        Direction::Downward => extent - 1 - k,
    }
}

impl AxisScan {
    /// The scan over a set with its context flag at this bit.
    pub(crate) fn over(&self, context: u32) -> Scan
        ensures { result ≡ scan_over self.now context }
    {
        Scan {
            combiner: self.combiner,
            source: self.source,
            mode: self.mode,
            bit: self.bit,
            inclusion: self.inclusion,
            context,
        }
    }
}

impl Lines {
    /// The lines of a grid along one of its axes.
    pub(crate) fn of(geometry: &Geometry, axis: u32, direction: Direction) -> Lines
        requires { axis < length geometry.now }
        ensures value { result ≡ lines_of geometry.now axis direction }
        ensures lines { AreLines result }
    {
        Lines {
            direction,
            extent: geometry.extent(axis),
            apart: geometry.stride(axis),
            positions: geometry.positions(),
        }
    }

    /// Whether each place is its position, so that a part is a block.
    pub(crate) fn are_straight(&self) -> bool
        ensures { IsTrue result → (self.now.direction ≡ D.Upward) × (self.now.apart ≡ 1) }
    {
        self.apart == 1 && self.direction == Direction::Upward
    }

    /// The position at a place in line order.
    pub(crate) fn position(&self, place: u32) -> u32
        requires lines { AreLines self.now }
        requires place { place < self.now.positions }
        ensures value { result ≡ position_at self.now.direction self.now.extent self.now.apart place }
        ensures bound { result < self.now.positions }
    {
        let line = place / self.extent;
        let step = steps_before(self.direction, self.extent, place % self.extent);
        line / self.apart * (self.extent * self.apart) + step * self.apart + line % self.apart
    }
}
