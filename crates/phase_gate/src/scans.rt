//! Scans: for each processor the fold over those before it on its line and in its segment.

ghost use Rattle.std.specs.Prelude.{ℕ, ◌≡◌, ◌<◌, false, Some, IfSome, MatchOption};
ghost use Rattle.paris_code.specs.Memory.{SameBits, processors, is_active};
ghost use Rattle.paris_code.specs.Fetching.{at_active};
ghost use Rattle.paris_code.specs.Scanning.{bit_is_one, parts, own_step, scanned};
ghost use Rattle.vp_sets.specs.Lines.{steps_before};
ghost use Rattle.paris_code.specs.Writes.{written};
ghost use Rattle.paris_code.specs.Shapes.{extents_at};
ghost use Rattle.phase_meaning.specs.Apply.{IsPosition, LiesIn};
ghost use Rattle.phase_meaning.specs.Gathered.{word_if};

use crate::row_phases::RowPhases;
use cstar_base::numbers::{fold_step, identity};
use cstar_base::{Direction, Inclusion, SegmentMode};
use paris_code::{Field, Reduction};

/// A scan along an axis. The bit parts the segments, in the modes that have such.
#[derive(Clone, Copy)]
pub(crate) struct Scan {
    pub(crate) combiner: Reduction,
    pub(crate) source: Field,
    pub(crate) axis: u32,
    pub(crate) direction: Direction,
    pub(crate) mode: SegmentMode,
    pub(crate) bit: Option<Field>,
    pub(crate) inclusion: Inclusion,
}

/// The n-th of so many positions, as they are gone through in a direction.
fn nth(direction: Direction, count: u32, n: u32) -> u32
    requires { n < count }
    ensures value { result ≡ steps_before direction count n }
    ensures bound { result < count }
{
    match direction {
        Direction::Upward => n,
        Direction::Downward => count - 1 - n,
    }
}

impl RowPhases {
    ghost use Rattle.phase_gate.specs.Rows.{sets_of, memory_of, room_of};
    ghost use Rattle.phase_gate.specs.Scans.{ScanFits, scan_of};
    ghost use Rattle.phase_meaning.specs.Scans.{before_at, IsPrevious};

    /// Whether the bit that parts the segments is 1 at a position.
    fn is_marked(&self, bit: Option<Field>, position: u32) -> bool
        requires { IfSome bit (λ f. LiesIn (sets_of self.now) f × IsPosition (sets_of self.now) f.set position) }
        ensures { result ≡ bit_is_one (memory_of self.now) bit position }
    {
        match bit {
            None => false,
            Some(bit) => self.field(bit, position) == 1,
        }
    }

    /// Whether a new segment begins between two neighbours of a line, in the scan's direction.
    fn parts(&self, scan: &Scan, first: u32, second: u32) -> bool
        requires scan { ScanFits (sets_of self.now) scan.now }
        requires first { IsPosition (sets_of self.now) scan.now.source.set first }
        requires second { IsPosition (sets_of self.now) scan.now.source.set second }
        ensures { result ≡ parts scan.now.mode scan.now.direction (bit_is_one (memory_of self.now) scan.now.bit first) (bit_is_one (memory_of self.now) scan.now.bit second) (is_active (sets_of self.now) (memory_of self.now) scan.now.source.set second) }
    {
        match (scan.mode, scan.direction) {
            (SegmentMode::NoSegments, _) => false,
            (SegmentMode::StartBit, _) => {
                self.is_active(scan.source.set, second) & self.is_marked(scan.bit, second)
            }
            (SegmentMode::SegmentBit, Direction::Upward) => self.is_marked(scan.bit, second),
            (SegmentMode::SegmentBit, Direction::Downward) => self.is_marked(scan.bit, first),
        }
    }

    /// The position one step before another on its line, in the scan's direction, if there is one.
    fn previous(&self, scan: &Scan, position: u32) -> Option<u32>
        requires scan { ScanFits (sets_of self.now) scan.now }
        requires position { IsPosition (sets_of self.now) scan.now.source.set position }
        ensures { MatchOption result
            (own_step (extents_at (sets_of self.now) scan.now.source.set) (scan_of scan.now) position ≡ 0)
            (λ q. (q < processors (sets_of self.now) scan.now.source.set) × IsPrevious (extents_at (sets_of self.now) scan.now.source.set) (scan_of scan.now) position q) }
    {
        let geometry = self.rows(scan.source.set).geometry;
        let own = geometry.coord(position, scan.axis);
        let last = geometry.extent(scan.axis) - 1;
        match scan.direction {
            Direction::Upward if own > 0 => Some(geometry.shift(position, scan.axis, -1)),
            Direction::Downward if own < last => { Some(geometry.shift(position, scan.axis, 1)) }
            _ => None,
        }
    }

    /// The fold of the active positions of its line and segment that come before a position, where
    /// those of the positions that come before are held.
    fn fold_before(&self, scan: &Scan, position: u32) -> u32
        requires scan { ScanFits (sets_of self.now) scan.now }
        requires position { IsPosition (sets_of self.now) scan.now.source.set position }
        requires before { (q : ℕ) → q < processors (sets_of self.now) scan.now.source.set
            → steps_before scan.now.direction (processors (sets_of self.now) scan.now.source.set) q < steps_before scan.now.direction (processors (sets_of self.now) scan.now.source.set) position
            → room_of self.now scan.now.source.set q ≡ Some (before_at (sets_of self.now) (memory_of self.now) (scan_of scan.now) q) }
        ensures { result ≡ before_at (sets_of self.now) (memory_of self.now) (scan_of scan.now) position }
    {
        let set = scan.source.set;
        let (combine, unsigned) = scan.combiner.combiner();
        let start = identity(combine, unsigned);
        let Some(previous) = self.previous(scan, position) else {
            return start;
        };
        if self.parts(scan, previous, position) {
            return start;
        }
        let total = self.gathered(set, previous).unwrap_or(start);
        if self.is_active(set, previous) {
            fold_step(combine, unsigned, total, self.field(scan.source, previous))
        } else {
            total
        }
    }

    /// Gathers those folds, in the scan's direction.
    fn gather_folds(&mut self, scan: &Scan)
        requires { ScanFits (sets_of self.old) scan.now }
        ensures sets { sets_of self.new ≡ sets_of self.old }
        ensures memory { memory_of self.new ≡ memory_of self.old }
        ensures words { (p : ℕ) → p < processors (sets_of self.old) scan.now.source.set →
            room_of self.new scan.now.source.set p ≡ Some (before_at (sets_of self.old) (memory_of self.old) (scan_of scan.now) p) }
    {
        let positions = self.positions(scan.source.set);
        'positions: for n in 0..positions {
            let position = nth(scan.direction, positions, n);
            let total = self.fold_before(scan, position);
            self.gather(scan.source.set, position, Some(total));
        }
    }

    /// The scan at a position, from the fold before it.
    fn with_own(&self, scan: &Scan, position: u32, total: u32) -> u32
        requires scan { ScanFits (sets_of self.now) scan.now }
        requires position { IsPosition (sets_of self.now) scan.now.source.set position }
        requires total { total ≡ before_at (sets_of self.now) (memory_of self.now) (scan_of scan.now) position }
        ensures { result ≡ scanned (sets_of self.now) (memory_of self.now) (scan_of scan.now) position }
    {
        let (combine, unsigned) = scan.combiner.combiner();
        match scan.inclusion {
            Inclusion::Exclusive => total,
            Inclusion::Inclusive => {
                fold_step(combine, unsigned, total, self.field(scan.source, position))
            }
        }
    }

    /// Gathers the scan of a field along an axis, for the active processors.
    fn gather_scan(&mut self, scan: &Scan)
        requires { ScanFits (sets_of self.old) scan.now }
        ensures sets { sets_of self.new ≡ sets_of self.old }
        ensures memory { memory_of self.new ≡ memory_of self.old }
        ensures words { (p : ℕ) → p < processors (sets_of self.old) scan.now.source.set →
            room_of self.new scan.now.source.set p ≡ word_if (sets_of self.old) (memory_of self.old) scan.now.source.set false p (scanned (sets_of self.old) (memory_of self.old) (scan_of scan.now) p) }
    {
        let set = scan.source.set;
        self.gather_folds(scan);
        'positions: for position in 0..self.positions(set) {
            let total = self.gathered(set, position).unwrap_or(0);
            let word = self.with_own(scan, position, total);
            self.hold(set, false, position, word);
        }
    }

    /// A scan, gathered and then written.
    pub(crate) fn do_scan(&mut self, dest: Field, scan: &Scan)
        requires dest { LiesIn (sets_of self.old) dest }
        requires scan { ScanFits (sets_of self.old) scan.now }
        requires together { dest.set ≡ scan.now.source.set }
        ensures sets { sets_of self.new ≡ sets_of self.old }
        ensures memory { SameBits (sets_of self.old) (memory_of self.new) (written (at_active (sets_of self.old) (memory_of self.old) dest (λ p. scanned (sets_of self.old) (memory_of self.old) (scan_of scan.now) p)) (memory_of self.old)) }
    {
        self.gather_scan(scan);
        self.write_gathered(dest, None);
    }
}
