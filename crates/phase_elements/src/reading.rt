//! The processors of a machine, as what is held of them can be read.

ghost use Rattle.std.specs.Prelude.{◌≡◌, ◌<◌, ◌^◌, ℕ, List, length};
ghost use Rattle.cstar_base.specs.Numbers.{residue};
ghost use Rattle.paris_code.specs.Memory.{BitMemory, field_number, whole_number, is_active, is_tested};
ghost use Rattle.paris_code.specs.Shapes.{SetShape, extents_at};
ghost use Rattle.phase_meaning.specs.Apply.{IsRun, LiesIn};

use paris_code::Field;
use phase_meaning::arith::extended;
use vp_sets::Geometry;

/// Of some processors of a machine the bits can be read.
pub trait Readable {
    /// The sets of the machine.
    ghost shapes: { Self → List SetShape };

    /// The bits of its processors.
    ghost memory: { Self → BitMemory };

    /// The processor at a position can be read, as one of this set.
    ghost reads: { Self → ℕ → ℕ → Type 0 };

    /// The grid of a set.
    fn geometry(&self, set: u16) -> &Geometry
        requires { set < length (shapes self.now) }
        ensures { result.now ≡ extents_at (shapes self.now) set };

    /// The number in a run of bits of a processor, unsigned.
    fn number(&self, run: Field, position: u32) -> u32
        requires run { IsRun (shapes self.now) run }
        requires reads { reads self.now position run.set }
        ensures value { result ≡ field_number (memory self.now) run position }
        ensures bound { result < 2 ^ run.len };

    /// Whether a processor is active.
    fn context(&self, set: u16, position: u32) -> bool
        requires set { set < length (shapes self.now) }
        requires reads { reads self.now position set }
        ensures { result ≡ is_active (shapes self.now) (memory self.now) set position };

    /// Whether the test flag of a processor is 1.
    fn test(&self, set: u16, position: u32) -> bool
        requires set { set < length (shapes self.now) }
        requires reads { reads self.now position set }
        ensures { result ≡ is_tested (shapes self.now) (memory self.now) set position };
}

/// The number in a field of a processor, unsigned.
pub(crate) fn field<M: Readable>(m: &M, f: Field, position: u32) -> u32
    requires field { LiesIn (M.shapes m.now) f }
    requires reads { M.reads m.now position f.set }
    ensures value { result ≡ field_number (M.memory m.now) f position }
    ensures bound { result < 2 ^ f.len }
{
    m.number(f, position)
}

/// The number in a field of a processor as a word.
pub(crate) fn word<M: Readable>(m: &M, signed: bool, f: Field, position: u32) -> u32
    requires field { LiesIn (M.shapes m.now) f }
    requires reads { M.reads m.now position f.set }
    ensures { result ≡ residue 32 (whole_number (M.memory m.now) signed f position) }
{
    extended(signed, f.len, field(m, f, position))
}
