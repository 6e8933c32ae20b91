ghost use Rattle.std.specs.Prelude.{◌≡◌, ◌≢◌, ◌+◌, ◌<◌, ◌≤◌, ◌==◌, ℕ, List, true};
ghost use Rattle.std.specs.Int.{from_bool};
ghost use Rattle.paris_code.specs.Fetching.{at_one};
ghost use Rattle.paris_code.specs.Meaning.{Means};
ghost use Rattle.paris_code.specs.Memory.{BitMemory, SameBits, bit_run, field_number};
ghost use Rattle.paris_code.specs.Shapes.{SetShape, bits_at, extents_at};
ghost use Rattle.paris_code.specs.Writes.{written};
ghost use Rattle.phase_gate.specs.Blocks.{HoldRun, at_block};
ghost use Rattle.phase_meaning.specs.Apply.{CanApply, IsPosition, IsRun, LiesIn, ReplyFits};
ghost use Rattle.vp_sets.specs.Blocks.{block_count};

use cstar_base::Winner;
use paris_code::{Field, Instr, Reply};

/// What the machine does on all processors at once.
pub trait Phases {
    /// The sets, as in the image for which the phases were made.
    ghost shapes: { Self → List SetShape };

    /// The bits of all processors.
    ghost memory: { Self → BitMemory };

    /// What must be true of the phases for `apply` to mean the instruction. Phases on several threads
    /// rest on what they run their work by: that it may be shared among threads, may be called, and
    /// does what it says. Phases on one thread rest on nothing.
    ghost able: { Self → Type 0 };

    /// That no instruction is put off. `memory` is always what the instructions have made of the
    /// processors; but phases may put instructions off, to do several in one pass over their store.
    /// Then only what is settled can be read.
    ghost settled: { Self → Type 0 };

    /// Does a parallel instruction; `args` are the values of the registers that it reads, in the
    /// order of its operands. `Value` where it has a result register, `Bad` with the least active
    /// processor whose check fails, `Memory` at a send alone, and then nothing has changed; else
    /// `Nothing`.
    fn apply(&mut self, instr: &Instr, args: &[u32]) -> Reply
        requires can { CanApply (shapes self.old) instr.now args.now }
        requires able { able self.old }
        ensures able { able self.new }
        ensures reply { ReplyFits instr.now result }
        ensures shapes { shapes self.new ≡ shapes self.old }
        ensures meaning { Means (shapes self.old) instr.now args.now (memory self.old) (memory self.new) result };

    /// Does what was put off. That changes nothing that the phases mean.
    fn settle(&mut self)
        requires able { able self.old }
        ensures able { able self.new }
        ensures settled { settled self.new }
        ensures shapes { shapes self.new ≡ shapes self.old }
        ensures memory { SameBits (shapes self.old) (memory self.new) (memory self.old) };

    /// The number in a field of a processor, unsigned.
    fn read(&self, field: Field, position: u32) -> u32
        requires settled { settled self.now }
        requires field { LiesIn (shapes self.now) field }
        requires position { IsPosition (shapes self.now) field.set position }
        ensures { result ≡ field_number (memory self.now) field position };

    /// A bit of a processor: below the set's bits one of its fields, then the context flag, then
    /// the test flag.
    fn bit(&self, set: u16, index: u32, position: u32) -> bool
        requires settled { settled self.now }
        requires position { IsPosition (shapes self.now) set position }
        requires index { index < bits_at (shapes self.now) set + 2 }
        ensures { result ≡ ((memory self.now).bit set position index == 1) };

    /// Changes this bit alone.
    fn set_bit(&mut self, set: u16, index: u32, position: u32, b: bool)
        requires settled { settled self.old }
        requires position { IsPosition (shapes self.old) set position }
        requires index { index < bits_at (shapes self.old) set + 2 }
        ensures able { able self.old → able self.new }
        ensures settled { settled self.new }
        ensures shapes { shapes self.new ≡ shapes self.old }
        ensures memory { SameBits (shapes self.old) (memory self.new) (written (at_one (bit_run set index) position (from_bool b)) (memory self.old)) };

    /// The numbers in a run of at most 32 bits of all positions of a block, as `bit` has them; behind
    /// the last position they mean nothing.
    fn numbers(&self, run: Field, block: u32) -> [u32; 512]
        requires settled { settled self.now }
        requires run { IsRun (shapes self.now) run }
        requires block { block < block_count (extents_at (shapes self.now) run.set) }
        ensures { HoldRun (shapes self.now) (memory self.now) run block result };

    /// Makes a run of at most 32 bits of all positions of a block these numbers, modulo 2 to its
    /// length, and changes nothing else.
    fn set_numbers(&mut self, run: Field, block: u32, words: &[u32; 512])
        requires settled { settled self.old }
        requires run { IsRun (shapes self.old) run }
        requires block { block < block_count (extents_at (shapes self.old) run.set) }
        ensures able { able self.old → able self.new }
        ensures settled { settled self.new }
        ensures shapes { shapes self.new ≡ shapes self.old }
        ensures memory { SameBits (shapes self.old) (memory self.new) (written (at_block run block words.now) (memory self.old)) };

    /// Changes which sender of a colliding send without a combiner wins, and nothing else.
    fn choose(&mut self, w: Winner)
        ensures able { able self.old → able self.new }
        ensures settled { settled self.old → settled self.new }
        ensures shapes { shapes self.new ≡ shapes self.old }
        ensures memory { SameBits (shapes self.old) (memory self.new) (record { bit = (memory self.old).bit; winner = w }) };
}
