//! Runs of bits of all processors of a block.

ghost use Rattle.std.specs.Prelude.{◌≡◌, ◌<◌};
ghost use Rattle.paris_code.specs.Memory.{SameBits};
ghost use Rattle.paris_code.specs.Shapes.{extents_at};
ghost use Rattle.paris_code.specs.Writes.{written};
ghost use Rattle.phase_gate.specs.Blocks.{HoldRun, at_block};
ghost use Rattle.phase_meaning.specs.Apply.{IsRun};
ghost use Rattle.vp_sets.specs.Blocks.{block_count};

use crate::row_phases::RowPhases;
use paris_code::Field;

impl RowPhases {
    ghost use Rattle.phase_gate.specs.Rows.{sets_of, memory_of};

    /// The numbers in a run of bits of a block's processors; 0 where there is none.
    pub(crate) fn block_numbers(&self, run: Field, block: u32) -> [u32; 512]
        requires run { IsRun (sets_of self.now) run }
        requires block { block < block_count (extents_at (sets_of self.now) run.set) }
        ensures { HoldRun (sets_of self.now) (memory_of self.now) run block result }
    {
        let rows = self.rows(run.set);
        let (start, end) = rows.geometry.block_range(block);
        let mut words = [0; 512];
        'positions: for position in start..end {
            words[(position - start) as usize] = rows.number(position, run.offset, run.len);
        }
        words
    }

    /// Makes a run of bits of a block's processors these numbers, modulo 2 to the length.
    pub(crate) fn set_block_numbers(&mut self, run: Field, block: u32, words: &[u32; 512])
        requires run { IsRun (sets_of self.old) run }
        requires block { block < block_count (extents_at (sets_of self.old) run.set) }
        ensures sets { sets_of self.new ≡ sets_of self.old }
        ensures bits { SameBits (sets_of self.old) (memory_of self.new) (written (at_block run block words.now) (memory_of self.old)) }
    {
        let (start, end) = self.rows(run.set).geometry.block_range(block);
        'positions: for position in start..end {
            self.write(run, position, words[(position - start) as usize]);
        }
    }
}
