//! What is found of an elementwise instruction once for all blocks.

ghost use Rattle.std.specs.Prelude.{◌≡◌, ◌<◌, ◌≤◌, ◌+◌, true, false, map, length, All, MatchOption};
ghost use Rattle.vp_sets.specs.Blocks.{block_count};
ghost use Rattle.paris_code.specs.Elementwise.{is_elementwise};
ghost use Rattle.paris_code.specs.Shapes.{bits_at, extents_at};
ghost use Rattle.paris_code.specs.Sound.{IsShape};
ghost use Rattle.phase_meaning.specs.Apply.{CanApply, active_set};
ghost use Rattle.block_store.specs.Stored.{shape_of_plan};
ghost use Rattle.elementwise.specs.Blocks.{DoneInBlock};
ghost use Rattle.elementwise.specs.Preparing.{IsPrepared};

use crate::in_block::do_in_block;
use crate::ways::{Way, way_of};
use crate::writes::{Written, written_by};
use bit_planes::Block;
use block_store::SetPlan;
use paris_code::Instr;

/// Where an elementwise instruction writes, and in which way it is done.
#[derive(Drop)]
pub struct Prepared {
    to: Written,
    way: Way,
}

impl Prepared {
    /// What is found of an elementwise instruction; none of another.
    pub fn of(plans: &[SetPlan], instr: &Instr, args: &[u32]) -> Option<Prepared>
        requires can { CanApply (map shape_of_plan plans.now) instr.now args.now }
        requires grids { All IsShape (map shape_of_plan plans.now) }
        ensures { MatchOption result (is_elementwise instr.now ≡ false) (IsPrepared (map shape_of_plan plans.now) instr.now args.now) }
    {
        let to = written_by(plans, instr, args)?;
        let way = way_of(plans, instr, args);
        Some(Prepared { to, way })
    }

    /// The set whose positions do the instruction.
    pub fn set(&self) -> u16
        ensures { result ≡ self.now.to.run.set }
    {
        self.to.run.set
    }

    /// Does the instruction in block `k` of its set.
    pub fn do_in_block(
        &self,
        plans: &[SetPlan],
        block: &mut Block,
        instr: &Instr,
        args: &[u32],
        k: u32,
    )
        requires can { CanApply (map shape_of_plan plans.now) instr.now args.now }
        requires prepared { IsPrepared (map shape_of_plan plans.now) instr.now args.now self.now }
        requires planes { bits_at (map shape_of_plan plans.now) (active_set instr.now) + 2 ≤ length block.old.planes.items }
        requires block { k < block_count (extents_at (map shape_of_plan plans.now) (active_set instr.now)) }
        ensures { DoneInBlock (map shape_of_plan plans.now) instr.now args.now k block.old.planes.items block.new.planes.items }
    {
        do_in_block(plans, block, instr, args, self.to, &self.way, k);
    }
}
