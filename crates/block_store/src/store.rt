//! The blocks of all sets.

ghost use Rattle.std.specs.Prelude.{ℕ, ◌≡◌, ◌<◌, ◌≤◌, ◌+◌, ◌==◌, All, IfOk, length, map};
ghost use Rattle.cstar_base.specs.declared.operators.Winner.{Winner};
ghost use Rattle.cstar_base.specs.declared.operators.Winner.TheVariants as W;
ghost use Rattle.paris_code.specs.Fetching.{at_one};
ghost use Rattle.paris_code.specs.Memory.{SameBits, field_number, fresh_memory, is_active, is_tested};
ghost use Rattle.paris_code.specs.Shapes.{bits_at, extents_at};
ghost use Rattle.paris_code.specs.Sound.{IsShape};
ghost use Rattle.paris_code.specs.Writes.{written};
ghost use Rattle.phase_meaning.specs.Apply.{IsPosition, IsRun};
ghost use Rattle.vp_sets.specs.Blocks.{block_count};

use crate::room::Room;
use crate::set::{BlockSet, SetPlan};
use cstar_base::Memory;
use paris_code::Field;
use std::alloc::Global;

/// The sets of the machine: what each is made after, and its blocks.
#[derive(Drop)]
pub struct Store {
    pub plans: Vec<SetPlan>,
    pub sets: Vec<BlockSet>,
    pub room: Room,
}

/// The most blocks that a set of these plans has; 0 where there is none.
fn most_blocks(plans: &[SetPlan]) -> u32
    ensures { All (λ plan. block_count plan.geometry ≤ result) plans.now }
{
    let mut most = 0;
    'plans: for plan in plans {
        most = most.max(plan.geometry.block_count());
    }
    most
}

impl Store {
    ghost use Rattle.block_store.specs.Stored.{shape_of_plan, shapes_in, memory_in, HasRoom, IsWhole};

    /// A new store for these sets, each of at most 2 to the 30 bits a position: 0 in every field and
    /// test flag, and 1 in every context flag.
    pub fn new(alloc: Global, plans: Vec<SetPlan>) -> Result<Store, Memory>
        requires { All (λ plan. IsShape (shape_of_plan plan)) plans.items }
        ensures shapes { IfOk result (λ store. shapes_in store ≡ map shape_of_plan plans.items) }
        ensures whole { IfOk result IsWhole }
        ensures room { IfOk result HasRoom }
        ensures memory { IfOk result (λ store. SameBits (shapes_in store) (memory_in store W.High) (fresh_memory (shapes_in store))) }
    {
        let mut sets = Vec::new(alloc);
        'plans: for plan in &plans {
            sets.push(BlockSet::new(alloc, plan)?)?;
        }
        let room = Room::new(alloc, most_blocks(plans.as_slice()))?;
        Ok(Store { plans, sets, room })
    }

    /// What a set was made after.
    pub fn plan(&self, set: u16) -> &SetPlan
        requires { set < length (shapes_in self.now) }
        ensures extents { result.now.geometry ≡ extents_at (shapes_in self.now) set }
        ensures bits { result.now.bits ≡ bits_at (shapes_in self.now) set }
    {
        &self.plans[usize::from(set)]
    }

    /// The number in a run of bits of a position, unsigned.
    pub fn read(&self, run: Field, position: u32) -> u32
        requires whole { IsWhole self.now }
        requires run { IsRun (shapes_in self.now) run }
        requires position { IsPosition (shapes_in self.now) run.set position }
        ensures { (w : Winner) → result ≡ field_number (memory_in self.now w) run position }
    {
        self.sets[usize::from(run.set)].number(position, run.offset, run.len)
    }

    /// Whether a position is active.
    pub fn context(&self, set: u16, position: u32) -> bool
        requires whole { IsWhole self.now }
        requires position { IsPosition (shapes_in self.now) set position }
        ensures { (w : Winner) → result ≡ is_active (shapes_in self.now) (memory_in self.now w) set position }
    {
        let flag = Field {
            set,
            offset: self.plan(set).bits,
            len: 1,
        };
        self.read(flag, position) == 1
    }

    /// Whether the test flag of a position is 1.
    pub fn test(&self, set: u16, position: u32) -> bool
        requires whole { IsWhole self.now }
        requires position { IsPosition (shapes_in self.now) set position }
        ensures { (w : Winner) → result ≡ is_tested (shapes_in self.now) (memory_in self.now w) set position }
    {
        let flag = Field {
            set,
            offset: self.plan(set).bits + 1,
            len: 1,
        };
        self.read(flag, position) == 1
    }

    /// Writes a number, modulo 2 to the length, to a run of bits of a position.
    pub fn write(&mut self, run: Field, position: u32, n: u32)
        requires whole { IsWhole self.old }
        requires run { IsRun (shapes_in self.old) run }
        requires position { IsPosition (shapes_in self.old) run.set position }
        ensures whole { IsWhole self.new }
        ensures shapes { shapes_in self.new ≡ shapes_in self.old }
        ensures room { self.new.room ≡ self.old.room }
        ensures memory { (w : Winner) → SameBits (shapes_in self.old) (memory_in self.new w) (written (at_one run position n) (memory_in self.old w)) }
    {
        self.sets[usize::from(run.set)].set_number(position, run.offset, run.len, n);
    }
}
