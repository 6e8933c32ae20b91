//! The machine's processors, and what waits to be done on them.

ghost use Rattle.std.specs.Prelude.{◌≡◌, ◌≤◌, [], All, IfOk, length, map};
ghost use Rattle.cstar_base.specs.declared.operators.Winner.TheVariants as W;
ghost use Rattle.block_store.specs.Stored.{AreWhole, HasRoom, IsWhole, shape_of_plan, shapes_in, memory_in};
ghost use Rattle.instruction_runs.specs.Waiting.{AreReady};
ghost use Rattle.paris_code.specs.Memory.{SameBits, fresh_memory};
ghost use Rattle.paris_code.specs.Shapes.{shape_of, shapes_of};
ghost use Rattle.paris_code.specs.Sound.{IsShape};

use block_store::{BlockSet, Room, SetPlan, Store};
use cstar_base::Memory;
use image_check::Sound;
use instruction_runs::Batch;
use paris_code::ShapeBits;
use std::alloc::Global;
use vp_sets::Geometry;

/// The blocks of all sets, and the instructions that wait to be done on them. The calls that do them
/// are told that they are ready; of the machine it is known merely.
#[derive(Drop)]
pub struct Machine {
    pub(crate) store: Store,
    pub(crate) batch: Batch,
    ghost whole: { IsWhole store },
    ghost room: { HasRoom store },
    ghost waiting: { ∥ AreReady (shapes_in store) batch.set batch.deferred.items ∥₁ },
}

/// What the set of a shape is made after.
fn plan_of(shape: &ShapeBits) -> SetPlan
    requires { IsShape (shape_of shape.now) }
    ensures shape { shape_of_plan result ≡ shape_of shape.now }
    ensures grid { IsShape (shape_of_plan result) }
{
    match Geometry::new(shape.extents.as_slice()) {
        Ok(geometry) => SetPlan {
            geometry,
            bits: shape.bits,
        },
        Err(_bad) => unreachable!(),
    }
}

#[tactic(auto, using(phase_meaning::proofs::FieldLemmas::shape_kept))]
/// What the sets of an image are made after.
fn plans_for(alloc: Global, sound: &Sound) -> Result<Vec<SetPlan>, Memory>
    ensures shapes { IfOk result (λ plans. map shape_of_plan plans.items ≡ shapes_of sound.now) }
    ensures grids { IfOk result (λ plans. All (λ plan. IsShape (shape_of_plan plan)) plans.items) }
{
    let mut plans = Vec::new(alloc);
    'shapes: for shape in sound.image().shapes.iter() {
        plans.push(plan_of(shape))?;
    }
    Ok(plans)
}

/// The room for phases over these sets: a cell for each block of the largest.
fn room_for(alloc: Global, sets: &[BlockSet]) -> Result<Room, Memory>
    requires few { All (λ set. length set.blocks.items ≤ 2048) sets.now }
    ensures { IfOk result (λ room. All (λ set. length set.blocks.items ≤ length room.cells.items) sets.now) }
{
    let mut most = 0;
    'sets: for set in sets {
        most = most.max(set.blocks.len());
    }
    Room::new(alloc, most as u32)
}

/// The store of an image whose sets these are.
fn store_of(alloc: Global, sound: &Sound, sets: Vec<BlockSet>) -> Result<Store, Memory>
    requires { AreWhole (shapes_of sound.now) sets.items }
    ensures shapes { IfOk result (λ store. shapes_in store ≡ shapes_of sound.now) }
    ensures whole { IfOk result IsWhole }
    ensures room { IfOk result HasRoom }
    ensures sets { IfOk result (λ store. store.sets ≡ sets) }
{
    let plans = plans_for(alloc, sound)?;
    let room = room_for(alloc, sets.as_slice())?;
    Ok(Store { plans, sets, room })
}

/// A new store for an image: all fields and test flags 0, all context flags 1.
fn store_for(alloc: Global, sound: &Sound) -> Result<Store, Memory>
    ensures shapes { IfOk result (λ store. shapes_in store ≡ shapes_of sound.now) }
    ensures whole { IfOk result IsWhole }
    ensures room { IfOk result HasRoom }
    ensures fresh { IfOk result (λ store. SameBits (shapes_of sound.now) (memory_in store W.High) (fresh_memory (shapes_of sound.now))) }
{
    let plans = plans_for(alloc, sound)?;
    Store::new(alloc, plans)
}

impl Machine {
    /// A new machine for an image, on which no instruction waits: all fields and test flags 0, all
    /// context flags 1.
    pub(crate) fn new(alloc: Global, sound: &Sound) -> Result<Machine, Memory>
        ensures settled { IfOk result (λ machine. machine.batch.deferred.items ≡ []) }
        ensures ready { IfOk result (λ machine. AreReady (shapes_in machine.store) machine.batch.set machine.batch.deferred.items) }
        ensures shapes { IfOk result (λ machine. shapes_in machine.store ≡ shapes_of sound.now) }
        ensures fresh { IfOk result (λ machine. SameBits (shapes_of sound.now) (memory_in machine.store W.High) (fresh_memory (shapes_of sound.now))) }
    {
        let store = match store_for(alloc, sound) {
            Ok(store) => store,
            Err(Memory) => return Err(Memory),
        };
        Machine::over(alloc, store)
    }

    /// The machine of an image whose sets these are, on which no instruction waits.
    pub(crate) fn with_sets(
        alloc: Global,
        sound: &Sound,
        sets: Vec<BlockSet>,
    ) -> Result<Machine, Memory>
        requires { AreWhole (shapes_of sound.now) sets.items }
        ensures settled { IfOk result (λ machine. machine.batch.deferred.items ≡ []) }
        ensures ready { IfOk result (λ machine. AreReady (shapes_in machine.store) machine.batch.set machine.batch.deferred.items) }
        ensures shapes { IfOk result (λ machine. shapes_in machine.store ≡ shapes_of sound.now) }
        ensures sets { IfOk result (λ machine. machine.store.sets ≡ sets) }
    {
        let store = match store_of(alloc, sound, sets) {
            Ok(store) => store,
            Err(Memory) => return Err(Memory),
        };
        Machine::over(alloc, store)
    }

    /// A machine with this store, on which no instruction waits.
    fn over(alloc: Global, store: Store) -> Result<Machine, Memory>
        requires whole { IsWhole store }
        requires room { HasRoom store }
        ensures settled { IfOk result (λ machine. machine.batch.deferred.items ≡ []) }
        ensures ready { IfOk result (λ machine. AreReady (shapes_in machine.store) machine.batch.set machine.batch.deferred.items) }
        ensures store { IfOk result (λ machine. machine.store ≡ store) }
    {
        let batch = match Batch::new(alloc) {
            Ok(batch) => batch,
            Err(Memory) => return Err(Memory),
        };
        Ok(Machine { store, batch })
    }
}
