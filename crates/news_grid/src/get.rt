//! A get over all blocks of a set.

ghost use Rattle.std.specs.Prelude.{◌≡◌, ◌≤◌};
ghost use Rattle.cstar_base.specs.declared.operators.Winner.{Winner};
ghost use Rattle.paris_code.specs.Fetching.{at_active, of_named};
ghost use Rattle.paris_code.specs.Memory.{SameBits};
ghost use Rattle.paris_code.specs.Writes.{written};
ghost use Rattle.phase_meaning.specs.Apply.{LiesIn};
ghost use Rattle.block_store.specs.Stored.{shapes_in, memory_in, IsWhole, HasRoom};

use crate::spread::{Fetching, spread};
use block_store::{Store, lift};
use cstar_io::Gate;
use paris_code::Field;
use std::thread::Threads;

/// A get: the active positions of `dest` take what `source` holds at the positions that their
/// addresses name, and 0 where there is none.
#[derive(Clone, Copy)]
pub struct Get {
    pub dest: Field,
    pub address: Field,
    pub source: Field,
}

/// Does a get. All is read before anything is written.
pub fn gather<R: Threads + Sync, G: Gate + Sync>(
    rt: &R,
    store: &mut Store,
    get: Get,
    workers: u32,
    gate: &G,
)
    requires whole { IsWhole store.old }
    requires room { HasRoom store.old }
    requires dest { LiesIn (shapes_in store.old) get.dest }
    requires address { LiesIn (shapes_in store.old) get.address }
    requires source { LiesIn (shapes_in store.old) get.source }
    requires together { get.dest.set ≡ get.address.set }
    requires workers { (1 ≤ workers) × (workers ≤ 64) }
    ensures whole { IsWhole store.new }
    ensures room { HasRoom store.new }
    ensures shapes { shapes_in store.new ≡ shapes_in store.old }
    ensures memory { (w : Winner) → SameBits (shapes_in store.old) (memory_in store.new w)
        (written (at_active (shapes_in store.old) (memory_in store.old w) get.dest (λ p. of_named (shapes_in store.old) (memory_in store.old w) get.address get.source p)) (memory_in store.old w)) }
{
    let from = usize::from(get.source.set);
    let to = usize::from(get.dest.set);
    let count = store.plans[from].geometry.positions();
    lift(
        rt,
        &store.sets[from],
        &mut store.room,
        get.source.offset,
        get.source.len,
        workers,
    );
    let taking = Fetching {
        plan: &store.plans[to],
        cells: store.room.cells.as_slice(),
        count,
        dest: get.dest,
        address: get.address,
    };
    spread(rt, &mut store.sets[to], &taking, workers, gate);
}
