//! A reduction over all blocks of a set.

ghost use Rattle.std.specs.Prelude.{◌≡◌, ℕ, ◌<◌, ◌≤◌, ◌+◌, ◌^◌, length};
ghost use Rattle.cstar_base.specs.declared.operators.Winner.{Winner};
ghost use Rattle.paris_code.specs.Fetching.{global_fold};
ghost use Rattle.phase_meaning.specs.Apply.{LiesIn};
ghost use Rattle.reduce_scan.specs.Blocks.{joined_folds};
ghost use Rattle.block_store.specs.Stored.{shapes_in, memory_in, IsWhole, HasRoom};

use crate::folds::{FieldFold, fold_blocks};
use block_store::{Room, Store};
use cstar_base::numbers::{fold_step, identity};
use cstar_io::Gate;
use paris_code::{Field, Reduction};
use std::thread::Threads;

/// The folds that the first cells hold, joined in order.
fn join_folds(room: &Room, combiner: Reduction, count: usize) -> u32
    requires { count ≤ length room.now.cells.items }
    ensures { result ≡ joined_folds combiner room.now.cells.items count }
{
    let (combine, unsigned) = combiner.combiner();
    let mut total = identity(combine, unsigned);
    for k in 0..count {
        total = fold_step(combine, unsigned, total, room.cells[k].words[0]);
    }
    total
}

/// The fold of a field over the active positions of its set, in order.
pub fn reduce<R: Threads + Sync, G: Gate + Sync>(
    rt: &R,
    store: &mut Store,
    combiner: Reduction,
    source: Field,
    workers: u32,
    gate: &G,
) -> u32
    requires whole { IsWhole store.old }
    requires room { HasRoom store.old }
    requires source { LiesIn (shapes_in store.old) source }
    requires workers { (1 ≤ workers) × (workers ≤ 64) }
    ensures whole { IsWhole store.new }
    ensures room { HasRoom store.new }
    ensures shapes { shapes_in store.new ≡ shapes_in store.old }
    ensures memory { (w : Winner) → memory_in store.new w ≡ memory_in store.old w }
    ensures result { (w : Winner) → result ≡ global_fold (shapes_in store.old) (memory_in store.old w) combiner source }
{
    let at = usize::from(source.set);
    let context = store.plans[at].bits;
    let blocks = store.sets[at].blocks.len();
    let fold = FieldFold {
        combiner,
        source,
        context,
    };
    fold_blocks(rt, &store.sets[at], &mut store.room, &fold, workers, gate);
    join_folds(&store.room, combiner, blocks)
}
