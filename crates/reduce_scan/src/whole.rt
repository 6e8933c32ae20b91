//! A scan over all blocks of a set.

ghost use Rattle.std.specs.Prelude.{◌≡◌, ◌<◌, ◌≤◌};
ghost use Rattle.cstar_base.specs.declared.operators.Winner.{Winner};
ghost use Rattle.paris_code.specs.Fetching.{at_active};
ghost use Rattle.paris_code.specs.Memory.{SameBits};
ghost use Rattle.paris_code.specs.Scanning.{scanned};
ghost use Rattle.paris_code.specs.Writes.{written};
ghost use Rattle.phase_meaning.specs.Apply.{LiesIn};
ghost use Rattle.block_store.specs.Stored.{shapes_in, memory_in, IsWhole, HasRoom};
ghost use Rattle.reduce_scan.specs.Along.{scan_of, ScanFits};

use crate::across::{hold_blocks, join_words, take_words};
use crate::lines::{AxisScan, LineScan, Lines};
use crate::runs::{fold_parts, hand_on};
use crate::straight::{scan_blocks, scan_in_order};
use block_store::Store;
use cstar_io::Gate;
use paris_code::Field;
use std::thread::Threads;

/// A scan: the active positions of `dest` take the fold of the active positions of their line and
/// segment that stand before them, their own among them or not.
pub fn scan<R: Threads + Sync, G: Gate + Sync>(
    rt: &R,
    store: &mut Store,
    dest: Field,
    along: &AxisScan,
    workers: u32,
    gate: &G,
)
    requires whole { IsWhole store.old }
    requires room { HasRoom store.old }
    requires dest { LiesIn (shapes_in store.old) dest }
    requires along { ScanFits (shapes_in store.old) along.now }
    requires together { dest.set ≡ along.now.source.set }
    requires workers { (1 ≤ workers) × (workers ≤ 64) }
    ensures whole { IsWhole store.new }
    ensures room { HasRoom store.new }
    ensures shapes { shapes_in store.new ≡ shapes_in store.old }
    ensures memory { (w : Winner) → SameBits (shapes_in store.old) (memory_in store.new w)
        (written (at_active (shapes_in store.old) (memory_in store.old w) dest (λ p. scanned (shapes_in store.old) (memory_in store.old w) (scan_of along.now) p)) (memory_in store.old w)) }
{
    let at = usize::from(dest.set);
    let plan = &store.plans[at];
    let task = LineScan {
        scan: along.over(plan.bits),
        lines: Lines::of(&plan.geometry, along.axis, along.direction),
        dest,
    };
    if task.lines.are_straight() {
        if workers == 1 {
            scan_in_order(&mut store.sets[at], &task, gate);
            return;
        }
        let parts = store.sets[at].blocks.len();
        fold_parts(rt, &store.sets[at], &mut store.room, &task, workers);
        hand_on(&mut store.room, along.combiner, parts);
        scan_blocks(rt, &store.room, &mut store.sets[at], &task, workers, gate);
        return;
    }
    hold_blocks(rt, &store.sets[at], &mut store.room, &task, workers);
    join_words(&mut store.room, along.combiner, &task.lines);
    take_words(rt, &store.room, &mut store.sets[at], &task, workers, gate);
}
