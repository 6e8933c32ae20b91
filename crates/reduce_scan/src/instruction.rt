//! The instructions that fold.

ghost use Rattle.std.specs.Prelude.{◌≡◌, true, ◌≤◌};
ghost use Rattle.cstar_base.specs.declared.operators.Winner.{Winner};
ghost use Rattle.paris_code.specs.Meaning.{Means};
ghost use Rattle.phase_meaning.specs.Apply.{CanApply, ReplyFits};
ghost use Rattle.block_store.specs.Stored.{shapes_in, memory_in, IsWhole, HasRoom};
ghost use Rattle.reduce_scan.specs.Along.{is_folding};

use crate::lines::AxisScan;
use crate::total::reduce;
use crate::whole::scan;
use block_store::Store;
use cstar_io::Gate;
use paris_code::{Instr, Reply};
use std::thread::Threads;

/// Does a reduction or a scan, by so many workers.
pub fn run<R: Threads + Sync, G: Gate + Sync>(
    rt: &R,
    store: &mut Store,
    instr: &Instr,
    args: &[u32],
    workers: u32,
    gate: &G,
) -> Reply
    requires whole { IsWhole store.old }
    requires room { HasRoom store.old }
    requires can { CanApply (shapes_in store.old) instr.now args.now }
    requires folding { is_folding instr.now ≡ true }
    requires workers { (1 ≤ workers) × (workers ≤ 64) }
    ensures whole { IsWhole store.new }
    ensures room { HasRoom store.new }
    ensures shapes { shapes_in store.new ≡ shapes_in store.old }
    ensures fits { ReplyFits instr.now result }
    ensures meaning { (w : Winner) → Means (shapes_in store.old) instr.now args.now (memory_in store.old w) (memory_in store.new w) result }
{
    match instr {
        Instr::Global {
            combiner,
            source,
            ..
        } => { Reply::Value(reduce(rt, store, *combiner, *source, workers, gate)) }
        Instr::Scan {
            combiner,
            dest,
            source,
            axis,
            direction,
            mode,
            bit,
            inclusion,
        } => {
            let along = AxisScan {
                combiner: *combiner,
                source: *source,
                axis: *axis,
                direction: *direction,
                mode: *mode,
                bit: *bit,
                inclusion: *inclusion,
            };
            scan(rt, store, *dest, &along, workers, gate);
            Reply::Nothing
        }
        _ => unreachable!(),
    }
}
