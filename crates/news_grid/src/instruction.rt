//! The instructions that fetch.

ghost use Rattle.std.specs.Prelude.{◌≡◌, true, ◌≤◌};
ghost use Rattle.cstar_base.specs.declared.operators.Winner.{Winner};
ghost use Rattle.paris_code.specs.Meaning.{Means};
ghost use Rattle.phase_meaning.specs.Apply.{CanApply, ReplyFits};
ghost use Rattle.block_store.specs.Stored.{shapes_in, memory_in, IsWhole, HasRoom};
ghost use Rattle.news_grid.specs.Places.{is_fetching};

use crate::get::{Get, gather};
use crate::news::{News, shift};
use crate::one::{read_one, write_one};
use block_store::Store;
use cstar_io::Gate;
use paris_code::{Instr, Reply};
use phase_elements::konst;
use std::thread::Threads;

/// Does an instruction that fetches, by so many workers.
pub fn run<R: Threads + Sync, G: Gate + Sync>(
    rt: &R,
    store: &mut Store,
    instr: &Instr,
    args: &[u32],
    workers: u32,
    gate: &G,
) -> Reply
    requires whole { IsWhole store.old }
    requires room { HasRoom store.old }
    requires can { CanApply (shapes_in store.old) instr.now args.now }
    requires fetching { is_fetching instr.now ≡ true }
    requires workers { (1 ≤ workers) × (workers ≤ 64) }
    ensures whole { IsWhole store.new }
    ensures room { HasRoom store.new }
    ensures shapes { shapes_in store.new ≡ shapes_in store.old }
    ensures fits { ReplyFits instr.now result }
    ensures meaning { (w : Winner) → Means (shapes_in store.old) instr.now args.now (memory_in store.old w) (memory_in store.new w) result }
{
    match instr {
        Instr::GetFromNews {
            dest,
            source,
            axis,
            by,
        } => {
            let news = News {
                dest: *dest,
                source: *source,
                axis: *axis,
                by: konst(*by, args),
                always: false,
            };
            shift(rt, store, news, workers, gate);
        }
        Instr::GetFromNewsAlways {
            dest,
            source,
            axis,
            by,
        } => {
            let news = News {
                dest: *dest,
                source: *source,
                axis: *axis,
                by: konst(*by, args),
                always: true,
            };
            shift(rt, store, news, workers, gate);
        }
        Instr::Get {
            dest,
            address,
            source,
        } => {
            let get = Get {
                dest: *dest,
                address: *address,
                source: *source,
            };
            gather(rt, store, get, workers, gate);
        }
        Instr::ReadFromProcessor { signed, source, .. } => {
            return Reply::Value(read_one(store, *signed, args[0], *source));
        }
        Instr::WriteToProcessor { dest, value, .. } => {
            write_one(store, *dest, args[0], konst(*value, &args[1..]));
        }
        _ => unreachable!(),
    }
    Reply::Nothing
}
