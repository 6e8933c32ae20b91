//! The workers that do passes.

ghost use Rattle.std.specs.Prelude.{◌≡◌, ◌≤◌, true};
ghost use Rattle.cstar_base.specs.declared.operators.Winner.{Winner};
ghost use Rattle.instruction_runs.specs.Passing.{can_pass};
ghost use Rattle.instruction_runs.specs.Waiting.{takes};
ghost use Rattle.paris_code.specs.Memory.{SameBits};
ghost use Rattle.paris_phases.specs.Doing.{CanDo, CanDoNow, Did, DidNow, Settled};
ghost use Rattle.paris_phases.specs.Machines.{AllReady, memory_of, sets_of};

use crate::families::{Family, family_of};
use crate::machine::Machine;
use crate::passes::{workers_of, workers_to_settle};
use block_store::Store;
use cstar_base::Winner;
use cstar_io::Gate;
use instruction_runs::{Deferred, defer};
use paris_code::{Instr, Reply};
use std::alloc::Global;
use std::thread::Threads;

/// 1 to 64 workers: how many there are, what starts their threads, where a send takes its memory, and
/// the gate that is called once for each block of a pass, with its number.
#[derive(Drop)]
pub struct Crew<'a, R, G> {
    rt: &'a R,
    alloc: Global,
    pub count: u32,
    gate: &'a G,
    ghost few: { (1 ≤ count) × (count ≤ 64) },
}

impl<'a, R, G> Crew<'a, R, G> {
    /// A crew of 1 to 64 workers.
    pub fn new(rt: &'a R, alloc: Global, count: u32, gate: &'a G) -> Crew<'a, R, G>
        requires { (1 ≤ count) × (count ≤ 64) }
        ensures { result.count ≡ count }
    {
        Crew {
            rt,
            alloc,
            count,
            gate,
        }
    }
}

impl<'a, R: Threads + Sync, G: Gate + Sync> Crew<'a, R, G> {
    /// Does an instruction on a machine, by as many of the workers as pay; or lets it wait, where it
    /// answers nothing and is elementwise or a NEWS shift. What waits is done first where one comes
    /// that cannot, or that is of another set, or a shift whose source is written by one that waits or
    /// is not that of the shifts that wait, or where no room is left. A check of the grid or of a
    /// divisor is answered before those that wait, where none of them writes what it reads. `Memory`
    /// at a send alone.
    pub fn apply(&self, machine: &mut Machine, instr: &Instr, args: &[u32], winner: Winner) -> Reply
        requires { CanDo machine.old instr.now args.now }
        ensures { Did machine.old instr.now args.now winner machine.new result }
    {
        match defer(machine.store.plans.as_slice(), instr, args) {
            Some(deferred) => {
                self.make_room(machine, &deferred);
                machine.batch.push(deferred);
                Reply::Nothing
            }
            None => {
                self.make_way(machine, instr);
                self.do_now(&mut machine.store, instr, args, winner)
            }
        }
    }

    /// Does the instructions that wait, by as many of the workers as pay.
    pub fn settle(&self, machine: &mut Machine)
        requires { AllReady machine.old }
        ensures { Settled machine.old machine.new }
    {
        let workers = workers_to_settle(&machine.store, &machine.batch, self.count);
        instruction_runs::settle(
            self.rt,
            &mut machine.store,
            &mut machine.batch,
            workers,
            self.gate,
        );
    }

    /// Settles where the instruction cannot wait behind those that do.
    fn make_room(&self, machine: &mut Machine, deferred: &Deferred)
        requires { AllReady machine.old }
        ensures fits { takes machine.new.batch.set machine.new.batch.deferred.items deferred.now ≡ true }
        ensures ready { AllReady machine.new }
        ensures shapes { sets_of machine.new ≡ sets_of machine.old }
        ensures memory { (winner : Winner) → SameBits (sets_of machine.old) (memory_of machine.new winner) (memory_of machine.old winner) }
    {
        if !machine.batch.takes(deferred) {
            self.settle(machine);
        }
    }

    /// Settles where the instruction cannot be done before those that wait.
    fn make_way(&self, machine: &mut Machine, instr: &Instr)
        requires { AllReady machine.old }
        ensures passes { can_pass machine.new.batch.deferred.items instr.now ≡ true }
        ensures ready { AllReady machine.new }
        ensures shapes { sets_of machine.new ≡ sets_of machine.old }
        ensures memory { (winner : Winner) → SameBits (sets_of machine.old) (memory_of machine.new winner) (memory_of machine.old winner) }
    {
        if !machine.batch.lets_pass(instr) {
            self.settle(machine);
        }
    }

    /// Does an instruction on a store, by as many of the workers as pay.
    fn do_now(&self, store: &mut Store, instr: &Instr, args: &[u32], winner: Winner) -> Reply
        requires { CanDoNow store.old instr.now args.now }
        ensures { DidNow store.old instr.now args.now winner store.new result }
    {
        let workers = workers_of(store, instr, self.count);
        match family_of(instr) {
            Family::Elementwise => {
                elementwise::run(self.rt, store, instr, args, workers, self.gate)
            }
            Family::Fetching => news_grid::run(self.rt, store, instr, args, workers, self.gate),
            Family::Folding => reduce_scan::run(self.rt, store, instr, args, workers, self.gate),
            Family::Sending => {
                combine_send::run(
                    self.rt, self.alloc, store, instr, workers, self.gate, winner,
                )
            }
        }
    }
}
