//! The phases over blocks.

ghost use Rattle.std.specs.Prelude.{◌≡◌, ◌==◌, IfOk};
ghost use Rattle.block_store.specs.Stored.{AreWhole, stored};
ghost use Rattle.cstar_base.specs.declared.operators.Winner.{Winner};
ghost use Rattle.paris_code.specs.Memory.{SameBits, fresh_memory};
ghost use Rattle.paris_code.specs.Shapes.{shapes_of};
ghost use Rattle.paris_phases.specs.Doing.{CanDo, Did, Settled};
ghost use Rattle.paris_phases.specs.Machines.{AllReady, IsSettled, memory_of, sets_of};

use crate::block_runs;
use crate::machine::Machine;
use block_store::BlockSet;
use cstar_base::{Memory, Winner};
use image_check::Sound;
use paris_code::{Field, Instr, Reply};
use phase_gate::Phases;
use std::alloc::Global;

/// The phases over blocks of 512 positions. `phase` does one instruction on them, as
/// `Crew::apply`, and `settle` does what waits, as `Crew::settle`.
#[derive(Drop)]
pub struct ForkPhases<F, S> {
    machine: Machine,
    winner: Winner,
    phase: F,
    settle: S,
}

impl<F: Fn(&mut Machine, &Instr, &[u32], Winner) -> Reply, S: Fn(&mut Machine)> ForkPhases<F, S> {
    /// New phases for an image: all fields and test flags 0, all context flags 1, and of colliding
    /// senders the one with the greatest number wins.
    pub fn new(
        alloc: Global,
        sound: &Sound,
        phase: F,
        settle: S,
    ) -> Result<ForkPhases<F, S>, Memory>
        ensures phase { IfOk result (λ p. p.phase ≡ phase) }
        ensures settle { IfOk result (λ p. p.settle ≡ settle) }
        ensures ready { IfOk result (λ p. AllReady p.machine) }
        ensures settled { IfOk result (λ p. IsSettled p.machine) }
        ensures shapes { IfOk result (λ p. sets_of p.machine ≡ shapes_of sound.now) }
        ensures fresh { IfOk result (λ p. SameBits (shapes_of sound.now) (memory_of p.machine p.winner) (fresh_memory (shapes_of sound.now))) }
    {
        let machine = match Machine::new(alloc, sound) {
            Ok(machine) => machine,
            Err(Memory) => return Err(Memory),
        };
        Ok(ForkPhases {
            machine,
            winner: Winner::High,
            phase,
            settle,
        })
    }

    /// The phases of an image whose sets these are; of colliding senders the one with the greatest
    /// number wins.
    pub fn with_sets(
        alloc: Global,
        sound: &Sound,
        sets: Vec<BlockSet>,
        phase: F,
        settle: S,
    ) -> Result<ForkPhases<F, S>, Memory>
        requires { AreWhole (shapes_of sound.now) sets.items }
        ensures phase { IfOk result (λ p. p.phase ≡ phase) }
        ensures settle { IfOk result (λ p. p.settle ≡ settle) }
        ensures ready { IfOk result (λ p. AllReady p.machine) }
        ensures settled { IfOk result (λ p. IsSettled p.machine) }
        ensures shapes { IfOk result (λ p. sets_of p.machine ≡ shapes_of sound.now) }
        ensures memory { IfOk result (λ p. (w : Winner) → memory_of p.machine w ≡ stored sets.items w) }
    {
        let machine = match Machine::with_sets(alloc, sound, sets) {
            Ok(machine) => machine,
            Err(Memory) => return Err(Memory),
        };
        Ok(ForkPhases {
            machine,
            winner: Winner::High,
            phase,
            settle,
        })
    }

    /// The sets of settled phases, once all else of them is let go.
    pub fn into_sets(self) -> Vec<BlockSet>
        requires { IsSettled self.machine }
        ensures whole { AreWhole (sets_of self.machine) result.items }
        ensures memory { stored result.items self.winner ≡ memory_of self.machine self.winner }
    {
        self.machine.store.sets
    }
}

impl<F: Fn(&mut Machine, &Instr, &[u32], Winner) -> Reply, S: Fn(&mut Machine)> Phases
    for ForkPhases<F, S> {
    ghost shapes = { λ p. sets_of p.machine };

    ghost memory = { λ p. memory_of p.machine p.winner };

    ghost able = { λ p. AllReady p.machine
        × ((machine : _) (instr : _) (args : _) (w : Winner) → CanDo machine.now instr.now args.now
        → F.pre p.phase machine instr args w × ((r : _) (after : _) → F.post p.phase machine instr args w r after → Did machine.now instr.now args.now w after.now r))
        × ((machine : _) → AllReady machine.now → S.pre p.settle machine × ((r : _) (after : _) → S.post p.settle machine r after → Settled machine.now after.now)) };

    ghost settled = { λ p. IsSettled p.machine };

    fn apply(&mut self, instr: &Instr, args: &[u32]) -> Reply {
        (self.phase)(&mut self.machine, instr, args, self.winner)
    }

    fn settle(&mut self) {
        (self.settle)(&mut self.machine);
    }

    fn read(&self, field: Field, position: u32) -> u32 {
        self.machine.store.read(field, position)
    }

    fn bit(&self, set: u16, index: u32, position: u32) -> bool {
        let run = Field {
            set,
            offset: index,
            len: 1,
        };
        self.machine.store.read(run, position) == 1
    }

    fn set_bit(&mut self, set: u16, index: u32, position: u32, b: bool) {
        let run = Field {
            set,
            offset: index,
            len: 1,
        };
        self.machine.store.write(run, position, u32::from(b));
    }

    fn numbers(&self, run: Field, block: u32) -> [u32; 512] {
        block_runs::numbers(&self.machine.store, run, block)
    }

    fn set_numbers(&mut self, run: Field, block: u32, words: &[u32; 512]) {
        block_runs::set_numbers(&mut self.machine.store, run, block, words);
    }

    fn choose(&mut self, w: Winner) {
        self.winner = w;
    }
}
