ghost use Rattle.std.specs.Prelude.{◌≡◌, ◌-◌, ◌^◌, ◌<◌, length, IfOk, OnOk, OnErr};
ghost use Rattle.combine_core.specs.Cells.{RisesFrom, TargetsBelow};
ghost use Rattle.combine_core.specs.Machine.{opening, can_happen, after};

use crate::combine::Combine;
use crate::event::Event;
use crate::machine::Machine;
use crate::message::Message;
use cstar_base::Memory;
use std::alloc::Global;
use std::marker::Model;

/// A run of the machine, one event at a time. Contracts see it as its state, of which what
/// `every_state` says always holds.
#[derive(Drop)]
pub struct Phase<C: Combine> {
    machine: Machine<C>,
}

impl<C: Combine> Model for Phase<C> {
    ghost use Rattle.combine_core.specs.Machine.{State};
    ghost use Rattle.combine_core.specs.Kept.{Kept};

    ghost Value = { State };

    ghost view = { λ p. p.machine };

    ghost invariant = { λ p. Kept p.machine };
}

impl<C: Combine> Phase<C> {
    /// The opening state, with worker 0. `Memory` is want of memory alone.
    pub fn new(
        alloc: Global,
        combiner: C,
        home: Vec<u32>,
        slots: Vec<Option<Message>>,
    ) -> Result<Phase<C>, Memory>
        requires senders { RisesFrom 0 slots.items }
        requires targets { TargetsBelow (length home.items) slots.items }
        requires few_slots { length slots.items < 2 ^ 32 - 1 }
        requires few_cells { length home.items < 2 ^ 32 - 1 }
        ensures { IfOk result (λ p. p ≡ opening (C.combines combiner) slots.items home.items) }
    {
        let machine = Machine::new(alloc, combiner, home, slots)?;
        Ok(Phase { machine })
    }

    /// Lets the event happen, and says whether it can. Where it cannot, and where memory is wanting,
    /// nothing changed.
    pub fn step(&mut self, event: Event) -> Result<bool, Memory>
        ensures answer { IfOk result (λ b. b ≡ can_happen self.old event) }
        ensures ok { OnOk result (self.new ≡ after self.old event) }
        ensures err { OnErr result (self.new ≡ self.old) }
    {
        match event {
            Event::Split { worker } => self.machine.split(worker),
            Event::Claim { worker } => self.machine.claim(worker),
            Event::Deliver { worker, index } => Ok(self.machine.deliver(worker, index)),
            Event::Join { into, from } => self.machine.join(into, from),
        }
    }
}
