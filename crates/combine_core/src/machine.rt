// The machine's data, and its four events as methods. Only what `Kept` says of a state keeps them safe,
// so `Phase` holds a machine together with that.
ghost use Rattle.std.specs.Prelude.{◌≡◌, ◌≢◌, ℕ, ◌+◌, ◌^◌, ◌<◌, true, length, slice_index, slice_index_or, slice_set, Some, IfOk, OnOk, OnErr};
ghost use Rattle.combine_core.specs.Machine.{opening, spent, worker_at, both_parts, ahead_of, deliver, can_happen, after};
ghost use Rattle.combine_core.specs.Kept.{Kept, IsSetting};
ghost use Rattle.combine_core.specs.declared.event.Event.TheVariants as event;

use crate::combine::Combine;
use crate::message::Message;
use crate::worker::{Worker, claim_count};
use cstar_base::Memory;
use std::alloc::Global;
use std::marker::Model;
use std::mem;

#[derive(Drop)]
pub(crate) struct Machine<C: Combine> {
    alloc: Global,
    combiner: C,
    slots: Vec<Option<Message>>,
    home: Vec<u32>,
    next: u64,
    cells: Vec<u64>,
    workers: Vec<Worker>,
}

impl<C: Combine> Model for Machine<C> {
    ghost use Rattle.combine_core.specs.Machine.{State};

    ghost Value = { State };

    ghost view = { λ m. record { kind = C.combines m.combiner; slots = m.slots.items; home = m.home.items; next = m.next; cells = m.cells.items; workers = m.workers.items } };
}

impl<C: Combine> Machine<C> {
    pub(crate) fn new(
        alloc: Global,
        combiner: C,
        home: Vec<u32>,
        slots: Vec<Option<Message>>,
    ) -> Result<Machine<C>, Memory>
        ensures opening { IfOk result (λ m. m ≡ opening (C.combines combiner) slots.items home.items) }
        ensures words { (t : ℕ) → slice_index home.items t < 2 ^ 32 }
    {
        let mut cells = Vec::with_capacity(alloc, home.len())?;
        for w in &home {
            cells.push(combiner.encode_home(*w))?;
        }
        let workers = vec![in alloc; Worker::idle(alloc, true, 1 << 63)]?;
        Ok(Machine {
            alloc,
            combiner,
            slots,
            home,
            next: 0,
            cells,
            workers,
        })
    }

    fn is_live(&self, w: u32) -> bool
        ensures { result ≡ (worker_at self.now w).live }
    {
        let at = w as usize;
        at < self.workers.len() && self.workers[at].live
    }

    pub(crate) fn split(&mut self, w: u32) -> Result<bool, Memory>
        requires { Kept self.old }
        ensures answer { IfOk result (λ b. b ≡ can_happen self.old (event.Split w)) }
        ensures ok { OnOk result (self.new ≡ after self.old (event.Split w)) }
        ensures err { OnErr result (self.new ≡ self.old) }
    {
        if !self.is_live(w) {
            return Ok(false);
        }
        self.workers.reserve(1)?;
        let half = self.workers[w as usize].give_half();
        self.workers
            .push_reserved(Worker::idle(self.alloc, true, half));
        Ok(true)
    }

    pub(crate) fn claim(&mut self, w: u32) -> Result<bool, Memory>
        requires { Kept self.old }
        ensures answer { IfOk result (λ b. b ≡ can_happen self.old (event.Claim w)) }
        ensures ok { OnOk result (self.new ≡ after self.old (event.Claim w)) }
        ensures err { OnErr result (self.new ≡ self.old) }
    {
        if !self.is_live(w) {
            return Ok(false);
        }
        let claims = claim_count(self.slots.as_slice());
        let number = self.next;
        let worker = &mut self.workers[w as usize];
        if worker.draws == 0 {
            return Ok(false);
        }
        worker.draw(number, claims)?;
        self.next += 1;
        Ok(true)
    }

    // The slot whose message this worker may deliver.
    fn ahead(&self, w: u32) -> Option<u32>
        requires { Kept self.now }
        ensures { result ≡ ahead_of self.now.slots (worker_at self.now w) }
    {
        let at = w as usize;
        if at >= self.workers.len() {
            return None;
        }
        let Some(last) = self.workers[at].last else {
            return None;
        };
        last.next(self.slots.as_slice())
    }

    // The message of the slot that this worker may deliver reaches its target.
    fn hand_over(&mut self, w: u32, index: u32)
        requires kept { Kept self.old }
        requires live { (worker_at self.old w).live ≡ true }
        requires ahead { ahead_of self.old.slots (worker_at self.old w) ≡ Some index }
        ensures { self.new ≡ deliver self.old w index }
    {
        let Some(message) = self.slots[index as usize] else {
            unreachable!();
        };
        let target = message.target as usize;
        let word = self.combiner.encode(message.sender, message.value);
        self.cells[target] = self.combiner.join(self.cells[target], word);
        self.workers[w as usize].pass(index);
    }

    pub(crate) fn deliver(&mut self, w: u32, index: u32) -> bool
        requires { Kept self.old }
        ensures answer { result ≡ can_happen self.old (event.Deliver w index) }
        ensures after { self.new ≡ after self.old (event.Deliver w index) }
    {
        if !self.is_live(w) || self.ahead(w) != Some(index) {
            return false;
        }
        self.hand_over(w, index);
        true
    }

    pub(crate) fn join(&mut self, into: u32, from: u32) -> Result<bool, Memory>
        requires { Kept self.old }
        ensures answer { IfOk result (λ b. b ≡ can_happen self.old (event.Join into from)) }
        ensures ok { OnOk result (self.new ≡ after self.old (event.Join into from)) }
        ensures err { OnErr result (self.new ≡ self.old) }
    {
        if !self.is_live(into) || !self.is_live(from) || into == from {
            return Ok(false);
        }
        merge(self.alloc, &mut self.workers, into as usize, from as usize)?;
        Ok(true)
    }
}

// One worker takes in all that another has, which is then spent.
fn merge(alloc: Global, workers: &mut Vec<Worker>, into: usize, from: usize) -> Result<(), Memory>
    requires within { (into < length workers.old.items) × (from < length workers.old.items) }
    requires apart { into ≢ from }
    requires misses { (slice_index_or workers.old.items into spent).misses + (slice_index_or workers.old.items from spent).misses < 2 ^ 64 }
    requires draws { (slice_index_or workers.old.items into spent).draws + (slice_index_or workers.old.items from spent).draws < 2 ^ 64 }
    ensures ok { OnOk result (workers.new.items ≡ slice_set (slice_set workers.old.items into (both_parts (slice_index_or workers.old.items into spent) (slice_index_or workers.old.items from spent))) from spent) }
    ensures err { OnErr result (workers.new.items ≡ workers.old.items) }
{
    let other = mem::replace(&mut workers[from], Worker::idle(alloc, false, 0));
    if let Err(other) = workers[into].absorb(other) {
        workers[from] = other;
        return Err(Memory);
    }
    Ok(())
}
