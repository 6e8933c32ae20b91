ghost use Rattle.std.specs.Prelude.{◌≡◌, ◌↔◌, ◌∷◌, ℕ, true, ◌+◌, ◌-◌, ◌*◌, ◌^◌, ◌<◌, ◌≤◌, IsTrue, if◌then◌else◌, nat_lt, length, map, slice_get, slice_index, Some, None, IfOk};
ghost use Rattle.std.specs.Mem.Slots.{slots_items, slots_len, IsFull};
ghost use Rattle.combine_core.specs.Encodings.{encoded_home, decoded};
ghost use Rattle.combine_core.specs.Cells.{RisesFrom, TargetsBelow};
ghost use Rattle.combine_core.specs.Folded.{folded};
ghost use Rattle.combine_core.specs.Machine.{claims_of, held_by, idle, next_in, ahead_of, kept_part, given_part, drawn, passed_to, both_parts, IsComplete};
ghost use Rattle.combine_board.specs.Values.{pass_with, with_last, with_passed, WholeHoldsEvery};
ghost use Rattle.combine_board.specs.Rule.{plan_of, view_with, IsTold, Delivered};

use crate::pass::{Pass, counted, with_rest};
use crate::task::Task;
use crate::view::{BoardRule, Claims, Delivers, Halves, Looks, Unites, View};
use crate::words::Words;
use atomic_table::{Closed, Seat, Table};
use combine_core::{CLAIM_SLOTS, Combine, Held, Message, claim_count};
use cstar_base::{Combiner, Memory};
use std::alloc::Global;
use std::marker::Model;

// So many cells stay near a processor. Of more, those of the next messages are read together before
// the messages are delivered: a delivery waits for all reads before it, and no read for another.
const NEAR_CELLS: usize = 1 << 16;

// How many messages those are.
const AHEAD: usize = 16;

/// Cells that messages are combined into, and a number that tells which claims are taken. Threads
/// share it. Contracts see which board it is, and its combiner, slots and home values.
#[derive(Drop)]
pub struct Board<C: Combine> {
    task: Task<C>,
    table: Table<u8, View, Task<C>, BoardRule, Global>,
}

impl<C: Combine> Model for Board<C> {
    ghost use Rattle.std.specs.Prelude.{◌≡◌, ◌+◌, length};
    ghost use Rattle.combine_core.specs.Kept.{IsSetting};
    ghost use Rattle.combine_board.specs.Values.{BoardValue};

    ghost Value = { BoardValue };

    ghost view = { λ b. record { id = b.table.shared.table_id; plan = record { kind = C.combines b.task.combiner; slots = b.task.slots.items; home = b.task.home.items } } };

    ghost invariant = { λ b. (b.table.shared.key ≡ b.task) × (b.table.shared.table_id.words ≡ length b.task.home.items + 1) × IsSetting b.task.slots.items b.task.home.items × (b.table.shared.table_id.slots ≡ 0) };
}

// The words of a new board: no number drawn, and a cell for each home value.
fn opening_words<C: Combine>(alloc: Global, combiner: &C, home: &[u32]) -> Result<Vec<u64>, Memory>
    ensures words { IfOk result (λ v. v.items ≡ 0 ∷ map (encoded_home (C.combines combiner.now)) home.now) }
    ensures fits { (t : ℕ) → slice_index home.now t < 2 ^ 32 }
{
    let mut words = Vec::with_capacity(alloc, home.len() + 1)?;
    words.push(0)?;
    for w in home {
        words.push(combiner.encode_home(*w))?;
    }
    Ok(words)
}

// Each home value becomes the word that its cell stands for.
fn decode_cells<C: Combine>(combiner: &C, home: &mut Vec<u32>, closed: &Closed<u8, Global>)
    requires full { IsFull closed.now.words }
    requires cells { slots_len closed.now.words ≡ length home.old.items + 1 }
    requires fits { (t : ℕ) → t < length home.old.items → decoded (C.combines combiner.now) (slice_index home.old.items t) (slice_index (slots_items closed.now.words) (t + 1)) < 2 ^ 32 }
    ensures len { length home.new.items ≡ length home.old.items }
    ensures words { (t : ℕ) → t < length home.old.items → slice_index home.new.items t ≡ decoded (C.combines combiner.now) (slice_index home.old.items t) (slice_index (slots_items closed.now.words) (t + 1)) }
{
    for t in 0..home.len() {
        home[t] = combiner.decode(home[t], closed.word(t + 1));
    }
}

impl<C: Combine> Board<C> {
    /// A board, and a pass with all draws. `Memory` is want of memory alone.
    pub fn new(
        alloc: Global,
        combiner: C,
        home: Vec<u32>,
        slots: Vec<Option<Message>>,
    ) -> Result<(Board<C>, Pass), Memory>
        requires senders { RisesFrom 0 slots.items }
        requires targets { TargetsBelow (length home.items) slots.items }
        requires few_slots { length slots.items < 2 ^ 32 - 1 }
        requires few_cells { length home.items < 2 ^ 32 - 1 }
        ensures board { IfOk result (λ r. r.0.plan ≡ record { kind = C.combines combiner; slots = slots.items; home = home.items }) }
        ensures pass { IfOk result (λ r. r.1 ≡ record { board = r.0; worker = idle true (2 ^ 63) }) }
    {
        let words = opening_words(alloc, &combiner, home.as_slice())?;
        let task = Task {
            combiner,
            home,
            slots,
        };
        let (table, seat) = Table::of_words(alloc, words.as_slice(), &task)?;
        let board = Board { task, table };
        let pass = Pass {
            seat,
            last: None,
            next: None,
            number: None,
            done: 0,
        };
        Ok((board, pass))
    }

    /// A new pass without claims, which gets half of the draws. The old pass keeps its claims.
    pub fn split(&self, pass: &mut Pass) -> Pass
        requires { pass.old.board ≡ self.now }
        ensures kept { pass.new ≡ pass_with pass.old (kept_part pass.old.worker) }
        ensures given { result ≡ pass_with pass.old (given_part pass.old.worker) }
    {
        let seat = self.table.shared.split_seat::<Halves>(&mut pass.seat);
        Pass {
            seat,
            last: None,
            next: None,
            number: None,
            done: 0,
        }
    }

    /// Draws a number, which the pass keeps. It is a new claim of the pass where there is that
    /// claim, and else the answer is `None`.
    pub fn claim(&self, pass: &mut Pass) -> Option<u32>
        requires of { pass.old.board ≡ self.now }
        requires some_left { 0 < pass.old.worker.draws }
        ensures drawn { (n : ℕ) × (n < 2 ^ 63) × (pass.new ≡ pass_with pass.old (drawn (claims_of self.now.plan.slots) n pass.old.worker)) × (result ≡ (if nat_lt n (claims_of self.now.plan.slots) then Some n else None)) }
        ensures whole { WholeHoldsEvery self.now.plan.slots pass.new.worker }
        ensures few { length (held_by pass.new.worker) < 2 ^ 32 }
    {
        let slots = self.task.slots.as_slice();
        let number = self.table.shared.fetch_add::<Claims>(&mut pass.seat, 0, 1);
        pass.number = Some(number);
        if number >= u64::from(claim_count(slots)) {
            return None;
        }
        let last = Held {
            claim: number as u32,
            passed: 0,
        };
        let next = last.next(slots);
        pass.last = Some(last);
        pass.next = next;
        pass.done = counted(pass.done, next);
        Some(last.claim)
    }

    /// The first slot with a message behind the passed ones of the claim that the pass took last.
    /// `None` exactly where there is no such slot, or the pass took no claim.
    pub fn ahead(&self, pass: &Pass) -> Option<u32>
        requires { pass.now.board ≡ self.now }
        ensures { result ≡ ahead_of self.now.plan.slots pass.now.worker }
    {
        pass.next
    }

    // The atomic step of a delivery: the message reaches its cell.
    fn hand_over(&self, seat: &mut Seat<u8, View>, index: u32, message: Message) -> u64
        requires table { seat.old.table_id ≡ self.now.id }
        requires live { seat.old.me.0.worker.live ≡ true }
        requires plan { plan_of seat.old.me.0 ≡ self.now.plan }
        requires next { ahead_of self.now.plan.slots seat.old.me.0.worker ≡ Some index }
        requires slot { slice_get self.now.plan.slots index ≡ Some (Some message) }
        ensures table { seat.new.table_id ≡ seat.old.table_id }
        ensures told { Delivered seat.old.me result seat.new.me }
    {
        let shared = &self.table.shared;
        let word = message.target as usize + 1;
        let value = self.task.combiner.encode(message.sender, message.value);
        let (combiner, _) = self.task.combiner.kind();
        match combiner {
            Combiner::Add => shared.fetch_add::<Delivers>(seat, word, value),
            Combiner::And => shared.fetch_and::<Delivers>(seat, word, value),
            Combiner::Or => shared.fetch_or::<Delivers>(seat, word, value),
            Combiner::Xor => shared.fetch_xor::<Delivers>(seat, word, value),
            Combiner::Min => shared.fetch_min::<Delivers>(seat, word, value),
            Combiner::Max => shared.fetch_max::<Delivers>(seat, word, value),
            Combiner::Last => shared.fetch_max::<Delivers>(seat, word, value),
        }
    }

    // The message of the next slot, and the claim that has it, with its slots passed up to there.
    fn next_message(&self, pass: &Pass, index: u32) -> (Message, Held)
        requires of { pass.now.board ≡ self.now }
        requires next { ahead_of self.now.plan.slots pass.now.worker ≡ Some index }
        ensures slot { slice_get self.now.plan.slots index ≡ Some (Some result.0) }
        ensures last { Some result.1 ≡ (passed_to index pass.now.worker).last }
        ensures passed { result.1.passed ≤ 512 }
        ensures within { 512 * result.1.claim + result.1.passed ≤ length self.now.plan.slots }
    {
        let Some(last) = pass.last else {
            unreachable!();
        };
        let Some(message) = self.task.slots[index as usize] else {
            unreachable!();
        };
        let passed = index + 1 - last.claim * 512;
        let last = Held {
            claim: last.claim,
            passed,
        };
        (message, last)
    }

    /// Delivers the message of the slot that `ahead` answers.
    pub fn deliver(&self, pass: &mut Pass, index: u32)
        requires of { pass.old.board ≡ self.now }
        requires next { ahead_of self.now.plan.slots pass.old.worker ≡ Some index }
        ensures { pass.new ≡ pass_with pass.old (passed_to index pass.old.worker) }
    {
        let (message, last) = self.next_message(pass, index);
        let next = last.next(self.task.slots.as_slice());
        self.hand_over(&mut pass.seat, index, message);
        pass.last = Some(last);
        pass.next = next;
        pass.done = counted(pass.done, next);
    }

    // Reads the cells that the messages of these slots go to, which brings them near.
    fn bring_near(&self, from: usize, to: usize)
        requires { to ≤ length self.now.plan.slots }
    {
        for index in from..to {
            if let Some(message) = self.task.slots[index] {
                self.table.shared.peek(message.target as usize + 1);
            }
        }
    }

    // The atomic steps of the deliveries that are left of a claim, in the order of its slots: the
    // claim, with its slots passed up to the last one with a message.
    fn hand_over_rest(&self, seat: &mut Seat<u8, View>, held: Held) -> Held
        requires table { seat.old.table_id ≡ self.now.id }
        requires live { seat.old.me.0.worker.live ≡ true }
        requires plan { plan_of seat.old.me.0 ≡ self.now.plan }
        requires last { seat.old.me.0.worker.last ≡ Some held }
        requires told { IsTold seat.old.me.0 }
        ensures table { seat.new.table_id ≡ seat.old.table_id }
        ensures me { seat.new.me ≡ (view_with seat.old.me.0 (with_last result seat.old.me.0.worker), seat.old.me.1) }
        ensures told { IsTold seat.new.me.0 }
        ensures claim { result.claim ≡ held.claim }
        ensures none { next_in self.now.plan.slots result ≡ None }
    {
        let slots = self.task.slots.as_slice();
        let start = held.claim as usize * CLAIM_SLOTS;
        let end = slots.len().min(start + CLAIM_SLOTS);
        let is_far = self.task.home.len() > NEAR_CELLS;
        let mut last = held;
        'slots: for index in start + held.passed as usize..end {
            if is_far && index % AHEAD == 0 {
                self.bring_near(index, end.min(index + AHEAD));
            }
            if let Some(message) = slots[index] {
                self.hand_over(seat, index as u32, message);
                last = Held {
                    claim: held.claim,
                    passed: (index + 1 - start) as u32,
                };
            }
        }
        last
    }

    /// Delivers all messages that are left of the claim that the pass took last, in the order of its
    /// slots.
    pub fn deliver_rest(&self, pass: &mut Pass)
        requires { pass.old.board ≡ self.now }
        ensures passed { (p : ℕ) × (pass.new ≡ pass_with pass.old (with_passed p pass.old.worker)) }
        ensures none { ahead_of self.now.plan.slots pass.new.worker ≡ None }
    {
        let Some(held) = pass.last else {
            return;
        };
        let last = self.hand_over_rest(&mut pass.seat, held);
        pass.done = with_rest(pass.done, pass.next);
        pass.last = Some(last);
        pass.next = None;
    }

    /// The pass takes in all that another has: its claims, and what was delivered of them.
    pub fn join(&self, pass: &mut Pass, other: Pass)
        requires of { pass.old.board ≡ self.now }
        requires other { other.board ≡ self.now }
        ensures both { pass.new ≡ pass_with pass.old (both_parts pass.old.worker other.worker) }
        ensures whole { WholeHoldsEvery self.now.plan.slots pass.new.worker }
    {
        let Pass {
            seat,
            last: _,
            next: _,
            number: _,
            done,
        } = other;
        self.table.shared.join_seat::<Unites>(&mut pass.seat, seat);
        self.table.shared.load::<Looks>(&mut pass.seat, 0);
        pass.done += done;
    }

    /// Whether the pass holds every claim with all its messages delivered.
    pub fn complete(&self, pass: &Pass) -> bool
        requires { pass.now.board ≡ self.now }
        ensures { IsTrue result ↔ IsComplete self.now.plan.slots (held_by pass.now.worker) }
    {
        pass.done == claim_count(self.task.slots.as_slice())
    }

    /// The folded values, one for each home value.
    pub fn close(self, pass: Pass) -> Words
        requires of { pass.board ≡ self }
        requires complete { IsComplete self.plan.slots (held_by pass.worker) }
        ensures len { length result ≡ length self.plan.home }
        ensures folded { (t : ℕ) → t < length self.plan.home → slice_index result t ≡ folded self.plan.kind t (slice_index self.plan.home t) self.plan.slots }
    {
        let Board { task, table } = self;
        let Pass {
            seat,
            last: _,
            next: _,
            number: _,
            done: _,
        } = pass;
        let Task {
            combiner,
            mut home,
            slots: _,
        } = task;
        let closed = table.close_with(seat);
        decode_cells(&combiner, &mut home, &closed);
        closed.free();
        Words::of(home)
    }
}
