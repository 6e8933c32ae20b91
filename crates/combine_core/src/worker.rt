ghost use Rattle.std.specs.Prelude.{◌≡◌, ◌+◌, ◌-◌, ◌*◌, ◌/◌, ◌^◌, ◌<◌, ◌≤◌, take, drop, length, IfSome, IfErr, OnOk, OnErr};
ghost use Rattle.combine_core.specs.Machine.{first_message, next_in, idle, kept_part, drawn, passed_to, both_parts, claims_of};

use crate::message::Message;
use cstar_base::Memory;
use std::alloc::Global;
use std::collections::LinkedList;

/// How many slots a claim has, but for the last one.
pub const CLAIM_SLOTS: usize = 512;

/// A claim that a worker holds: how many of its slots are passed, which is behind the last of them
/// whose message was delivered.
#[derive(Clone, Copy)]
pub struct Held {
    pub claim: u32,
    pub passed: u32,
}

/// What a worker has. One that was joined to another is no longer live and has nothing.
#[derive(Drop)]
pub struct Worker {
    pub live: bool,
    /// The claim that it took last.
    pub last: Option<Held>,
    /// The other claims that it holds.
    pub others: LinkedList<Held>,
    /// The number that it drew last.
    pub number: Option<u64>,
    /// How many of its draws were past the claims.
    pub misses: u64,
    /// How many draws it has left.
    pub draws: u64,
}

/// How many claims these slots are cut into.
pub fn claim_count(slots: &[Option<Message>]) -> u32
    requires { length slots.now < 2 ^ 32 }
    ensures { result ≡ claims_of slots.now }
{
    slots.len().div_ceil(CLAIM_SLOTS) as u32
}

// The number of the first slot with a message, of those from `from` up to `to`.
fn first_full(slots: &[Option<Message>], from: usize, to: usize) -> Option<u32>
    requires { (from ≤ to) × (to ≤ length slots.now) × (length slots.now < 2 ^ 32) }
    ensures { result ≡ first_message from (take (to - from) (drop from slots.now)) }
{
    for i in from..to {
        if slots[i].is_some() {
            return Some(i as u32);
        }
    }
    None
}

impl Held {
    /// The first slot with a message behind the passed ones of this claim, if there is one.
    pub fn next(self, slots: &[Option<Message>]) -> Option<u32>
        requires passed { self.passed ≤ 512 }
        requires within { 512 * self.claim + self.passed ≤ length slots.now }
        requires few { length slots.now < 2 ^ 32 }
        ensures { result ≡ next_in slots.now self }
    {
        let start = self.claim as usize * CLAIM_SLOTS;
        let from = start + self.passed as usize;
        let to = if slots.len() < start + CLAIM_SLOTS {
            slots.len()
        } else {
            start + CLAIM_SLOTS
        };
        first_full(slots, from, to)
    }
}

impl Worker {
    pub(crate) fn idle(alloc: Global, live: bool, draws: u64) -> Worker
        ensures { result ≡ idle live draws }
    {
        Worker {
            live,
            last: None,
            others: LinkedList::new(alloc),
            number: None,
            misses: 0,
            draws,
        }
    }

    // Gives half of the draws away, and says how many.
    pub(crate) fn give_half(&mut self) -> u64
        ensures given { result ≡ self.old.draws / 2 }
        ensures kept { self.new ≡ kept_part self.old }
    {
        let half = self.draws / 2;
        self.draws -= half;
        half
    }

    // Draws a number: a new claim, or a miss from the count of claims on.
    pub(crate) fn draw(&mut self, number: u64, claims: u32) -> Result<(), Memory>
        requires some_left { 0 < self.old.draws }
        requires few { self.old.misses + 1 < 2 ^ 64 }
        ensures ok { OnOk result (self.new ≡ drawn claims number self.old) }
        ensures err { OnErr result (self.new ≡ self.old) }
    {
        if number < u64::from(claims) {
            if let Some(last) = self.last {
                self.others.push_front(last)?;
            }
            self.last = Some(Held {
                claim: number as u32,
                passed: 0,
            });
        } else {
            self.misses += 1;
        }
        self.number = Some(number);
        self.draws -= 1;
        Ok(())
    }

    // Slot `index` of the last claim is passed, and all slots before it.
    pub(crate) fn pass(&mut self, index: u32)
        requires end { index < 2 ^ 32 - 1 }
        requires behind { IfSome self.old.last (λ h. 512 * h.claim ≤ index) }
        ensures { self.new ≡ passed_to index self.old }
    {
        if let Some(last) = self.last {
            self.last = Some(Held {
                claim: last.claim,
                passed: index + 1 - last.claim * 512,
            });
        }
    }

    // Takes in all that another worker has, or hands it back where there is no room.
    pub(crate) fn absorb(&mut self, mut other: Worker) -> Result<(), Worker>
        requires misses { self.old.misses + other.misses < 2 ^ 64 }
        requires draws { self.old.draws + other.draws < 2 ^ 64 }
        ensures ok { OnOk result (self.new ≡ both_parts self.old other) }
        ensures err { OnErr result (self.new ≡ self.old) }
        ensures back { IfErr result (λ u. u ≡ other) }
    {
        if self.others.len() >= (1 << 62) || other.others.len() >= (1 << 61) {
            return Err(other);
        }
        if let Some(last) = other.last {
            if other.others.push_front(last).is_err() {
                return Err(other);
            }
        }
        let Worker {
            live: _,
            last: _,
            others: mut claims,
            number: _,
            misses,
            draws,
        } = other;
        if self.others.append(&mut claims).is_err() {
            unreachable!();
        }
        self.misses += misses;
        self.draws += draws;
        Ok(())
    }
}
