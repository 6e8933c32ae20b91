ghost use Rattle.std.specs.Prelude.{◌≡◌, ℕ, ◌+◌, ◌-◌, ◌*◌, ◌%◌, ◌^◌, ◌≤◌, ◌<◌, ◌||◌, min, [], ◌++◌, sum, length, take, nat_lt, is_err, List, Bool, true, false, Option, Some, None, IsOk, IfOk, OnOk, OnErr, IsTrue, vec_len, vec_capacity, if◌then◌else◌};
ghost use Rattle.cstar_io.specs.Faults.{RisesBy};
ghost use Rattle.cstar_io.specs.Output.{Takes, TakesPrefix, TakesNothing};
ghost use Rattle.cstar_io.specs.Memory.{next_is_listed, one_more};

use crate::calls::Calls;
use crate::errors::Failed;
use crate::traits::Sink;
use cstar_base::Memory;
use std::alloc::Global;

/// A sink into memory that never fails. It keeps the number of its bytes and their sum alone.
#[derive(Clone, Copy)]
pub struct SureSink {
    count: u64,
    sum: u32,
}

impl SureSink {
    /// A sink that has taken nothing. Takes no memory.
    pub fn new() -> SureSink
        ensures { result ≡ record { count = 0; sum = 0 } }
    {
        SureSink { count: 0, sum: 0 }
    }

    /// The number of bytes taken, modulo 2^64.
    pub fn count(&self) -> u64
        ensures { result ≡ self.now.count }
    {
        self.count
    }

    /// The sum of the bytes taken, modulo 2^32.
    pub fn sum(&self) -> u32
        ensures { result ≡ self.now.sum }
    {
        self.sum
    }
}

#[tactic(auto, using(crate::proofs::Residues::sum_joined, crate::proofs::Residues::length_joined))]
impl Sink for SureSink {
    ghost faults = { λ _. 0 };

    ghost agrees = { λ sink bytes. (length bytes % 2 ^ 64 ≡ sink.count) × (sum bytes % 2 ^ 32 ≡ sink.sum) };

    fn put(&mut self, bytes: &[u8]) -> Result<(), Failed>
        ensures sure { IsOk result }
        ensures taken { OnOk result (Takes {S = SureSink} (λ sink list. (length list % 2 ^ 64 ≡ sink.count) × (sum list % 2 ^ 32 ≡ sink.sum)) self.old self.new bytes.now) }
        ensures part { OnErr result (TakesPrefix {S = SureSink} (λ sink list. (length list % 2 ^ 64 ≡ sink.count) × (sum list % 2 ^ 32 ≡ sink.sum)) self.old self.new bytes.now) }
        ensures failed { OnErr result (RisesBy 0 0) }
    {
        self.count = self.count.wrapping_add(bytes.len() as u64);
        self.sum = self.sum.wrapping_add(sum_of(bytes));
        Ok(())
    }
}

/// The sum of the bytes, modulo 2^32.
#[tactic(auto, using(crate::proofs::Residues::sum_step))]
fn sum_of(bytes: &[u8]) -> u32
    ensures { result ≡ sum bytes.now % 2 ^ 32 }
{
    let mut total = 0u32;
    for byte in bytes {
        total = total.wrapping_add(u32::from(*byte));
    }
    total
}

/// A sink into memory, of which listed puts fail, and those that go past its room.
#[derive(Drop)]
pub struct MemSink {
    taken: Vec<u8>,
    room: usize,
    keep: usize,
    calls: Calls,
    ghost within: { vec_len taken ≤ room },
    ghost roomy: { room ≤ vec_capacity taken },
}

impl MemSink {
    /// A sink that takes up to `room` bytes, and whose puts with the numbers of `failing`, counted
    /// from 1, fail. A put that fails takes nothing. `Memory` where there is no room.
    pub fn new(alloc: Global, room: u32, failing: Vec<u64>) -> Result<MemSink, Memory>
        ensures { IfOk result (λ sink. (sink.taken.items ≡ []) × (sink.room ≡ room) × (sink.keep ≡ 0)
            × (sink.calls ≡ record { failing = failing; made = 0; faults = 0 })) }
    {
        MemSink::partial(alloc, room, failing, 0)
    }

    /// As `new`, but a put that fails takes the first `keep` bytes of its piece, or all if there
    /// are fewer, as far as the room reaches.
    pub fn partial(
        alloc: Global,
        room: u32,
        failing: Vec<u64>,
        keep: u32,
    ) -> Result<MemSink, Memory>
        ensures { IfOk result (λ sink. (sink.taken.items ≡ []) × (sink.room ≡ room) × (sink.keep ≡ keep)
            × (sink.calls ≡ record { failing = failing; made = 0; faults = 0 })) }
    {
        let room = room as usize;
        Ok(MemSink {
            taken: Vec::with_capacity(alloc, room)?,
            room,
            keep: keep as usize,
            calls: Calls::new(failing),
        })
    }

    /// The bytes taken so far.
    pub fn taken(&self) -> &[u8]
        ensures { result.now ≡ self.now.taken.items }
    {
        self.taken.as_slice()
    }
}

impl Sink for MemSink {
    ghost faults = { λ sink. sink.calls.faults };

    ghost agrees = { λ sink bytes. bytes ≡ sink.taken.items };

    fn put(&mut self, bytes: &[u8]) -> Result<(), Failed>
        ensures fails { is_err result ≡ (next_is_listed self.old.calls.made self.old.calls.failing.items
            || nat_lt self.old.room (vec_len self.old.taken + length bytes.now)) }
        ensures bytes { self.new.taken.items ≡ self.old.taken.items
            ++ take (if is_err result then min self.old.keep (self.old.room - vec_len self.old.taken) else length bytes.now) bytes.now }
        ensures counted { self.new.calls.made ≡ one_more self.old.calls.made }
        ensures failing { self.new.calls.failing ≡ self.old.calls.failing }
        ensures room { self.new.room ≡ self.old.room }
        ensures keep { self.new.keep ≡ self.old.keep }
        ensures taken { OnOk result (Takes (λ sink list. list ≡ sink.taken.items) self.old self.new bytes.now) }
        ensures part { OnErr result (TakesPrefix (λ sink list. list ≡ sink.taken.items) self.old self.new bytes.now) }
        ensures failed { OnErr result (RisesBy self.old.calls.faults self.new.calls.faults) }
        ensures other { OnOk result (self.new.calls.faults ≡ self.old.calls.faults) }
    {
        let space = self.room - self.taken.len();
        if self.calls.next_fails() || bytes.len() > space {
            let count = bytes.len().min(self.keep.min(space));
            self.take(&bytes[..count]);
            self.calls.fault();
            return Err(Failed);
        }
        self.take(bytes);
        Ok(())
    }
}

impl MemSink {
    /// Takes these bytes, for which there is room.
    fn take(&mut self, bytes: &[u8])
        requires { vec_len self.old.taken + length bytes.now ≤ self.old.room }
        ensures bytes { self.new.taken.items ≡ self.old.taken.items ++ bytes.now }
        ensures calls { self.new.calls ≡ self.old.calls }
        ensures room { self.new.room ≡ self.old.room }
        ensures keep { self.new.keep ≡ self.old.keep }
    {
        if self.taken.extend_from_slice(bytes).is_err() {
            unreachable!();
        }
    }
}
