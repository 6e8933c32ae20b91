ghost use Rattle.std.specs.Prelude.{◌≡◌, ℕ, ◌+◌, ◌≤◌, ◌<◌, List, [], OnOk, OnErr, IfOk, vec_len, vec_capacity, length, ⊤};
ghost use Rattle.std.specs.Io.KnownBytes.{Appends, append_known};
ghost use Rattle.cstar_io.specs.Faults.{RisesBy};
ghost use Rattle.cstar_io.specs.Output.{Takes, TakesPrefix, TakesNothing};
ghost use Rattle.cstar_io.specs.declared.pieces.TheConstants.{PIECE};

use crate::errors::Failed;
use crate::pieces::{PIECE, write_out};
use crate::traits::Sink;
use cstar_base::Memory;
use std::alloc::Global;
use std::io::Write;

/// A sink over a writer, as standard output. It gathers bytes and writes them by pieces; `flush`
/// writes what is gathered. It tells no bytes.
#[derive(Drop)]
pub struct RealSink<W: Write> {
    writer: W,
    gathered: Vec<u8>,
    faults: u64,
    ghost within: { vec_len gathered ≤ PIECE },
    ghost roomy: { PIECE ≤ vec_capacity gathered },
}

impl<W: Write> RealSink<W> {
    /// A sink that writes to here. `Memory` where there is no room for a piece.
    pub fn new(alloc: Global, writer: W) -> Result<RealSink<W>, Memory>
    where
        W: Drop,
        ensures { IfOk result (λ sink. (sink.writer ≡ writer) × (sink.gathered.items ≡ []) × (sink.faults ≡ 0)) }
    {
        let gathered = Vec::with_capacity(alloc, PIECE)?;
        Ok(RealSink {
            writer,
            gathered,
            faults: 0,
        })
    }

    /// Writes what is gathered. Where that fails, what was not written is lost.
    fn send(&mut self) -> Result<(), Failed>
        ensures sent { OnOk result (Appends (W.contents self.old.writer)
            (W.contents self.new.writer) self.old.gathered.items) }
        ensures empty { self.new.gathered.items ≡ [] }
        ensures faults { self.new.faults ≡ self.old.faults }
    {
        let sent = write_out(&mut self.writer, self.gathered.as_slice());
        self.gathered.clear();
        sent
    }

    /// Gathers these bytes, and writes where they do not fit beside what is gathered.
    fn gather(&mut self, bytes: &[u8]) -> Result<(), Failed>
        ensures sent { OnOk result (Appends
            (append_known (W.contents self.old.writer) self.old.gathered.items)
            (append_known (W.contents self.new.writer) self.new.gathered.items) bytes.now) }
        ensures faults { self.new.faults ≡ self.old.faults }
    {
        if bytes.len() > PIECE - self.gathered.len() {
            self.send()?;
        }
        if bytes.len() > PIECE {
            return write_out(&mut self.writer, bytes);
        }
        if self.gathered.extend_from_slice(bytes).is_err() {
            unreachable!();
        }
        Ok(())
    }

    /// Counts a fault, if this is one.
    fn counted(&mut self, outcome: Result<(), Failed>) -> Result<(), Failed>
        ensures same { result ≡ outcome }
        ensures writer { self.new.writer ≡ self.old.writer }
        ensures gathered { self.new.gathered ≡ self.old.gathered }
        ensures failed { OnErr result (RisesBy self.old.faults self.new.faults) }
        ensures other { OnOk result (self.new.faults ≡ self.old.faults) }
    {
        if outcome.is_err() {
            self.faults = self.faults.saturating_add(1);
        }
        outcome
    }
}

impl<W: Write> Sink for RealSink<W> {
    ghost faults = { λ sink. sink.faults };

    ghost agrees = { λ _ _. ⊤ };

    #[tactic(auto, using(crate::proofs::Taking::prefix_of_any))]
    fn put(&mut self, bytes: &[u8]) -> Result<(), Failed>
        ensures sent { OnOk result (Appends
            (append_known (W.contents self.old.writer) self.old.gathered.items)
            (append_known (W.contents self.new.writer) self.new.gathered.items) bytes.now) }
        ensures taken { OnOk result (Takes (λ _ _. ⊤) self.old self.new bytes.now) }
        ensures part { OnErr result (TakesPrefix (λ _ _. ⊤) self.old self.new bytes.now) }
        ensures failed { OnErr result (RisesBy self.old.faults self.new.faults) }
        ensures other { OnOk result (self.new.faults ≡ self.old.faults) }
    {
        let outcome = self.gather(bytes);
        self.counted(outcome)
    }

    fn flush(&mut self) -> Result<(), Failed>
        ensures sent { OnOk result (Appends (W.contents self.old.writer)
            (W.contents self.new.writer) self.old.gathered.items) }
        ensures empty { self.new.gathered.items ≡ [] }
        ensures nothing { TakesNothing (λ _ _. ⊤) self.old self.new }
        ensures failed { OnErr result (RisesBy self.old.faults self.new.faults) }
        ensures other { OnOk result (self.new.faults ≡ self.old.faults) }
    {
        let outcome = self.send();
        self.counted(outcome)
    }
}
