ghost use Rattle.std.specs.Prelude.{◌≡◌, ℕ, ◌+◌, ◌≤◌, ◌<◌, List, [], ◌∷◌, MatchOption, MatchResult, Option, Some, None, OnOk, OnErr, IfOk, vec_len};
ghost use Rattle.cstar_io.specs.Faults.{RisesBy};
ghost use Rattle.std.specs.Io.KnownBytes.{Consumes, Keeps, IsAtEnd};
ghost use Rattle.cstar_io.specs.Input.{Gives, ahead};

use crate::errors::Failed;
use crate::pieces::PIECE;
use crate::traits::Source;
use cstar_base::Memory;
use std::alloc::Global;
use std::io::Read;

/// A source over a reader, as standard input. It reads ahead by pieces, and tells no bytes.
#[derive(Drop)]
pub struct RealSource<R: Read> {
    reader: R,
    piece: Vec<u8>,
    at: usize,
    end: usize,
    faults: u64,
    ghost ordered: { at ≤ end },
    ghost inside: { end ≤ vec_len piece },
    ghost some: { 0 < vec_len piece },
}

impl<R: Read> RealSource<R> {
    /// A source that reads from here. `Memory` where there is no room for a piece.
    pub fn new(alloc: Global, reader: R) -> Result<RealSource<R>, Memory>
    where
        R: Drop,
        ensures { IfOk result (λ source. (source.reader ≡ reader) × (source.at ≡ source.end) × (source.faults ≡ 0)) }
    {
        let piece = vec![in alloc; 0; PIECE]?;
        Ok(RealSource {
            reader,
            piece,
            at: 0,
            end: 0,
            faults: 0,
        })
    }
}

impl<R: Read> RealSource<R> {
    /// Reads a piece where all of the last is used up. At the end of the input it has no byte.
    #[tactic(auto, using(crate::proofs::Reading::piece_read, crate::proofs::Reading::piece_kept, crate::proofs::Reading::same_kept))]
    fn fill(&mut self) -> Result<(), Failed>
        ensures none_lost { Keeps
            (ahead self.old.piece.items self.old.at self.old.end (R.remaining self.old.reader))
            (ahead self.new.piece.items self.new.at self.new.end (R.remaining self.new.reader)) }
        ensures end { OnOk result (self.new.at ≡ self.new.end → IsAtEnd (R.remaining self.new.reader)) }
        ensures failed { OnErr result (RisesBy self.old.faults self.new.faults) }
        ensures other { OnOk result (self.new.faults ≡ self.old.faults) }
    {
        if self.at < self.end {
            return Ok(());
        }
        match self.reader.read(self.piece.as_mut_slice()) {
            Ok(count) => {
                self.at = 0;
                self.end = count;
                Ok(())
            }
            Err(_) => {
                self.faults = self.faults.saturating_add(1);
                Err(Failed)
            }
        }
    }
}

impl<R: Read> Source for RealSource<R> {
    ghost faults = { λ source. source.faults };

    ghost left = { λ _. None };

    #[tactic(auto, using(crate::proofs::Reading::next_byte, crate::proofs::Reading::end_reached))]
    fn next(&mut self) -> Result<Option<u8>, Failed>
        ensures bytes { MatchResult result (λ next. MatchOption next
            (IsAtEnd (ahead self.old.piece.items self.old.at self.old.end (R.remaining self.old.reader)))
            (λ byte. Consumes
            (ahead self.old.piece.items self.old.at self.old.end (R.remaining self.old.reader))
            (ahead self.new.piece.items self.new.at self.new.end (R.remaining self.new.reader)) (byte ∷ [])))
            (λ _. Keeps
            (ahead self.old.piece.items self.old.at self.old.end (R.remaining self.old.reader))
            (ahead self.new.piece.items self.new.at self.new.end (R.remaining self.new.reader))) }
        ensures gives { Gives result None None }
        ensures failed { OnErr result (RisesBy self.old.faults self.new.faults) }
        ensures other { OnOk result (self.new.faults ≡ self.old.faults) }
    {
        self.fill()?;
        if self.at == self.end {
            return Ok(None);
        }
        let byte = self.piece[self.at];
        self.at += 1;
        Ok(Some(byte))
    }

    fn may_wait(&self) -> bool {
        self.at == self.end
    }
}
