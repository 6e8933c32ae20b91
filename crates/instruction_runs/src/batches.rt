//! Instructions of one set that wait.

ghost use Rattle.std.specs.Prelude.{◌≡◌, ◌≤◌, ◌==◌, ◌++◌, ◌∷◌, [], List, true, length, IfOk, vec_capacity};
ghost use Rattle.paris_code.specs.Meaning.{after};
ghost use Rattle.paris_code.specs.Memory.{BitMemory};
ghost use Rattle.paris_code.specs.Shapes.{SetShape};
ghost use Rattle.instruction_runs.specs.declared.batches.TheConstants.{MOST};
ghost use Rattle.instruction_runs.specs.Passing.{can_pass};
ghost use Rattle.instruction_runs.specs.Waiting.{all_let, done_all, source_of_all, takes, AreReady, IsReady};

use crate::deferring::Deferred;
use cstar_base::Memory;
use paris_code::{Field, Instr};
use std::alloc::Global;

/// At most how many instructions a batch holds.
pub const MOST: usize = 128;

/// Instructions of one set, in the order in which they are to be done, and room for all that a
/// batch holds.
#[derive(Drop)]
pub struct Batch {
    set: u16,
    deferred: Vec<Deferred>,
    ghost roomy: { MOST ≤ vec_capacity deferred },
}

impl Batch {
    /// An empty batch. `Memory` where there is no room for it; no other call takes any.
    pub fn new(alloc: Global) -> Result<Batch, Memory>
        ensures { IfOk result (λ batch. batch.deferred.items ≡ []) }
    {
        Ok(Batch {
            set: 0,
            deferred: Vec::with_capacity(alloc, MOST)?,
        })
    }

    /// Whether no instruction waits.
    pub fn is_empty(&self) -> bool
        ensures { result ≡ (length self.now.deferred.items == 0) }
    {
        self.deferred.is_empty()
    }

    /// The set of the instructions, if there are any.
    pub fn set(&self) -> u16
        ensures { result ≡ self.now.set }
    {
        self.set
    }

    /// The instructions that wait, the one to be done first in front.
    pub fn as_slice(&self) -> &[Deferred]
        ensures { result.now ≡ self.now.deferred.items }
    {
        self.deferred.as_slice()
    }

    /// Whether the instruction can wait behind the others: there is room, it is of their set, and
    /// where it is a shift, none of them writes its source or is a shift from another field.
    pub fn takes(&self, deferred: &Deferred) -> bool
        ensures { result ≡ takes self.now.set self.now.deferred.items deferred.now }
    {
        self.deferred.len() < MOST
            && (self.is_empty() || self.set == deferred.set())
            && self.lets(deferred.source())
    }

    /// Whether one that takes from such a field, or from none, can wait behind each of them.
    fn lets(&self, source: Option<Field>) -> bool
        ensures { result ≡ all_let self.now.deferred.items source }
    {
        let Some(_) = source else {
            return true;
        };
        'waiting: for d in self.as_slice() {
            if !d.lets(source) {
                return false;
            }
        }
        true
    }

    /// Whether the instruction can be done before those that wait: none waits, or it is a check of the
    /// grid or of a divisor, and none of them writes a field or a context flag that it reads.
    pub fn lets_pass(&self, instr: &Instr) -> bool
        ensures { result ≡ can_pass self.now.deferred.items instr.now }
    {
        'waiting: for d in self.as_slice() {
            if !d.lets_pass(instr) {
                return false;
            }
        }
        true
    }

    /// The field from which the shifts take that wait; none where no shift waits.
    pub(crate) fn source(&self) -> Option<Field>
        ensures { result ≡ source_of_all self.now.deferred.items }
    {
        'waiting: for d in self.as_slice() {
            if let Some(source) = d.source() {
                return Some(source);
            }
        }
        None
    }

    /// Lets the instruction wait behind the others.
    pub fn push(&mut self, deferred: Deferred)
        requires { takes self.old.set self.old.deferred.items deferred ≡ true }
        ensures deferred { self.new.deferred.items ≡ self.old.deferred.items ++ deferred ∷ [] }
        ensures ready { (shapes : List SetShape) → AreReady shapes self.old.set self.old.deferred.items → IsReady shapes deferred → AreReady shapes self.new.set self.new.deferred.items }
        ensures memory { (shapes : List SetShape) (m : BitMemory)
            → done_all shapes self.new.deferred.items m ≡ after shapes deferred.instr [] (done_all shapes self.old.deferred.items m) }
    {
        self.set = deferred.set();
        if self.deferred.push(deferred).is_err() {
            unreachable!();
        }
    }

    /// Forgets the instructions.
    pub(crate) fn clear(&mut self)
        ensures { self.new.deferred.items ≡ [] }
    {
        self.deferred.clear();
    }
}
