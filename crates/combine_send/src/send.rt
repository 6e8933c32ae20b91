//! What a send is about.

ghost use Rattle.std.specs.Prelude.{◌≡◌};
ghost use Rattle.combine_send.specs.Sends.{send_of};

use cstar_base::Elem;
use paris_code::{Field, Instr, Reduction};

/// A send: the field that messages go to and its type, and the senders' fields of addresses and of
/// messages. Where there is no combiner, one of the messages that meet at a target stays.
#[derive(Clone, Copy)]
pub struct Send {
    pub dest: Field,
    pub kind: Elem,
    pub address: Field,
    pub source: Field,
    pub combiner: Option<Reduction>,
}

impl Send {
    /// The send that an instruction is, if it is one.
    pub(crate) fn of(instr: &Instr) -> Option<Send>
        ensures { result ≡ send_of instr.now }
    {
        match instr {
            Instr::SendWithOverwrite {
                dest,
                kind,
                address,
                source,
            } => Some(Send {
                dest: *dest,
                kind: *kind,
                address: *address,
                source: *source,
                combiner: None,
            }),
            Instr::SendWithCombiner {
                combiner,
                dest,
                kind,
                address,
                source,
            } => Some(Send {
                dest: *dest,
                kind: *kind,
                address: *address,
                source: *source,
                combiner: Some(*combiner),
            }),
            _ => None,
        }
    }
}
