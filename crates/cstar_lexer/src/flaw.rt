ghost use Rattle.std.specs.Prelude.{◌≡◌, true};
ghost use Rattle.cstar_lexer.specs.LexicalFaults.{is_lexical};

use cstar_base::Fault;

/// A fault in a piece of a line, `offset` bytes behind the beginning of the piece.
#[derive(Clone, Copy, PartialEq, Eq)]
pub struct Flaw {
    pub fault: Fault,
    pub offset: usize,
    pub ghost lexical: { is_lexical fault ≡ true },
}
