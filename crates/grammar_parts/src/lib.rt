//! Which parts of the grammar are open behind each beginning of a text, and the laws of that table
//! against the grammar, which readers find here by name.
#![tactic(auto)]

ghost use Rattle.std.specs.Prelude.{ℕ, List, [], ◌∷◌, length, ◌≡◌, ◌≤◌, None};
ghost use Rattle.std.specs.declared.alloc.Global.{Global};
ghost use Rattle.cstar_tree.specs.declared.syntax.Item.{Item};
ghost use Rattle.cstar_tree.specs.declared.token.Token.{Token};
ghost use Rattle.cstar_tree.specs.Items.{AreItems};
ghost use Rattle.grammar_parts.specs.Hope.{IsRight};
ghost use Rattle.grammar_parts.specs.Parts as P;
ghost use Rattle.grammar_parts.specs.Readings.{reach};
ghost use Rattle.grammar_parts.specs.Verdicts.{verdict_on};

/// Every text of the grammar is read to its end: the table refuses no token of it.
pub fn spelled_text_is_read()
    ensures { (tokens : List Token) (list : List Item) → AreItems tokens 0 list (length tokens) → reach tokens 0 (P.items ∷ []) ≡ None }
{}

/// The verdict by open parts is right: a refused token is the first hopeless one, before it the
/// completion of the open parts makes a text, and depth stands at the first token too deep.
pub fn verdict_is_right()
    ensures { (heap : Global) (tokens : List Token) → length tokens ≤ 1048576 → IsRight tokens (verdict_on tokens) }
{}
