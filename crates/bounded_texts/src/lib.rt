//! A text whose tree is within the bounds on trees is read whole: no token of it is too deep. Readers
//! find the laws here by name.
#![tactic(auto)]

ghost use Rattle.std.specs.Prelude.{ℕ, List, length, ◌≡◌, ◌≤◌};
ghost use Rattle.std.specs.declared.alloc.Global.{Global};
ghost use Rattle.cstar_tree.specs.declared.syntax.Item.{Item};
ghost use Rattle.cstar_tree.specs.declared.syntax.Tree.{Tree};
ghost use Rattle.cstar_tree.specs.declared.token.Token.{Token};
ghost use Rattle.cstar_tree.specs.Bounds.{IsBounded};
ghost use Rattle.cstar_tree.specs.Items.{AreItems};
ghost use Rattle.grammar_parts.specs.Hope.{IsFirstHopeless, IsTooDeep};
ghost use Rattle.grammar_parts.specs.Verdicts.{read, verdict_on};

/// The verdict on a text that spells a tree within the bounds is that it is read.
pub fn bounded_text_is_read()
    ensures { (tokens : List Token) (tree : Tree) → AreItems tokens 0 tree.items.items (length tokens) → IsBounded tree → verdict_on tokens ≡ read }
{}

/// No token of such a text is too deep.
pub fn bounded_text_is_not_too_deep()
    ensures { (heap : Global) (tokens : List Token) (tree : Tree) → length tokens ≤ 1048576 → AreItems tokens 0 tree.items.items (length tokens) → IsBounded tree → (token : ℕ) → IsTooDeep tokens token → ⊥ }
{}

/// No token of a text that spells a tree, within the bounds or not, is the first hopeless one.
pub fn spelled_text_is_not_hopeless()
    ensures { (tokens : List Token) (list : List Item) → AreItems tokens 0 list (length tokens) → (token : ℕ) → IsFirstHopeless tokens token → ⊥ }
{}
