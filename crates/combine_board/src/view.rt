// What a pass knows, as data, and what each step does to it. No value of `View` is made: it stands
// in proofs alone.
use crate::task::Task;
use atomic_table::{Join, Play, Split, TableRule};
use combine_core::{Combine, Kind, Message, Worker};
use std::collections::LinkedList;

/// A worker of the machine, and what its board is about.
pub struct View {
    pub kind: Kind,
    pub slots: LinkedList<Option<Message>>,
    pub home: LinkedList<u32>,
    pub worker: Worker,
}

/// Words and views show a state of the machine of which its invariant holds.
pub struct BoardRule;

impl<C: Combine> TableRule<u8, View, Task<C>> for BoardRule {
    ghost use Rattle.combine_board.specs.Rule.{Holds, first_view};

    ghost holds = { λ a s. Holds record { kind = C.combines a.combiner; slots = a.slots.items; home = a.home.items } s };

    ghost first = { λ a. first_view record { kind = C.combines a.combiner; slots = a.slots.items; home = a.home.items } };
}

/// A number is drawn.
pub struct Claims;

impl Play<u8, View> for Claims {
    ghost use Rattle.combine_board.specs.Rule.{Claimed};

    ghost then = { λ _. Claimed };
}

/// The message of the next slot reaches its cell.
pub struct Delivers;

impl Play<u8, View> for Delivers {
    ghost use Rattle.combine_board.specs.Rule.{Delivered};

    ghost then = { λ _. Delivered };
}

/// Nothing changes.
pub struct Looks;

impl Play<u8, View> for Looks {
    ghost use Rattle.combine_board.specs.Rule.{Looked};

    ghost then = { λ _. Looked };
}

/// A new worker gets half of the draws.
pub struct Halves;

impl Split<View> for Halves {
    ghost use Rattle.combine_board.specs.Rule.{kept_view, given_view};

    ghost left = { kept_view };

    ghost right = { given_view };
}

/// One worker takes in all that another has.
pub struct Unites;

impl Join<View> for Unites {
    ghost use Rattle.combine_board.specs.Rule.{both_view, spent_view};

    ghost both = { both_view };

    ghost spent = { spent_view };
}
