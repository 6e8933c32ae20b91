ghost use Rattle.std.specs.Prelude.{◌≡◌, true};
ghost use Rattle.cstar_tree.specs.FaultOrder.{comes_before};
ghost use Rattle.type_scopes.specs.TypingFaults.{is_of_typing};

use cstar_base::{Fault, Place};

/// A fault of typing at a place.
#[derive(Clone, Copy)]
pub struct Standing {
    pub fault: Fault,
    pub place: Place,
    pub ghost of_typing: { is_of_typing fault ≡ true },
}

impl Standing {
    /// Does it come before the other, by place and then number?
    pub(crate) fn is_before(self, other: Standing) -> bool
        ensures { result ≡ comes_before self.fault self.place other.fault other.place }
    {
        let place = self.place;
        let than = other.place;
        if place.line != than.line {
            place.line < than.line
        } else if place.col != than.col {
            place.col < than.col
        } else {
            self.fault.number() < other.fault.number()
        }
    }
}
