//! Where an expression or a statement stands.

ghost use Rattle.cstar_base.specs.declared.faults.Fault.TheVariants as Faults;
ghost use Rattle.cstar_tree.specs.Scopes.{IsAtHand};
ghost use Rattle.std.specs.Prelude.{◌≡◌, true, false, MatchResult, None, Some};
ghost use Rattle.type_scopes.specs.declared.sites.Returns.TheVariants as R;
ghost use Rattle.type_scopes.specs.Answers.{TellsAway, told_by};

use crate::faults::{Untyped, fault};
use cstar_base::{Fault, Place};
use cstar_tree::typed::ValueType;

/// What a function returns. Unknown where its header has a fault.
#[derive(Clone, Copy)]
pub enum Returns {
    Nothing,
    Value(ValueType),
    Unknown,
}

/// Where an expression or a statement stands.
#[derive(Clone, Copy)]
pub struct Site {
    /// The current shape.
    pub current: Option<u16>,
    /// How many names of the file are known.
    pub known: usize,
    /// The function around, and what it returns.
    pub function: Option<u32>,
    pub returns: Returns,
    pub in_loop: bool,
    /// The axis that a `.` stands for, in a left index of a variable of the current shape.
    pub dot: Option<u32>,
    /// Is the expression the whole of a statement, or the first or third part of a `for`?
    pub whole: bool,
}

impl Site {
    /// At file scope, where so many names are known.
    pub fn file(known: usize) -> Site
        ensures { result ≡ record { current = None; known = known; function = None; returns = R.Unknown; in_loop = false; dot = None; whole = false } }
    {
        Site {
            current: None,
            known,
            function: None,
            returns: Returns::Unknown,
            in_loop: false,
            dot: None,
            whole: false,
        }
    }

    /// The place of a part of an expression.
    pub fn part(self) -> Site
        ensures { result ≡ record self { whole = false } }
    {
        Site {
            whole: false,
            ..self
        }
    }

    /// The place of a whole expression.
    pub fn statement(self) -> Site
        ensures { result ≡ record self { whole = true } }
    {
        Site {
            whole: true,
            ..self
        }
    }

    /// The place of a loop's body.
    pub fn body(self) -> Site
        ensures { result ≡ record self { in_loop = true } }
    {
        Site {
            in_loop: true,
            ..self
        }
    }

    /// The current shape. If there is none, that is a fault at the place.
    pub fn shape(self, place: Place) -> Result<u16, Untyped>
        ensures { MatchResult result (λ shape. self.current ≡ Some shape) (λ u. (self.current ≡ None) × (told_by u ≡ Some (Faults.NoShape, place))) }
    {
        match self.current {
            Some(shape) => Ok(shape),
            None => Err(fault(Fault::NoShape, place)),
        }
    }

    /// A value of the shape, or a scalar one, stands at the place. A shape that is not the current
    /// one is a fault there.
    pub fn holds(self, place: Place, shape: Option<u16>) -> Result<(), Untyped>
        ensures { MatchResult result (λ _. IsAtHand self.current shape) (TellsAway self.current shape place) }
    {
        let Some(shape) = shape else {
            return Ok(());
        };
        match self.current {
            None => Err(fault(Fault::NoShape, place)),
            Some(current) if current == shape => Ok(()),
            Some(_) => Err(fault(Fault::OtherShape, place)),
        }
    }
}
