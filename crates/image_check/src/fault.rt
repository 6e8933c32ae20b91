//! What breaks an image rule.

ghost use Rattle.std.specs.Prelude.{◌≡◌};
ghost use Rattle.image_check.specs.Faults.{number_of};

use paris_code::Image;

/// The image rules.
#[derive(Clone, Copy)]
pub enum Rule {
    Target = 1,
    Field = 2,
    Stack = 3,
    BackEdge = 4,
    Set = 5,
    Operands = 6,
}

impl Rule {
    /// The number of the rule.
    pub fn number(self) -> u8
        ensures { result ≡ number_of self }
    {
        self as u8
    }
}

/// An image rule that is broken, and the index of the instruction that breaks it; for a unit, a
/// shape or a final variable the length of the code.
#[derive(Clone, Copy)]
pub struct Fault {
    pub rule: Rule,
    pub at: u32,
}

/// The refusal of an image, which is handed back as it was: the least instruction that breaks an
/// image rule, and the least rule that it breaks, 1 to 6; or want of memory. For a unit, a shape or
/// a final variable, and where there is no unit, `at` is the length of the code.
#[derive(Drop)]
pub enum CheckErr {
    Bad { rule: u8, at: u32, image: Image },
    Memory { image: Image },
}
