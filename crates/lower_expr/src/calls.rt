//! The call on a unit as `lower` has it when it comes to an expression.

ghost use Rattle.std.specs.Prelude.{◌≡◌, ◌<◌, length, IfOk, IsSome};
ghost use Rattle.lower_base.specs.Drafts.{IsMade, Makes, draft};
ghost use Rattle.lower_base.specs.Layouts.{first_named};
ghost use Rattle.lower_expr.specs.Values.{expression_of};

use crate::conversions::spread;
use crate::value::value;
use cstar_base::Memory;
use cstar_tree::typed::{TExpr, Typed};
use lower_base::names::named;
use lower_base::{Out, View};
use paris_code::Unit;
use std::alloc::Global;

/// Appends the code of one expression, and answers where its value is: in a field where the
/// expression is parallel, else in a register, or nowhere where it has none. The numbering of the
/// variables is that of the first instance with the unit's name, and no constant stands in a register.
///
/// The expression has code, as each has that typing makes. `Memory` comes where memory ends, and where
/// a count, the place that a jump leads to, or the number of a register or a field would be 2^32 or
/// more.
#[tactic(auto, unfolding(lower_base::specs::Drafts::IsMade, crate::specs::Values::expression_of, lower_base::specs::Drafts::from))]
pub fn expr(alloc: Global, t: &Typed, e: &TExpr, u: &mut Unit) -> Result<Out, Memory>
    requires main { 0 < length t.now.instances.items }
    requires instance { IsSome (first_named 0 u.old.name t.now.instances.items) }
    requires made { IsMade (expression_of t.now u.old.name e.now (draft u.old)) }
    ensures draft { IfOk result (λ out. expression_of t.now u.old.name e.now (draft u.old) ≡ Makes out (draft u.new)) }
{
    let mut view = View::of(alloc, t, Vec::new(alloc))?;
    let Some(instance) = named(t, u.name.bytes()) else {
        unreachable!()
    };
    view.enter(instance)?;
    match e.ty().shape {
        Some(set) => spread(&view, e.ty().elem.bits, e, set, u),
        None => value(&view, 32, e, u),
    }
}
