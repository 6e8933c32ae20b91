//! The calls on a unit as `lower` has it when it comes to a communication.

ghost use Rattle.std.specs.Prelude.{◌≡◌, ◌<◌, true, length, IfOk, IsSome};
ghost use Rattle.lower_base.specs.Drafts.{IsMade, Makes, draft};
ghost use Rattle.lower_base.specs.Layouts.{first_named};
ghost use Rattle.lower_comm.specs.Messages.{reached, communicated_by, is_left_index};
ghost use Rattle.lower_comm.specs.News.{goes_by_news};

use crate::addresses::Indexes;
use crate::messages::{comm_in, goes_by_news};
use cstar_base::Memory;
use cstar_tree::typed::{TExpr, Typed};
use lower_base::View;
use lower_base::emit::{Out, fresh};
use lower_base::names::named;
use paris_code::Unit;
use std::alloc::Global;

/// Whether the get `e` goes by NEWS: it is a parallel left index, each of whose indexes is a step
/// along its own axis. Every other get, and every send, goes by the router; the answer is false for
/// an expression that is no left index, or a scalar one.
pub fn by_news(_t: &Typed, e: &TExpr) -> bool
    ensures { result ≡ goes_by_news e.now }
{
    goes_by_news(e)
}

/// Appends the range check of the left-indexed reference `e` and the making of its address, and
/// answers the field or the register of the address. The indexes have one value for each axis, but
/// for a get that goes by NEWS: there they are empty, and the answer is `Nothing`.
///
/// The values of the indexes of a scalar reference stand in registers, and those of a parallel one
/// somewhere. `Memory` comes where memory ends, or where a number of a register, a field or an axis
/// would be 2^32 or more.
#[tactic(auto, unfolding(lower_base::specs::Drafts::IsMade, crate::specs::Messages::reached, crate::specs::Messages::located, crate::specs::Messages::checked_grid, crate::specs::Messages::is_left_index, lower_base::specs::Drafts::then_make))]
pub fn locate(
    alloc: Global,
    _t: &Typed,
    e: &TExpr,
    indexes: &[Out],
    u: &mut Unit,
) -> Result<Out, Memory>
    requires left_index { is_left_index e.now ≡ true }
    requires made { IsMade (reached e.now indexes.now (draft u.old)) }
    ensures draft { IfOk result (λ out. reached e.now indexes.now (draft u.old) ≡ Makes out (draft u.new)) }
{
    let TExpr::LeftIndex {
        ty,
        place,
        indexes: each,
        of,
        ..
    } = e
    else {
        unreachable!()
    };
    let reference = Indexes {
        place: *place,
        of: *of,
        each,
    };
    match indexes {
        [] => {
            reference.check_grid(alloc, ty.shape.unwrap_or(*of), u)?;
            Ok(Out::Nothing)
        }
        [_, ..] => {
            let at = fresh(*ty, 32, u)?;
            reference.locate(alloc, indexes, at, u)?;
            Ok(at.out())
        }
    }
}

/// Appends the code of one communication, and answers where its result is: in `into`, or nowhere.
/// The numbering of the variables is that of the first instance with the unit's name, and no constant
/// stands in a register.
///
/// - A read through the left index that was located at `at`: no parts.
/// - An assignment or a step through one: the value that is stored or sent. It has no result.
/// - `s op= e` with a parallel `e` and a scalar `s`: the operand, at the bits at which it is folded
///   (`fold_bits`), then the old value of `s`.
/// - A reduction: the operand, at those bits. A scan: the operand. An enumeration: no parts.
///
/// `at` is `Nothing` for all but the first two, and for a read that goes by NEWS. The parts stand where
/// the communication wants them, and its variables have their fields. `Memory` comes where memory ends,
/// or where a number of a register, a field or an axis would be 2^32 or more.
#[tactic(auto, unfolding(lower_base::specs::Drafts::IsMade, crate::specs::Messages::communicated_by, lower_base::specs::Drafts::from))]
pub fn comm(
    alloc: Global,
    t: &Typed,
    e: &TExpr,
    at: Out,
    parts: &[Out],
    into: Out,
    u: &mut Unit,
) -> Result<Out, Memory>
    requires main { 0 < length t.now.instances.items }
    requires instance { IsSome (first_named 0 u.old.name t.now.instances.items) }
    requires made { IsMade (communicated_by t.now u.old.name e.now at parts.now into (draft u.old)) }
    ensures draft { IfOk result (λ out. communicated_by t.now u.old.name e.now at parts.now into (draft u.old) ≡ Makes out (draft u.new)) }
{
    let mut view = View::of(alloc, t, Vec::new(alloc))?;
    let Some(instance) = named(t, u.name.bytes()) else {
        unreachable!()
    };
    view.enter(instance)?;
    comm_in(&view, e, at, parts, into, u)
}
