//! The code of an expression that has no parts, and what is taken before its parts.

ghost use Rattle.std.specs.Prelude.{◌≡◌, true, Some, IfOk, OnOk};
ghost use Rattle.lower_base.specs.Drafts.{IsMade, Makes, draft, out_of};
ghost use Rattle.lower_base.specs.Layouts.{layout};
ghost use Rattle.lower_comm.specs.News.{goes_by_news};
ghost use Rattle.lower_expr.specs.Values.{right_given, coordinate_in, byte_in, casts_put, news_to};

use crate::steps::Right;
use cstar_base::{Elem, Memory};
use cstar_tree::typed::TExpr;
use lower_base::emit::{field, put, register};
use lower_base::{Operand, Out, View};
use lower_comm::Indexes;
use lower_comm::messages::comm_in;
use paris_code::{Instr, Konst, Unit};

/// A value as a right operand.
#[tactic(auto, unfolding(crate::specs::Values::right_given))]
pub fn right_value(v: Operand) -> Right
    ensures { right_given (out_of v) ≡ Some result }
{
    match v {
        Operand::Field(field) => Right::Field(field),
        Operand::Register(register) => Right::Word(Konst::Reg(register)),
    }
}

/// So many bits of the own coordinate along an axis.
#[tactic(auto, unfolding(crate::specs::Values::coordinate_in, lower_base::specs::Drafts::then_make))]
pub fn coordinate(shape: Option<u16>, bits: u8, axis: u32, u: &mut Unit) -> Result<Out, Memory>
    ensures draft { IfOk result (λ out. coordinate_in shape bits axis (draft u.old) ≡ Makes out (draft u.new)) }
{
    let dest = field(u, shape.unwrap_or(0), bits)?;
    put(u, Instr::MyNewsCoordinate { dest, axis })?;
    Ok(Out::Field(dest))
}

/// The next byte of the input.
#[tactic(auto, unfolding(crate::specs::Values::byte_in, lower_base::specs::Drafts::then_make))]
pub fn next_byte(u: &mut Unit) -> Result<Out, Memory>
    ensures draft { IfOk result (λ out. byte_in (draft u.old) ≡ Makes out (draft u.new)) }
{
    let dest = register(u)?;
    put(u, Instr::FrontGetByte { dest })?;
    Ok(Out::Scalar(dest))
}

/// A chain of casts in place, the innermost first.
#[tactic(auto, unfolding(crate::specs::Values::casts_put))]
pub fn cast_all(elems: &[Elem], register: u32, u: &mut Unit) -> Result<(), Memory>
    ensures draft { OnOk result (casts_put elems.now register (draft u.old) ≡ draft u.new) }
{
    for kind in elems.iter().rev() {
        put(
            u,
            Instr::FrontConvert {
                dest: register,
                source: register,
                kind: *kind,
            },
        )?;
    }
    Ok(())
}

/// A get that goes by NEWS, to a field.
#[tactic(auto, unfolding(lower_base::specs::Drafts::IsMade, crate::specs::Values::news_to, lower_comm::specs::Messages::checked_grid, lower_comm::specs::News::goes_by_news, lower_base::specs::Drafts::then_make))]
pub fn news_to(view: &View, e: &TExpr, dest: Operand, u: &mut Unit) -> Result<Out, Memory>
    requires by_news { goes_by_news e.now ≡ true }
    requires made { IsMade (news_to view.now.typed.now (layout view.now.names) e.now (out_of dest) (draft u.old)) }
    ensures draft { IfOk result (λ out. news_to view.now.typed.now (layout view.now.names) e.now (out_of dest) (draft u.old) ≡ Makes out (draft u.new)) }
{
    let TExpr::LeftIndex {
        ty: own,
        place,
        indexes,
        of,
        ..
    } = e
    else {
        unreachable!()
    };
    let reference = Indexes {
        place: *place,
        of: *of,
        each: indexes.as_slice(),
    };
    reference.check_grid(view.alloc, own.shape.unwrap_or(*of), u)?;
    comm_in(view, e, Out::Nothing, &[], dest.out(), u)
}
