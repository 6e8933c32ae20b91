//! What can be assigned to: a variable, an element of an array, or a left-indexed variable.

ghost use Rattle.std.specs.Prelude.{◌≡◌, IfOk, OnOk};
ghost use Rattle.lower_base.specs.declared.emit.Out.TheVariants as O;
ghost use Rattle.lower_base.specs.Drafts.{IsMade, Makes, draft, out_of};
ghost use Rattle.lower_base.specs.Layouts.{layout, elements_of};
ghost use Rattle.lower_expr.specs.Lengths.{bare};
ghost use Rattle.lower_expr.specs.Spots.{skips_unless, field_loaded, elements_loaded, loaded, field_stored, elements_stored, stored, everywhere_at, index_checked};

use crate::steps::{set, set_field};
use cstar_base::{Memory, Place};
use cstar_tree::typed::{TExpr, Variable};
use lower_base::emit::{here, plus, put, register};
use lower_base::{Operand, Out, View};
use lower_comm::messages::comm_in;
use paris_code::{Field, Instr, RegisterCoordinate, Unit};
use std::alloc::Global;

/// A target that has been located: its index is evaluated and checked.
#[derive(Clone, Copy)]
pub enum Spot {
    /// A scalar variable.
    Register(u32),
    /// A parallel variable.
    Whole(Variable),
    /// An element of an array, by the register of its index.
    Element(Variable, u32),
    /// A left-indexed variable, by its address.
    Indexed(Out),
}

/// The target itself, without the brackets around it.
#[tactic(auto, unfolding(crate::specs::Lengths::bare))]
pub fn bare(target: &TExpr) -> &TExpr
    ensures { result.now ≡ bare target.now }
{
    match target {
        TExpr::Brackets { inner, .. } => bare(inner),
        _ => target,
    }
}

/// The value that the spot has becomes that of `dest`, a register or a field. `target` is what was
/// located there.
#[tactic(auto, unfolding(lower_base::specs::Drafts::IsMade, lower_base::specs::Drafts::InRegister, lower_base::specs::Drafts::InField, crate::specs::Spots::loaded, lower_base::specs::Drafts::then_make, lower_base::specs::Drafts::in_register, lower_base::specs::Drafts::in_field))]
pub fn load(
    view: &View,
    target: &TExpr,
    spot: Spot,
    dest: Operand,
    u: &mut Unit,
) -> Result<(), Memory>
    requires made { IsMade (loaded view.now.typed.now (layout view.now.names) target.now spot (out_of dest) (draft u.old)) }
    ensures draft { OnOk result (loaded view.now.typed.now (layout view.now.names) target.now spot (out_of dest) (draft u.old) ≡ Makes (out_of dest) (draft u.new)) }
{
    match spot {
        Spot::Register(source) => {
            let dest = dest.register();
            put(u, Instr::FrontMove { dest, source })
        }
        Spot::Whole(variable) => {
            let signed = target.ty().elem.signed;
            load_field(view, signed, variable, 0, dest.field(), u)
        }
        Spot::Element(array, index) => {
            let signed = target.ty().elem.signed;
            load_elements(view, signed, array, index, dest.field(), u)
        }
        Spot::Indexed(at) => {
            comm_in(view, bare(target), at, &[], dest.out(), u)?;
            Ok(())
        }
    }
}

/// The element of an array whose index the register has.
#[tactic(auto, unfolding(lower_base::specs::Drafts::IsMade, crate::specs::Spots::elements_loaded, lower_base::specs::Drafts::then_make))]
fn load_elements(
    view: &View,
    signed: bool,
    array: Variable,
    index: u32,
    dest: Field,
    u: &mut Unit,
) -> Result<(), Memory>
    requires made { IsMade (elements_loaded view.now.typed.now (layout view.now.names) signed array index dest (elements_of view.now.typed.now (layout view.now.names) array) 0 (draft u.old)) }
    ensures draft { OnOk result (elements_loaded view.now.typed.now (layout view.now.names) signed array index dest (elements_of view.now.typed.now (layout view.now.names) array) 0 (draft u.old) ≡ Makes (O.Field dest) (draft u.new)) }
{
    for element in 0..view.elements(array) {
        skip_unless(view, index, element, u)?;
        load_field(view, signed, array, element, dest, u)?;
    }
    Ok(())
}

/// A value becomes that of the spot, at the active positions. `e` is the assignment or the step whose
/// target was located there.
#[tactic(auto, unfolding(lower_base::specs::Drafts::IsMade, lower_base::specs::Drafts::IsSomewhere, crate::specs::Spots::stored, crate::specs::Steps::put_value, lower_base::specs::Drafts::in_register, lower_base::specs::Drafts::then_make))]
pub fn store(view: &View, e: &TExpr, spot: Spot, from: Out, u: &mut Unit) -> Result<(), Memory>
    requires made { IsMade (stored view.now.typed.now (layout view.now.names) e.now spot from (draft u.old)) }
    ensures draft { OnOk result (stored view.now.typed.now (layout view.now.names) e.now spot from (draft u.old) ≡ Makes from (draft u.new)) }
{
    match spot {
        Spot::Register(dest) => set(Operand::Register(dest), from.operand(), u),
        Spot::Whole(variable) => store_field(view, variable, 0, from, u),
        Spot::Element(array, index) => store_elements(view, array, index, from, u),
        Spot::Indexed(at) => {
            comm_in(view, e, at, &[from], Out::Nothing, u)?;
            Ok(())
        }
    }
}

/// The element of an array whose index the register has becomes the value.
#[tactic(auto, unfolding(lower_base::specs::Drafts::IsMade, crate::specs::Spots::elements_stored, lower_base::specs::Drafts::then_make))]
fn store_elements(
    view: &View,
    array: Variable,
    index: u32,
    from: Out,
    u: &mut Unit,
) -> Result<(), Memory>
    requires made { IsMade (elements_stored view.now.typed.now (layout view.now.names) array index from (elements_of view.now.typed.now (layout view.now.names) array) 0 (draft u.old)) }
    ensures draft { OnOk result (elements_stored view.now.typed.now (layout view.now.names) array index from (elements_of view.now.typed.now (layout view.now.names) array) 0 (draft u.old) ≡ Makes from (draft u.new)) }
{
    for element in 0..view.elements(array) {
        skip_unless(view, index, element, u)?;
        store_field(view, array, element, from, u)?;
    }
    Ok(())
}

/// A copy of a variable's field, read signed or not.
#[tactic(auto, unfolding(lower_base::specs::Drafts::IsMade, crate::specs::Spots::field_loaded, lower_base::specs::Drafts::then_make))]
fn load_field(
    view: &View,
    signed: bool,
    variable: Variable,
    element: u32,
    dest: Field,
    u: &mut Unit,
) -> Result<(), Memory>
    requires made { IsMade (field_loaded view.now.typed.now (layout view.now.names) signed variable element dest (draft u.old)) }
    ensures draft { OnOk result (field_loaded view.now.typed.now (layout view.now.names) signed variable element dest (draft u.old) ≡ Makes (O.Field dest) (draft u.new)) }
{
    let source = view.field(variable, element, u)?;
    put(
        u,
        Instr::Move {
            signed,
            dest,
            source,
        },
    )
}

/// A variable's field becomes the value.
#[tactic(auto, unfolding(lower_base::specs::Drafts::IsMade, lower_base::specs::Drafts::IsSomewhere, crate::specs::Spots::field_stored, crate::specs::Steps::put_in_field, lower_base::specs::Drafts::then_make))]
fn store_field(
    view: &View,
    variable: Variable,
    element: u32,
    from: Out,
    u: &mut Unit,
) -> Result<(), Memory>
    requires made { IsMade (field_stored view.now.typed.now (layout view.now.names) variable element from (draft u.old)) }
    ensures draft { OnOk result (field_stored view.now.typed.now (layout view.now.names) variable element from (draft u.old) ≡ Makes from (draft u.new)) }
{
    let dest = view.field(variable, element, u)?;
    set_field(dest, from.operand(), u)
}

/// Jumps over the next instruction unless the index is this number; answers the register of the
/// test.
#[tactic(auto, unfolding(crate::specs::Spots::skips_unless, lower_base::specs::Drafts::then_make))]
fn skip_unless(view: &View, index: u32, number: u32, u: &mut Unit) -> Result<u32, Memory>
    ensures draft { IfOk result (λ r. skips_unless (layout view.now.names) index number (draft u.old) ≡ Makes r (draft u.new)) }
{
    let right = view.word(number, u)?;
    let test = register(u)?;
    let target = plus(here(u)?, 3)?;
    put(
        u,
        Instr::FrontCompare {
            relation: paris_code::Compare::UEq,
            dest: test,
            left: index,
            right,
        },
    )?;
    put(u, Instr::FrontJumpZero { test, target })?;
    Ok(test)
}

/// The range check of a right index: outside, coordinates of -1 are checked, which fails. Answers
/// the register of the test.
#[tactic(auto, unfolding(lower_base::specs::Drafts::IsMade, crate::specs::Spots::index_checked, lower_base::specs::Drafts::then_make, lower_base::specs::Drafts::from, lower_base::specs::Drafts::step, lower_base::specs::Drafts::with_instr))]
pub fn check_index(
    view: &View,
    array: Variable,
    set: u16,
    place: Place,
    index: u32,
    u: &mut Unit,
) -> Result<u32, Memory>
    requires made { IsMade (index_checked view.now.typed.now (layout view.now.names) array set place index (draft u.old)) }
    ensures draft { IfOk result (λ r. index_checked view.now.typed.now (layout view.now.names) array set place index (draft u.old) ≡ Makes r (draft u.new)) }
{
    let right = view.word(view.elements(array), u)?;
    let test = register(u)?;
    let Some(info) = view.typed.shapes.get(set as usize) else {
        unreachable!()
    };
    let target = plus(here(u)?, 4)?;
    put(
        u,
        Instr::FrontCompare {
            relation: paris_code::Compare::ULt,
            dest: test,
            left: index,
            right,
        },
    )?;
    put(u, Instr::FrontJumpNonzero { test, target })?;
    put(
        u,
        Instr::FrontConst {
            dest: test,
            value: u32::MAX,
        },
    )?;
    let coordinates = outside(view.alloc, &info.extents, test)?;
    put(
        u,
        Instr::FrontCheckTarget {
            set,
            place,
            coordinates,
        },
    )?;
    Ok(test)
}

/// One coordinate for each axis of the shape, all in this register.
#[tactic(auto, unfolding(crate::specs::Spots::everywhere_at))]
fn outside(alloc: Global, extents: &[u32], register: u32) -> Result<Vec<RegisterCoordinate>, Memory>
    ensures { IfOk result (λ v. v.items ≡ everywhere_at register extents.now) }
{
    let coordinates = extents
        .iter()
        .map(|_| RegisterCoordinate {
            register,
            signed: true,
        })
        .collect(alloc)?;
    Ok(coordinates)
}
