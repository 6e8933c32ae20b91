//! The variables of a block.

ghost use Rattle.std.specs.Prelude.{◌≡◌, IfOk, OnOk};
ghost use Rattle.lower_base.specs.Drafts.{IsMade, Makes, draft, out_of};
ghost use Rattle.lower_base.specs.Layouts.{layout};
ghost use Rattle.lower_stmt.specs.Variables.{all_cleared, all_initialised, begins_constant, cleared, cleared_fields, declared, initialised, is_kept_so, variable_of, with_home};

use cstar_base::Memory;
use cstar_tree::typed::{LocalVar, TExpr, VarInfo, Variable};
use lower_base::emit::{entry, plus, put};
use lower_base::names::{count, entries_of};
use lower_base::{Operand, View};
use lower_expr::effects::put_to;
use lower_expr::operands::{Own, standing};
use lower_expr::steps::has_word;
use paris_code::{Instr, Owner, Unit};

/// The variables of a block, from a number on: all become zero, and then the initialisers run in
/// order. Answers the number of the variable that is declared next. It is told whether the block stands
/// where `main` starts, and all registers are zero.
#[tactic(auto, unfolding(lower_base::specs::Drafts::IsMade, crate::specs::Variables::declared, lower_base::specs::Drafts::then_make))]
pub fn declare(
    view: &View,
    at_start: bool,
    locals: &[LocalVar],
    first: u32,
    u: &mut Unit,
) -> Result<u32, Memory>
    requires made { IsMade (declared view.now.typed.now (layout view.now.names) at_start locals.now first (draft u.old)) }
    ensures draft { IfOk result (λ n. declared view.now.typed.now (layout view.now.names) at_start locals.now first (draft u.old) ≡ Makes n (draft u.new)) }
{
    clear_all(view, at_start, locals, first, u)?;
    initialise_all(view, locals, first, u)?;
    plus(first, count(locals.len())?)
}

/// All become zero.
#[tactic(auto, using(std::proofs::lemmas::List::drop_more), unfolding(crate::specs::Variables::all_cleared, lower_base::specs::Drafts::then_make))]
fn clear_all(
    view: &View,
    at_start: bool,
    locals: &[LocalVar],
    first: u32,
    u: &mut Unit,
) -> Result<(), Memory>
    ensures draft { OnOk result (all_cleared (layout view.now.names) at_start locals.now first (draft u.old) ≡ Makes tt (draft u.new)) }
{
    let mut number = first;
    for local in locals {
        clear(view, at_start, local, number, u)?;
        number = plus(number, 1)?;
    }
    Ok(())
}

/// The initialisers.
#[tactic(auto, using(std::proofs::lemmas::List::drop_more), unfolding(lower_base::specs::Drafts::IsMade, crate::specs::Variables::all_initialised, lower_base::specs::Drafts::then_make))]
fn initialise_all(view: &View, locals: &[LocalVar], first: u32, u: &mut Unit) -> Result<(), Memory>
    requires made { IsMade (all_initialised view.now.typed.now (layout view.now.names) locals.now first (draft u.old)) }
    ensures draft { OnOk result (all_initialised view.now.typed.now (layout view.now.names) locals.now first (draft u.old) ≡ Makes tt (draft u.new)) }
{
    let mut number = first;
    for local in locals {
        initialise(view, local, number, u)?;
        number = plus(number, 1)?;
    }
    Ok(())
}

/// The initialiser of a variable, if it has one.
#[tactic(auto, unfolding(lower_base::specs::Drafts::IsMade, crate::specs::Variables::initialised, lower_base::specs::Drafts::then_make))]
fn initialise(view: &View, local: &LocalVar, number: u32, u: &mut Unit) -> Result<(), Memory>
    requires made { IsMade (initialised view.now.typed.now (layout view.now.names) local.now number (draft u.old)) }
    ensures draft { OnOk result (initialised view.now.typed.now (layout view.now.names) local.now number (draft u.old) ≡ Makes tt (draft u.new)) }
{
    match &local.initial {
        None => Ok(()),
        Some(e) => {
            let dest = variable(view, &local.info, number, u)?;
            put_to(view, dest, e, u)
        }
    }
}

/// Where a variable of a block is, with all its bits.
#[tactic(auto, unfolding(lower_base::specs::Drafts::IsMade, crate::specs::Variables::variable_of))]
fn variable(view: &View, info: &VarInfo, number: u32, u: &mut Unit) -> Result<Operand, Memory>
    requires made { IsMade (variable_of view.now.typed.now (layout view.now.names) info.now number (draft u.old)) }
    ensures draft { IfOk result (λ dest. variable_of view.now.typed.now (layout view.now.names) info.now number (draft u.old) ≡ Makes (out_of dest) (draft u.new)) }
{
    let own = Own {
        shape: info.shape,
        variable: Variable::Local(number),
    };
    standing(view, info.elem.bits, own, u)
}

/// A variable of a block becomes zero, at every position; a parallel one gets its entries here.
#[tactic(auto, unfolding(crate::specs::Variables::cleared))]
fn clear(
    view: &View,
    at_start: bool,
    local: &LocalVar,
    number: u32,
    u: &mut Unit,
) -> Result<(), Memory>
    ensures draft { OnOk result (cleared (layout view.now.names) at_start local.now number (draft u.old) ≡ Makes tt (draft u.new)) }
{
    let info = &local.info;
    let Some(shape) = info.shape else {
        if is_kept_so(at_start, local) {
            return Ok(());
        }
        let dest = view.register(Variable::Local(number))?;
        return put(u, Instr::FrontConst { dest, value: 0 });
    };
    begin_home(u)?;
    clear_fields(entries_of(info), shape, info.elem.bits, u)
}

/// Whether a scalar variable keeps what its register has: it is zero already, or takes a constant at
/// once.
#[tactic(auto, unfolding(crate::specs::Variables::begins_constant))]
pub(crate) fn is_kept_so(at_start: bool, local: &LocalVar) -> bool
    ensures { result ≡ is_kept_so at_start local.now }
{
    at_start || begins_constant(local)
}

/// Whether the variable begins as a constant.
#[tactic(auto, unfolding(crate::specs::Variables::begins_constant))]
fn begins_constant(local: &LocalVar) -> bool
    ensures { result ≡ begins_constant local.now }
{
    match &local.initial {
        None => false,
        Some(e) => has_word(true, e),
    }
}

/// The next parallel variable of the blocks has its first entry here.
#[tactic(auto, unfolding(crate::specs::Variables::with_home, lower_base::specs::Drafts::draft))]
fn begin_home(u: &mut Unit) -> Result<(), Memory>
    ensures draft { OnOk result (with_home (draft u.old) ≡ draft u.new) }
{
    let home = count(u.fields.len())?;
    u.homes.push(home)?;
    Ok(())
}

/// Fresh entries, which become zero at every position.
#[tactic(auto, using(crate::proofs::ClearedFields::cleared_step), unfolding(crate::specs::Variables::cleared_fields))]
fn clear_fields(entries: u32, set: u16, len: u8, u: &mut Unit) -> Result<(), Memory>
    ensures draft { OnOk result (cleared_fields entries set len (draft u.old) ≡ Makes tt (draft u.new)) }
{
    for _ in 0..entries {
        let dest = entry(u, set, len, Owner::Own)?;
        put(u, Instr::MoveZeroAlways { dest })?;
    }
    Ok(())
}
