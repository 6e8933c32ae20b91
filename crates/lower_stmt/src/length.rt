//! How many instructions a statement compiles to.

ghost use Rattle.std.specs.Prelude.{◌≡◌, IfOk};
ghost use Rattle.lower_base.specs.Layouts.{layout};
ghost use Rattle.cstar_tree.specs.declared.typed.TStmt.{back-TStmt-If-2};
ghost use Rattle.lower_stmt.specs.Lengths.{one_more, at_loop, condition_length_of, part_length_of, clear_length_of, initial_length_of, locals_length_of, statement_length_of, else_length_of};

use crate::variables::is_kept_so;
use cstar_base::Memory;
use cstar_tree::typed::{LocalVar, TExpr, TStmt, VarInfo};
use lower_base::View;
use lower_base::emit::plus;
use lower_base::names::entries_of;
use lower_expr::effect_lengths::{effect_length, own_bits, put_length};
use lower_expr::length::{test_length, used_length};

/// How many saved contexts a jump has to load: those that were saved in the innermost loop, and
/// those that were saved in the whole function.
#[derive(Clone, Copy)]
pub struct Saved {
    pub in_loop: u32,
    pub in_all: u32,
}

impl Saved {
    /// One more context is saved.
    #[tactic(auto, unfolding(crate::specs::Lengths::one_more))]
    pub fn one_more(self) -> Result<Saved, Memory>
        ensures { IfOk result (λ saved. saved ≡ one_more self) }
    {
        Ok(Saved {
            in_loop: plus(self.in_loop, 1)?,
            in_all: plus(self.in_all, 1)?,
        })
    }

    /// At the start of a loop.
    #[tactic(auto, unfolding(crate::specs::Lengths::at_loop))]
    pub fn at_loop(self) -> Saved
        ensures { result ≡ at_loop self }
    {
        Saved {
            in_loop: 0,
            in_all: self.in_all,
        }
    }
}

/// The instructions of a statement of a function that has a result or none.
#[cycle(statement_length)]
#[tactic(auto, unfolding(crate::specs::Lengths::statement_length_of, crate::specs::Lengths::statements_length_of, crate::specs::Lengths::storing_length))]
pub fn statement_length(
    view: &View,
    s: &TStmt,
    has_result: bool,
    saved: Saved,
) -> Result<u32, Memory>
    ensures { IfOk result (λ n. n ≡ statement_length_of view.now.typed.now (layout view.now.names) has_result saved s.now) }
{
    match s {
        TStmt::Block { locals, statements } => {
            let mut sum = locals_length(view, false, locals)?;
            for inner in statements {
                sum = plus(sum, statement_length(view, inner, has_result, saved)?)?;
            }
            Ok(sum)
        }
        TStmt::Expression(e) => effect_length(view, e),
        TStmt::Empty => Ok(0),
        TStmt::If {
            test,
            then,
            otherwise,
        } => {
            let test = used_length(view, 32, true, test)?;
            let then = statement_length(view, then, has_result, saved)?;
            let other = else_length(view, otherwise, 1, has_result, saved)?;
            plus(plus(plus(test, then)?, 1)?, other)
        }
        TStmt::While { test, body } => {
            let body = statement_length(view, body, has_result, saved.at_loop())?;
            plus(plus(used_length(view, 32, true, test)?, body)?, 3)
        }
        TStmt::Do { body, test } => {
            let body = statement_length(view, body, has_result, saved.at_loop())?;
            plus(plus(used_length(view, 32, true, test)?, body)?, 2)
        }
        TStmt::For {
            first,
            test,
            step,
            body,
        } => {
            let body = statement_length(view, body, has_result, saved.at_loop())?;
            let first = part_length(view, first)?;
            let test = condition_length(view, test)?;
            let step = part_length(view, step)?;
            plus(plus(plus(first, test)?, plus(step, body)?)?, 3)
        }
        TStmt::Break | TStmt::Continue => plus(saved.in_loop, 1),
        TStmt::Return(None) => plus(saved.in_all, 1),
        TStmt::Return(Some(e)) => {
            let stored = if has_result { 2 } else { 1 };
            plus(
                plus(used_length(view, e.ty().elem.bits, true, e)?, saved.in_all)?,
                stored,
            )
        }
        TStmt::With { body, .. } => statement_length(view, body, has_result, saved),
        TStmt::Everywhere { body, .. } => {
            let body = statement_length(view, body, has_result, saved.one_more()?)?;
            plus(body, 3)
        }
        TStmt::Where {
            test,
            then,
            otherwise,
            ..
        } => {
            let test = test_length(view, test)?;
            let then = statement_length(view, then, has_result, saved.one_more()?)?;
            let other = else_length(view, otherwise, 4, has_result, saved.one_more()?)?;
            plus(plus(plus(test, then)?, 3)?, other)
        }
    }
}

/// The instructions of the part behind `else`, if there is one, with so many around it.
#[cycle(statement_length)]
#[tactic(auto, unfolding(crate::specs::Lengths::else_length_of))]
fn else_length(
    view: &View,
    otherwise: &Option<Box<TStmt>>,
    around: u32,
    has_result: bool,
    saved: Saved,
) -> Result<u32, Memory>
    ensures { IfOk result (λ n. n ≡ else_length_of view.now.typed.now (layout view.now.names) has_result saved around (back-TStmt-If-2 otherwise.now)) }
{
    match otherwise {
        Some(other) => plus(statement_length(view, other, has_result, saved)?, around),
        None => Ok(0),
    }
}

/// An optional part of a `for`.
#[tactic(auto, unfolding(crate::specs::Lengths::part_length_of))]
pub fn part_length(view: &View, part: &Option<TExpr>) -> Result<u32, Memory>
    ensures { IfOk result (λ n. n ≡ part_length_of view.now.typed.now (layout view.now.names) part.now) }
{
    match part {
        Some(e) => effect_length(view, e),
        None => Ok(0),
    }
}

/// The optional condition of a `for`.
#[tactic(auto, unfolding(crate::specs::Lengths::condition_length_of))]
pub fn condition_length(view: &View, test: &Option<TExpr>) -> Result<u32, Memory>
    ensures { IfOk result (λ n. n ≡ condition_length_of view.now.typed.now (layout view.now.names) test.now) }
{
    match test {
        Some(e) => used_length(view, 32, true, e),
        None => Ok(0),
    }
}

/// The variables of a block: each becomes zero, and then takes its initialiser.
#[tactic(auto, using(std::proofs::lemmas::List::drop_more), unfolding(crate::specs::Lengths::locals_length_of))]
fn locals_length(view: &View, at_start: bool, locals: &[LocalVar]) -> Result<u32, Memory>
    ensures { IfOk result (λ n. n ≡ locals_length_of view.now.typed.now (layout view.now.names) at_start locals.now) }
{
    let mut sum = 0;
    for local in locals {
        let zeroed = clear_length(at_start, local);
        let stored = initial_length(view, &local.info, &local.initial)?;
        sum = plus(sum, plus(zeroed, stored)?)?;
    }
    Ok(sum)
}

/// A variable that becomes zero.
#[tactic(auto, unfolding(crate::specs::Lengths::clear_length_of))]
fn clear_length(at_start: bool, local: &LocalVar) -> u32
    ensures { result ≡ clear_length_of at_start local.now }
{
    match local.info.shape {
        None => if is_kept_so(at_start, local) { 0 } else { 1 },
        Some(_) => entries_of(&local.info),
    }
}

/// The initialiser of a variable.
#[tactic(auto, unfolding(crate::specs::Lengths::initial_length_of))]
fn initial_length(view: &View, info: &VarInfo, initial: &Option<TExpr>) -> Result<u32, Memory>
    ensures { IfOk result (λ n. n ≡ initial_length_of view.now.typed.now (layout view.now.names) info.now initial.now) }
{
    match initial {
        Some(e) => {
            let scalar = info.shape.is_none();
            put_length(view, scalar, own_bits(scalar, info.elem), e)
        }
        None => Ok(0),
    }
}
