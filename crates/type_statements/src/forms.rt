//! Loops, jumps and statements with one part, over their typed parts.

ghost use Rattle.cstar_base.specs.declared.faults.Fault.TheVariants as Faults;
ghost use Rattle.cstar_tree.specs.declared.syntax.Expr.{Expr};
ghost use Rattle.cstar_tree.specs.declared.syntax.Stmt as S;
ghost use Rattle.cstar_tree.specs.declared.syntax.Stmt.{Stmt};
ghost use Rattle.cstar_tree.specs.BlockScopes.{in_loop};
ghost use Rattle.cstar_tree.specs.ExpressionTypes.{Types};
ghost use Rattle.cstar_tree.specs.Headers as H;
ghost use Rattle.cstar_tree.specs.Headers.{Program};
ghost use Rattle.cstar_tree.specs.Scopes.{Here, IsAtHand};
ghost use Rattle.cstar_tree.specs.StatementTypes.{TypesStatement};
ghost use Rattle.cstar_tree.specs.Typed.{type_of};
ghost use Rattle.cstar_tree.specs.declared.typed.TExpr.{TExpr};
ghost use Rattle.std.specs.Prelude.{◌≡◌, false, true, Box, MatchBool, MatchResult, None, Option, Some, ℕ};
ghost use Rattle.std.specs.declared.alloc.Global.{Global};
ghost use Rattle.type_scopes.specs.Answers.{told_by};
ghost use Rattle.type_scopes.specs.Headers.{returned};
ghost use Rattle.type_statements.specs.Answers.{IsAnswer, IsHeading, IsReturnAnswer, value_of};

use crate::branches::scalar_test;
use cstar_base::{Fault, Place};
use cstar_tree::typed::{TExpr, TStmt};
use std::alloc::Global;
use type_scopes::faults::{Untyped, fault};
use type_scopes::sites::{Returns, Site};
use typed_nodes::conversions::fitted;

/// The three parts in the brackets of a `for`.
#[derive(Drop)]
pub struct Heading {
    pub first: Option<Box<TExpr>>,
    pub test: Option<Box<TExpr>>,
    pub step: Option<Box<TExpr>>,
}

/// `everywhere` at its place.
pub fn everywhere_statement(site: Site, place: Place, body: Box<TStmt>) -> Result<TStmt, Untyped>
    ensures { (program : Program) (returns : H.Returns) (here : Here) (s : Box Stmt Global) → here.current ≡ site.current → TypesStatement program returns here s.value body.value → IsAnswer program returns here (S.Everywhere place s) result }
{
    let shape = site.shape(place)?;
    Ok(TStmt::Everywhere { shape, body })
}

/// A `while` at its place.
pub fn while_statement(place: Place, test: Box<TExpr>, body: Box<TStmt>) -> Result<TStmt, Untyped>
    ensures { (program : Program) (returns : H.Returns) (here : Here) (e : Expr) (s : Box Stmt Global) → Types program here e test.value true → TypesStatement program returns (in_loop here) s.value body.value → IsAnswer program returns here (S.While place e s) result }
{
    scalar_test(place, &test)?;
    Ok(TStmt::While {
        test: Box::into_inner(test),
        body,
    })
}

/// A `do` at its place.
pub fn do_statement(place: Place, body: Box<TStmt>, test: Box<TExpr>) -> Result<TStmt, Untyped>
    ensures { (program : Program) (returns : H.Returns) (here : Here) (s : Box Stmt Global) (e : Expr) → TypesStatement program returns (in_loop here) s.value body.value → Types program here e test.value true → IsAnswer program returns here (S.Do place s e) result }
{
    scalar_test(place, &test)?;
    Ok(TStmt::Do {
        body,
        test: Box::into_inner(test),
    })
}

/// A `for` at its place.
pub fn for_statement(place: Place, heading: Heading, body: Box<TStmt>) -> Result<TStmt, Untyped>
    ensures { (program : Program) (returns : H.Returns) (here : Here) (first test step : Option Expr) (s : Box Stmt Global) → IsHeading program here first test step heading → TypesStatement program returns (in_loop here) s.value body.value → IsAnswer program returns here (S.For place first test step s) result }
{
    scalar_test_if(place, &heading.test)?;
    let Heading { first, test, step } = heading;
    Ok(TStmt::For {
        first: unboxed(first),
        test: unboxed(test),
        step: unboxed(step),
        body,
    })
}

/// Is the condition of the statement at the place scalar, if it has one?
fn scalar_test_if(place: Place, test: &Option<Box<TExpr>>) -> Result<(), Untyped>
    ensures { MatchResult result (λ _. (x : Box TExpr Global) → test.now ≡ Some x → (type_of x.value).shape ≡ None) (λ u. (x : Box TExpr Global) × (test.now ≡ Some x) × ((of : ℕ) × ((type_of x.value).shape ≡ Some of)) × (told_by u ≡ Some (Faults.ScalarWanted, place))) }
{
    match test {
        Some(test) => scalar_test(place, test),
        None => Ok(()),
    }
}

/// The expression of a part that may be left out.
fn unboxed(e: Option<Box<TExpr>>) -> Option<TExpr>
    ensures { result ≡ value_of e }
{
    match e {
        Some(e) => Some(Box::into_inner(e)),
        None => None,
    }
}

/// `break` or `continue` at the place, which is to stand in a loop.
pub fn loop_word(site: Site, place: Place, word: TStmt) -> Result<TStmt, Untyped>
    ensures { MatchResult result (λ t. (site.in_loop ≡ true) × (t ≡ word)) (λ u. (site.in_loop ≡ false) × (told_by u ≡ Some (Faults.LoopWord, place))) }
{
    if site.in_loop {
        Ok(word)
    } else {
        Err(fault(Fault::LoopWord, place))
    }
}

/// `return` with a value, which is brought to the type of the result.
pub fn return_statement(
    alloc: Global,
    site: Site,
    place: Place,
    value: Box<TExpr>,
) -> Result<TStmt, Untyped>
    ensures { (program : Program) (here : Here) (e : Expr) → here.current ≡ site.current → Types program here e value.value true → IsReturnAnswer program (returned site.returns) here (S.Return place (Some e)) result }
{
    match site.returns {
        Returns::Unknown => Err(Untyped::Faulty),
        Returns::Nothing => Err(fault(Fault::Return, place)),
        Returns::Value(ty) => {
            if !fits_result(site, ty.shape, value.ty().shape) {
                return Err(fault(Fault::Return, place));
            }
            Ok(TStmt::Return(Some(Box::into_inner(fitted(alloc, value, ty)?))))
        }
    }
}

/// Can a value of the one shape be returned for a result of the other? A scalar result takes a
/// scalar value, and a parallel one is returned under its own shape.
fn fits_result(site: Site, wanted: Option<u16>, value: Option<u16>) -> bool
    ensures { MatchBool result (IsAtHand site.current wanted × (wanted ≡ None → value ≡ None)) (IsAtHand site.current wanted × (wanted ≡ None → value ≡ None) → ⊥) }
{
    match wanted {
        None => value.is_none(),
        Some(_) => site.current == wanted,
    }
}
