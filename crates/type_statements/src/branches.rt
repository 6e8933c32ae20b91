//! The typed parts of statements that choose, and the statements over them.

ghost use Rattle.cstar_base.specs.declared.faults.Fault.TheVariants as Faults;
ghost use Rattle.cstar_tree.specs.declared.syntax.Expr.{Expr};
ghost use Rattle.cstar_tree.specs.declared.syntax.Stmt as S;
ghost use Rattle.cstar_tree.specs.declared.syntax.Stmt.{Stmt};
ghost use Rattle.cstar_tree.specs.Headers.{Program, Returns};
ghost use Rattle.cstar_tree.specs.Scopes.{Here};
ghost use Rattle.cstar_tree.specs.Typed.{type_of};
ghost use Rattle.std.specs.Prelude.{◌≡◌, Box, MatchResult, None, Option, Some, ℕ};
ghost use Rattle.std.specs.declared.alloc.Global.{Global};
ghost use Rattle.type_scopes.specs.Answers.{told_by};
ghost use Rattle.type_statements.specs.Answers.{AreBranches, IsAnswer};

use cstar_base::{Fault, Place};
use cstar_tree::typed::{TExpr, TStmt};
use type_scopes::faults::{Untyped, fault};
use type_scopes::sites::Site;

/// The condition and the parts of an `if` or a `where`.
#[derive(Drop)]
pub struct Branches {
    pub test: Box<TExpr>,
    pub then: Box<TStmt>,
    pub otherwise: Option<Box<TStmt>>,
}

/// Is the condition of the statement at the place scalar?
pub fn scalar_test(place: Place, test: &TExpr) -> Result<(), Untyped>
    ensures { MatchResult result (λ _. (type_of test.now).shape ≡ None) (λ u. ((of : ℕ) × ((type_of test.now).shape ≡ Some of)) × (told_by u ≡ Some (Faults.ScalarWanted, place))) }
{
    if test.ty().shape.is_some() {
        return Err(fault(Fault::ScalarWanted, place));
    }
    Ok(())
}

/// An `if` at its place.
pub fn if_statement(place: Place, parts: Branches) -> Result<TStmt, Untyped>
    ensures { (program : Program) (returns : Returns) (here : Here) (e : Expr) (second : Box Stmt Global) (third : Option (Box Stmt Global)) → AreBranches program returns here (S.If place e second third) parts → IsAnswer program returns here (S.If place e second third) result }
{
    scalar_test(place, &parts.test)?;
    let Branches {
        test,
        then,
        otherwise,
    } = parts;
    Ok(TStmt::If {
        test: Box::into_inner(test),
        then,
        otherwise,
    })
}

/// A `where` at its place.
pub fn where_statement(site: Site, place: Place, parts: Branches) -> Result<TStmt, Untyped>
    ensures { (program : Program) (returns : Returns) (here : Here) (e : Expr) (second : Box Stmt Global) (third : Option (Box Stmt Global)) → here.current ≡ site.current → AreBranches program returns here (S.Where place e second third) parts → IsAnswer program returns here (S.Where place e second third) result }
{
    let shape = site.shape(place)?;
    if parts.test.ty().shape.is_none() {
        return Err(fault(Fault::ParallelWanted, place));
    }
    let Branches {
        test,
        then,
        otherwise,
    } = parts;
    Ok(TStmt::Where {
        shape,
        test: Box::into_inner(test),
        then,
        otherwise,
    })
}
