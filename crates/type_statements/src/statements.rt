//! The walk over statements and blocks. It types the parts and hands them to the function of their
//! kind.

ghost use Rattle.cstar_tree.specs.declared.syntax.Expr.{Expr};
ghost use Rattle.cstar_tree.specs.declared.syntax.Stmt as S;
ghost use Rattle.cstar_tree.specs.declared.typed.TExpr.{TExpr};
ghost use Rattle.cstar_tree.specs.declared.typed.TStmt as T;
ghost use Rattle.cstar_tree.specs.Calls.{calls_in_each};
ghost use Rattle.cstar_tree.specs.Headers.{Program, Returns};
ghost use Rattle.cstar_tree.specs.Scopes.{Here};
ghost use Rattle.cstar_tree.specs.StatementTypes.{TypesValueIf};
ghost use Rattle.cstar_tree.specs.TypedParts.{optional};
ghost use Rattle.std.specs.Option.{option_map};
ghost use Rattle.std.specs.Prelude.{◌≡◌, ◌⊎◌, Box, Err, IfOk, IfSome, MatchOption, None, Ok, OnOk, Option, Some};
ghost use Rattle.std.specs.declared.alloc.Global.{Global};
ghost use Rattle.type_scopes.specs.Bindings.{bindings};
ghost use Rattle.type_scopes.specs.Headers.{returned};
ghost use Rattle.type_scopes.specs.declared.faults.Untyped.TheVariants as N;
ghost use Rattle.type_statements.specs.Answers.{AreBranches, IsAnswer, IsEverywhere, IsOutcome, IsReturnAnswer, IsUnder, IsWholeBlock, value_of};
ghost use Rattle.type_statements.specs.Meetings.{MeetsCalls, MeetsCallsIf, MeetsCallsOf, heading_calls};
ghost use Rattle.type_statements.specs.Places.{IsGrown};
ghost use Rattle.type_expressions.specs.Instances.{Grows};
ghost use Rattle.type_expressions.specs.Meetings.{Meets};
ghost use Rattle.type_statements.specs.Walks.{IsEffectIf, IsTyped, IsTypedBlock, IsTypedHeading, IsTypedIf, IsValueIf};

use crate::branches::{Branches, if_statement, where_statement};
use crate::declarations::declarations;
use crate::forms::{
    Heading, do_statement, everywhere_statement, for_statement, loop_word, return_statement,
    while_statement,
};
use crate::scopes::Scopes;
use cstar_base::{Memory, Place};
use cstar_tree::syntax::{Block, Expr, Stmt};
use cstar_tree::typed::{LocalVar, TExpr, TStmt};
use std::alloc::Global;
use type_expressions::{Found, TypedExpr, typed_expr, typed_value};
use type_scopes::faults::{Faults, Untyped};
use type_scopes::file::File;
use type_scopes::sites::Site;

/// A typed statement, or nothing where it has a fault.
pub type TypedStatement = Result<Option<Box<TStmt>>, Memory>;

/// What a statement comes to. The fault that stands at it is recorded. The statement is boxed first,
/// so that a pointer is handed on.
fn outcome(faults: &mut Faults, alloc: Global, typed: Result<TStmt, Untyped>) -> TypedStatement
    ensures { IfOk result (IsOutcome typed faults.old.least faults.new.least) }
{
    let typed = match typed {
        Ok(s) => Ok(Box::new(alloc, s)?),
        Err(untyped) => Err(untyped),
    };
    faults.settle(typed)
}

/// Types a block in a scope of its own.
#[cycle(statement)]
fn block(
    found: &mut Found,
    file: &File<'_>,
    scopes: &mut Scopes,
    site: Site,
    block: &Block,
) -> TypedStatement
    ensures kept { OnOk result (bindings scopes.new.locals ≡ bindings scopes.old.locals) }
    ensures typed { IfOk result (IsTypedIf found.new.instances file.now scopes.old scopes.new site (S.Block block.now)) }
    ensures met { OnOk result (Grows file.now found.old.instances found.new.instances) }
    ensures calls { IfOk result (MeetsCallsIf found.old.instances found.new.instances file.now scopes.old site (S.Block block.now)) }
{
    let scope = scopes.locals.open();
    let typed = block_in(found, file, scopes, site, scope, block)?;
    scopes.locals.close(scope);
    Ok(typed)
}

/// Types a block in the given scope.
#[cycle(statement)]
pub fn block_in(
    found: &mut Found,
    file: &File<'_>,
    scopes: &mut Scopes,
    site: Site,
    scope: usize,
    block: &Block,
) -> TypedStatement
    ensures grown { OnOk result (IsGrown (bindings scopes.old.locals) (bindings scopes.new.locals)) }
    ensures typed { IfOk result (λ r. IfSome r (λ b. IsTypedBlock found.new.instances file.now scopes.old scopes.new site scope block.now b.value)) }
    ensures met { OnOk result (Grows file.now found.old.instances found.new.instances) }
    ensures calls { IfOk result (λ r. IfSome r (λ _. MeetsCallsOf found.old.instances found.new.instances file.now scopes.old site scope block.now)) }
{
    found.count(1);
    let locals = declarations(found, file, scopes, site, scope, &block.declarations)?;
    let mut statements = Vec::new(file.alloc);
    let mut complete = true;
    for s in &block.statements {
        match statement(found, file, scopes, site, s)? {
            Some(typed) => statements.push(Box::into_inner(typed))?,
            None => complete = false,
        }
    }
    if complete {
        whole_block(file.alloc, locals, statements)
    } else {
        Ok(None)
    }
}

/// A block of its declared variables and its statements.
fn whole_block(
    alloc: Global,
    locals: Option<Vec<LocalVar>>,
    statements: Vec<TStmt>,
) -> TypedStatement
    ensures { IfOk result (IsWholeBlock locals statements) }
{
    let Some(locals) = locals else {
        return Ok(None);
    };
    let block = TStmt::Block { locals, statements };
    Ok(Some(Box::new(alloc, block)?))
}

/// Types a statement.
#[cycle(statement)]
fn statement(
    found: &mut Found,
    file: &File<'_>,
    scopes: &mut Scopes,
    site: Site,
    s: &Stmt,
) -> TypedStatement
    ensures kept { OnOk result (bindings scopes.new.locals ≡ bindings scopes.old.locals) }
    ensures typed { IfOk result (IsTypedIf found.new.instances file.now scopes.old scopes.new site s.now) }
    ensures met { OnOk result (Grows file.now found.old.instances found.new.instances) }
    ensures calls { IfOk result (MeetsCallsIf found.old.instances found.new.instances file.now scopes.old site s.now) }
{
    match s {
        Stmt::Block(inner) => block(found, file, scopes, site, inner),
        Stmt::If { .. } | Stmt::Where { .. } => chosen(found, file, scopes, site, s),
        Stmt::While { .. } | Stmt::Do { .. } | Stmt::For { .. } => {
            repeated(found, file, scopes, site, s)
        }
        Stmt::With { .. } | Stmt::Everywhere { .. } => under(found, file, scopes, site, s),
        Stmt::Expression { .. }
        | Stmt::Return { .. }
        | Stmt::Break(_)
        | Stmt::Continue(_)
        | Stmt::Empty(_) => simple(found, file, scopes, site, s),
    }
}

/// Types an `if` or a `where`.
#[cycle(statement)]
fn chosen(
    found: &mut Found,
    file: &File<'_>,
    scopes: &mut Scopes,
    site: Site,
    s: &Stmt,
) -> TypedStatement
    ensures kept { OnOk result (bindings scopes.new.locals ≡ bindings scopes.old.locals) }
    ensures typed { IfOk result (IsTypedIf found.new.instances file.now scopes.old scopes.new site s.now) }
    ensures met { OnOk result (Grows file.now found.old.instances found.new.instances) }
    ensures calls { IfOk result (MeetsCallsIf found.old.instances found.new.instances file.now scopes.old site s.now) }
{
    found.count(1);
    let (Stmt::If {
        test,
        then,
        otherwise,
        ..
    }
    | Stmt::Where {
        test,
        then,
        otherwise,
        ..
    }) = s
    else {
        return Ok(None);
    };
    let test = typed_value(found, file, &scopes.locals, site, test)?;
    let then = statement(found, file, scopes, site, then)?;
    let otherwise = match otherwise {
        Some(otherwise) => Some(statement(found, file, scopes, site, otherwise)?),
        None => None,
    };
    match branches(test, then, otherwise) {
        Some(parts) => outcome(&mut found.faults, file.alloc, choosing(site, s, parts)),
        None => Ok(None),
    }
}

/// The parts of an `if` or a `where`, if none has a fault.
fn branches(
    test: Option<Box<TExpr>>,
    then: Option<Box<TStmt>>,
    otherwise: Option<Option<Box<TStmt>>>,
) -> Option<Branches>
    ensures { MatchOption result ((test ≡ None) ⊎ (then ≡ None) ⊎ (otherwise ≡ Some None)) (λ parts. (test ≡ Some parts.test) × (then ≡ Some parts.then) × (otherwise ≡ option_map (λ t. Some t) parts.otherwise)) }
{
    let otherwise = match otherwise {
        Some(otherwise) => Some(otherwise?),
        None => None,
    };
    Some(Branches {
        test: test?,
        then: then?,
        otherwise,
    })
}

fn choosing(site: Site, s: &Stmt, parts: Branches) -> Result<TStmt, Untyped>
    ensures { (program : Program) (returns : Returns) (here : Here) → here.current ≡ site.current → AreBranches program returns here s.now parts → IsAnswer program returns here s.now result }
{
    match s {
        Stmt::If { place, .. } => if_statement(*place, parts),
        Stmt::Where { place, .. } => where_statement(site, *place, parts),
        _ => Err(Untyped::Faulty),
    }
}

/// Types a `with` or an `everywhere`. Under a name that is no shape nothing is typed.
#[cycle(statement)]
fn under(
    found: &mut Found,
    file: &File<'_>,
    scopes: &mut Scopes,
    site: Site,
    s: &Stmt,
) -> TypedStatement
    ensures kept { OnOk result (bindings scopes.new.locals ≡ bindings scopes.old.locals) }
    ensures typed { IfOk result (IsTypedIf found.new.instances file.now scopes.old scopes.new site s.now) }
    ensures met { OnOk result (Grows file.now found.old.instances found.new.instances) }
    ensures calls { IfOk result (MeetsCallsIf found.old.instances found.new.instances file.now scopes.old site s.now) }
{
    found.count(1);
    match s {
        Stmt::With { shape, body, .. } => {
            let shape = file.shape(&scopes.locals, site, shape);
            let Some(shape) = found.faults.settle(shape)? else {
                return Ok(None);
            };
            let within = Site {
                current: Some(shape),
                ..site
            };
            let body = statement(found, file, scopes, within, body)?;
            under_shape(file.alloc, shape, body)
        }
        Stmt::Everywhere { place, body } => {
            let body = statement(found, file, scopes, site, body)?;
            everywhere(&mut found.faults, file.alloc, site, *place, body)
        }
        _ => Ok(None),
    }
}

fn under_shape(alloc: Global, shape: u16, body: Option<Box<TStmt>>) -> TypedStatement
    ensures { IfOk result (IsUnder shape body) }
{
    let Some(body) = body else {
        return Ok(None);
    };
    Ok(Some(Box::new(alloc, TStmt::With { shape, body })?))
}

fn everywhere(
    faults: &mut Faults,
    alloc: Global,
    site: Site,
    place: Place,
    body: Option<Box<TStmt>>,
) -> TypedStatement
    ensures { IfOk result (IsEverywhere site place body faults.old.least faults.new.least) }
{
    let Some(body) = body else {
        return Ok(None);
    };
    outcome(faults, alloc, everywhere_statement(site, place, body))
}

/// Types a loop.
#[cycle(statement)]
fn repeated(
    found: &mut Found,
    file: &File<'_>,
    scopes: &mut Scopes,
    site: Site,
    s: &Stmt,
) -> TypedStatement
    ensures kept { OnOk result (bindings scopes.new.locals ≡ bindings scopes.old.locals) }
    ensures typed { IfOk result (IsTypedIf found.new.instances file.now scopes.old scopes.new site s.now) }
    ensures met { OnOk result (Grows file.now found.old.instances found.new.instances) }
    ensures calls { IfOk result (MeetsCallsIf found.old.instances found.new.instances file.now scopes.old site s.now) }
{
    found.count(1);
    match s {
        Stmt::While { place, test, body } => {
            let test = typed_value(found, file, &scopes.locals, site, test)?;
            let body = statement(found, file, scopes, site.body(), body)?;
            let (Some(test), Some(body)) = (test, body) else {
                return Ok(None);
            };
            let typed = while_statement(*place, test, body);
            outcome(&mut found.faults, file.alloc, typed)
        }
        Stmt::Do { place, body, test } => {
            let body = statement(found, file, scopes, site.body(), body)?;
            let test = typed_value(found, file, &scopes.locals, site, test)?;
            let (Some(body), Some(test)) = (body, test) else {
                return Ok(None);
            };
            outcome(
                &mut found.faults,
                file.alloc,
                do_statement(*place, body, test),
            )
        }
        Stmt::For { place, body, .. } => {
            let heading = heading(found, file, scopes, site, s)?;
            let body = statement(found, file, scopes, site.body(), body)?;
            let (Some(heading), Some(body)) = (heading, body) else {
                return Ok(None);
            };
            let typed = for_statement(*place, heading, body);
            outcome(&mut found.faults, file.alloc, typed)
        }
        _ => Ok(None),
    }
}

/// Types the parts in the brackets of a `for`.
fn heading(
    found: &mut Found,
    file: &File<'_>,
    scopes: &Scopes,
    site: Site,
    s: &Stmt,
) -> Result<Option<Heading>, Memory>
    ensures typed { IfOk result (IsTypedHeading found.new.instances file.now scopes.now site s.now) }
    ensures met { OnOk result (Grows file.now found.old.instances found.new.instances) }
    ensures calls { IfOk result (λ r. IfSome r (λ _. Meets found.old.instances found.new.instances file.now scopes.now.locals site (λ here. heading_calls here s.now))) }
{
    let Stmt::For {
        first,
        test,
        step,
        ..
    } = s
    else {
        return Ok(None);
    };
    let first = effect(found, file, scopes, site, first)?;
    let test = condition(found, file, scopes, site, test)?;
    let step = effect(found, file, scopes, site, step)?;
    let (Some(first), Some(test), Some(step)) = (first, test, step) else {
        return Ok(None);
    };
    Ok(Some(Heading { first, test, step }))
}

/// The first or third part of a `for`, which may be left out and needs no value. None where it has
/// a fault.
fn effect(
    found: &mut Found,
    file: &File<'_>,
    scopes: &Scopes,
    site: Site,
    e: &Option<Expr>,
) -> Result<Option<Option<Box<TExpr>>>, Memory>
    ensures typed { IfOk result (IsEffectIf found.new.instances file.now scopes.now site e.now) }
    ensures met { OnOk result (Grows file.now found.old.instances found.new.instances) }
    ensures calls { OnOk result (Meets found.old.instances found.new.instances file.now scopes.now.locals site (λ here. calls_in_each here (optional e.now))) }
{
    let Some(e) = e else {
        return Ok(Some(None));
    };
    match typed_expr(found, file, &scopes.locals, site.statement(), e)? {
        Some(typed) => Ok(Some(Some(typed.expr))),
        None => Ok(None),
    }
}

/// The second part of a `for` or the value of a `return`, which may be left out. None where it has
/// a fault.
fn condition(
    found: &mut Found,
    file: &File<'_>,
    scopes: &Scopes,
    site: Site,
    e: &Option<Expr>,
) -> Result<Option<Option<Box<TExpr>>>, Memory>
    ensures typed { IfOk result (IsValueIf found.new.instances file.now scopes.now site e.now) }
    ensures met { OnOk result (Grows file.now found.old.instances found.new.instances) }
    ensures calls { OnOk result (Meets found.old.instances found.new.instances file.now scopes.now.locals site (λ here. calls_in_each here (optional e.now))) }
{
    let Some(e) = e else {
        return Ok(Some(None));
    };
    match typed_value(found, file, &scopes.locals, site, e)? {
        Some(typed) => Ok(Some(Some(typed))),
        None => Ok(None),
    }
}

/// Types a statement that has no statement as a part.
fn simple(
    found: &mut Found,
    file: &File<'_>,
    scopes: &Scopes,
    site: Site,
    s: &Stmt,
) -> TypedStatement
    ensures typed { IfOk result (IsTypedIf found.new.instances file.now scopes.now scopes.now site s.now) }
    ensures met { OnOk result (Grows file.now found.old.instances found.new.instances) }
    ensures calls { IfOk result (MeetsCallsIf found.old.instances found.new.instances file.now scopes.now site s.now) }
{
    found.count(1);
    let typed = simple_form(found, file, scopes, site, s)?;
    outcome(&mut found.faults, file.alloc, typed)
}

/// What such a statement is, from its typed expression, if it has one.
fn simple_form(
    found: &mut Found,
    file: &File<'_>,
    scopes: &Scopes,
    site: Site,
    s: &Stmt,
) -> Result<Result<TStmt, Untyped>, Memory>
    ensures typed { IfOk result (λ typed. IfOk typed (IsTyped found.new.instances file.now scopes.now scopes.now site s.now)) }
    ensures met { OnOk result (Grows file.now found.old.instances found.new.instances) }
    ensures calls { IfOk result (λ typed. IfOk typed (λ _. MeetsCalls found.old.instances found.new.instances file.now scopes.now site s.now)) }
{
    match s {
        Stmt::Expression { expr, .. } => {
            let typed = typed_expr(found, file, &scopes.locals, site.statement(), expr)?;
            Ok(expression_statement(typed))
        }
        Stmt::Return { place, value } => {
            let value = condition(found, file, scopes, site, value)?;
            Ok(returning(file.alloc, site, *place, value))
        }
        Stmt::Break(place) => Ok(loop_word(site, *place, TStmt::Break)),
        Stmt::Continue(place) => Ok(loop_word(site, *place, TStmt::Continue)),
        Stmt::Empty(_) => Ok(Ok(TStmt::Empty)),
        _ => Ok(Err(Untyped::Faulty)),
    }
}

fn expression_statement(typed: Option<TypedExpr>) -> Result<TStmt, Untyped>
    ensures { MatchOption typed (result ≡ Err N.Faulty) (λ t. result ≡ Ok (T.Expression t.expr.value)) }
{
    match typed {
        Some(typed) => Ok(TStmt::Expression(Box::into_inner(typed.expr))),
        None => Err(Untyped::Faulty),
    }
}

/// A `return` of what was typed.
fn returning(
    alloc: Global,
    site: Site,
    place: Place,
    value: Option<Option<Box<TExpr>>>,
) -> Result<TStmt, Untyped>
    ensures none { value ≡ None → result ≡ Err N.Faulty }
    ensures typed { (program : Program) (here : Here) (e : Option Expr) (x : Option (Box TExpr Global)) → value ≡ Some x → here.current ≡ site.current → TypesValueIf program here e (value_of x) → IsReturnAnswer program (returned site.returns) here (S.Return place e) result }
{
    let Some(value) = value else {
        return Err(Untyped::Faulty);
    };
    match value {
        Some(value) => return_statement(alloc, site, place, value),
        None => Ok(TStmt::Return(None)),
    }
}
