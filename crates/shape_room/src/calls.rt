//! The calls of typed bodies: the numbers of the instances that they call, in the order of the rules.

ghost use Rattle.call_graph.specs.Graph.{Successors};
ghost use Rattle.cstar_tree.specs.TypedParts.{calls_in, calls_within, concat, optional, optional_box};
ghost use Rattle.cstar_tree.specs.declared.typed.Instance.{Instance};
ghost use Rattle.cstar_tree.specs.declared.typed.LocalVar.{LocalVar};
ghost use Rattle.std.specs.Prelude.{◌≡◌, ◌++◌, IfOk, map};

use cstar_base::Memory;
use cstar_tree::typed::{Instance, LocalVar, TExpr, TStmt};
use std::alloc::Global;

/// For each instance the numbers of those that its body calls, each as often as it does.
pub fn calls_of(alloc: Global, instances: &[Instance]) -> Result<Vec<Vec<u32>>, Memory>
    ensures { IfOk result (λ called. Successors called.items ≡ map (λ (i : Instance). calls_within i.body) instances.now) }
{
    let mut called = Vec::new(alloc);
    for instance in instances {
        let mut calls = Vec::new(alloc);
        statement(&mut calls, &instance.body)?;
        called.push(calls)?;
    }
    Ok(called)
}

/// Adds the calls of a statement, those of its own expressions first.
#[cycle(statement_calls)]
fn statement(called: &mut Vec<u32>, s: &TStmt) -> Result<(), Memory>
    ensures { IfOk result (λ _. called.new.items ≡ called.old.items ++ calls_within s.now) }
{
    match s {
        TStmt::Block { locals, statements } => {
            initials(called, locals)?;
            each_statement(called, statements)
        }
        TStmt::Expression(e) => expression(called, e),
        TStmt::If {
            test,
            then,
            otherwise,
        }
        | TStmt::Where {
            test,
            then,
            otherwise,
            ..
        } => {
            expression(called, test)?;
            statement(called, then)?;
            optional_statement(called, otherwise)
        }
        TStmt::While { test, body } | TStmt::Do { body, test } => {
            expression(called, test)?;
            statement(called, body)
        }
        TStmt::For {
            first,
            test,
            step,
            body,
        } => {
            optional_expression(called, first)?;
            optional_expression(called, test)?;
            optional_expression(called, step)?;
            statement(called, body)
        }
        TStmt::With { body, .. } | TStmt::Everywhere { body, .. } => statement(called, body),
        TStmt::Return(value) => optional_expression(called, value),
        TStmt::Empty | TStmt::Break | TStmt::Continue => Ok(()),
    }
}

/// Adds the calls of a statement that maybe stands there.
#[cycle(statement_calls)]
fn optional_statement(called: &mut Vec<u32>, s: &Option<Box<TStmt>>) -> Result<(), Memory>
    ensures { IfOk result (λ _. called.new.items ≡ called.old.items ++ concat (map calls_within (optional_box s.now))) }
{
    match s {
        Some(s) => statement(called, s),
        None => Ok(()),
    }
}

/// Adds the calls of statements.
#[cycle(statement_calls)]
fn each_statement(called: &mut Vec<u32>, statements: &[TStmt]) -> Result<(), Memory>
    ensures { IfOk result (λ _. called.new.items ≡ called.old.items ++ concat (map calls_within statements.now)) }
{
    for s in statements {
        statement(called, s)?;
    }
    Ok(())
}

/// Adds the calls of the initialisers of a block.
fn initials(called: &mut Vec<u32>, locals: &[LocalVar]) -> Result<(), Memory>
    ensures { IfOk result (λ _. called.new.items ≡ called.old.items ++ concat (map calls_in (concat (map (λ (l : LocalVar). optional l.initial) locals.now)))) }
{
    for local in locals {
        optional_expression(called, &local.initial)?;
    }
    Ok(())
}

/// Adds the calls of an expression that maybe stands there.
fn optional_expression(called: &mut Vec<u32>, e: &Option<TExpr>) -> Result<(), Memory>
    ensures { IfOk result (λ _. called.new.items ≡ called.old.items ++ concat (map calls_in (optional e.now))) }
{
    match e {
        Some(e) => expression(called, e),
        None => Ok(()),
    }
}

/// Adds the calls of an expression: a call is met behind its arguments.
#[cycle(expression_calls)]
fn expression(called: &mut Vec<u32>, e: &TExpr) -> Result<(), Memory>
    ensures { IfOk result (λ _. called.new.items ≡ called.old.items ++ calls_in e.now) }
{
    match e {
        TExpr::Call {
            instance,
            arguments,
            ..
        } => {
            each_expression(called, arguments)?;
            called.push(*instance)?;
            Ok(())
        }
        TExpr::LeftIndex { indexes: parts, .. }
        | TExpr::Printf {
            arguments: parts,
            ..
        } => each_expression(called, parts),
        TExpr::Choice {
            test,
            then,
            otherwise,
            ..
        } => {
            expression(called, test)?;
            expression(called, then)?;
            expression(called, otherwise)
        }
        TExpr::Assign { target, value, .. } => {
            expression(called, target)?;
            expression(called, value)
        }
        TExpr::LogicalOr { left, right, .. }
        | TExpr::LogicalAnd { left, right, .. }
        | TExpr::Binary { left, right, .. } => {
            expression(called, left)?;
            expression(called, right)
        }
        TExpr::Step { target, .. } => expression(called, target),
        TExpr::Brackets { inner, .. } => expression(called, inner),
        TExpr::Unary { operand, .. }
        | TExpr::Reduce { operand, .. }
        | TExpr::Casts { operand, .. }
        | TExpr::ParallelCast { operand, .. }
        | TExpr::Convert { operand, .. }
        | TExpr::Promote { operand, .. }
        | TExpr::Element { index: operand, .. }
        | TExpr::Scan {
            source: operand,
            ..
        } => expression(called, operand),
        TExpr::Variable { .. }
        | TExpr::Number { .. }
        | TExpr::Dot { .. }
        | TExpr::Pcoord { .. }
        | TExpr::PositionsOf { .. }
        | TExpr::RankOf { .. }
        | TExpr::DimOf { .. }
        | TExpr::Enumerate { .. }
        | TExpr::GetChar { .. } => Ok(()),
    }
}

/// Adds the calls of expressions.
#[cycle(expression_calls)]
fn each_expression(called: &mut Vec<u32>, parts: &[TExpr]) -> Result<(), Memory>
    ensures { IfOk result (λ _. called.new.items ≡ called.old.items ++ concat (map calls_in parts.now)) }
{
    for e in parts {
        expression(called, e)?;
    }
    Ok(())
}
