//! The walk over a function: the calls in its text, in text order.

ghost use Rattle.call_groups.specs.Called.{Adds, Declares, HasCalls, Walks};
ghost use Rattle.cstar_tree.specs.Headers.{behind_parameters};
ghost use Rattle.cstar_tree.specs.Calls.{call_of, calls_in, calls_in_block, calls_in_declarations, calls_in_declarators, calls_in_each, calls_in_statement};
ghost use Rattle.cstar_tree.specs.Scopes.{meaning};
ghost use Rattle.cstar_tree.specs.TypedParts.{optional};
ghost use Rattle.cstar_tree.specs.BlockScopes.{behind_declarations, behind_declarator, behind_declarators};
ghost use Rattle.cstar_tree.specs.declared.typed.ValueType.{ValueType};
ghost use Rattle.std.specs.Prelude.{◌∷◌, [], IfOk, Option};

use cstar_base::Memory;
use cstar_tree::syntax::{Block, Declaration, Declarator, Expr, Function, Name, Stmt};
use cstar_tree::typed::Variable;
use std::alloc::Global;
use type_scopes::file::File;
use type_scopes::locals::Locals;
use type_scopes::names::Meaning;
use type_scopes::sites::Site;

/// The walk over a function: how many names of the file are known in it, the scopes around the
/// place, and the functions that it calls so far.
#[derive(Drop)]
pub struct Calls<'a> {
    pub file: &'a File<'a>,
    pub known: usize,
    pub locals: Locals,
    pub called: Vec<u32>,
}

/// The functions that the function of the number calls, each as often as it does.
pub fn calls_of(file: &File<'_>, number: u32) -> Result<Vec<u32>, Memory>
    ensures { IfOk result (λ called. HasCalls file.now number called.items) }
{
    let Some((info, function)) = file.function(number) else {
        return Ok(Vec::new(file.alloc));
    };
    let mut calls = Calls {
        file,
        known: info.known,
        locals: Locals::new(file.alloc),
        called: Vec::new(file.alloc),
    };
    calls.function(function)?;
    Ok(calls.called)
}

impl<'a> Calls<'a> {
    fn function(&mut self, function: &Function) -> Result<(), Memory>
        ensures { IfOk result (λ _. Walks 0 self.old self.new
            (λ here. behind_declarations (behind_parameters here 0 function.now.parameters.items) function.now.body.declarations.items)
            (λ here. calls_in_block function.now.body (behind_parameters here 0 function.now.parameters.items))) }
    {
        self.parameters(function)?;
        self.block_in(0, &function.body)
    }

    fn parameters(&mut self, function: &Function) -> Result<(), Memory>
        ensures { IfOk result (λ _. Walks 0 self.old self.new (λ here. behind_parameters here 0 function.now.parameters.items) (λ here. [])) }
    {
        for parameter in &function.parameters {
            self.declare(0, &parameter.name)?;
        }
        Ok(())
    }

    /// Declares a variable, of which nothing matters but that it is no function.
    fn declare(&mut self, scope: usize, name: &Name) -> Result<(), Memory>
        ensures { IfOk result (λ _. Declares scope self.old self.new name.now.word) }
    {
        let variable = Variable::Local(0);
        self.locals
            .declare(self.file.alloc, scope, &name.word, variable, None)?;
        Ok(())
    }

    /// Walks over a declared variable, of whatever type.
    fn declarator(&mut self, scope: usize, declarator: &Declarator) -> Result<(), Memory>
        ensures { IfOk result (λ _. (ty : Option ValueType) → Walks scope self.old self.new (λ here. behind_declarator here ty declarator.now) (λ here. calls_in_declarators here ty (declarator.now ∷ []))) }
    {
        self.optional(&declarator.length)?;
        self.declare(scope, &declarator.name)?;
        match &declarator.initial {
            Some(initial) => self.expr(&initial.value),
            None => Ok(()),
        }
    }

    /// Walks over the variables of a declaration, of whatever type.
    fn declaration(&mut self, scope: usize, declaration: &Declaration) -> Result<(), Memory>
        ensures { IfOk result (λ _. (ty : Option ValueType) → Walks scope self.old self.new (λ here. behind_declarators here ty declaration.now.variables.items) (λ here. calls_in_declarators here ty declaration.now.variables.items)) }
    {
        for declarator in &declaration.variables {
            self.declarator(scope, declarator)?;
        }
        Ok(())
    }

    fn declarations(&mut self, scope: usize, block: &Block) -> Result<(), Memory>
        ensures { IfOk result (λ _. Walks scope self.old self.new (λ here. behind_declarations here block.now.declarations.items) (λ here. calls_in_declarations here block.now.declarations.items)) }
    {
        for declaration in &block.declarations {
            self.declaration(scope, declaration)?;
        }
        Ok(())
    }

    #[cycle(calls)]
    fn block_in(&mut self, scope: usize, block: &Block) -> Result<(), Memory>
        ensures { IfOk result (λ _. Walks scope self.old self.new (λ here. behind_declarations here block.now.declarations.items) (calls_in_block block.now)) }
    {
        self.declarations(scope, block)?;
        for statement in &block.statements {
            self.statement(statement)?;
        }
        Ok(())
    }

    #[cycle(calls)]
    fn statement(&mut self, s: &Stmt) -> Result<(), Memory>
        ensures { IfOk result (λ _. Adds self.old self.new (calls_in_statement s.now)) }
    {
        match s {
            Stmt::Block(block) => {
                let scope = self.locals.open();
                self.block_in(scope, block)?;
                self.locals.close(scope);
                Ok(())
            }
            Stmt::Expression { expr, .. } => self.expr(expr),
            Stmt::If {
                test,
                then,
                otherwise,
                ..
            } => {
                self.expr(test)?;
                self.statement(then)?;
                match otherwise {
                    Some(otherwise) => self.statement(otherwise),
                    None => Ok(()),
                }
            }
            Stmt::Where {
                test,
                then,
                otherwise,
                ..
            } => {
                self.expr(test)?;
                self.statement(then)?;
                match otherwise {
                    Some(otherwise) => self.statement(otherwise),
                    None => Ok(()),
                }
            }
            Stmt::While { test, body, .. } => {
                self.expr(test)?;
                self.statement(body)
            }
            Stmt::Do { test, body, .. } => {
                self.statement(body)?;
                self.expr(test)
            }
            Stmt::For {
                first,
                test,
                step,
                body,
                ..
            } => {
                self.optional(first)?;
                self.optional(test)?;
                self.optional(step)?;
                self.statement(body)
            }
            Stmt::Return { value, .. } => self.optional(value),
            Stmt::With { body, .. } => self.statement(body),
            Stmt::Everywhere { body, .. } => self.statement(body),
            Stmt::Empty(_) => Ok(()),
            Stmt::Break(_) => Ok(()),
            Stmt::Continue(_) => Ok(()),
        }
    }

    fn optional(&mut self, e: &Option<Expr>) -> Result<(), Memory>
        ensures { IfOk result (λ _. Adds self.old self.new (λ here. calls_in_each here (optional e.now))) }
    {
        match e {
            Some(e) => self.expr(e),
            None => Ok(()),
        }
    }

    fn expr(&mut self, e: &Expr) -> Result<(), Memory>
        ensures { IfOk result (λ _. Adds self.old self.new (λ here. calls_in here e.now)) }
    {
        match e {
            Expr::Call { name, arguments } => {
                'arguments: for argument in arguments {
                    self.expr(argument)?;
                }
                self.call(name)
            }
            Expr::LeftIndex { indexes, .. } => {
                'indexes: for index in indexes {
                    self.expr(index)?;
                }
                Ok(())
            }
            Expr::Printf { arguments, .. } => {
                'printed: for argument in arguments {
                    self.expr(argument)?;
                }
                Ok(())
            }
            Expr::Choice {
                test,
                then,
                otherwise,
                ..
            } => {
                self.expr(test)?;
                self.expr(then)?;
                self.expr(otherwise)
            }
            Expr::Assign { target, value, .. } => {
                self.expr(target)?;
                self.expr(value)
            }
            Expr::Binary { left, right, .. } => {
                self.expr(left)?;
                self.expr(right)
            }
            Expr::Scan { source, axis, .. } => {
                self.expr(source)?;
                self.expr(axis)
            }
            Expr::Prefix { operand, .. } => self.expr(operand),
            Expr::Casts { operand, .. } => self.expr(operand),
            Expr::ParallelCast { operand, .. } => self.expr(operand),
            Expr::Postfix { operand, .. } => self.expr(operand),
            Expr::Element { index, .. } => self.expr(index),
            Expr::Brackets { inner, .. } => self.expr(inner),
            Expr::Pcoord { axis, .. } => self.expr(axis),
            Expr::DimOf { axis, .. } => self.expr(axis),
            Expr::Enumerate { axis, .. } => self.expr(axis),
            Expr::Name(_) => Ok(()),
            Expr::Number { .. } => Ok(()),
            Expr::Dot(_) => Ok(()),
            Expr::PositionsOf { .. } => Ok(()),
            Expr::RankOf { .. } => Ok(()),
            Expr::GetChar(_) => Ok(()),
        }
    }

    /// A call of the name, if it stands for a function.
    fn call(&mut self, name: &Name) -> Result<(), Memory>
        ensures { IfOk result (λ _. Adds self.old self.new (λ here. call_of here (meaning here name.now.word))) }
    {
        let site = Site::file(self.known);
        if let Some(Meaning::Function(function)) = self.file.meaning(&self.locals, site, name) {
            self.called.push(function)?;
        }
        Ok(())
    }
}
