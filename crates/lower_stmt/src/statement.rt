//! The code of a statement. The test of a loop stands at its bottom, so that the one jump back goes
//! to the turn that the loop's body begins with. A jump out of `where` and `everywhere` first loads
//! the contexts that they saved, the innermost first, so that the outermost one stays.

ghost use Rattle.std.specs.Prelude.{◌≡◌, ◌+◌, ◌++◌, [], ◌∷◌, false, IfOk, OnOk, Some};
ghost use Rattle.cstar_tree.specs.declared.typed.TStmt as S;
ghost use Rattle.cstar_tree.specs.declared.typed.TStmt.{back-TStmt-If-2};
ghost use Rattle.paris_code.specs.declared.instr.Instr.TheVariants as I;
ghost use Rattle.lower_base.specs.Drafts.{IsMade, Makes, draft, with_instr};
ghost use Rattle.lower_base.specs.Layouts.{layout};
ghost use Rattle.lower_stmt.specs.Bodies.{code_in, grown};
ghost use Rattle.lower_stmt.specs.Frames.{has_result, in_loop, in_context, with_end};
ghost use Rattle.lower_stmt.specs.Lengths.{at_loop, statement_length_of};
ghost use Rattle.lower_stmt.specs.Statements.{block_of, body_of, closing, condition_of, else_of, ended, ends_in_return, given_back, is_return, jump_back_of, listed, narrowed, part_of, past, restored, returned, returns_last, statement_of, stored_result, turned, turns_of, widened};

use crate::length::{Saved, condition_length, part_length, statement_length};
use crate::variables::declare;
use cstar_base::Memory;
use cstar_tree::typed::{LocalVar, TExpr, TStmt};
use lower_base::emit::{flag, here, plus, put};
use lower_base::names::own_entry;
use lower_base::{Operand, Out, View};
use lower_expr::conditions::test;
use lower_expr::conversions::operand;
use lower_expr::effects::effect;
use lower_expr::length::used_length;
use lower_expr::steps::set;
use paris_code::{Field, Instr, Unit};

/// What a function gives back.
#[derive(Clone, Copy, PartialEq, Eq)]
pub enum Outcome {
    Nothing,
    Scalar,
    Parallel,
}

/// Where a statement stands: in `main` or in another function, and where the jumps of its loop go.
#[derive(Clone, Copy)]
pub struct Frame {
    pub is_main: bool,
    pub outcome: Outcome,
    /// The place behind the innermost loop, where `break` goes on, from the start of the unit; 0
    /// outside a loop.
    pub after: u32,
    /// The place behind the body of the innermost loop, where `continue` goes on, from the start of
    /// the unit; 0 outside a loop.
    pub next: u32,
    pub saved: Saved,
}

impl Frame {
    #[tactic(auto, unfolding(crate::specs::Frames::has_result))]
    fn has_result(self) -> bool
        ensures { result ≡ has_result self }
    {
        match self.outcome {
            Outcome::Nothing => false,
            Outcome::Scalar | Outcome::Parallel => true,
        }
    }

    /// In the body of a loop.
    #[tactic(auto, unfolding(crate::specs::Frames::in_loop))]
    fn in_loop(self, next: u32, after: u32) -> Frame
        ensures { result ≡ in_loop next after self }
    {
        Frame {
            is_main: self.is_main,
            outcome: self.outcome,
            after,
            next,
            saved: self.saved.at_loop(),
        }
    }

    /// Where one more context is saved.
    #[tactic(auto, unfolding(crate::specs::Frames::in_context))]
    fn in_context(self) -> Result<Frame, Memory>
        ensures { IfOk result (λ f. f ≡ in_context self) }
    {
        Ok(Frame {
            is_main: self.is_main,
            outcome: self.outcome,
            after: self.after,
            next: self.next,
            saved: self.saved.one_more()?,
        })
    }
}

/// The body of an instance as it is lowered: its unit, the contexts that are saved where the next
/// statement stands, the outermost first, and how many variables of blocks were declared.
#[derive(Drop)]
pub struct Body {
    pub unit: Unit,
    pub contexts: Vec<Field>,
    pub declared: u32,
}

impl Body {
    /// Appends the code of a statement.
    #[cycle(statement)]
    #[tactic(auto, unfolding(lower_base::specs::Drafts::IsMade, crate::specs::Statements::statement_of, crate::specs::Statements::part_of, crate::specs::Statements::turns_of, lower_base::specs::Drafts::then_make))]
    pub fn statement(&mut self, view: &View, s: &TStmt, f: Frame) -> Result<(), Memory>
        requires made { IsMade (code_in view.now s.now f self.old) }
        ensures draft { OnOk result (code_in view.now s.now f self.old ≡ grown self.new) }
        ensures contexts { OnOk result (self.new.contexts.items ≡ self.old.contexts.items) }
    {
        match s {
            TStmt::Block { locals, statements } => {
                let (declared, listed) = (locals.as_slice(), statements.as_slice());
                self.block_is_made(view, s, f, locals, statements, declared, listed);
                self.block(view, false, declared, listed, f)
            }
            TStmt::Expression(e) => evaluate(view, e, &mut self.unit),
            TStmt::Empty => Ok(()),
            TStmt::If {
                test,
                then,
                otherwise,
            } => self.branch(view, test, then, otherwise, f),
            TStmt::While { test, body } => self.repeat_while(view, test, body, f),
            TStmt::Do { body, test } => {
                let turn = here(&self.unit)?;
                let next = behind_body(view, body, f, turn)?;
                self.turns(view, body, test, next, f)
            }
            TStmt::For {
                first,
                test,
                step,
                body,
            } => self.repeat_for(view, first, test, step, body, f),
            TStmt::Break => self.jump_out(f.saved.in_loop, f.after),
            TStmt::Continue => self.jump_out(f.saved.in_loop, f.next),
            TStmt::Return(e) => {
                return_value(view, e, f.outcome, &mut self.unit)?;
                load_contexts(self.contexts.as_slice(), f.saved.in_all, &mut self.unit)?;
                leave(f.is_main, &mut self.unit)
            }
            TStmt::With { body, .. } => self.statement(view, body, f),
            TStmt::Everywhere { shape, body } => {
                let saved = flag(&mut self.unit, *shape)?;
                widen(*shape, saved, &mut self.unit)?;
                self.within(view, body, f, saved)
            }
            TStmt::Where {
                shape,
                test,
                then,
                otherwise,
            } => self.narrow_and_run(view, *shape, test, then, otherwise, f),
        }
    }

    /// The code of a block is that of these declarations and statements, which is there where that of the
    /// block is. Nothing runs here.
    fn block_is_made(
        &self,
        view: &View,
        s: &TStmt,
        f: Frame,
        locals: &Vec<LocalVar>,
        statements: &Vec<TStmt>,
        declared: &[LocalVar],
        listed: &[TStmt],
    )
        requires whole { s.now ≡ S.Block locals.now statements.now }
        requires locals { declared.now ≡ locals.now.items }
        requires list { listed.now ≡ statements.now.items }
        requires made { IsMade (code_in view.now s.now f self.now) }
        ensures code { code_in view.now s.now f self.now ≡ block_of view.now.typed.now (layout view.now.names) false declared.now listed.now f self.now.contexts.items self.now.declared (draft self.now.unit) }
        ensures made { IsMade (block_of view.now.typed.now (layout view.now.names) false declared.now listed.now f self.now.contexts.items self.now.declared (draft self.now.unit)) }
    {}

    /// Appends the code of a block, at the start of `main` or elsewhere.
    #[cycle(statement)]
    #[tactic(auto, unfolding(lower_base::specs::Drafts::IsMade, crate::specs::Statements::block_of, lower_base::specs::Drafts::then_make))]
    fn block(
        &mut self,
        view: &View,
        at_start: bool,
        locals: &[LocalVar],
        statements: &[TStmt],
        f: Frame,
    ) -> Result<(), Memory>
        requires made { IsMade (block_of view.now.typed.now (layout view.now.names) at_start locals.now statements.now f self.old.contexts.items self.old.declared (draft self.old.unit)) }
        ensures draft { OnOk result (block_of view.now.typed.now (layout view.now.names) at_start locals.now statements.now f self.old.contexts.items self.old.declared (draft self.old.unit) ≡ grown self.new) }
        ensures contexts { OnOk result (self.new.contexts.items ≡ self.old.contexts.items) }
    {
        self.declared = declare(view, at_start, locals, self.declared, &mut self.unit)?;
        self.statements(view, statements, f)
    }

    /// Appends the code of statements, one behind the other.
    #[cycle(statement)]
    #[tactic(auto, unfolding(lower_base::specs::Drafts::IsMade, crate::specs::Statements::listed, lower_base::specs::Drafts::then_make))]
    fn statements(&mut self, view: &View, statements: &[TStmt], f: Frame) -> Result<(), Memory>
        requires made { IsMade (listed view.now.typed.now (layout view.now.names) statements.now f self.old.contexts.items self.old.declared (draft self.old.unit)) }
        ensures draft { OnOk result (listed view.now.typed.now (layout view.now.names) statements.now f self.old.contexts.items self.old.declared (draft self.old.unit) ≡ grown self.new) }
        ensures contexts { OnOk result (self.new.contexts.items ≡ self.old.contexts.items) }
    {
        for inner in statements {
            self.statement(view, inner, f)?;
        }
        Ok(())
    }

    /// Appends the code of the body of an instance, before which there is nothing of it.
    #[tactic(auto, unfolding(lower_base::specs::Drafts::IsMade, crate::specs::Statements::body_of, lower_base::specs::Drafts::then_make))]
    pub fn whole(&mut self, view: &View, s: &TStmt, f: Frame) -> Result<(), Memory>
        requires contexts { self.old.contexts.items ≡ [] }
        requires declared { self.old.declared ≡ 0 }
        requires made { IsMade (body_of view.now.typed.now (layout view.now.names) f s.now (draft self.old.unit)) }
        ensures draft { OnOk result (body_of view.now.typed.now (layout view.now.names) f s.now (draft self.old.unit) ≡ grown self.new) }
    {
        match s {
            TStmt::Block { locals, statements } => self.block(
                view, f.is_main, locals, statements, f,
            ),
            TStmt::Expression(_)
            | TStmt::Empty
            | TStmt::If { .. }
            | TStmt::While { .. }
            | TStmt::Do { .. }
            | TStmt::For { .. }
            | TStmt::Break
            | TStmt::Continue
            | TStmt::Return(_)
            | TStmt::With { .. }
            | TStmt::Everywhere { .. }
            | TStmt::Where { .. } => self.statement(view, s, f),
        }
    }

    /// Loads the newest saved contexts, so many of them, and jumps.
    fn jump_out(&mut self, newest: u32, target: u32) -> Result<(), Memory>
        ensures draft { OnOk result (with_instr (I.FrontJump target) (restored self.old.contexts.items newest (draft self.old.unit)) ≡ draft self.new.unit) }
        ensures contexts { OnOk result (self.new.contexts.items ≡ self.old.contexts.items) }
        ensures declared { OnOk result (self.new.declared ≡ self.old.declared) }
    {
        load_contexts(self.contexts.as_slice(), newest, &mut self.unit)?;
        put(&mut self.unit, Instr::FrontJump { target })
    }

    /// `if`.
    #[cycle(statement)]
    #[tactic(auto, unfolding(lower_base::specs::Drafts::IsMade, crate::specs::Statements::statement_of, lower_base::specs::Drafts::then_make))]
    fn branch(
        &mut self,
        view: &View,
        test: &TExpr,
        then: &Box<TStmt>,
        otherwise: &Option<Box<TStmt>>,
        f: Frame,
    ) -> Result<(), Memory>
        requires made { IsMade (code_in view.now (S.If test.now then.now otherwise.now) f self.old) }
        ensures draft { OnOk result (code_in view.now (S.If test.now then.now otherwise.now) f self.old ≡ grown self.new) }
        ensures contexts { OnOk result (self.new.contexts.items ≡ self.old.contexts.items) }
    {
        let test = condition(view, test, &mut self.unit)?;
        let length = statement_length(view, then, f.has_result(), f.saved)?;
        let end = plus(plus(here(&self.unit)?, length)?, 1)?;
        let target = past(otherwise, end)?;
        put(&mut self.unit, Instr::FrontJumpZero { test, target })?;
        self.statement(view, then, f)?;
        self.jump_over(view, otherwise, target, f)
    }

    /// What is behind the `else` of an `if`, if there is one, which begins at a place, with the jump
    /// over it.
    #[cycle(statement)]
    #[tactic(auto, unfolding(lower_base::specs::Drafts::IsMade, crate::specs::Statements::else_of))]
    fn jump_over(
        &mut self,
        view: &View,
        otherwise: &Option<Box<TStmt>>,
        place: u32,
        f: Frame,
    ) -> Result<(), Memory>
        requires made { IsMade (else_of view.now.typed.now (layout view.now.names) (back-TStmt-If-2 otherwise.now) f self.old.contexts.items place self.old.declared (draft self.old.unit)) }
        ensures draft { OnOk result (else_of view.now.typed.now (layout view.now.names) (back-TStmt-If-2 otherwise.now) f self.old.contexts.items place self.old.declared (draft self.old.unit) ≡ grown self.new) }
        ensures contexts { OnOk result (self.new.contexts.items ≡ self.old.contexts.items) }
    {
        let Some(other) = otherwise else {
            return Ok(());
        };
        let length = statement_length(view, other, f.has_result(), f.saved)?;
        let target = plus(place, length)?;
        put(&mut self.unit, Instr::FrontJump { target })?;
        self.statement(view, other, f)
    }

    /// `while`, which begins with a jump to its test.
    #[cycle(statement)]
    #[tactic(auto, using(crate::proofs::LoopPlaces::here_more), unfolding(lower_base::specs::Drafts::IsMade, crate::specs::Statements::statement_of, crate::specs::Statements::turns_of, lower_base::specs::Drafts::then_make))]
    fn repeat_while(
        &mut self,
        view: &View,
        test: &TExpr,
        body: &Box<TStmt>,
        f: Frame,
    ) -> Result<(), Memory>
        requires made { IsMade (code_in view.now (S.While test.now body.now) f self.old) }
        ensures draft { OnOk result (code_in view.now (S.While test.now body.now) f self.old ≡ grown self.new) }
        ensures contexts { OnOk result (self.new.contexts.items ≡ self.old.contexts.items) }
    {
        let turn = plus(here(&self.unit)?, 1)?;
        let next = behind_body(view, body, f, turn)?;
        put(&mut self.unit, Instr::FrontJump { target: next })?;
        self.turns(view, body, test, next, f)
    }

    /// The turns of a `while` or a `do`, whose body begins here and whose test is at `next`.
    #[cycle(statement)]
    #[tactic(auto, unfolding(lower_base::specs::Drafts::IsMade, crate::specs::Statements::turns_of, crate::specs::Statements::jump_back_of, lower_base::specs::Drafts::then_make))]
    fn turns(
        &mut self,
        view: &View,
        body: &TStmt,
        test: &TExpr,
        next: u32,
        f: Frame,
    ) -> Result<(), Memory>
        requires made { IsMade (turns_of view.now.typed.now (layout view.now.names) body.now test.now next f self.old.contexts.items self.old.declared (draft self.old.unit)) }
        ensures draft { OnOk result (turns_of view.now.typed.now (layout view.now.names) body.now test.now next f self.old.contexts.items self.old.declared (draft self.old.unit) ≡ grown self.new) }
        ensures contexts { OnOk result (self.new.contexts.items ≡ self.old.contexts.items) }
    {
        let turn = here(&self.unit)?;
        let after = plus(plus(next, used_length(view, 32, true, test)?)?, 1)?;
        put(&mut self.unit, Instr::FrontTurn)?;
        self.statement(view, body, f.in_loop(next, after))?;
        let test = condition(view, test, &mut self.unit)?;
        put(
            &mut self.unit,
            Instr::FrontJumpNonzero { test, target: turn },
        )
    }

    /// `for`, which begins with a jump to its test.
    #[cycle(statement)]
    #[tactic(auto, using(crate::proofs::LoopPlaces::here_more), unfolding(lower_base::specs::Drafts::IsMade, crate::specs::Statements::statement_of, lower_base::specs::Drafts::then_make))]
    fn repeat_for(
        &mut self,
        view: &View,
        first: &Option<TExpr>,
        test: &Option<TExpr>,
        step: &Option<TExpr>,
        body: &Box<TStmt>,
        f: Frame,
    ) -> Result<(), Memory>
        requires made { IsMade (code_in view.now (S.For first.now test.now step.now body.now) f self.old) }
        ensures draft { OnOk result (code_in view.now (S.For first.now test.now step.now body.now) f self.old ≡ grown self.new) }
        ensures contexts { OnOk result (self.new.contexts.items ≡ self.old.contexts.items) }
    {
        evaluate_part(view, first, &mut self.unit)?;
        let turn = plus(here(&self.unit)?, 1)?;
        let next = behind_body(view, body, f, turn)?;
        let tested = plus(next, part_length(view, step)?)?;
        let after = plus(plus(tested, condition_length(view, test)?)?, 1)?;
        put(&mut self.unit, Instr::FrontJump { target: tested })?;
        put(&mut self.unit, Instr::FrontTurn)?;
        self.statement(view, body, f.in_loop(next, after))?;
        evaluate_part(view, step, &mut self.unit)?;
        jump_back(view, test, turn, &mut self.unit)
    }

    /// `where`.
    #[cycle(statement)]
    #[tactic(auto, unfolding(lower_base::specs::Drafts::IsMade, crate::specs::Statements::statement_of, crate::specs::Statements::otherwise_of, crate::specs::Statements::kept_for, lower_base::specs::Drafts::then_make))]
    fn narrow_and_run(
        &mut self,
        view: &View,
        shape: u16,
        condition: &TExpr,
        then: &Box<TStmt>,
        otherwise: &Option<Box<TStmt>>,
        f: Frame,
    ) -> Result<(), Memory>
        requires made { IsMade (code_in view.now (S.Where shape condition.now then.now otherwise.now) f self.old) }
        ensures draft { OnOk result (code_in view.now (S.Where shape condition.now then.now otherwise.now) f self.old ≡ grown self.new) }
        ensures contexts { OnOk result (self.new.contexts.items ≡ self.old.contexts.items) }
    {
        let saved = flag(&mut self.unit, shape)?;
        let holds = flag(&mut self.unit, shape)?;
        test(view, condition, &mut self.unit)?;
        match otherwise {
            None => {
                narrow(shape, saved, None, &mut self.unit)?;
                self.within(view, then, f, saved)
            }
            Some(other) => {
                narrow(shape, saved, Some(holds), &mut self.unit)?;
                self.within(view, then, f, saved)?;
                turn_over(shape, holds, &mut self.unit)?;
                self.within(view, other, f, saved)
            }
        }
    }

    /// A statement where one more context is saved, which is loaded behind it.
    #[cycle(statement)]
    #[tactic(auto, unfolding(lower_base::specs::Drafts::IsMade, crate::specs::Statements::closing, lower_base::specs::Drafts::then_make))]
    fn within(&mut self, view: &View, s: &TStmt, f: Frame, saved: Field) -> Result<(), Memory>
        requires made { IsMade (closing saved (statement_of view.now.typed.now (layout view.now.names) s.now (in_context f) (self.old.contexts.items ++ saved ∷ []) self.old.declared (draft self.old.unit))) }
        ensures draft { OnOk result (closing saved (statement_of view.now.typed.now (layout view.now.names) s.now (in_context f) (self.old.contexts.items ++ saved ∷ []) self.old.declared (draft self.old.unit)) ≡ grown self.new) }
        ensures contexts { OnOk result (self.new.contexts.items ≡ self.old.contexts.items) }
    {
        self.contexts.push(saved)?;
        self.statement(view, s, f.in_context()?)?;
        self.contexts.pop();
        put(&mut self.unit, Instr::LoadContext { source: saved })
    }
}

/// An expression whose value is not used.
#[tactic(auto, unfolding(lower_base::specs::Drafts::IsMade, crate::specs::Statements::part_of, lower_base::specs::Drafts::then_make))]
fn evaluate(view: &View, e: &TExpr, u: &mut Unit) -> Result<(), Memory>
    requires made { IsMade (part_of view.now.typed.now (layout view.now.names) (Some e.now) (draft u.old)) }
    ensures draft { OnOk result (part_of view.now.typed.now (layout view.now.names) (Some e.now) (draft u.old) ≡ Makes tt (draft u.new)) }
{
    effect(view, e, u)?;
    Ok(())
}

/// An optional part of a `for`.
#[tactic(auto, unfolding(lower_base::specs::Drafts::IsMade, crate::specs::Statements::part_of))]
fn evaluate_part(view: &View, part: &Option<TExpr>, u: &mut Unit) -> Result<(), Memory>
    requires made { IsMade (part_of view.now.typed.now (layout view.now.names) part.now (draft u.old)) }
    ensures draft { OnOk result (part_of view.now.typed.now (layout view.now.names) part.now (draft u.old) ≡ Makes tt (draft u.new)) }
{
    match part {
        Some(e) => evaluate(view, e, u),
        None => Ok(()),
    }
}

/// The value of a condition, in a register.
#[tactic(auto, unfolding(lower_base::specs::Drafts::IsMade, lower_base::specs::Drafts::InRegister, crate::specs::Statements::condition_of, lower_base::specs::Drafts::then_make, lower_base::specs::Drafts::in_register))]
fn condition(view: &View, e: &TExpr, u: &mut Unit) -> Result<u32, Memory>
    requires made { IsMade (condition_of view.now.typed.now (layout view.now.names) e.now (draft u.old)) }
    ensures draft { IfOk result (λ r. condition_of view.now.typed.now (layout view.now.names) e.now (draft u.old) ≡ Makes r (draft u.new)) }
{
    Ok(operand(view, 32, true, e, u)?.register())
}

/// The end of a function, and that of `main`.
#[tactic(auto, unfolding(crate::specs::Frames::with_end))]
fn leave(is_main: bool, u: &mut Unit) -> Result<(), Memory>
    ensures draft { OnOk result (with_end is_main (draft u.old) ≡ draft u.new) }
{
    if is_main {
        put(u, Instr::FrontHalt)
    } else {
        put(u, Instr::FrontReturn)
    }
}

/// The end of a body, where it has none of its own.
#[tactic(auto, unfolding(crate::specs::Statements::ended))]
pub fn end(is_main: bool, body: &TStmt, u: &mut Unit) -> Result<(), Memory>
    ensures draft { OnOk result (ended is_main body.now (draft u.old) ≡ draft u.new) }
{
    if ends_in_return(body) {
        return Ok(());
    }
    leave(is_main, u)
}

/// Whether a body ends with a `return`.
#[tactic(auto, unfolding(crate::specs::Statements::ends_in_return))]
fn ends_in_return(body: &TStmt) -> bool
    ensures { result ≡ ends_in_return body.now }
{
    let TStmt::Block { statements, .. } = body else {
        return false;
    };
    returns_last(statements)
}

/// Whether the last of the statements is a `return`.
#[tactic(auto, unfolding(crate::specs::Statements::returns_last))]
fn returns_last(statements: &[TStmt]) -> bool
    ensures { result ≡ returns_last false statements.now }
{
    let mut returns = false;
    for statement in statements {
        returns = is_return(statement);
    }
    returns
}

#[tactic(auto, unfolding(crate::specs::Statements::is_return))]
fn is_return(s: &TStmt) -> bool
    ensures { result ≡ is_return s.now }
{
    matches!(s, TStmt::Return(_))
}

/// Loads the newest saved contexts, so many of them, the newest first.
#[tactic(auto, using(crate::proofs::RestoredContexts::restored_none, crate::proofs::RestoredContexts::restored_outermost, crate::proofs::RestoredContexts::restored_more))]
fn load_contexts(contexts: &[Field], newest: u32, u: &mut Unit) -> Result<(), Memory>
    ensures draft { OnOk result (restored contexts.now newest (draft u.old) ≡ draft u.new) }
{
    if newest == 0 {
        return Ok(());
    }
    let Some((source, older)) = contexts.split_last() else {
        return Ok(());
    };
    put(u, Instr::LoadContext { source: *source })?;
    load_contexts(older, newest - 1, u)
}

/// The value of `return`, if there is one, becomes the result.
#[tactic(auto, unfolding(lower_base::specs::Drafts::IsMade, crate::specs::Statements::returned))]
fn return_value(
    view: &View,
    e: &Option<TExpr>,
    outcome: Outcome,
    u: &mut Unit,
) -> Result<(), Memory>
    requires made { IsMade (returned view.now.typed.now (layout view.now.names) e.now outcome (draft u.old)) }
    ensures draft { OnOk result (returned view.now.typed.now (layout view.now.names) e.now outcome (draft u.old) ≡ Makes tt (draft u.new)) }
{
    match e {
        Some(e) => give_back(view, e, outcome, u),
        None => Ok(()),
    }
}

/// The returned value becomes the result, that of a field at the active positions.
#[tactic(auto, unfolding(lower_base::specs::Drafts::IsMade, crate::specs::Statements::given_back, lower_base::specs::Drafts::then_make))]
fn give_back(view: &View, e: &TExpr, outcome: Outcome, u: &mut Unit) -> Result<(), Memory>
    requires made { IsMade (given_back view.now.typed.now (layout view.now.names) e.now outcome (draft u.old)) }
    ensures draft { OnOk result (given_back view.now.typed.now (layout view.now.names) e.now outcome (draft u.old) ≡ Makes tt (draft u.new)) }
{
    let v = operand(view, e.ty().elem.bits, true, e, u)?;
    store_result(view, outcome, v, u)
}

/// A value becomes the function's result.
#[tactic(auto, unfolding(lower_base::specs::Drafts::IsMade, lower_base::specs::Drafts::IsSomewhere, crate::specs::Statements::stored_result, lower_expr::specs::Steps::put_value, lower_expr::specs::Steps::put_in_field, lower_base::specs::Drafts::in_register, lower_base::specs::Drafts::then_make, lower_base::specs::Layouts::layout))]
fn store_result(view: &View, outcome: Outcome, v: Out, u: &mut Unit) -> Result<(), Memory>
    requires made { IsMade (stored_result (layout view.now.names) outcome v (draft u.old)) }
    ensures draft { OnOk result (stored_result (layout view.now.names) outcome v (draft u.old) ≡ Makes tt (draft u.new)) }
{
    match outcome {
        Outcome::Nothing => Ok(()),
        Outcome::Scalar => set(Operand::Register(view.result_register()?), v.operand(), u),
        Outcome::Parallel => {
            let dest = own_entry(u, view.names.outcome);
            set(Operand::Field(dest), v.operand(), u)
        }
    }
}

/// So far behind a place there is one more instruction, a jump over what is behind `else`.
#[tactic(auto, unfolding(crate::specs::Statements::past))]
fn past(otherwise: &Option<Box<TStmt>>, place: u32) -> Result<u32, Memory>
    ensures { IfOk result (λ n. n ≡ past (back-TStmt-If-2 otherwise.now) place) }
{
    match otherwise {
        Some(_) => plus(place, 1),
        None => Ok(place),
    }
}

/// The place behind the body of a loop whose turn is at `turn`.
fn behind_body(view: &View, body: &TStmt, f: Frame, turn: u32) -> Result<u32, Memory>
    ensures { IfOk result (λ n. n ≡ turn + statement_length_of view.now.typed.now (layout view.now.names) (has_result f) (at_loop f.saved) body.now + 1) }
{
    let length = statement_length(view, body, f.has_result(), f.saved.at_loop())?;
    plus(plus(turn, length)?, 1)
}

/// The end of a `for`: back to its turn, if its condition is there and not zero, or always.
#[tactic(auto, unfolding(lower_base::specs::Drafts::IsMade, crate::specs::Statements::jump_back_of, lower_base::specs::Drafts::then_make))]
fn jump_back(view: &View, test: &Option<TExpr>, turn: u32, u: &mut Unit) -> Result<(), Memory>
    requires made { IsMade (jump_back_of view.now.typed.now (layout view.now.names) test.now turn (draft u.old)) }
    ensures draft { OnOk result (jump_back_of view.now.typed.now (layout view.now.names) test.now turn (draft u.old) ≡ Makes tt (draft u.new)) }
{
    match test {
        Some(test) => {
            let test = condition(view, test, u)?;
            put(u, Instr::FrontJumpNonzero { test, target: turn })
        }
        None => put(u, Instr::FrontJump { target: turn }),
    }
}

/// Saves the context of a shape, and makes all its positions active.
#[tactic(auto, unfolding(crate::specs::Statements::widened))]
fn widen(set: u16, saved: Field, u: &mut Unit) -> Result<(), Memory>
    ensures draft { OnOk result (widened set saved (draft u.old) ≡ draft u.new) }
{
    put(u, Instr::StoreContext { dest: saved })?;
    put(u, Instr::SetContext { set })
}

/// Saves the context of a shape, keeps the test flags where there is a field for them, and leaves
/// active where they are 1.
#[tactic(auto, unfolding(crate::specs::Statements::narrowed, crate::specs::Statements::with_kept))]
fn narrow(set: u16, saved: Field, kept: Option<Field>, u: &mut Unit) -> Result<(), Memory>
    ensures draft { OnOk result (narrowed set saved kept (draft u.old) ≡ draft u.new) }
{
    put(u, Instr::StoreContext { dest: saved })?;
    if let Some(dest) = kept {
        put(u, Instr::StoreTest { dest })?;
    }
    put(u, Instr::LogandContextWithTest { set })
}

/// Leaves active where the value was zero.
#[tactic(auto, unfolding(crate::specs::Statements::turned))]
fn turn_over(set: u16, holds: Field, u: &mut Unit) -> Result<(), Memory>
    ensures draft { OnOk result (turned set holds (draft u.old) ≡ draft u.new) }
{
    put(u, Instr::LoadTest { source: holds })?;
    put(u, Instr::LogandcContextWithTest { set })
}
