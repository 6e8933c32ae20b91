//! Operands that stand in a register or a field already, that of a constant or a variable's own, and
//! when they may be used there.

ghost use Rattle.std.specs.Prelude.{◌≡◌, IfOk};
ghost use Rattle.lower_base.specs.Drafts.{IsMade, Makes, draft, out_of};
ghost use Rattle.lower_base.specs.Layouts.{layout};
ghost use Rattle.lower_expr.specs.Operands.{all_quiet, held, ignores_context, in_place, is_plus, is_quiet, own_of, standing};

use crate::kinds::is_unchanged;
use crate::steps::{register_word, stays_scalar};
use cstar_base::Memory;
use cstar_tree::typed::{TExpr, UnaryOp, Variable};
use lower_base::emit::first_bits;
use lower_base::operators::divides;
use lower_base::{Operand, View};
use paris_code::Unit;

/// A variable whose own register or field is an operand; it has a shape if it is parallel.
#[derive(Clone, Copy)]
pub struct Own {
    pub shape: Option<u16>,
    pub variable: Variable,
}

/// Whether the expression leaves all variables, the turns, the input and the output as they are: it
/// has no assignment, no step, no call, no `printf` and no `getchar`.
#[cycle(quiet)]
#[tactic(auto, unfolding(crate::specs::Operands::is_quiet))]
pub fn is_quiet(e: &TExpr) -> bool
    ensures { result ≡ is_quiet e.now }
{
    match e {
        TExpr::Variable { .. }
        | TExpr::Number { .. }
        | TExpr::Dot { .. }
        | TExpr::Pcoord { .. }
        | TExpr::PositionsOf { .. }
        | TExpr::RankOf { .. }
        | TExpr::DimOf { .. }
        | TExpr::Enumerate { .. } => true,
        TExpr::Unary { operand, .. }
        | TExpr::Reduce { operand, .. }
        | TExpr::Casts { operand, .. }
        | TExpr::ParallelCast { operand, .. }
        | TExpr::Convert { operand, .. }
        | TExpr::Promote { operand, .. }
        | TExpr::Brackets { inner: operand, .. }
        | TExpr::Element { index: operand, .. }
        | TExpr::Scan {
            source: operand,
            ..
        } => is_quiet(operand),
        TExpr::Binary { left, right, .. }
        | TExpr::LogicalOr { left, right, .. }
        | TExpr::LogicalAnd { left, right, .. } => is_quiet(left) && is_quiet(right),
        TExpr::Choice {
            test,
            then,
            otherwise,
            ..
        } => is_quiet(test) && is_quiet(then) && is_quiet(otherwise),
        TExpr::LeftIndex { indexes, .. } => are_quiet(indexes.as_slice()),
        TExpr::Assign { .. }
        | TExpr::Step { .. }
        | TExpr::Call { .. }
        | TExpr::Printf { .. }
        | TExpr::GetChar { .. } => false,
    }
}

/// Whether all expressions of a list are quiet.
#[cycle(quiet)]
#[tactic(auto, unfolding(crate::specs::Operands::all_quiet))]
pub fn are_quiet(es: &[TExpr]) -> bool
    ensures { result ≡ all_quiet es.now }
{
    for e in es {
        if !is_quiet(e) {
            return false;
        }
    }
    true
}

/// Whether the expression has the same value under every context, with nothing changed and no fault.
#[tactic(auto, unfolding(crate::specs::Operands::ignores_context))]
pub fn ignores_context(e: &TExpr) -> bool
    ensures { result ≡ ignores_context e.now }
{
    match e {
        TExpr::Variable { .. }
        | TExpr::Number { .. }
        | TExpr::Dot { .. }
        | TExpr::Pcoord { .. }
        | TExpr::PositionsOf { .. }
        | TExpr::RankOf { .. }
        | TExpr::DimOf { .. } => true,
        TExpr::Unary { operand, .. }
        | TExpr::Casts { operand, .. }
        | TExpr::ParallelCast { operand, .. }
        | TExpr::Convert { operand, .. }
        | TExpr::Promote { operand, .. }
        | TExpr::Brackets { inner: operand, .. } => ignores_context(operand),
        TExpr::Binary {
            op,
            left,
            right,
            ..
        } => !divides(*op) && ignores_context(left) && ignores_context(right),
        TExpr::LogicalOr { left, right, .. } | TExpr::LogicalAnd { left, right, .. } => {
            ignores_context(left) && ignores_context(right)
        }
        TExpr::Choice {
            test,
            then,
            otherwise,
            ..
        } => ignores_context(test) && ignores_context(then) && ignores_context(otherwise),
        _ => false,
    }
}

/// The variable in whose own register or field the value stands: a scalar one, or a parallel one of
/// 32 bits.
#[tactic(auto, unfolding(crate::specs::Operands::own_of))]
pub fn own_of(bits: u8, e: &TExpr) -> Option<Own>
    ensures { result ≡ own_of bits e.now }
{
    match e {
        TExpr::Variable { ty, variable } if ty.shape.is_none() || bits <= ty.elem.bits => {
            Some(Own {
                shape: ty.shape,
                variable: *variable,
            })
        }
        TExpr::Brackets { inner: operand, .. } | TExpr::Promote { operand, .. } => {
            own_of(bits, operand)
        }
        TExpr::Convert { ty, operand } if is_unchanged(bits, ty.elem, stays_scalar(operand)) =>
            own_of(bits, operand),
        _ => None,
    }
}

/// The register of a variable, or so many bits of its field.
#[tactic(auto, unfolding(lower_base::specs::Drafts::IsMade, crate::specs::Operands::standing, lower_base::specs::Drafts::then_make))]
pub fn standing(view: &View, bits: u8, own: Own, u: &mut Unit) -> Result<Operand, Memory>
    requires made { IsMade (standing view.now.typed.now (layout view.now.names) bits own (draft u.old)) }
    ensures draft { IfOk result (λ v. standing view.now.typed.now (layout view.now.names) bits own (draft u.old) ≡ Makes (out_of v) (draft u.new)) }
{
    match own.shape {
        None => Ok(Operand::Register(view.register(own.variable)?)),
        Some(_) => {
            let field = view.field(own.variable, 0, u)?;
            Ok(Operand::Field(first_bits(bits, field)))
        }
    }
}

/// The register in which the word of a scalar constant stands, if it is one of the program's.
#[tactic(auto, unfolding(crate::specs::Operands::held))]
pub fn held(view: &View, e: &TExpr) -> Result<Option<u32>, Memory>
    ensures { IfOk result (λ r. r ≡ held (layout view.now.names) e.now) }
{
    match register_word(e) {
        Some(word) => view.constant_register(word),
        None => Ok(None),
    }
}

/// An operand is used where it stands if all is quiet that is evaluated before its use.
#[tactic(auto, unfolding(crate::specs::Operands::in_place))]
pub fn in_place(bits: u8, quiet: bool, e: &TExpr) -> Option<Own>
    ensures { result ≡ in_place bits quiet e.now }
{
    if quiet { own_of(bits, e) } else { None }
}

/// Whether the operator is `+`, which has no code.
#[tactic(auto, unfolding(crate::specs::Operands::is_plus))]
pub fn is_plus(op: UnaryOp) -> bool
    ensures { result ≡ is_plus op }
{
    matches!(op, UnaryOp::Plus)
}
