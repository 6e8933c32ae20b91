//! Where an elementwise instruction writes.

ghost use Rattle.std.specs.Prelude.{◌≡◌, ◌<◌, true, false, map, length, All, MatchOption};
ghost use Rattle.paris_code.specs.Elementwise.{is_elementwise, destination, writes_always};
ghost use Rattle.paris_code.specs.Memory.{bit_run, context_run, test_run};
ghost use Rattle.paris_code.specs.Shapes.{bits_at, extents_at};
ghost use Rattle.paris_code.specs.Sound.{IsShape};
ghost use Rattle.phase_meaning.specs.Apply.{CanApply};
ghost use Rattle.block_store.specs.Stored.{shape_of_plan};

use block_store::SetPlan;
use paris_code::{Field, Instr};

/// A run of bits that is written at the active positions, or at all.
#[derive(Clone, Copy)]
pub(crate) struct Written {
    pub run: Field,
    pub always: bool,
}

/// A flag, as the run of its one bit.
fn flag(set: u16, offset: u32) -> Field
    ensures { result ≡ bit_run set offset }
{
    Field {
        set,
        offset,
        len: 1,
    }
}

/// What a set was made after.
pub(crate) fn plan_of(plans: &[SetPlan], set: u16) -> &SetPlan
    requires { set < length plans.now }
    ensures extents { result.now.geometry ≡ extents_at (map shape_of_plan plans.now) set }
    ensures bits { result.now.bits ≡ bits_at (map shape_of_plan plans.now) set }
{
    &plans[usize::from(set)]
}

/// The context flag of a set.
fn context_of(plans: &[SetPlan], set: u16) -> Field
    requires { set < length plans.now }
    ensures { result ≡ context_run (map shape_of_plan plans.now) set }
{
    flag(set, plan_of(plans, set).bits)
}

/// The test flag of a set.
fn test_of(plans: &[SetPlan], set: u16) -> Field
    requires exists { set < length plans.now }
    requires grids { All IsShape (map shape_of_plan plans.now) }
    ensures { result ≡ test_run (map shape_of_plan plans.now) set }
{
    flag(set, plan_of(plans, set).bits + 1)
}

/// Where an elementwise instruction writes; none for another.
#[tactic(auto, using(phase_meaning::proofs::FieldLemmas::lies))]
pub(crate) fn written_by(plans: &[SetPlan], instr: &Instr, args: &[u32]) -> Option<Written>
    requires can { CanApply (map shape_of_plan plans.now) instr.now args.now }
    requires grids { All IsShape (map shape_of_plan plans.now) }
    ensures { MatchOption result (is_elementwise instr.now ≡ false)
        (λ w. (is_elementwise instr.now ≡ true) × (w.run ≡ destination (map shape_of_plan plans.now) instr.now) × (w.always ≡ writes_always instr.now)) }
{
    let (run, always) = match instr {
        Instr::MoveZeroAlways { dest }
        | Instr::MoveAlways { dest, .. }
        | Instr::StoreContext { dest } => (*dest, true),
        Instr::Move { dest, .. }
        | Instr::MoveConstant { dest, .. }
        | Instr::MyNewsCoordinate { dest, .. }
        | Instr::MakeAddress { dest, .. }
        | Instr::Operate { dest, .. }
        | Instr::OperateConstant { dest, .. }
        | Instr::Negate { dest, .. }
        | Instr::Lognot { dest, .. }
        | Instr::StoreTest { dest } => (*dest, false),
        Instr::LoadContext { source } => (context_of(plans, source.set), true),
        Instr::SetContext { set } => (context_of(plans, *set), true),
        Instr::LogandContextWithTest { set } | Instr::LogandcContextWithTest { set } => {
            (context_of(plans, *set), false)
        }
        Instr::Compare { left, .. } => (test_of(plans, left.set), false),
        Instr::EqZero { source } | Instr::NeZero { source } | Instr::LoadTest { source } => {
            (test_of(plans, source.set), false)
        }
        _ => return None,
    };
    Some(Written { run, always })
}
