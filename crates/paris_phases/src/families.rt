//! Which instructions are done alike.

ghost use Rattle.std.specs.Prelude.{◌≡◌, true};
ghost use Rattle.paris_code.specs.Kinds.{is_parallel};
ghost use Rattle.paris_phases.specs.Families.{IsOf};

use paris_code::Instr;

/// How the machine does a parallel instruction.
#[derive(Clone, Copy)]
pub(crate) enum Family {
    /// Each position by its own bits: the elementwise instructions and the checks.
    Elementwise,
    /// Positions take what another position holds: gets, NEWS and single processors.
    Fetching,
    /// Reductions and scans.
    Folding,
    /// Messages are combined at their targets.
    Sending,
}

/// The family of a parallel instruction.
pub(crate) fn family_of(instr: &Instr) -> Family
    requires { is_parallel instr.now ≡ true }
    ensures { IsOf instr.now result }
{
    match instr {
        Instr::Move { .. }
        | Instr::MoveConstant { .. }
        | Instr::MoveZeroAlways { .. }
        | Instr::MoveAlways { .. }
        | Instr::MyNewsCoordinate { .. }
        | Instr::MakeAddress { .. }
        | Instr::Operate { .. }
        | Instr::OperateConstant { .. }
        | Instr::Negate { .. }
        | Instr::Lognot { .. }
        | Instr::Compare { .. }
        | Instr::EqZero { .. }
        | Instr::NeZero { .. }
        | Instr::LoadTest { .. }
        | Instr::StoreTest { .. }
        | Instr::LoadContext { .. }
        | Instr::StoreContext { .. }
        | Instr::SetContext { .. }
        | Instr::LogandContextWithTest { .. }
        | Instr::LogandcContextWithTest { .. }
        | Instr::CheckTarget { .. }
        | Instr::CheckGrid { .. }
        | Instr::CheckDivisor { .. } => Family::Elementwise,
        Instr::GetFromNews { .. }
        | Instr::GetFromNewsAlways { .. }
        | Instr::Get { .. }
        | Instr::ReadFromProcessor { .. }
        | Instr::WriteToProcessor { .. } => Family::Fetching,
        Instr::Global { .. } | Instr::Scan { .. } => Family::Folding,
        Instr::SendWithOverwrite { .. } | Instr::SendWithCombiner { .. } => Family::Sending,
        _ => unreachable!(),
    }
}
