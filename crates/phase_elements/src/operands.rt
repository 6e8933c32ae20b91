//! The values of operands that are registers.

ghost use Rattle.std.specs.Prelude.{◌≡◌, drop, length, slice_index};
ghost use Rattle.paris_code.specs.Arguments.{konst_number, behind_coordinate, behind_konst};
ghost use Rattle.paris_code.specs.Operands.{registers_of_konst};

use paris_code::{Coordinate, Konst};

/// The number of an operand, of which the argument is the register's value.
pub fn konst(k: Konst, args: &[u32]) -> u32
    requires { length args.now ≡ length (registers_of_konst k) }
    ensures { result ≡ konst_number k args.now }
{
    match k {
        Konst::Imm(n) => n,
        Konst::Reg(_) => args[0],
    }
}

/// The next argument, for an operand that is a register.
pub fn next(args: &[u32]) -> u32
    ensures { result ≡ slice_index args.now 0 }
{
    args.first().copied().unwrap_or(0)
}

/// The arguments behind the next one.
fn behind_next(args: &[u32]) -> &[u32]
    ensures { result.now ≡ drop 1 args.now }
{
    match args.split_first() {
        Some((_, rest)) => rest,
        None => args,
    }
}

/// The arguments behind those that a coordinate takes.
pub fn behind(coordinate: Coordinate, args: &[u32]) -> &[u32]
    ensures { result.now ≡ behind_coordinate coordinate args.now }
{
    match coordinate {
        Coordinate::Field(_) => args,
        Coordinate::Reg(_) => behind_next(args),
    }
}

/// The arguments behind those that a step takes.
pub fn behind_step(step: Konst, args: &[u32]) -> &[u32]
    ensures { result.now ≡ behind_konst step args.now }
{
    match step {
        Konst::Imm(_) => args,
        Konst::Reg(_) => behind_next(args),
    }
}
