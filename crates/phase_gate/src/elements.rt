//! What the elementwise instructions compute at one processor.

ghost use Rattle.std.specs.Prelude.{◌≡◌, ◌+◌, ◌*◌, ◌<◌, ◌%◌, ◌^◌, length, slice_index, All};
ghost use Rattle.vp_sets.specs.Positions.{position_count, number_at};
ghost use Rattle.paris_code.specs.Arguments.{konst_number, coordinate_number, coordinate_numbers, behind_coordinate};
ghost use Rattle.paris_code.specs.Elementwise.{element, destination};
ghost use Rattle.paris_code.specs.Operands.{registers_of_konst};
ghost use Rattle.phase_meaning.specs.Apply.{CanApply, IsPosition, IsCoordinateAt, active_set};

use crate::row_phases::RowPhases;
use paris_code::{Coordinate, Instr, Konst};
use phase_meaning::arith::{holds, mask, operate};

/// The number of an operand, of which the argument is the register's value.
pub(crate) fn konst(k: Konst, args: &[u32]) -> u32
    requires { length args.now ≡ length (registers_of_konst k) }
    ensures { result ≡ konst_number k args.now }
{
    match k {
        Konst::Imm(n) => n,
        Konst::Reg(_) => args[0],
    }
}

/// The next argument, for an operand that is a register.
pub(crate) fn next(args: &[u32]) -> u32
    ensures { result ≡ slice_index args.now 0 }
{
    args.first().copied().unwrap_or(0)
}

/// The arguments behind those that a coordinate takes.
pub(crate) fn behind(coordinate: Coordinate, args: &[u32]) -> &[u32]
    ensures { result.now ≡ behind_coordinate coordinate args.now }
{
    match coordinate {
        Coordinate::Field(_) => args,
        Coordinate::Reg(_) => match args.split_first() {
            Some((_, rest)) => rest,
            None => args,
        },
    }
}

impl RowPhases {
    ghost use Rattle.phase_gate.specs.Rows.{shape_of_rows, sets_of, memory_of};

    /// A coordinate of an address at a processor; a register's is the next argument.
    fn coordinate(&self, coordinate: Coordinate, args: &[u32], position: u32) -> u32
        requires { IsCoordinateAt (sets_of self.now) position coordinate }
        ensures { result ≡ coordinate_number (memory_of self.now) coordinate args.now position }
    {
        match coordinate {
            Coordinate::Field(f) => self.field(f, position),
            Coordinate::Reg(_) => next(args),
        }
    }

    /// Goes on with the row-major number of coordinates, modulo 2 to the 32.
    fn address(
        &self,
        extents: &[u32],
        list: &[Coordinate],
        args: &[u32],
        position: u32,
        number: u32,
    ) -> u32
        requires fields { All (IsCoordinateAt (sets_of self.now) position) list.now }
        requires rank { length list.now ≡ length extents.now }
        ensures { result ≡ (number * position_count extents.now + number_at extents.now (coordinate_numbers (memory_of self.now) list.now args.now position)) % 2 ^ 32 }
    {
        match (extents.split_first(), list.split_first()) {
            (Some((extent, later)), Some((first, rest))) => {
                let x = self.coordinate(*first, args, position);
                let next = number.wrapping_mul(*extent).wrapping_add(x);
                self.address(later, rest, behind(*first, args), position, next)
            }
            _ => number,
        }
    }

    /// What an elementwise instruction gives its destination at a processor.
    #[tactic(auto, using(phase_meaning::proofs::FieldLemmas::lies, phase_meaning::proofs::FieldLemmas::same_positions, phase_meaning::proofs::FieldLemmas::coordinates_at))]
    pub(crate) fn element(&self, instr: &Instr, args: &[u32], position: u32) -> u32
        requires can { CanApply (sets_of self.now) instr.now args.now }
        requires position { IsPosition (sets_of self.now) (active_set instr.now) position }
        ensures { let len = (destination (sets_of self.now) instr.now).len in
            result % 2 ^ len ≡ element (sets_of self.now) instr.now args.now (memory_of self.now) position % 2 ^ len }
    {
        match instr {
            Instr::Move { signed, source, .. } => self.word(*signed, *source, position),
            Instr::MoveConstant { value, .. } => konst(*value, args),
            Instr::MoveAlways { source, .. } => self.field(*source, position),
            Instr::MyNewsCoordinate { dest, axis } => {
                self.rows(dest.set).geometry.coord(position, *axis)
            }
            Instr::MakeAddress {
                set,
                coordinates,
                ..
            } => {
                let geometry = self.rows(*set).geometry;
                self.address(
                    geometry.extents(),
                    coordinates.as_slice(),
                    args,
                    position,
                    0,
                )
            }
            Instr::Operate {
                op,
                dest,
                left,
                right,
            } => {
                let a = self.field(*left, position);
                operate(*op, dest.len, a, self.field(*right, position))
            }
            Instr::OperateConstant {
                op,
                dest,
                left,
                right,
            } => {
                let a = self.field(*left, position);
                operate(*op, dest.len, a, konst(*right, args) & mask(dest.len))
            }
            Instr::Negate { source, .. } => self.field(*source, position).wrapping_neg(),
            Instr::Lognot { source, .. } => !self.field(*source, position),
            Instr::LoadContext { source } | Instr::LoadTest { source } => {
                self.field(*source, position)
            }
            Instr::Compare {
                relation,
                left,
                right,
            } => {
                let a = self.field(*left, position);
                u32::from(holds(*relation, left.len, a, self.field(*right, position)))
            }
            Instr::EqZero { source } => u32::from(self.field(*source, position) == 0),
            Instr::NeZero { source } => u32::from(self.field(*source, position) != 0),
            Instr::StoreTest { dest } => u32::from(self.is_tested(dest.set, position)),
            Instr::StoreContext { dest } => u32::from(self.is_active(dest.set, position)),
            Instr::SetContext { .. } => 1,
            Instr::LogandContextWithTest { set } => {
                u32::from(self.is_active(*set, position) & self.is_tested(*set, position))
            }
            Instr::LogandcContextWithTest { set } => {
                u32::from(self.is_active(*set, position) & !self.is_tested(*set, position))
            }
            _ => 0,
        }
    }
}
