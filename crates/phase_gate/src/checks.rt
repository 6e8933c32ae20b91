//! Checks: the least active processor that fails.

ghost use Rattle.std.specs.Prelude.{ℕ, ◌≡◌, ◌<◌, ◌&&◌, ◌==◌, length, All, IfSome, MatchOption, true, false};
ghost use Rattle.paris_code.specs.Arguments.{coordinate_whole, behind_konst};
ghost use Rattle.paris_code.specs.Checking.{any_outside, any_leaves, is_outside, is_signed, set_of_coordinates};
ghost use Rattle.paris_code.specs.Shapes.{extents_at};
ghost use Rattle.paris_code.specs.Meaning.{bad_or_nothing, reply_of};
ghost use Rattle.paris_code.specs.Memory.{field_number, is_active, processors};
ghost use Rattle.cstar_base.specs.Orders.{least_below};
ghost use Rattle.paris_code.specs.Operands.{coordinate_of};
ghost use Rattle.paris_code.specs.RuleSet.{IsAxis, axis_of};
ghost use Rattle.phase_meaning.specs.Apply.{CanApply, IsCoordinateAt, IsPosition, LiesIn, ReplyFits, is_check};

use crate::elements::{behind, next};
use crate::row_phases::RowPhases;
use paris_code::{Coordinate, Field, GridStep, Instr, Konst, Reply, SignedCoordinate};
use phase_meaning::arith::{signed, whole};

/// The arguments behind those that a step takes.
fn behind_step(step: Konst, args: &[u32]) -> &[u32]
    ensures { result.now ≡ behind_konst step args.now }
{
    match step {
        Konst::Imm(_) => args,
        Konst::Reg(_) => match args.split_first() {
            Some((_, rest)) => rest,
            None => args,
        },
    }
}

/// The reply that tells the least processor whose check fails, if there is one.
fn answer(failing: Option<u32>) -> Reply
    ensures { result ≡ bad_or_nothing failing }
{
    match failing {
        None => Reply::Nothing,
        Some(position) => Reply::Bad { position },
    }
}

/// Whether a whole number is no coordinate of an axis with this extent.
#[tactic(auto, unfolding(paris_code::specs::Checking::is_outside))]
fn is_outside(extent: u32, number: i64) -> bool
    ensures { result ≡ is_outside extent number }
{
    (number < 0) | (i64::from(extent) <= number)
}

/// The set whose processors check these coordinates: that of the first field, or else the target's.
fn checking_set(target: u16, list: &[SignedCoordinate]) -> u16
    ensures { result ≡ set_of_coordinates target list.now }
{
    match list.split_first() {
        None => target,
        Some((first, rest)) => match first.coordinate {
            Coordinate::Field(f) => f.set,
            Coordinate::Reg(_) => checking_set(target, rest),
        },
    }
}

impl RowPhases {
    ghost use Rattle.phase_gate.specs.Rows.{sets_of, memory_of};

    /// A coordinate of a processor as a whole number; a register's is the next argument.
    fn whole_coordinate(&self, checked: SignedCoordinate, args: &[u32], position: u32) -> i64
        requires { IsCoordinateAt (sets_of self.now) position (coordinate_of checked) }
        ensures { result ≡ coordinate_whole (memory_of self.now) (is_signed checked) (coordinate_of checked) args.now position }
    {
        match checked.coordinate {
            Coordinate::Field(f) => whole(checked.signed, self.word(checked.signed, f, position)),
            Coordinate::Reg(_) => whole(checked.signed, next(args)),
        }
    }

    /// Whether a coordinate of a processor is outside its extent.
    fn any_outside(
        &self,
        extents: &[u32],
        list: &[SignedCoordinate],
        args: &[u32],
        position: u32,
    ) -> bool
        requires { All (λ c. IsCoordinateAt (sets_of self.now) position (coordinate_of c)) list.now }
        ensures { result ≡ any_outside (memory_of self.now) extents.now list.now args.now position }
    {
        match (extents.split_first(), list.split_first()) {
            (Some((extent, later)), Some((first, rest))) => {
                let here = is_outside(*extent, self.whole_coordinate(*first, args, position));
                here | self.any_outside(later, rest, behind(first.coordinate, args), position)
            }
            _ => false,
        }
    }

    /// The least active processor that has a coordinate outside.
    fn check_target(
        &self,
        own: u16,
        set: u16,
        list: &[SignedCoordinate],
        args: &[u32],
    ) -> Option<u32>
        requires own { own < length (sets_of self.now) }
        requires set { set < length (sets_of self.now) }
        requires fields { (p : ℕ) → p < processors (sets_of self.now) own → All (λ c. IsCoordinateAt (sets_of self.now) p (coordinate_of c)) list.now }
        ensures { result ≡ least_below (λ p. is_active (sets_of self.now) (memory_of self.now) own p && any_outside (memory_of self.now) (extents_at (sets_of self.now) set) list.now args.now p) (processors (sets_of self.now) own) }
    {
        let geometry = self.rows(set).geometry;
        'positions: for position in 0..self.positions(own) {
            let outside = self.any_outside(geometry.extents(), list, args, position);
            if self.is_active(own, position) & outside {
                return Some(position);
            }
        }
        None
    }

    /// Whether a step from a processor leads out of the grid.
    fn any_leaves(&self, set: u16, steps: &[GridStep], args: &[u32], position: u32) -> bool
        requires position { IsPosition (sets_of self.now) set position }
        requires axes { All (λ s. IsAxis (sets_of self.now) set (axis_of s)) steps.now }
        ensures { result ≡ any_leaves (extents_at (sets_of self.now) set) steps.now args.now position }
    {
        match steps.split_first() {
            None => false,
            Some((step, rest)) => {
                let geometry = self.rows(set).geometry;
                let by = match step.step {
                    Konst::Imm(n) => n,
                    Konst::Reg(_) => next(args),
                };
                let own = i64::from(geometry.coord(position, step.axis));
                let here = is_outside(geometry.extent(step.axis), own + i64::from(signed(by)));
                here | self.any_leaves(set, rest, behind_step(step.step, args), position)
            }
        }
    }

    /// The least active processor that a step leads out of the grid.
    fn check_grid(&self, set: u16, steps: &[GridStep], args: &[u32]) -> Option<u32>
        requires set { set < length (sets_of self.now) }
        requires axes { All (λ s. IsAxis (sets_of self.now) set (axis_of s)) steps.now }
        ensures { result ≡ least_below (λ p. is_active (sets_of self.now) (memory_of self.now) set p && any_leaves (extents_at (sets_of self.now) set) steps.now args.now p) (processors (sets_of self.now) set) }
    {
        'positions: for position in 0..self.positions(set) {
            let leaves = self.any_leaves(set, steps, args, position);
            if self.is_active(set, position) & leaves {
                return Some(position);
            }
        }
        None
    }

    /// The least active processor at which the field is 0.
    fn check_divisor(&self, source: Field) -> Option<u32>
        requires { LiesIn (sets_of self.now) source }
        ensures { result ≡ least_below (λ p. is_active (sets_of self.now) (memory_of self.now) source.set p && (field_number (memory_of self.now) source p == 0)) (processors (sets_of self.now) source.set) }
    {
        'positions: for position in 0..self.positions(source.set) {
            let zero = self.field(source, position) == 0;
            if self.is_active(source.set, position) & zero {
                return Some(position);
            }
        }
        None
    }

    /// The reply to an instruction that checks; none to another.
    #[tactic(auto, using(phase_meaning::proofs::FieldLemmas::lies, phase_meaning::proofs::FieldLemmas::own_exists))]
    pub(crate) fn check(&self, instr: &Instr, args: &[u32]) -> Option<Reply>
        requires { CanApply (sets_of self.now) instr.now args.now }
        ensures checks { MatchOption result (is_check instr.now ≡ false) (λ reply. is_check instr.now ≡ true) }
        ensures fits { IfSome result (λ reply. ReplyFits instr.now reply) }
        ensures least { IfSome result (λ reply. reply ≡ reply_of (sets_of self.now) instr.now args.now (memory_of self.now)) }
    {
        match instr {
            Instr::CheckTarget {
                set,
                coordinates,
                ..
            } => {
                let list = coordinates.as_slice();
                Some(answer(self.check_target(checking_set(*set, list), *set, list, args)))
            }
            Instr::CheckGrid { set, steps, .. } => {
                Some(answer(self.check_grid(*set, steps.as_slice(), args)))
            }
            Instr::CheckDivisor { source, .. } => Some(answer(self.check_divisor(*source))),
            _ => None,
        }
    }
}
