//! The address of a left-indexed reference: the check of its indexes, and the making of it.

ghost use Rattle.std.specs.Prelude.{◌≡◌, ◌++◌, true, IfOk, OnOk, map};
ghost use Rattle.lower_base.specs.Drafts.{IsMade, IsSomewhere, Makes, draft, out_of};
ghost use Rattle.lower_comm.specs.Messages.{all_in_registers, all_somewhere, index_register, index_coordinate, signed_registers, signed_coordinates, front_located, each_located, located_at, checked_part, grid_steps, with_grid_check};

use crate::news::{NewsStep, step_of};
use cstar_base::{Memory, Place};
use cstar_tree::typed::TExpr;
use lower_base::emit::{Operand, Out, count, put};
use lower_base::operators::promoted_signed;
use paris_code::{
    Coordinate, Field, GridStep, Instr, Konst, RegisterCoordinate, SignedCoordinate, Unit,
};
use std::alloc::Global;

/// The indexes of a left-indexed reference: the place of their fault, the shape that they lead in, and
/// one expression for each of its axes.
#[derive(Clone, Copy)]
pub struct Indexes<'a> {
    pub place: Place,
    pub of: u16,
    pub each: &'a [TExpr],
}

impl Indexes<'_> {
    /// The range check of the indexes, whose values these are, and the making of the address at `at`.
    #[tactic(auto, unfolding(lower_base::specs::Drafts::IsMade, crate::specs::Messages::located_at))]
    pub fn locate(
        &self,
        alloc: Global,
        values: &[Out],
        at: Operand,
        u: &mut Unit,
    ) -> Result<(), Memory>
        requires made { IsMade (located_at self.now.place self.now.of self.now.each.now values.now (out_of at) (draft u.old)) }
        ensures draft { OnOk result (located_at self.now.place self.now.of self.now.each.now values.now (out_of at) (draft u.old) ≡ Makes (out_of at) (draft u.new)) }
    {
        match at {
            Operand::Register(dest) => self.front_locate(alloc, registers(alloc, values)?, dest, u),
            Operand::Field(dest) => self.each_locate(alloc, coordinates(alloc, values)?, dest, u),
        }
    }

    /// The check of scalar indexes, and the address from them.
    #[tactic(auto, unfolding(crate::specs::Messages::front_located, lower_base::specs::Drafts::with_instr, lower_base::specs::Drafts::step))]
    fn front_locate(
        &self,
        alloc: Global,
        registers: Vec<u32>,
        dest: u32,
        u: &mut Unit,
    ) -> Result<(), Memory>
        ensures draft { OnOk result (front_located self.now.place self.now.of self.now.each.now registers.items dest (draft u.old) ≡ draft u.new) }
    {
        let checked = signed_registers(alloc, self.each, &registers)?;
        put(
            u,
            Instr::FrontCheckTarget {
                set: self.of,
                place: self.place,
                coordinates: checked,
            },
        )?;
        put(
            u,
            Instr::FrontMakeAddress {
                dest,
                set: self.of,
                coordinates: registers,
            },
        )
    }

    /// The check of parallel indexes, and the address from them.
    #[tactic(auto, unfolding(crate::specs::Messages::each_located, lower_base::specs::Drafts::with_instr, lower_base::specs::Drafts::step))]
    fn each_locate(
        &self,
        alloc: Global,
        coordinates: Vec<Coordinate>,
        dest: Field,
        u: &mut Unit,
    ) -> Result<(), Memory>
        ensures draft { OnOk result (each_located self.now.place self.now.of self.now.each.now coordinates.items dest (draft u.old) ≡ draft u.new) }
    {
        let checked = signed_coordinates(alloc, self.each, &coordinates)?;
        put(
            u,
            Instr::CheckTarget {
                set: self.of,
                place: self.place,
                coordinates: checked,
            },
        )?;
        put(
            u,
            Instr::MakeAddress {
                dest,
                set: self.of,
                coordinates,
            },
        )
    }

    /// The range check of a get by NEWS to the positions of a set: its steps along the axes that do
    /// not wrap.
    #[tactic(auto, unfolding(crate::specs::Messages::with_grid_check, lower_base::specs::Drafts::with_instr, lower_base::specs::Drafts::step))]
    pub fn check_grid(&self, alloc: Global, set: u16, u: &mut Unit) -> Result<(), Memory>
        ensures draft { OnOk result (with_grid_check set self.now.place (grid_steps self.now.of 0 self.now.each.now) (draft u.old) ≡ draft u.new) }
    {
        let steps = grid_steps(alloc, self.of, self.each)?;
        if steps.is_empty() {
            return Ok(());
        }
        put(
            u,
            Instr::CheckGrid {
                set,
                place: self.place,
                steps,
            },
        )
    }
}

/// The registers of scalar indexes.
#[tactic(auto, unfolding(crate::specs::Messages::index_register, crate::specs::Messages::all_in_registers, lower_base::specs::Drafts::InRegister))]
fn registers(alloc: Global, indexes: &[Out]) -> Result<Vec<u32>, Memory>
    requires { all_in_registers indexes.now ≡ true }
    ensures { IfOk result (λ registers. registers.items ≡ map index_register indexes.now) }
{
    let mut registers = Vec::new(alloc);
    for index in indexes {
        let register = index.register();
        registers.push(register)?;
    }
    Ok(registers)
}

/// The coordinates of parallel indexes.
#[tactic(auto, unfolding(crate::specs::Messages::all_somewhere, lower_base::specs::Drafts::IsSomewhere))]
fn coordinates(alloc: Global, indexes: &[Out]) -> Result<Vec<Coordinate>, Memory>
    requires { all_somewhere indexes.now ≡ true }
    ensures { IfOk result (λ coordinates. coordinates.items ≡ map index_coordinate indexes.now) }
{
    let mut coordinates = Vec::new(alloc);
    for index in indexes {
        let coordinate = index_coordinate(*index);
        coordinates.push(coordinate)?;
    }
    Ok(coordinates)
}

#[tactic(auto, unfolding(crate::specs::Messages::index_coordinate, lower_base::specs::Drafts::IsSomewhere))]
fn index_coordinate(index: Out) -> Coordinate
    requires { IsSomewhere index }
    ensures { result ≡ index_coordinate index }
{
    match index {
        Out::Scalar(register) => Coordinate::Reg(register),
        Out::Field(field) => Coordinate::Field(field),
        Out::Nothing => unreachable!(),
    }
}

/// Registers as they are checked, as many as there are, each read by the sign of its index.
#[tactic(auto, unfolding(crate::specs::Messages::signed_registers))]
fn signed_registers(
    alloc: Global,
    indexes: &[TExpr],
    registers: &[u32],
) -> Result<Vec<RegisterCoordinate>, Memory>
    ensures { IfOk result (λ checked. checked.items ≡ signed_registers indexes.now registers.now) }
{
    let mut checked = Vec::new(alloc);
    for (axis, index) in indexes.iter().enumerate() {
        let Some(register) = registers.get(axis) else {
            break;
        };
        let signed = promoted_signed(index.ty().elem);
        checked.push(RegisterCoordinate {
            register: *register,
            signed,
        })?;
    }
    Ok(checked)
}

/// Coordinates as they are checked, as many as there are, each read by the sign of its index.
#[tactic(auto, unfolding(crate::specs::Messages::signed_coordinates))]
fn signed_coordinates(
    alloc: Global,
    indexes: &[TExpr],
    coordinates: &[Coordinate],
) -> Result<Vec<SignedCoordinate>, Memory>
    ensures { IfOk result (λ checked. checked.items ≡ signed_coordinates indexes.now coordinates.now) }
{
    let mut checked = Vec::new(alloc);
    for (axis, index) in indexes.iter().enumerate() {
        let Some(coordinate) = coordinates.get(axis) else {
            break;
        };
        let signed = promoted_signed(index.ty().elem);
        checked.push(SignedCoordinate {
            coordinate: *coordinate,
            signed,
        })?;
    }
    Ok(checked)
}

/// The steps that may lead out of the grid.
#[tactic(auto, unfolding(crate::specs::Messages::grid_steps))]
fn grid_steps(alloc: Global, of: u16, indexes: &[TExpr]) -> Result<Vec<GridStep>, Memory>
    ensures { IfOk result (λ steps. steps.items ≡ grid_steps of 0 indexes.now) }
{
    let mut steps = Vec::new(alloc);
    for (axis, index) in indexes.iter().enumerate() {
        let step = step_of(of, axis, index);
        add_checked(count(axis)?, step, &mut steps)?;
    }
    Ok(steps)
}

/// One step more, if it is checked.
#[tactic(auto, unfolding(crate::specs::Messages::checked_part))]
fn add_checked(axis: u32, step: Option<NewsStep>, steps: &mut Vec<GridStep>) -> Result<(), Memory>
    ensures { OnOk result (steps.new.items ≡ steps.old.items ++ checked_part axis step) }
{
    let Some(step) = step else {
        return Ok(());
    };
    if step.checked {
        steps.push(GridStep {
            axis,
            step: Konst::Imm(step.by),
        })?;
    }
    Ok(())
}
