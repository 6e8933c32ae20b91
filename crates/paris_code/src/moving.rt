//! Instructions with their fields moved.

ghost use Rattle.std.specs.Prelude.{◌≡◌, map};
ghost use Rattle.paris_code.specs.Moving.{IsMoved, moved, moved_bit, moved_coordinate, moved_signed};

use crate::instr::Instr;
use crate::operands::{Coordinate, Field, SignedCoordinate};

impl Field {
    /// Moves the field to the place whose number its offset is.
    fn move_to(&mut self, places: &[u32])
        ensures { self.new ≡ moved places.now self.old }
    {
        let number = self.offset as usize;
        self.offset = if number < places.len() {
            places[number]
        } else {
            0
        };
    }
}

impl Coordinate {
    fn moved(self, places: &[u32]) -> Coordinate
        ensures { result ≡ moved_coordinate places.now self }
    {
        match self {
            Coordinate::Field(mut field) => {
                field.move_to(places);
                Coordinate::Field(field)
            }
            Coordinate::Reg(register) => Coordinate::Reg(register),
        }
    }
}

fn move_coordinates(coordinates: &mut [Coordinate], places: &[u32])
    ensures { coordinates.new ≡ map (moved_coordinate places.now) coordinates.old }
{
    for coordinate in coordinates.iter_mut() {
        *coordinate = coordinate.moved(places);
    }
}

fn move_signed(coordinates: &mut [SignedCoordinate], places: &[u32])
    ensures { coordinates.new ≡ map (moved_signed places.now) coordinates.old }
{
    for checked in coordinates.iter_mut() {
        checked.coordinate = checked.coordinate.moved(places);
    }
}

fn move_bit(bit: &mut Option<Field>, places: &[u32])
    ensures { bit.new ≡ moved_bit places.now bit.old }
{
    if let Some(field) = bit {
        field.move_to(places);
    }
}

fn move_two(one: &mut Field, other: &mut Field, places: &[u32])
    ensures one { one.new ≡ moved places.now one.old }
    ensures other { other.new ≡ moved places.now other.old }
{
    one.move_to(places);
    other.move_to(places);
}

impl Instr {
    /// Moves each field to the place whose number its offset is, or to 0 behind the end of the list.
    pub fn move_fields(&mut self, places: &[u32])
        ensures { IsMoved places.now self.old self.new }
    {
        match self {
            Instr::Move { dest, source, .. } => move_two(dest, source, places),
            Instr::MoveConstant { dest, .. } => dest.move_to(places),
            Instr::MoveZeroAlways { dest } => dest.move_to(places),
            Instr::MoveAlways { dest, source } => move_two(dest, source, places),
            Instr::MyNewsCoordinate { dest, .. } => dest.move_to(places),
            Instr::MakeAddress {
                dest,
                coordinates,
                ..
            } => {
                dest.move_to(places);
                move_coordinates(coordinates.as_mut_slice(), places);
            }
            Instr::Operate {
                dest,
                left,
                right,
                ..
            } => {
                dest.move_to(places);
                move_two(left, right, places);
            }
            Instr::OperateConstant { dest, left, .. } => move_two(dest, left, places),
            Instr::Negate { dest, source } => move_two(dest, source, places),
            Instr::Lognot { dest, source } => move_two(dest, source, places),
            Instr::Compare { left, right, .. } => move_two(left, right, places),
            Instr::EqZero { source } => source.move_to(places),
            Instr::NeZero { source } => source.move_to(places),
            Instr::LoadTest { source } => source.move_to(places),
            Instr::StoreTest { dest } => dest.move_to(places),
            Instr::LoadContext { source } => source.move_to(places),
            Instr::StoreContext { dest } => dest.move_to(places),
            Instr::CheckTarget { coordinates, .. } => {
                move_signed(coordinates.as_mut_slice(), places);
            }
            Instr::CheckDivisor { source, .. } => source.move_to(places),
            Instr::GetFromNews { dest, source, .. } => move_two(dest, source, places),
            Instr::GetFromNewsAlways { dest, source, .. } => move_two(dest, source, places),
            Instr::Get {
                dest,
                address,
                source,
            } => {
                dest.move_to(places);
                move_two(address, source, places);
            }
            Instr::SendWithOverwrite {
                dest,
                address,
                source,
                ..
            } => {
                dest.move_to(places);
                move_two(address, source, places);
            }
            Instr::SendWithCombiner {
                dest,
                address,
                source,
                ..
            } => {
                dest.move_to(places);
                move_two(address, source, places);
            }
            Instr::Global { source, .. } => source.move_to(places),
            Instr::Scan {
                dest,
                source,
                bit,
                ..
            } => {
                move_two(dest, source, places);
                move_bit(bit, places);
            }
            Instr::ReadFromProcessor { source, .. } => source.move_to(places),
            Instr::WriteToProcessor { dest, .. } => dest.move_to(places),
            Instr::SetContext { .. }
            | Instr::LogandContextWithTest { .. }
            | Instr::LogandcContextWithTest { .. }
            | Instr::CheckGrid { .. }
            | Instr::FrontConst { .. }
            | Instr::FrontMove { .. }
            | Instr::FrontOperate { .. }
            | Instr::FrontCompare { .. }
            | Instr::FrontNegate { .. }
            | Instr::FrontLognot { .. }
            | Instr::FrontConvert { .. }
            | Instr::FrontMakeAddress { .. }
            | Instr::FrontCheckTarget { .. }
            | Instr::FrontCheckDivisor { .. }
            | Instr::FrontJump { .. }
            | Instr::FrontJumpZero { .. }
            | Instr::FrontJumpNonzero { .. }
            | Instr::FrontTurn
            | Instr::FrontCall { .. }
            | Instr::FrontReturn
            | Instr::FrontPutBytes { .. }
            | Instr::FrontPut { .. }
            | Instr::FrontGetByte { .. }
            | Instr::FrontHalt => {}
        }
    }
}
