//! Programs over virtual fields, and linked images.

use crate::instr::Instr;
use crate::operands::Field;
use cstar_base::{Elem, Word};

/// Whose bits an entry of a unit's fields has: the file's field of this number, bits of its own, or
/// those of another unit's entry.
#[derive(Clone, Copy, PartialEq, Eq)]
pub enum Owner {
    File(u32),
    Own,
    Of { unit: u32, index: u32 },
}

/// An entry of a unit's fields, before it has a place.
#[derive(Clone, Copy, PartialEq, Eq)]
pub struct Virtual {
    pub set: u16,
    pub len: u8,
    pub owner: Owner,
}

/// The code of one instance of a function. Registers from `regs` on are free; `homes` names the
/// first entry of each parallel variable of its blocks, in order of declaration.
#[derive(Drop)]
pub struct Unit {
    pub name: Word,
    pub regs: u32,
    pub homes: Vec<u32>,
    pub fields: Vec<Virtual>,
    pub code: Vec<Instr>,
}

/// A virtual processor set: the extents of its shape, and the bits of each processor.
#[derive(Drop)]
pub struct ShapeBits {
    pub extents: Vec<u32>,
    pub bits: u32,
}

/// A file-scope parallel variable, or one element of an array of them.
#[derive(Drop)]
pub struct Final {
    pub name: Word,
    pub elem: Elem,
    pub field: Field,
}

/// Units whose jump targets count from their own start. `slots` is the number of registers, and
/// `depth` the greatest number of calls that are open at once.
#[derive(Drop)]
pub struct Program {
    pub shapes: Vec<ShapeBits>,
    pub slots: u32,
    pub depth: u32,
    pub units: Vec<Unit>,
    pub finals: Vec<Final>,
}

/// Where a unit begins in an image's code.
#[derive(Drop)]
pub struct Entry {
    pub name: Word,
    pub start: u32,
}

/// One list of code for all units, over bit fields.
#[derive(Drop)]
pub struct Image {
    pub shapes: Vec<ShapeBits>,
    pub slots: u32,
    pub depth: u32,
    pub units: Vec<Entry>,
    pub finals: Vec<Final>,
    pub code: Vec<Instr>,
}

/// What the phases answer to an instruction: nothing, the value of its result register, the least
/// processor whose check failed, or want of memory.
#[derive(Clone, Copy, Debug, PartialEq, Eq)]
pub enum Reply {
    Nothing,
    Value(u32),
    Bad { position: u32 },
    Memory,
}
