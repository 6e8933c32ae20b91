//! Instructions, from their names and operands.

use crate::operands::{Checked, CheckedRegisters, Coordinates, Registers, Steps, push};
use crate::words::{Stop, Words};
use paris_code::Instr;
use paris_text::{Keyword, instructions, keyword_of};
use std::alloc::Global;

/// The value of the keyword between the two ends of a mnemonic.
fn keyword_between<K: Keyword>(name: &[u8], head: &[u8], tail: &[u8]) -> Option<K> {
    keyword_of(name.strip_prefix(head)?.strip_suffix(tail)?)
}

/// The keyword in the middle of a mnemonic that is this one, or `()` where it has none.
macro_rules! named {
    ($name:ident $whole:literal) => { ($name == $whole.as_slice()).then_some(()) };
    ($name:ident $head:literal $tail:literal) => { keyword_between($name, $head, $tail) };
}

/// The next operand, which is of a kind.
macro_rules! operand {
    ($words:ident Field) => { $words.field()? };
    ($words:ident Register) => { $words.marked(b'r')? };
    ($words:ident Immediate) => { $words.marked(b'#')? };
    ($words:ident Konst) => { $words.konst()? };
    ($words:ident Target) => { $words.marked(b'@')? };
    ($words:ident Unit) => { $words.marked(b'u')? };
    ($words:ident Set) => { $words.set()? };
    ($words:ident Axis) => { $words.marked(b'a')? };
    ($words:ident Place) => { $words.place()? };
    ($words:ident Kind) => { $words.kind()? };
    ($words:ident Direction) => { $words.keyword()? };
    ($words:ident Mode) => { $words.keyword()? };
    ($words:ident Bit) => { $words.bit()? };
    ($words:ident Inclusion) => { $words.keyword()? };
}

/// The operands that are left, of a kind.
macro_rules! list {
    ($words:ident $alloc:ident Bytes) => { $words.bytes($alloc)? };
    ($words:ident $alloc:ident $kind:ident) => { $words.list::<_, $kind>($alloc)? };
}

/// Where the name is that of a row, reads the operands, adds the instruction to the code and
/// returns.
macro_rules! read {
    (
        ($alloc:ident $name:ident $words:ident $code:ident)
        $(
            $variant:ident = $head:literal $($keyword:ident $tail:literal)?
            ($($operand:ident: $kind:ident),* $(; $list:ident: $lists:ident)?);
        )*
    ) => {
        $(
            if let Some(($($keyword)?)) = named!($name $head $($tail)?) {
                $(let $operand = operand!($words $kind);)*
                $(let $list = list!($words $alloc $lists);)?
                push($code, Instr::$variant { $($keyword,)? $($operand,)* $($list)? })?;
                return Ok(true);
            }
        )*
    };
}

/// Reads the instruction of a line, behind its index, and adds it to the code.
pub fn instruction(
    alloc: Global,
    words: &mut Words<'_>,
    code: &mut Vec<Instr>,
) -> Result<(), Stop> {
    let name = words.word()?;
    if moves(alloc, name, words, code)?
        || flags(alloc, name, words, code)?
        || messages(alloc, name, words, code)?
        || registers(alloc, name, words, code)?
        || control(alloc, name, words, code)?
    {
        Ok(())
    } else {
        Err(Stop::NoLine)
    }
}

/// Reads a move, an address or an operation, and answers whether the name is that of one.
fn moves(
    alloc: Global,
    name: &[u8],
    words: &mut Words<'_>,
    code: &mut Vec<Instr>,
) -> Result<bool, Stop> {
    instructions!(read(alloc name words code) in moves);
    Ok(false)
}

/// Reads a comparison, an instruction on flags or a check, and answers whether the name is that of
/// one.
fn flags(
    alloc: Global,
    name: &[u8],
    words: &mut Words<'_>,
    code: &mut Vec<Instr>,
) -> Result<bool, Stop> {
    instructions!(read(alloc name words code) in flags);
    Ok(false)
}

/// Reads an instruction between processors, and answers whether the name is that of one.
fn messages(
    alloc: Global,
    name: &[u8],
    words: &mut Words<'_>,
    code: &mut Vec<Instr>,
) -> Result<bool, Stop> {
    instructions!(read(alloc name words code) in messages);
    Ok(false)
}

/// Reads an operation or a check of the front end, and answers whether the name is that of one.
fn registers(
    alloc: Global,
    name: &[u8],
    words: &mut Words<'_>,
    code: &mut Vec<Instr>,
) -> Result<bool, Stop> {
    instructions!(read(alloc name words code) in registers);
    Ok(false)
}

/// Reads a jump, a call, or an instruction of the front end on the outside, and answers whether the
/// name is that of one.
fn control(
    alloc: Global,
    name: &[u8],
    words: &mut Words<'_>,
    code: &mut Vec<Instr>,
) -> Result<bool, Stop> {
    instructions!(read(alloc name words code) in control);
    Ok(false)
}
