//! The room that the shapes of a file want.

ghost use Rattle.std.specs.Prelude.{◌≤◌};

use cstar_base::{Memory, Word};
use cstar_lexer::{LexFault, lex};
use cstar_parser::{ParseFault, parse};
use cstar_tree::typed::{ShapeInfo, Typed, VarInfo};
use shape_types::{TypeFault, types};
use std::alloc::Global;

/// The greatest number of bytes of a text, and of tokens of one.
const MOST: usize = 1_048_576;

/// How many positions a block of the machine has.
const BLOCK: u64 = 512;

/// The typed program of a file, whatever room it wants. None where it has another fault.
pub fn typed(alloc: Global, file: &[u8]) -> Result<Option<Typed>, Memory> {
    if MOST < file.len() {
        return Ok(None);
    }
    let tokens = match lex(alloc, file) {
        Ok(tokens) => tokens,
        Err(LexFault::Memory) => return Err(Memory),
        Err(LexFault::Fault { .. }) => return Ok(None),
    };
    if MOST < tokens.list.len() {
        return Ok(None);
    }
    let tree = match parse(alloc, &tokens) {
        Ok(tree) => tree,
        Err(ParseFault::Memory) => return Err(Memory),
        Err(ParseFault::Syntax { .. } | ParseFault::Depth { .. }) => return Ok(None),
    };
    match types(alloc, &tree) {
        Ok(typed) => Ok(Some(typed)),
        Err(TypeFault::Memory) => Err(Memory),
        Err(TypeFault::Fault { .. }) => Ok(None),
    }
}

/// A sentence for each shape of a file on the bits that it wants, and the variable with most of
/// them. None where the file has no types.
pub fn room(alloc: Global, file: &[u8]) -> Result<Option<String>, Memory> {
    let Some(typed) = typed(alloc, file)? else {
        return Ok(None);
    };
    let mut text = String::new(alloc);
    for (number, (shape, need)) in typed.shapes.iter().zip(&typed.need).enumerate() {
        if number != 0 {
            text.push_str(" ")?;
        }
        let positions = positions_of(shape);
        let bits = u64::from(*need)
            .saturating_mul(BLOCK)
            .saturating_mul(positions.div_ceil(BLOCK));
        let name = word(alloc, &shape.name)?;
        let sentence = format!(in alloc;
            "Shape {} of {positions} positions wants {need} bits at each, {bits} in all{}.",
            name.as_str(),
            greatest_of(alloc, &typed, number)?.as_str()
        )?;
        text.push_str(sentence.as_str())?;
    }
    Ok(Some(text))
}

fn positions_of(shape: &ShapeInfo) -> u64 {
    let mut product = 1u64;
    for extent in &shape.extents {
        product = product.saturating_mul(u64::from(*extent));
    }
    product
}

/// The variable of the file with most bits on the shape of the number, as the end of a sentence.
fn greatest_of(alloc: Global, typed: &Typed, number: usize) -> Result<String, Memory> {
    let mut greatest: Option<(&VarInfo, u32)> = None;
    for info in &typed.vars {
        let is_on_shape = match info.shape {
            Some(shape) => usize::from(shape) == number,
            None => false,
        };
        let bits = bits_of(info);
        let is_greater = match greatest {
            Some((_, most)) => most < bits,
            None => true,
        };
        if is_on_shape && is_greater {
            greatest = Some((info, bits));
        }
    }
    match greatest {
        Some((info, bits)) => {
            let name = word(alloc, &info.name)?;
            Ok(format!(in alloc; ", {bits} of them in `{}`", name.as_str())?)
        }
        None => Ok(String::new(alloc)),
    }
}

/// The bits of a variable at a position, all elements together.
fn bits_of(info: &VarInfo) -> u32 {
    u32::from(info.elem.bits).saturating_mul(info.array.unwrap_or(1))
}

/// A name as text.
pub fn word(alloc: Global, name: &Word) -> Result<String, Memory> {
    Ok(String::from_str(alloc, str::from_utf8(name.bytes()).unwrap_or("?"))?)
}
