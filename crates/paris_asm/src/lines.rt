//! The lines of a listing, in the order of its parts.

ghost use Rattle.std.specs.Prelude.{◌≡◌, ◌≤◌, IfOk, length};
ghost use Rattle.paris_code.specs.Plain.{AreFinalNames, AreGrids, AreUnitNames, HasAxis, IsElementName, IsName, IsPlain};

use crate::instructions::instruction;
use crate::operands::{field, kind};
use crate::plain::{is_element_name, is_name};
use crate::words::{Stop, Words, number, parted};
use cstar_base::Word;
use paris_code::{Entry, Final, Image, ShapeBits};
use std::alloc::Global;

/// The parts of a listing. Each but the sizes may have any number of lines.
#[derive(Clone, Copy, PartialEq, Eq)]
pub enum Part {
    Shapes,
    Depth,
    Finals,
    Units,
    Code,
}

/// An image of which the first lines were read.
#[derive(Drop)]
pub struct Reading {
    pub image: Image,
    /// The part of the next line.
    pub part: Part,
}

impl Reading {
    pub fn new(alloc: Global) -> Reading
        ensures { IsPlain result.image }
    {
        Reading {
            image: Image {
                shapes: Vec::new(alloc),
                slots: 0,
                depth: 0,
                units: Vec::new(alloc),
                finals: Vec::new(alloc),
                code: Vec::new(alloc),
            },
            part: Part::Shapes,
        }
    }

    /// Reads one more line. What it holds is right, but its numbers may be written otherwise than
    /// in a listing.
    pub fn line(&mut self, alloc: Global, line: &[u8]) -> Result<(), Stop>
        ensures { IsPlain self.old.image → IsPlain self.new.image }
    {
        let mut words = Words::new(line);
        match line {
            [b'.', ..] => self.part_line(alloc, &mut words)?,
            _ => self.code_line(alloc, &mut words)?,
        }
        if words.is_empty() {
            Ok(())
        } else {
            Err(Stop::NoLine)
        }
    }

    fn part_line(&mut self, alloc: Global, words: &mut Words<'_>) -> Result<(), Stop>
        ensures { IsPlain self.old.image → IsPlain self.new.image }
    {
        match (words.word()?, self.part) {
            (b".shape", Part::Shapes) => self.shape(alloc, words),
            (b".slots", Part::Shapes) => {
                self.image.slots = number(words.word()?)?;
                self.part = Part::Depth;
                Ok(())
            }
            (b".depth", Part::Depth) => {
                self.image.depth = number(words.word()?)?;
                self.part = Part::Finals;
                Ok(())
            }
            (b".final", Part::Finals) => self.variable(alloc, words),
            (b".unit", Part::Finals | Part::Units) => {
                self.part = Part::Units;
                self.unit(alloc, words)
            }
            _ => Err(Stop::NoLine),
        }
    }

    /// `NUMBER EXTENTS BITS`
    fn shape(&mut self, alloc: Global, words: &mut Words<'_>) -> Result<(), Stop>
        ensures { IsPlain self.old.image → IsPlain self.new.image }
    {
        let _number = number(words.word()?)?;
        let extents = extents(alloc, words.word()?)?;
        let bits = number(words.word()?)?;
        add_shape(&mut self.image.shapes, ShapeBits { extents, bits })
    }

    /// `NAME KIND FIELD`
    fn variable(&mut self, alloc: Global, words: &mut Words<'_>) -> Result<(), Stop>
        ensures { IsPlain self.old.image → IsPlain self.new.image }
    {
        let name = words.word()?;
        if !is_element_name(name) {
            return Err(Stop::NoLine);
        }
        let name = copied(alloc, name)?;
        let elem = kind(words.word()?)?;
        let field = field(words.word()?)?;
        add_final(&mut self.image.finals, Final { name, elem, field })
    }

    /// `NUMBER NAME START`
    fn unit(&mut self, alloc: Global, words: &mut Words<'_>) -> Result<(), Stop>
        ensures { IsPlain self.old.image → IsPlain self.new.image }
    {
        let _number = number(words.word()?)?;
        let name = words.word()?;
        if !is_name(name) {
            return Err(Stop::NoLine);
        }
        let name = copied(alloc, name)?;
        let start = number(words.word()?)?;
        add_unit(&mut self.image.units, Entry { name, start })
    }

    /// `INDEX MNEMONIC OPERANDS`
    fn code_line(&mut self, alloc: Global, words: &mut Words<'_>) -> Result<(), Stop>
        ensures { IsPlain self.old.image → IsPlain self.new.image }
    {
        match self.part {
            Part::Finals | Part::Units | Part::Code => self.part = Part::Code,
            Part::Shapes | Part::Depth => return Err(Stop::NoLine),
        }
        let _index = number(words.word()?)?;
        instruction(alloc, words, &mut self.image.code)
    }
}

fn add_shape(shapes: &mut Vec<ShapeBits>, shape: ShapeBits) -> Result<(), Stop>
    requires { HasAxis shape }
    ensures { AreGrids shapes.old.items → AreGrids shapes.new.items }
{
    match shapes.push(shape) {
        Ok(()) => Ok(()),
        Err(_failed) => Err(Stop::Memory),
    }
}

fn add_final(finals: &mut Vec<Final>, last: Final) -> Result<(), Stop>
    requires { IsElementName last.name }
    ensures { AreFinalNames finals.old.items → AreFinalNames finals.new.items }
{
    match finals.push(last) {
        Ok(()) => Ok(()),
        Err(_failed) => Err(Stop::Memory),
    }
}

fn add_unit(units: &mut Vec<Entry>, entry: Entry) -> Result<(), Stop>
    requires { IsName entry.name }
    ensures { AreUnitNames units.old.items → AreUnitNames units.new.items }
{
    match units.push(entry) {
        Ok(()) => Ok(()),
        Err(_failed) => Err(Stop::Memory),
    }
}

fn copied(alloc: Global, text: &[u8]) -> Result<Word, Stop>
    ensures { IfOk result (λ word. word ≡ text.now) }
{
    match Vec::from_slice(alloc, text) {
        Ok(bytes) => Ok(Word::of(bytes)),
        Err(_failed) => Err(Stop::Memory),
    }
}

/// Extents, each in square brackets; one at least.
fn extents(alloc: Global, text: &[u8]) -> Result<Vec<u32>, Stop>
    ensures { IfOk result (λ v. 1 ≤ length v.items) }
{
    let mut extents = Vec::new(alloc);
    let mut rest = text;
    'more: while let [b'[', inner @ ..] = rest {
        let (digits, behind) = parted(inner, b']')?;
        let extent = number(digits)?;
        match extents.push(extent) {
            Ok(()) => {}
            Err(_failed) => return Err(Stop::Memory),
        }
        rest = behind;
    }
    if rest.is_empty() && !extents.is_empty() {
        Ok(extents)
    } else {
        Err(Stop::NoLine)
    }
}
