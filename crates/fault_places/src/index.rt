//! The extents behind an index.

use crate::room::{typed, word};
use cstar_base::{Memory, Place, Word};
use cstar_lexer::{LexFault, lex};
use cstar_tree::token::{Kind, Mark, Token};
use cstar_tree::typed::{Instance, LocalVar, TStmt, Typed, VarInfo};
use std::alloc::Global;

/// The greatest number of bytes of a text.
const MOST: usize = 1_048_576;

/// The sentences on the index whose `[` stands at a place: how far it may go, and the coordinates
/// of a position that was named, where the program has one shape alone. None where the file has no
/// such index, or several variables of its name that differ.
pub fn extents(
    alloc: Global,
    file: &[u8],
    place: Place,
    position: Option<u32>,
) -> Result<Option<String>, Memory> {
    if MOST < file.len() {
        return Ok(None);
    }
    let tokens = match lex(alloc, file) {
        Ok(tokens) => tokens,
        Err(LexFault::Memory) => return Err(Memory),
        Err(LexFault::Fault { .. }) => return Ok(None),
    };
    let Some(name) = indexed(tokens.list.as_slice(), place) else {
        return Ok(None);
    };
    let Some(typed) = typed(alloc, file)? else {
        return Ok(None);
    };
    let mut same = Same {
        name,
        first: None,
        differs: false,
    };
    same.see_program(&typed);
    match (same.first, same.differs) {
        (Some(info), false) => sentences(alloc, &typed, info, position),
        _ => Ok(None),
    }
}

fn is_mark(token: Option<&Token>, mark: Mark) -> bool {
    match token {
        Some(
            Token {
                kind: Kind::Mark(found),
                ..
            },
        ) => *found == mark,
        _ => false,
    }
}

/// The name of the variable that is indexed at a place: that before a right index, or behind the
/// left ones that begin there.
fn indexed(tokens: &[Token], place: Place) -> Option<&Word> {
    let mut before: Option<&Word> = None;
    let mut depth: Option<u32> = None;
    for token in tokens {
        match depth {
            None => {
                if token.place == place {
                    if !is_mark(Some(token), Mark::LeftBracket) {
                        return None;
                    }
                    if before.is_some() {
                        return before;
                    }
                    depth = Some(1);
                }
            }
            Some(open) => {
                if is_mark(Some(token), Mark::LeftBracket) {
                    depth = Some(open.saturating_add(1));
                } else if is_mark(Some(token), Mark::RightBracket) {
                    depth = Some(open.saturating_sub(1));
                } else if open == 0 {
                    return name_of(token);
                }
            }
        }
        before = name_of(token);
    }
    None
}

fn name_of(token: &Token) -> Option<&Word> {
    match &token.kind {
        Kind::Name(name) => Some(name),
        _ => None,
    }
}

/// The variables of a name: the first that is seen, and whether another one differs from it.
#[derive(Drop)]
struct Same<'a> {
    name: &'a Word,
    first: Option<&'a VarInfo>,
    differs: bool,
}

impl<'a> Same<'a> {
    fn see_program(&mut self, typed: &'a Typed) {
        self.see_all(typed.vars.as_slice());
        for instance in &typed.instances {
            self.see_instance(instance);
        }
    }

    fn see_instance(&mut self, instance: &'a Instance) {
        self.see_all(instance.params.as_slice());
        self.see_statement(&instance.body);
    }

    fn see_all(&mut self, infos: &'a [VarInfo]) {
        for info in infos {
            self.see(info);
        }
    }

    fn see(&mut self, info: &'a VarInfo) {
        if info.name.bytes() != self.name.bytes() {
            return;
        }
        match self.first {
            None => self.first = Some(info),
            Some(first) => {
                self.differs = self.differs
                    || first.shape != info.shape
                    || first.array != info.array;
            }
        }
    }

    #[cycle(see)]
    fn see_statement(&mut self, s: &'a TStmt) {
        match s {
            TStmt::Block { locals, statements } => {
                self.see_locals(locals.as_slice());
                self.see_statements(statements.as_slice());
            }
            TStmt::If {
                then,
                otherwise,
                ..
            }
            | TStmt::Where {
                then,
                otherwise,
                ..
            } => {
                self.see_statement(then);
                if let Some(otherwise) = otherwise {
                    self.see_statement(otherwise);
                }
            }
            TStmt::While { body, .. }
            | TStmt::Do { body, .. }
            | TStmt::For { body, .. }
            | TStmt::With { body, .. }
            | TStmt::Everywhere { body, .. } => self.see_statement(body),
            TStmt::Expression(_)
            | TStmt::Empty
            | TStmt::Break
            | TStmt::Continue
            | TStmt::Return(_) => {}
        }
    }

    #[cycle(see)]
    fn see_statements(&mut self, statements: &'a [TStmt]) {
        for statement in statements {
            self.see_statement(statement);
        }
    }

    fn see_locals(&mut self, locals: &'a [LocalVar]) {
        for local in locals {
            self.see(&local.info);
        }
    }
}

/// How far the indexes of a variable go.
fn sentences(
    alloc: Global,
    typed: &Typed,
    info: &VarInfo,
    position: Option<u32>,
) -> Result<Option<String>, Memory> {
    let name = word(alloc, &info.name)?;
    let mut text = String::new(alloc);
    if let Some(length) = info.array {
        let sentence = format!(in alloc;
            "`{}` is an array of {length} elements, `[0]` to `[{}]` on its right. ",
            name.as_str(),
            length.saturating_sub(1)
        )?;
        text.push_str(sentence.as_str())?;
    }
    let shape = match info.shape {
        Some(shape) => typed.shapes.get(usize::from(shape)),
        None => None,
    };
    let Some(shape) = shape else {
        return Ok(None);
    };
    let of = word(alloc, &shape.name)?;
    let extents = brackets(alloc, shape.extents.as_slice())?;
    let sentence = format!(in alloc;
        "`{}` has the shape {}, `{}`: on each axis an index goes from 0 to one less.",
        name.as_str(),
        of.as_str(),
        extents.as_str()
    )?;
    text.push_str(sentence.as_str())?;
    if let (Some(position), 1) = (position, typed.shapes.len()) {
        let at = coordinates(alloc, shape.extents.as_slice(), position)?;
        let sentence = format!(in alloc; " Position {position} is `{}`.", at.as_str())?;
        text.push_str(sentence.as_str())?;
    }
    Ok(Some(text))
}

/// Numbers in square brackets.
fn brackets(alloc: Global, numbers: &[u32]) -> Result<String, Memory> {
    let mut text = String::new(alloc);
    for number in numbers {
        let one = format!(in alloc; "[{number}]")?;
        text.push_str(one.as_str())?;
    }
    Ok(text)
}

/// The coordinates of a position, the last axis fastest.
fn coordinates(alloc: Global, extents: &[u32], position: u32) -> Result<String, Memory> {
    let mut rest = position;
    let mut text = String::new(alloc);
    for extent in extents.iter().rev() {
        let at = if *extent == 0 { 0 } else { rest % *extent };
        rest = if *extent == 0 { rest } else { rest / *extent };
        let longer = format!(in alloc; "[{at}]{}", text.as_str())?;
        text = longer;
    }
    Ok(text)
}
