//! How lists are put, item by item.

ghost use Rattle.std.specs.Prelude.{ℕ, List, flat_map};
ghost use Rattle.paris_code.specs.Listing.{numbered};
ghost use Rattle.paris_text.specs.Pieces.{piece_text};
ghost use Rattle.paris_text.specs.Puts.{Puts};

use cstar_io::{Failed, Sink};
use itoa::Buffer;

/// How the items of a list are put.
pub trait Style<T> {
    /// What is put for the item with a number.
    ghost text: { ℕ → T → List ℕ };

    fn put<O: Sink>(number: usize, item: &T, out: &mut O) -> Result<(), Failed>
        ensures { Puts O.agrees O.faults out.old out.new result (text number item.now) };
}

/// Puts the items of a list, which are numbered from 0.
pub fn put_list<T, S: Style<T>, O: Sink>(items: &[T], out: &mut O) -> Result<(), Failed>
    ensures { Puts O.agrees O.faults out.old out.new result (numbered S.text 0 items.now) }
{
    for (number, item) in items.iter().enumerate() {
        match S::put(number, item, out) {
            Ok(()) => {}
            Err(failed) => return Err(failed),
        }
    }
    Ok(())
}

/// A piece of a line: a text, or a number in decimal.
#[derive(Clone, Copy)]
pub enum Piece<'a> {
    Text(&'a [u8]),
    Number(u64),
}

/// Pieces one behind the other.
struct Joined;

impl<'a> Style<Piece<'a>> for Joined {
    ghost text = { λ number piece. piece_text piece };

    fn put<O: Sink>(_number: usize, item: &Piece<'a>, out: &mut O) -> Result<(), Failed> {
        match item {
            Piece::Text(text) => out.put(text),
            Piece::Number(n) => out.put(Buffer::new().format(*n).as_bytes()),
        }
    }
}

/// Puts pieces one behind the other.
pub fn put_pieces<O: Sink>(pieces: &[Piece<'_>], out: &mut O) -> Result<(), Failed>
    ensures { Puts O.agrees O.faults out.old out.new result (flat_map piece_text pieces.now) }
{
    put_list::<Piece<'_>, Joined, O>(pieces, out)
}
