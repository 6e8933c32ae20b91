//! The reader of a text, one token at a time.

ghost use Rattle.std.specs.Prelude.{◌≡◌, ◌≤◌, ◌<◌, ◌+◌, length, Some, None, IfErr, IfSome, IfNone, IsSome, true, false};
ghost use Rattle.cstar_tree.specs.Positions.{token_kind, token_place};
ghost use Rattle.cstar_tree.specs.declared.token.Kind.TheVariants as Kinds;
ghost use Rattle.cstar_tree.specs.declared.token.Mark.{Mark};
ghost use Rattle.grammar_parts.specs.Parts as P;
ghost use Rattle.cstar_parser.specs.declared.fault.ParseFault.TheVariants.{Depth, Syntax};
ghost use Rattle.cstar_parser.specs.Fits.{Adds, Keeps, Opens};
ghost use Rattle.cstar_parser.specs.Following.{IsLevelTooMany, IsOperatorTooMany, IsOverfull, StopsAt};
ghost use Rattle.cstar_parser.specs.Reading.{IsMark, IsName, IsRead, IsToken, Reads};

use crate::fault::ParseFault;
use crate::spot::Spot;
use cstar_base::Place;
use cstar_tree::syntax::Name;
use cstar_tree::token::{Kind, Mark, Token};
use std::alloc::Global;

/// The greatest number of levels that may be open.
pub const LEVELS: u32 = 100;

/// The greatest number of operators of one whole expression.
const OPERATORS: u32 = 1000;

/// A reader of the tokens of a text, of which there are at most 1,048,576. What it reads stands
/// behind a `Spot`, which it moves on.
#[derive(Clone, Copy)]
pub struct Reader<'a> {
    /// Where memory for the tree comes from.
    pub alloc: Global,
    /// The tokens of the text.
    pub tokens: &'a [Token],
    pub ghost few: { length tokens.now ≤ 1048576 },
}

/// Whether two marks are the same.
fn is_same(found: Mark, wanted: Mark) -> bool
    ensures yes { result ≡ true → found ≡ wanted }
    ensures no { result ≡ false → found ≡ wanted → ⊥ }
{
    found == wanted
}

impl<'a> Reader<'a> {
    /// What stands at a position, or None at the end.
    pub fn kind_at(&self, at: usize) -> Option<&Kind>
        ensures found { IfSome result (λ kind. token_kind self.now.tokens.now at ≡ Some kind.now) }
        ensures missing { IfNone result (token_kind self.now.tokens.now at ≡ None) }
        ensures within { IsSome result → at < length self.now.tokens.now }
    {
        match self.tokens.get(at) {
            Some(token) => Some(&token.kind),
            None => None,
        }
    }

    /// The reserved word or punctuator at a position, or None where another token or none stands.
    pub fn mark_at(&self, at: usize) -> Option<Mark>
        ensures found { IfSome result (λ mark. token_kind self.now.tokens.now at ≡ Some (Kinds.Mark mark)) }
        ensures missing { IfNone result ((mark : Mark) → token_kind self.now.tokens.now at ≡ Some (Kinds.Mark mark) → ⊥) }
        ensures within { IsSome result → at < length self.now.tokens.now }
    {
        match self.kind_at(at) {
            Some(Kind::Mark(mark)) => Some(*mark),
            _ => None,
        }
    }

    /// Whether this reserved word or punctuator stands at a position.
    pub fn is_mark(&self, at: usize, mark: Mark) -> bool
        ensures yes { result ≡ true → token_kind self.now.tokens.now at ≡ Some (Kinds.Mark mark) }
        ensures no { result ≡ false → token_kind self.now.tokens.now at ≡ Some (Kinds.Mark mark) → ⊥ }
        ensures within { result ≡ true → at < length self.now.tokens.now }
    {
        match self.mark_at(at) {
            Some(found) => is_same(found, mark),
            None => false,
        }
    }

    /// The place of a token that is there.
    pub fn place_at(&self, at: usize) -> Place
        requires { at < length self.now.tokens.now }
        ensures { token_place self.now.tokens.now at ≡ Some result }
    {
        self.tokens[at].place
    }

    /// Reads the token that stands here, whatever it is, and answers its place.
    pub fn take(&self, spot: &mut Spot) -> Place
        requires there { spot.old.at < length self.now.tokens.now }
        ensures { IsRead IsToken Keeps self.now.tokens.now spot.old result spot.new }
    {
        let place = self.place_at(spot.at);
        spot.at += 1;
        place
    }

    /// No text goes on with this token.
    pub fn hopeless(&self, at: usize) -> ParseFault
        requires within { at ≤ length self.now.tokens.now }
        ensures { result ≡ Syntax at }
    {
        ParseFault::Syntax { token: at as u32 }
    }

    /// A level or an operator too many begins with this token.
    pub fn too_deep(&self, at: usize) -> ParseFault
        requires within { at < length self.now.tokens.now }
        ensures { result ≡ Depth at }
    {
        ParseFault::Depth { token: at as u32 }
    }

    /// Reads a reserved word or punctuator that has to stand here, and answers its place.
    pub fn expect(&self, spot: &mut Spot, mark: Mark) -> Result<Place, ParseFault>
        requires within { spot.old.at ≤ length self.now.tokens.now }
        ensures read { Reads (IsMark mark) Keeps self.now.tokens.now spot.old spot.new result }
        ensures stops { IfErr result (StopsAt self.now.tokens.now (P.mark mark) ⊥ spot.old.at) }
    {
        if !self.is_mark(spot.at, mark) {
            return Err(self.hopeless(spot.at));
        }
        Ok(self.take(spot))
    }

    /// Reads the bracket of an expression that has to stand here, and answers its place. It opens a
    /// level beside those that are open, of which there may be no more than 99.
    pub fn open(&self, spot: &mut Spot, mark: Mark, levels: u32) -> Result<Place, ParseFault>
        requires within { spot.old.at ≤ length self.now.tokens.now }
        ensures read { Reads (IsMark mark) (Opens levels) self.now.tokens.now spot.old spot.new result }
        ensures stops { IfErr result (StopsAt self.now.tokens.now (P.mark mark) (IsLevelTooMany self.now.tokens.now mark spot.old.at levels) spot.old.at) }
    {
        if !self.is_mark(spot.at, mark) {
            return Err(self.hopeless(spot.at));
        }
        if levels >= LEVELS {
            return Err(self.too_deep(spot.at));
        }
        Ok(self.take(spot))
    }

    /// Reads the operator that stands here, and answers its place.
    pub fn take_operator(&self, spot: &mut Spot) -> Result<Place, ParseFault>
        requires there { spot.old.at < length self.now.tokens.now }
        ensures read { Reads IsToken (Adds 1) self.now.tokens.now spot.old spot.new result }
        ensures stops { IfErr result (IsOverfull spot.old.at spot.old.operators) }
    {
        if spot.operators >= OPERATORS {
            return Err(self.too_deep(spot.at));
        }
        spot.operators += 1;
        Ok(self.take(spot))
    }

    /// Reads an operator that has to stand here, and answers its place.
    pub fn expect_operator(&self, spot: &mut Spot, mark: Mark) -> Result<Place, ParseFault>
        requires within { spot.old.at ≤ length self.now.tokens.now }
        ensures read { Reads (IsMark mark) (Adds 1) self.now.tokens.now spot.old spot.new result }
        ensures stops { IfErr result (StopsAt self.now.tokens.now (P.operator mark) (IsOperatorTooMany self.now.tokens.now mark spot.old.at spot.old.operators) spot.old.at) }
    {
        if !self.is_mark(spot.at, mark) {
            return Err(self.hopeless(spot.at));
        }
        self.take_operator(spot)
    }

    /// Reads the name that has to stand here.
    pub fn read_name(&self, spot: &mut Spot) -> Result<Name, ParseFault>
        requires within { spot.old.at ≤ length self.now.tokens.now }
        ensures read { Reads IsName Keeps self.now.tokens.now spot.old spot.new result }
        ensures stops { IfErr result (StopsAt self.now.tokens.now P.name ⊥ spot.old.at) }
    {
        let word = match self.kind_at(spot.at) {
            Some(Kind::Name(word)) => word.copied(self.alloc)?,
            _ => return Err(self.hopeless(spot.at)),
        };
        let place = self.take(spot);
        Ok(Name { word, place })
    }
}
