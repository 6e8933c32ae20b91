//! From the text of a file to a checked image, or to its first fault.

ghost use Rattle.std.specs.Prelude.{◌≡◌, ◌<◌, ◌≤◌, ◌^◌, Err, IfErr, IfOk, List, length, vec_len};
ghost use Rattle.cstar_base.specs.declared.faults.Fault.TheVariants as F;
ghost use Rattle.cstar_lexer.specs.Reading.{IsText};
ghost use Rattle.cstar_tree.specs.declared.token.Token.{Token};
ghost use Rattle.cstar_tree.specs.IsTyped.{IsTyped};
ghost use Rattle.listed_images.specs.Meaning.{IsListable};
ghost use Rattle.paris_code.specs.Sound.{IsSound};
ghost use Rattle.point_runs.specs.declared.refusal.NoImage.TheVariants as N;
ghost use Rattle.point_runs.specs.Refusals.{file_start};
ghost use Rattle.cstar_compile.specs.Compiled.{IsCompiled};
ghost use Rattle.lower_stmt.specs.Programs.{HasEveryUnit};
ghost use Rattle.cstar_tree.specs.FileFaults.{IsAccepted};
ghost use Rattle.cstar_tree.specs.FileScopes.{file_known};
ghost use Rattle.cstar_tree.specs.Items.{IsTree};
ghost use Rattle.cstar_tree.specs.Nodes.{tree_nodes};
ghost use Rattle.cstar_tree.specs.ProgramTypes.{TypesFile};
ghost use Rattle.cstar_tree.specs.Room.{HasRoom};
ghost use Rattle.shape_types.specs.Plain.{IsPlainTree};
ghost use Rattle.shape_types.specs.TypedFiles.{HaveOwnNames};
ghost use Rattle.cstar_top.specs.Accepted.{IsProgramOf};
ghost use Rattle.cstar_top.specs.Refusals.{IsOfText, NamesOnly};

use cstar_base::{Fault, Place};
use cstar_compile::image_of;
use cstar_lexer::{LexFault, lex};
use cstar_parser::{ParseFault, parse};
use cstar_tree::syntax::Tree;
use cstar_tree::token::Tokens;
use cstar_tree::typed::Typed;
use image_check::{CheckErr, Sound};
use paris_asm::is_plain;
use point_runs::{FILE_LIMIT, FILE_START, NoImage, refused, too_long, verified};
use shape_types::{TypeFault, check};
use std::alloc::Global;
use std::mem::forget;

/// A text that the language accepts: how many tokens it has, and its typed program.
#[derive(Drop)]
pub struct TypedText {
    pub tokens: usize,
    pub typed: Typed,
}

/// A text that the language accepts, with all that was made of it on the way.
#[derive(Drop)]
struct ReadText {
    tokens: Tokens,
    tree: Tree,
    typed: Typed,
}

/// The typed program of a file's text. The first fault is that of the length, then of the words of
/// the text, of the grammar, of the types, each over the whole file.
pub fn accepted(alloc: Global, text: &[u8]) -> Result<TypedText, NoImage>
    ensures within { IfOk result (λ program. length text.now ≤ FILE_LIMIT) }
    ensures read { IfOk result (λ program. (tokens : List Token) × IsText text.now tokens × (program.tokens ≡ length tokens)) }
    ensures typed { IfOk result (λ program. IsTyped program.typed) }
    ensures program { IfOk result (λ program. IsProgramOf text.now program.typed) }
    ensures too_long { FILE_LIMIT < length text.now → result ≡ Err (N.Refused F.TooLong file_start) }
    ensures refused { IfErr result (NamesOnly IsOfText) }
{
    match read_text(alloc, text) {
        Ok(ReadText { tokens, typed, .. }) => Ok(TypedText {
            tokens: tokens.list.len(),
            typed,
        }),
        Err(no_image) => Err(no_image),
    }
}

/// Whether the language accepts a file's text, or its first fault as `accepted` tells it. It is for
/// a process that ends behind it: what was made of an accepted text is not given back node by node,
/// which would take a quarter of the time.
pub fn checked(alloc: Global, text: &[u8]) -> Result<(), NoImage>
    ensures within { IfOk result (λ _. length text.now ≤ FILE_LIMIT) }
    ensures read { IfOk result (λ _. (tokens : List Token) × IsText text.now tokens) }
    ensures too_long { FILE_LIMIT < length text.now → result ≡ Err (N.Refused F.TooLong file_start) }
    ensures refused { IfErr result (NamesOnly IsOfText) }
{
    match read_text(alloc, text) {
        Ok(read) => {
            forget(read);
            Ok(())
        }
        Err(no_image) => Err(no_image),
    }
}

/// The tokens, the tree and the typed program of a file's text, or its first fault.
fn read_text(alloc: Global, text: &[u8]) -> Result<ReadText, NoImage>
    ensures within { IfOk result (λ read. length text.now ≤ FILE_LIMIT) }
    ensures read { IfOk result (λ read. IsText text.now read.tokens.list.items) }
    ensures typed { IfOk result (λ read. IsTyped read.typed) }
    ensures program { IfOk result (λ read. IsProgramOf text.now read.typed) }
    ensures too_long { FILE_LIMIT < length text.now → result ≡ Err (N.Refused F.TooLong file_start) }
    ensures refused { IfErr result (NamesOnly IsOfText) }
{
    if text.len() > FILE_LIMIT as usize {
        return Err(too_long());
    }
    let tokens = match tokens_of(alloc, text) {
        Ok(tokens) => tokens,
        Err(no_image) => return Err(no_image),
    };
    let tree = match tree_of(alloc, &tokens) {
        Ok(tree) => tree,
        Err(no_image) => return Err(no_image),
    };
    match typed_of(alloc, &tree) {
        Ok(typed) => Ok(ReadText {
            tokens,
            tree,
            typed,
        }),
        Err(no_image) => Err(no_image),
    }
}

/// The checked image of a typed program. That every image of the compiler keeps the image rules, and
/// has names that a listing can be read back with, is not proved yet; one that did not would be
/// refused as a form that is not built. Each instance of the program must have code.
pub fn compile(alloc: Global, typed: &Typed) -> Result<Sound, NoImage>
    requires typed { IsTyped typed.now }
    requires units { HasEveryUnit typed.now }
    ensures compiled { IfOk result (λ sound. IsCompiled typed.now sound) }
    ensures sound { IfOk result IsSound }
    ensures listable { IfOk result IsListable }
    ensures refused { IfErr result (NamesOnly (λ fault. fault ≡ F.NotBuilt)) }
{
    let Ok(image) = image_of(alloc, typed) else {
        return Err(NoImage::Memory);
    };
    if !is_plain(&image) {
        return Err(not_built());
    }
    match verified(alloc, image) {
        Ok(sound) => Ok(sound),
        Err(CheckErr::Bad { .. }) => Err(not_built()),
        Err(CheckErr::Memory { .. }) => Err(NoImage::Memory),
    }
}

/// The refusal of an image of the compiler that breaks an image rule, or that no listing can be of.
fn not_built() -> NoImage
    ensures { result ≡ N.Refused F.NotBuilt file_start }
{
    refused(Fault::NotBuilt, FILE_START)
}

fn tokens_of(alloc: Global, text: &[u8]) -> Result<Tokens, NoImage>
    requires { length text.now ≤ FILE_LIMIT }
    ensures read { IfOk result (λ tokens. IsText text.now tokens.list.items) }
    ensures count { IfOk result (λ tokens. vec_len tokens.list ≤ FILE_LIMIT) }
    ensures refused { IfErr result (NamesOnly IsOfText) }
{
    match lex(alloc, text) {
        Ok(tokens) => Ok(tokens),
        Err(LexFault::Fault { number, place }) => Err(refused(Fault::numbered(number), place)),
        Err(LexFault::Memory) => Err(NoImage::Memory),
    }
}

fn tree_of(alloc: Global, tokens: &Tokens) -> Result<Tree, NoImage>
    requires { vec_len tokens.now.list ≤ FILE_LIMIT }
    ensures spelled { IfOk result (IsTree tokens.now) }
    ensures refused { IfErr result (NamesOnly IsOfText) }
{
    match parse(alloc, tokens) {
        Ok(tree) => Ok(tree),
        Err(ParseFault::Syntax { token }) => Err(refused(Fault::Syntax, place_of(tokens, token))),
        Err(ParseFault::Depth { token }) => Err(refused(Fault::Depth, place_of(tokens, token))),
        Err(ParseFault::Memory) => Err(NoImage::Memory),
    }
}

/// The place of the token of this number; the end of the text counts as a token.
fn place_of(tokens: &Tokens, number: u32) -> Place {
    match tokens.list.get(number as usize) {
        Some(token) => token.place,
        None => tokens.end,
    }
}

#[tactic(auto, using(crate::proofs::TypingFaults::listed_is_of_text))]
fn typed_of(alloc: Global, tree: &Tree) -> Result<Typed, NoImage>
    ensures typed { IfOk result IsTyped }
    ensures exact { length (file_known tree.now).names < 2 ^ 32 → IsPlainTree tree.now → IfOk result (TypesFile tree.now) }
    ensures new { length (file_known tree.now).names < 2 ^ 32 → IsPlainTree tree.now → IfOk result (λ typed. HaveOwnNames tree.now typed.shapes.items typed.vars.items) }
    ensures room { IfOk result (λ typed. HasRoom typed.shapes.items typed.need.items) }
    ensures accepted { length (file_known tree.now).names < 2 ^ 32 → IsPlainTree tree.now → tree_nodes tree.now ≤ 2 ^ 20 → IfOk result (IsAccepted tree.now) }
    ensures refused { IfErr result (NamesOnly IsOfText) }
{
    match check(alloc, tree) {
        Ok(typed) => Ok(typed),
        Err(TypeFault::Fault { number, place }) => Err(refused(Fault::numbered(number), place)),
        Err(TypeFault::Memory) => Err(NoImage::Memory),
    }
}
