//! What the code of an instance is written from: the typed program, and where its variables are.

ghost use Rattle.std.specs.Prelude.{◌≡◌, ◌<◌, ℕ, List, length, IfOk, OnOk};
ghost use Rattle.lower_base.specs.Drafts.{IsMade, Makes, draft, from, an_entry};
ghost use Rattle.lower_base.specs.Constants.{constant_register, first_free, register_with, word_in, word_length};
ghost use Rattle.lower_base.specs.Layouts.{layout, layout_of, elements_of, result_register, register_of, field_of};
ghost use Rattle.paris_code.specs.declared.program.Owner.TheVariants as W;

use crate::emit::{count, entry, plus, put, register};
use crate::names::{Names, entries_of, own_entry};
use cstar_base::Memory;
use cstar_tree::typed::{Typed, VarInfo, Variable};
use paris_code::{Field, Instr, Owner, Unit};
use std::alloc::Global;

/// A typed program as one of its instances sees it. All code of the instance is written from it.
#[derive(Drop)]
pub struct View<'a> {
    /// Where memory comes from.
    pub alloc: Global,
    /// The program.
    pub typed: &'a Typed,
    /// Where its variables are.
    pub names: Names,
}

impl<'a> View<'a> {
    /// The program as `main` sees it, with these constants in registers. `Memory` where memory ends,
    /// or where the number of a register or a field would be 2^32 or more.
    pub fn of(alloc: Global, typed: &'a Typed, constants: Vec<u32>) -> Result<View<'a>, Memory>
        requires { 0 < length typed.now.instances.items }
        ensures typed { IfOk result (λ view. view.typed.now ≡ typed.now) }
        ensures names { IfOk result (λ view. layout view.names ≡ layout_of typed.now constants.items 0) }
        ensures each_instance { IfOk result (λ view. length view.names.bases.items ≡ length typed.now.instances.items) }
    {
        let names = Names::of(alloc, typed, constants)?;
        Ok(View {
            alloc,
            typed,
            names,
        })
    }

    /// The program as an instance sees it, whichever instance saw it before.
    pub fn enter(&mut self, number: usize) -> Result<(), Memory>
        requires instance { number < length self.old.typed.now.instances.items }
        requires each_instance { length self.old.names.bases.items ≡ length self.old.typed.now.instances.items }
        ensures typed { self.new.typed.now ≡ self.old.typed.now }
        ensures names { (words : List ℕ) (k : ℕ) → layout self.old.names ≡ layout_of self.old.typed.now words k → OnOk result (layout self.new.names ≡ layout_of self.old.typed.now words number) }
        ensures each_instance { self.new.names.bases ≡ self.old.names.bases }
    {
        self.names.enter(self.typed, number)
    }

    /// The register of a scalar variable.
    #[tactic(auto, unfolding(crate::specs::Layouts::register_of, crate::specs::Layouts::layout))]
    pub fn register(&self, variable: Variable) -> Result<u32, Memory>
        ensures { IfOk result (λ r. r ≡ register_of (layout self.now.names) variable) }
    {
        match variable {
            Variable::File(k) => Ok(k),
            Variable::Param(k) => plus(self.names.base, k),
            Variable::Local(k) => plus(plus(self.result_register()?, 1)?, k),
        }
    }

    /// The register of a scalar result.
    #[tactic(auto, unfolding(crate::specs::Layouts::result_register, crate::specs::Layouts::layout))]
    pub fn result_register(&self) -> Result<u32, Memory>
        ensures { IfOk result (λ r. r ≡ result_register (layout self.now.names)) }
    {
        plus(self.names.base, count(self.names.params.len())?)
    }

    /// The field of a parallel variable that the unit has, or of an element of an array. A variable of
    /// the file gets one more entry of the unit.
    #[tactic(auto, unfolding(crate::specs::Layouts::field_of, crate::specs::Layouts::layout, crate::specs::Drafts::draft, crate::specs::Drafts::from, crate::specs::Drafts::IsMade))]
    pub fn field(&self, variable: Variable, element: u32, u: &mut Unit) -> Result<Field, Memory>
        requires made { IsMade (field_of self.now.typed.now (layout self.now.names) variable element (draft u.old)) }
        ensures draft { IfOk result (λ f. field_of self.now.typed.now (layout self.now.names) variable element (draft u.old) ≡ Makes f (draft u.new)) }
    {
        match variable {
            Variable::File(k) => {
                let (Some(info), Some(first)) = (
                    self.typed.vars.get(k as usize),
                    self.names.files.get(k as usize),
                ) else {
                    unreachable!()
                };
                let number = plus(*first, element)?;
                file_entry(u, info, number)
            }
            Variable::Param(k) => {
                let Some(index) = self.names.params.get(k as usize) else {
                    unreachable!()
                };
                Ok(own_entry(u, *index))
            }
            Variable::Local(k) => {
                let Some(local) = self.names.locals.get(k as usize) else {
                    unreachable!()
                };
                let Some(home) = u.homes.get(local.home as usize) else {
                    unreachable!()
                };
                let index = plus(*home, element)?;
                Ok(own_entry(u, index))
            }
        }
    }

    /// The register in which a number stands, where it is one of the constants.
    #[tactic(auto, unfolding(crate::specs::Constants::constant_register, crate::specs::Layouts::layout))]
    pub fn constant_register(&self, word: u32) -> Result<Option<u32>, Memory>
        ensures { IfOk result (λ r. r ≡ constant_register (layout self.now.names) word) }
    {
        register_with(word, self.names.constants.as_slice(), self.names.end)
    }

    /// The first register that neither a variable nor a constant has.
    #[tactic(auto, unfolding(crate::specs::Constants::first_free, crate::specs::Layouts::layout))]
    pub fn first_free(&self) -> Result<u32, Memory>
        ensures { IfOk result (λ r. r ≡ first_free (layout self.now.names)) }
    {
        plus(self.names.end, count(self.names.constants.len())?)
    }

    /// A number in a register: where it stands, or else a fresh one.
    #[tactic(auto, unfolding(crate::specs::Constants::word_in, crate::specs::Drafts::then_make))]
    pub fn word(&self, word: u32, u: &mut Unit) -> Result<u32, Memory>
        ensures draft { IfOk result (λ r. word_in (layout self.now.names) word (draft u.old) ≡ Makes r (draft u.new)) }
    {
        if let Some(register) = self.constant_register(word)? {
            return Ok(register);
        }
        let dest = register(u)?;
        put(u, Instr::FrontConst { dest, value: word })?;
        Ok(dest)
    }

    /// How many instructions `word` appends.
    #[tactic(auto, unfolding(crate::specs::Constants::word_length))]
    pub fn word_length(&self, word: u32) -> Result<u32, Memory>
        ensures { IfOk result (λ n. n ≡ word_length (layout self.now.names) word) }
    {
        match self.constant_register(word)? {
            Some(_) => Ok(0),
            None => Ok(1),
        }
    }

    /// How many elements an array has.
    #[tactic(auto, unfolding(crate::specs::Layouts::elements_of, crate::specs::Layouts::layout))]
    pub fn elements(&self, variable: Variable) -> u32
        ensures { result ≡ elements_of self.now.typed.now (layout self.now.names) variable }
    {
        match variable {
            Variable::File(k) => match self.typed.vars.get(k as usize) {
                Some(info) => entries_of(info),
                None => 0,
            },
            Variable::Param(_) => 1,
            Variable::Local(k) => match self.names.locals.get(k as usize) {
                Some(local) => local.entries,
                None => 0,
            },
        }
    }
}

/// The register of a number among these, the first of which stands in `first`.
#[tactic(auto, unfolding(crate::specs::Constants::register_with))]
fn register_with(word: u32, words: &[u32], first: u32) -> Result<Option<u32>, Memory>
    ensures { IfOk result (λ r. r ≡ register_with word words.now first) }
{
    let mut register = first;
    for held in words {
        if *held == word {
            return Ok(Some(register));
        }
        register = plus(register, 1)?;
    }
    Ok(None)
}

/// The field of a parallel variable of the file, as one more entry.
#[tactic(auto, unfolding(crate::specs::Drafts::from, crate::specs::Drafts::IsMade))]
fn file_entry(u: &mut Unit, info: &VarInfo, number: u32) -> Result<Field, Memory>
    requires made { IsMade (from info.now.shape (λ set. an_entry set info.now.elem.bits (W.File number) (draft u.old))) }
    ensures draft { IfOk result (λ f. from info.now.shape (λ set. an_entry set info.now.elem.bits (W.File number) (draft u.old)) ≡ Makes f (draft u.new)) }
{
    let Some(set) = info.shape else {
        unreachable!()
    };
    entry(u, set, info.elem.bits, Owner::File(number))
}
