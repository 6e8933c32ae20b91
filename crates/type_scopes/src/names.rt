//! The names that a file declares, and what names stand for.

ghost use Rattle.std.specs.Prelude.{◌≡◌, ◌++◌, [], ◌∷◌, is_none, if◌then◌else◌, IfOk, OnErr};

use cstar_base::{Elem, Memory, Word};
use cstar_tree::typed::{ValueType, Variable};
use indexmap::IndexMap;
use std::alloc::Global;

/// The type of a variable: `array` is the length of an array.
#[derive(Clone, Copy)]
pub struct VariableType {
    pub elem: Elem,
    pub shape: Option<u16>,
    pub array: Option<u32>,
}

impl VariableType {
    /// The type of the variable's value, or of an element's.
    pub fn value(self) -> ValueType
        ensures { result ≡ record { elem = self.elem; shape = self.shape } }
    {
        ValueType {
            elem: self.elem,
            shape: self.shape,
        }
    }
}

/// What a name stands for. The type of a variable is absent where its declaration has a fault.
#[derive(Clone, Copy)]
pub enum Meaning {
    Shape(u16),
    Function(u32),
    Variable(Variable, Option<VariableType>),
}

/// What a name of the file is declared as, with its number among those of its kind.
#[derive(Clone, Copy)]
pub enum FileName {
    Shape(u16),
    Function(u32),
    Variable(u32),
}

/// The names that the file declares, in text order. Of two declarations of one name the first is
/// the one that counts.
#[derive(Drop)]
pub struct FileNames {
    names: IndexMap<Vec<u8>, FileName>,
}

impl FileNames {
    ghost use Rattle.type_scopes.specs.FileBindings.{file_names, known_of, numbered};
    ghost use Rattle.type_scopes.specs.FileBindings.{AreApart};

    pub fn new(alloc: Global) -> FileNames
        ensures { file_names result ≡ [] }
    {
        FileNames {
            names: IndexMap::new(alloc),
        }
    }

    /// Declares the name, unless it is declared already. Answers whether it was new.
    pub fn declare(&mut self, alloc: Global, word: &Word, name: FileName) -> Result<bool, Memory>
        ensures ok { IfOk result (λ new. file_names self.new ≡ (if new then file_names self.old ++ (word.now, name) ∷ [] else file_names self.old)) }
        ensures is_new { IfOk result (λ new. new ≡ is_none (numbered 0 (file_names self.old) word.now)) }
        ensures err { OnErr result (file_names self.new ≡ file_names self.old) }
    {
        if self.names.contains_key(word.bytes()) {
            return Ok(false);
        }
        let bytes = Vec::from_slice(alloc, word.bytes())?;
        self.names.insert(bytes, name)?;
        Ok(true)
    }

    /// The name with its number among all names of the file.
    pub fn find(&self, word: &Word) -> Option<(usize, FileName)>
        ensures found { result ≡ numbered 0 (file_names self.now) word.now }
        ensures apart { AreApart self.now }
    {
        self.find_bytes(word.bytes())
    }

    /// As `find`, of a name as bytes.
    pub fn find_bytes(&self, bytes: &[u8]) -> Option<(usize, FileName)>
        ensures found { result ≡ numbered 0 (file_names self.now) bytes.now }
        ensures apart { AreApart self.now }
    {
        let number = self.names.get_index_of(bytes)?;
        Some((number, self.names[number]))
    }

    /// What the name stands for where the first `known` names of the file are known. Functions
    /// are known everywhere.
    pub fn known(&self, known: usize, word: &Word) -> Option<FileName>
        ensures known { result ≡ known_of known (numbered 0 (file_names self.now) word.now) }
        ensures apart { AreApart self.now }
    {
        let (number, name) = self.find(word)?;
        match name {
            FileName::Function(_) => Some(name),
            FileName::Shape(_) | FileName::Variable(_) if number < known => Some(name),
            FileName::Shape(_) | FileName::Variable(_) => None,
        }
    }
}
