//! The names of a file as they are met, in text order, each with its number.

ghost use Rattle.cstar_tree.specs.FileScopes.{Known, behind_function, behind_shapes, behind_variables, nothing_known};
ghost use Rattle.cstar_tree.specs.Scopes.{Binding, find};
ghost use Rattle.cstar_tree.specs.declared.typed.ValueType.{ValueType};
ghost use Rattle.file_names.specs.Numbers.{IsNewAt, Numbers};
ghost use Rattle.std.specs.Prelude.{◌≡◌, ◌+◌, ◌-◌, ◌^◌, ◌++◌, [], ◌∷◌, List, Option, IfOk, OnOk, is_none, min, if◌then◌else◌};
ghost use Rattle.type_scopes.specs.FileBindings.{file_names, numbered};

use cstar_base::{Fault, Memory};
use cstar_tree::syntax::{Declarator, Function, Name, ShapeDefinition};
use std::alloc::Global;
use type_scopes::faults::Faults;
use type_scopes::names::{FileName, FileNames};

/// The names of a file that were met so far, in text order, and how many there are, in all and of
/// each kind. A kind's count stops at the greatest number of its type.
#[derive(Drop)]
pub(crate) struct Numbering {
    pub names: FileNames,
    all: usize,
    shapes: u16,
    functions: u32,
    variables: u32,
}

impl Numbering {
    /// No names.
    pub fn new(alloc: Global) -> Numbering
        ensures { Numbers result nothing_known }
    {
        Numbering {
            names: FileNames::new(alloc),
            all: 0,
            shapes: 0,
            functions: 0,
            variables: 0,
        }
    }

    /// Numbers the shapes of an item.
    pub fn shapes(
        &mut self,
        alloc: Global,
        faults: &mut Faults,
        shapes: &[ShapeDefinition],
    ) -> Result<(), Memory>
        ensures { (functions : List Binding) (known : Known) → Numbers self.old known → OnOk result (Numbers self.new (behind_shapes functions known shapes.now)) }
    {
        for shape in shapes {
            let number = FileName::Shape(self.shapes);
            let new = self.declare(alloc, faults, &shape.name, number)?;
            self.shapes = self.shapes.saturating_add(u16::from(new));
        }
        Ok(())
    }

    /// Numbers the variables of a declaration.
    pub fn variables(
        &mut self,
        alloc: Global,
        faults: &mut Faults,
        variables: &[Declarator],
    ) -> Result<(), Memory>
        ensures { (functions : List Binding) (ty : Option ValueType) (known : Known) → Numbers self.old known → OnOk result (Numbers self.new (behind_variables functions ty known variables.now)) }
    {
        for variable in variables {
            let number = FileName::Variable(self.variables);
            let new = self.declare(alloc, faults, &variable.name, number)?;
            self.variables = self.variables.saturating_add(u32::from(new));
        }
        Ok(())
    }

    /// Numbers a function. Answers how many names are known in it, where its name is new.
    pub fn function(
        &mut self,
        alloc: Global,
        faults: &mut Faults,
        function: &Function,
    ) -> Result<Option<usize>, Memory>
        ensures numbers { (known : Known) → Numbers self.old known → OnOk result (Numbers self.new (behind_function known function.now)) }
        ensures place { (known : Known) → Numbers self.old known → IfOk result (IsNewAt known function.now.name.word) }
    {
        let known = self.all;
        let number = FileName::Function(self.functions);
        let new = self.declare(alloc, faults, &function.name, number)?;
        self.functions = self.functions.saturating_add(u32::from(new));
        Ok(new.then_some(known))
    }

    /// Declares a name with its number. Answers whether it is new; one that is not is a fault.
    fn declare(
        &mut self,
        alloc: Global,
        faults: &mut Faults,
        name: &Name,
        number: FileName,
    ) -> Result<bool, Memory>
        ensures is_new { IfOk result (λ new. new ≡ is_none (numbered 0 (file_names self.old.names) name.now.word)) }
        ensures names { IfOk result (λ new. file_names self.new.names ≡ (if new then file_names self.old.names ++ (name.now.word, number) ∷ [] else file_names self.old.names)) }
        ensures all { IfOk result (λ new. self.new.all ≡ (if new then min (self.old.all + 1) (2 ^ 64 - 1) else self.old.all)) }
        ensures shapes { self.new.shapes ≡ self.old.shapes }
        ensures functions { self.new.functions ≡ self.old.functions }
        ensures variables { self.new.variables ≡ self.old.variables }
    {
        let new = self.names.declare(alloc, &name.word, number)?;
        if new {
            self.all = self.all.saturating_add(1);
        } else {
            faults.stands(Fault::Redeclared, name.place);
        }
        Ok(new)
    }
}
