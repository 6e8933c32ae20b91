//! The scopes of the instance that is typed.

ghost use Rattle.cstar_tree.specs.declared.typed.Variable.TheVariants as V;
ghost use Rattle.cstar_tree.specs.Scopes.{find};
ghost use Rattle.std.specs.Prelude.{◌≡◌, ◌+◌, [], ◌∷◌, is_none, if◌then◌else◌, IfOk};
ghost use Rattle.type_scopes.specs.Bindings.{bindings, named, within};

use cstar_base::Memory;
use cstar_tree::syntax::Name;
use cstar_tree::typed::Variable;
use std::alloc::Global;
use type_scopes::locals::Locals;
use type_scopes::names::VariableType;

/// The scopes of an instance around one place, and how many variables its blocks have so far.
#[derive(Drop)]
pub struct Scopes {
    pub locals: Locals,
    pub count: u32,
}

impl Scopes {
    pub fn new(alloc: Global) -> Scopes
        ensures locals { bindings result.locals ≡ [] }
        ensures count { result.count ≡ 0 }
    {
        Scopes {
            locals: Locals::new(alloc),
            count: 0,
        }
    }

    /// Declares a variable of a block. Answers whether the scope did not have it. Memory is wanting
    /// where the variables are no longer counted by 32 bits.
    pub fn declare(
        &mut self,
        alloc: Global,
        scope: usize,
        name: &Name,
        ty: Option<VariableType>,
    ) -> Result<bool, Memory>
        ensures names { IfOk result (λ new. bindings self.new.locals ≡ (if new then named name.now.word (V.Local self.old.count) ty ∷ bindings self.old.locals else bindings self.old.locals)) }
        ensures count { IfOk result (λ new. self.new.count ≡ (if new then self.old.count + 1 else self.old.count)) }
        ensures is_new { IfOk result (λ new. new ≡ is_none (find (within scope (bindings self.old.locals)) name.now.word)) }
    {
        let variable = Variable::Local(self.count);
        let next = self.count.checked_add(1).ok_or(Memory)?;
        let new = self.locals.declare(alloc, scope, &name.word, variable, ty)?;
        if new {
            self.count = next;
        }
        Ok(new)
    }
}
