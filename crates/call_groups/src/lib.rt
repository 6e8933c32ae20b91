//! Which functions call each other, as the calls stand in the text.
#![tactic(auto)]

ghost use Rattle.call_graph.specs.Graph.{AreGroups};
ghost use Rattle.call_groups.specs.Called.{AreFunctions};
ghost use Rattle.cstar_tree.specs.Headers.{Placed};
ghost use Rattle.cstar_tree.specs.Instances.{called_from};
ghost use Rattle.std.specs.Prelude.{◌≡◌, ℕ, List, IfOk, vec_len};

mod calls;

use crate::calls::calls_of;
use call_graph::groups;
use cstar_base::Memory;
use std::alloc::Global;
use type_scopes::file::File;

/// The group of each function of the file. Two functions are of one group if each calls the other,
/// through others maybe.
pub fn function_groups(file: &File<'_>) -> Result<Vec<usize>, Memory>
    ensures length { IfOk result (λ groups. vec_len groups ≡ vec_len file.now.functions) }
    ensures exact { IfOk result (λ groups. (functions : List Placed) → AreFunctions file.now functions → (shapes : List (List ℕ)) → AreGroups (called_from shapes functions 0 functions) groups.items) }
{
    let mut called = Vec::new(file.alloc);
    for (number, _) in file.functions.as_slice().iter().enumerate() {
        let number = u32::try_from(number).map_err(|_error| Memory)?;
        called.push(calls_of(file, number)?)?;
    }
    groups(file.alloc, called.as_slice())
}
