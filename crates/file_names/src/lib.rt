//! The names of a file: which there are, how each is numbered, and which function is `main`.
#![tactic(auto)]

ghost use Rattle.cstar_tree.specs.FileFaults.{IsMainResult};
ghost use Rattle.cstar_tree.specs.FileScopes.{file_functions, file_known};
ghost use Rattle.cstar_tree.specs.Instances.{main_of};
ghost use Rattle.file_names.specs.Numbers.{HasFewNames, MayBeMain, StandsAt, declared_function, in_text_order, named};
ghost use Rattle.std.specs.List.{AllZip};
ghost use Rattle.std.specs.Prelude.{◌≡◌, [], OnOk, true};
ghost use Rattle.type_scopes.specs.FileBindings.{file_names};
ghost use Rattle.type_scopes.specs.Headers.{function_of};

mod numbering;

use crate::numbering::Numbering;
use cstar_base::{Elem, Fault, Memory};
use cstar_tree::syntax::{Item, ResultType};
use type_scopes::faults::Faults;
use type_scopes::file::{File, FunctionInfo};
use type_scopes::names::FileName;

/// Numbers the names of a file in text order, those of each kind by themselves. Of two declarations of
/// one name the first counts, and the second is a fault at its place. Each function is in a group of
/// its own.
pub fn collect(faults: &mut Faults, file: &mut File<'_>) -> Result<(), Memory>
    requires { file.old.functions.items ≡ [] }
    ensures names { HasFewNames (file_known file.old.tree.now) → OnOk result (file_names file.new.names ≡ in_text_order (file_known file.old.tree.now)) }
    ensures functions { HasFewNames (file_known file.old.tree.now) → OnOk result (AllZip (StandsAt file.old.tree.now) file.new.functions.items (file_functions file.old.tree.now)) }
    ensures tree { file.new.tree ≡ file.old.tree }
    ensures shapes { file.new.shapes ≡ file.old.shapes }
    ensures types { file.new.types ≡ file.old.types }
{
    let tree = file.tree;
    let mut numbering = Numbering::new(file.alloc);
    for (item, declared) in tree.items.as_slice().iter().enumerate() {
        match declared {
            Item::Shapes { shapes, .. } => numbering.shapes(file.alloc, faults, shapes)?,
            Item::Variables(declaration) => {
                numbering.variables(file.alloc, faults, &declaration.variables)?
            }
            Item::Function(function) => {
                if let Some(known) = numbering.function(file.alloc, faults, function)? {
                    let group = file.functions.len();
                    file.functions.push(FunctionInfo { item, known, group })?;
                }
            }
        }
    }
    file.names = numbering.names;
    Ok(())
}

/// The number of the function `main`, if the file has one.
pub fn main_function(file: &File<'_>) -> Option<u32>
    ensures { file_names file.now.names ≡ in_text_order (file_known file.now.tree.now) → result ≡ main_of file.now.tree.now }
{
    declared_function(file.names.find_bytes(b"main"))
}

/// May the function of the number be `main`? One that takes something, or answers what is no scalar
/// `int`, is a fault at its name.
pub fn may_be_main(faults: &mut Faults, file: &File<'_>, main: u32) -> bool
    ensures { result ≡ true → MayBeMain (function_of file.now main) }
{
    let Some((_, function)) = file.function(main) else {
        return true;
    };
    let fits = function.parameters.is_empty() && is_main_result(&function.result);
    if !fits {
        faults.stands(Fault::NoMain, function.name.place);
    }
    fits
}

/// The number of the function that was found, if it is one.
fn declared_function(found: Option<(usize, FileName)>) -> Option<u32>
    ensures { result ≡ declared_function (named found) }
{
    match found?.1 {
        FileName::Function(function) => Some(function),
        FileName::Shape(_) | FileName::Variable(_) => None,
    }
}

/// Is the result of `main` an `int`, or nothing?
fn is_main_result(written: &ResultType) -> bool
    ensures { result ≡ true → IsMainResult written.now }
{
    match written {
        ResultType::Unwritten | ResultType::Void => true,
        ResultType::Written(written) => written.shape.is_none() && written.elem == Elem::INT,
    }
}
