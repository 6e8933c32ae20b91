//! From a typed program to its image.
#![tactic(auto)]

ghost use Rattle.std.specs.Prelude.{IfOk};
ghost use Rattle.cstar_compile.specs.Compiled.{IsCompiled};
ghost use Rattle.cstar_tree.specs.IsTyped.{IsTyped};
ghost use Rattle.lower_stmt.specs.Programs.{HasEveryUnit};

use cstar_base::Memory;
use cstar_tree::typed::Typed;
use paris_code::Image;
use std::alloc::Global;

/// The image of a typed program, each of whose instances has code: lowered, placed and linked.
pub fn image_of(alloc: Global, typed: &Typed) -> Result<Image, Memory>
    requires typed { IsTyped typed.now }
    requires units { HasEveryUnit typed.now }
    ensures { IfOk result (λ image. IsCompiled typed.now image) }
{
    let program = lower_stmt::lower(alloc, typed)?;
    let placed = field_alloc::place(alloc, program)?;
    Ok(cstar_link::link(alloc, placed)?)
}
