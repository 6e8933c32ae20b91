//! Jump targets, moved by where their unit begins.

ghost use Rattle.std.specs.Prelude.{◌≡◌, IfOk};
ghost use Rattle.cstar_link.specs.Linked.{moved_by};

use cstar_base::Memory;
use paris_code::Instr;

/// The instruction as it stands in a unit that begins at `start`. Out of memory also where the
/// target would be 2^32 or more, which no code in an image of fewer instructions has.
pub fn moved(instr: Instr, start: u32) -> Result<Instr, Memory>
    ensures { IfOk result (λ i. i ≡ moved_by start instr) }
{
    match instr {
        Instr::FrontJump { target } => {
            let Some(target) = target.checked_add(start) else {
                return Err(Memory);
            };
            Ok(Instr::FrontJump { target })
        }
        Instr::FrontJumpZero { test, target } => {
            let Some(target) = target.checked_add(start) else {
                return Err(Memory);
            };
            Ok(Instr::FrontJumpZero { test, target })
        }
        Instr::FrontJumpNonzero { test, target } => {
            let Some(target) = target.checked_add(start) else {
                return Err(Memory);
            };
            Ok(Instr::FrontJumpNonzero { test, target })
        }
        other => Ok(other),
    }
}
