ghost use Rattle.std.specs.Prelude.{◌≡◌, ◌++◌, ◌∷◌, [], OnOk, OnErr};
ghost use Rattle.cstar_io.specs.Faults.{RisesBy};
ghost use Rattle.cstar_io.specs.Output.{Takes, TakesPrefix};

use crate::errors::Failed;
use crate::traits::Sink;

/// Puts a text and a newline behind it.
#[tactic(auto, using(crate::proofs::Taking::prefix_of_first))]
pub fn put_line<O: Sink>(out: &mut O, text: &[u8]) -> Result<(), Failed>
    ensures taken { OnOk result (Takes O.agrees out.old out.new (text.now ++ 10 ∷ [])) }
    ensures part { OnErr result (TakesPrefix O.agrees out.old out.new (text.now ++ 10 ∷ [])) }
    ensures failed { OnErr result (RisesBy (O.faults out.old) (O.faults out.new)) }
    ensures other { OnOk result (O.faults out.new ≡ O.faults out.old) }
{
    out.put(text)?;
    out.put(b"\n")
}
