//! Small programs and what they mean, which readers find here by name.

ghost use Rattle.source_meaning.specs.Examples.{Contexts, Ends, Communication};

use std::alloc::Global;

/// An `else` inside a narrower `where`, a `break` out of `where`, a call that returns inside `where`.
pub fn contexts(alloc: Global)
    ensures { Contexts alloc }
{}

/// A right side of `&&` that would divide by 0, faults and their positions, a loop that is stopped,
/// `getchar` at the end and at a failure of the input.
pub fn ends(alloc: Global)
    ensures { Ends alloc }
{}

/// A colliding send under both winners and with a combiner, a fold into one element, folds over
/// nothing, an old value read after the right side, a scan with segments.
pub fn communication(alloc: Global)
    ensures { Communication alloc }
{}
