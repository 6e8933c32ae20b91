// Facts about the definitions alone, which callers and readers find here by name.
ghost use Rattle.std.specs.Prelude.{◌≡◌, ℕ, true, ◌^◌, ◌<◌, List, Option};
ghost use Rattle.combine_core.specs.declared.kind.Kind.{Kind};
ghost use Rattle.combine_core.specs.declared.message.Message.{Message};
ghost use Rattle.combine_core.specs.Encodings.{encoded_home, joined, decoded};
ghost use Rattle.combine_core.specs.Cells.{gathered, RisesFrom};
ghost use Rattle.combine_core.specs.Folded.{folded};
ghost use Rattle.combine_core.specs.Points.{Always, CellsAreJoined, HeldOnce, HeldInRange, LastIsHeld, PassedInClaim, NoneLeftOut, NumbersCount, MissesArePast, DrawsCount, WholeHoldsAll, CompleteIsFolded};

/// Of each combiner: cells may be joined in any order, and a cell that has all messages, decoded, is
/// the fold of their values in the order of the senders, or from the last sender down.
pub fn encodings_are_sound()
    ensures associative { (k : Kind) (a b c : ℕ) → joined k (joined k a b) c ≡ joined k a (joined k b c) }
    ensures commutative { (k : Kind) (a b : ℕ) → joined k a b ≡ joined k b a }
    ensures folded { (k : Kind) (t home : ℕ) (os : List (Option Message)) → home < 2 ^ 32 → RisesFrom 0 os
        → decoded k home (gathered k (λ _. true) t 0 (encoded_home k home) os) ≡ folded k t home os }
{}

/// What holds of the machine after every list of events.
pub fn every_state()
    ensures cells { Always CellsAreJoined }
    ensures once { Always HeldOnce }
    ensures range { Always HeldInRange }
    ensures last { Always LastIsHeld }
    ensures passed { Always PassedInClaim }
    ensures all { Always NoneLeftOut }
    ensures numbers { Always NumbersCount }
    ensures misses { Always MissesArePast }
    ensures draws { Always DrawsCount }
    ensures whole { Always WholeHoldsAll }
    ensures folds { Always CompleteIsFolded }
{}
