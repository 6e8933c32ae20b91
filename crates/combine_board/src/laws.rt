// Facts about the definitions and types alone, which a reader finds here by name.
ghost use Rattle.std.specs.Prelude.{◌≡◌, ◌≢◌, ℕ, suc, ◌+◌, ◌%◌, ◌^◌, ◌<◌, ◌∷◌, [], ◌++◌, slice_index, slice_set, slice_get, Some};
ghost use mathlib.Core.Option.{some};
ghost use lib.ListN.{get_elem?};
ghost use Rattle.atomic_table.specs.Table.{State};
ghost use Rattle.combine_core.specs.declared.message.Message.{Message};
ghost use Rattle.combine_core.specs.Encodings.{joined};
ghost use Rattle.combine_core.specs.Cells.{message_word};
ghost use Rattle.combine_core.specs.Machine.{split, claim, deliver, join, passed_to};
ghost use Rattle.combine_core.specs.Points.{CellsAreJoined, HeldOnce, HeldInRange, LastIsHeld, PassedInClaim, NoneLeftOut, NumbersCount, MissesArePast, DrawsCount, WholeHoldsAll, CompleteIsFolded};
ghost use Rattle.combine_board.specs.declared.view.View.{View};
ghost use Rattle.combine_board.specs.Values.{Plan};
ghost use Rattle.combine_board.specs.Rule.{plan_of, shown, Holds, AtEveryMoment, view_with, claimed_view, kept_view, given_view, both_view, spent_view};

use crate::board::Board;
use crate::pass::Pass;
use combine_core::Combine;

/// What each step makes of words and views shows just the state that its one event makes of the
/// state shown before. The worker's number is the place of its view.
pub fn steps_are_events()
    ensures claim { (a : Plan) (s : State ℕ View) (id : ℕ) (v : View) → Holds a s → get_elem? s.views id ≡ some v → 0 < v.worker.draws → plan_of v ≡ a
        → shown a (slice_set s.words 0 ((slice_index s.words 0 + 1) % 2 ^ 64)) (slice_set s.views id (claimed_view (slice_index s.words 0) v)) ≡ claim (shown a s.words s.views) id }
    ensures deliver { (a : Plan) (s : State ℕ View) (id i : ℕ) (v : View) (m : Message) (word : ℕ) (f : ℕ → ℕ) → Holds a s → get_elem? s.views id ≡ some v → word ≡ suc m.target
        → slice_get a.slots i ≡ Some (Some m) → ((x : ℕ) → f x ≡ joined a.kind x (message_word a.kind m))
        → shown a (slice_set s.words word (f (slice_index s.words word))) (slice_set s.views id (view_with v (passed_to i v.worker))) ≡ deliver (shown a s.words s.views) id i }
    ensures split { (a : Plan) (s : State ℕ View) (id : ℕ) (v : View) → get_elem? s.views id ≡ some v
        → shown a s.words (slice_set s.views id (kept_view v) ++ given_view v ∷ []) ≡ split (shown a s.words s.views) id }
    ensures join { (a : Plan) (s : State ℕ View) (id other : ℕ) (v w : View) → get_elem? s.views id ≡ some v → get_elem? s.views other ≡ some w
        → shown a s.words (slice_set (slice_set s.views id (both_view v w)) other spent_view) ≡ join (shown a s.words s.views) id other }
{}

/// At every moment the words of a board and the passes made so far show a state of the machine of
/// which these facts hold.
pub fn every_moment()
    ensures cells { AtEveryMoment CellsAreJoined }
    ensures once { AtEveryMoment HeldOnce }
    ensures range { AtEveryMoment HeldInRange }
    ensures last { AtEveryMoment LastIsHeld }
    ensures passed { AtEveryMoment PassedInClaim }
    ensures all { AtEveryMoment NoneLeftOut }
    ensures numbers { AtEveryMoment NumbersCount }
    ensures misses { AtEveryMoment MissesArePast }
    ensures draws { AtEveryMoment DrawsCount }
    ensures whole { AtEveryMoment WholeHoldsAll }
    ensures folds { AtEveryMoment CompleteIsFolded }
{}

fn threads_may_share<T: Sync>() {}

fn threads_may_move<T: Send>() {}

/// Threads may share a board, and move boards and passes, where its combiner may cross threads.
pub fn boards_cross_threads<C: Combine + Send + Sync>() {
    threads_may_share::<Board<C>>();
    threads_may_move::<Board<C>>();
    threads_may_move::<Pass>();
}
