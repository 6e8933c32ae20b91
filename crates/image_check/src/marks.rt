//! Marks at units, and at places of the code.

ghost use Rattle.std.specs.Prelude.{ℕ, ◌≡◌, ◌↔◌, ◌<◌, ◌≤◌, ◌⊎◌, IsTrue, length};
ghost use Rattle.image_check.specs.Marks.{IsMarked, unmarked};

/// Whether there is a mark.
pub fn is_marked(marks: &[bool], at: usize) -> bool
    ensures { IsTrue result ↔ IsMarked marks.now at }
{
    marks.get(at).copied().unwrap_or(false)
}

/// Sets a mark, where the table has a place for it.
pub fn set_mark(marks: &mut Vec<bool>, at: usize)
    ensures same { length marks.new.items ≡ length marks.old.items }
    ensures kept { (other : ℕ) → IsMarked marks.old.items other → IsMarked marks.new.items other }
    ensures marked { at < length marks.old.items → IsMarked marks.new.items at }
    ensures only { (other : ℕ) → IsMarked marks.new.items other → IsMarked marks.old.items other ⊎ (at ≡ other) }
    ensures fewer { ¬ IsMarked marks.old.items at → at < length marks.old.items → unmarked marks.new.items < unmarked marks.old.items }
    ensures no_more { unmarked marks.new.items ≤ unmarked marks.old.items }
{
    if at < marks.len() {
        marks[at] = true;
    }
}
