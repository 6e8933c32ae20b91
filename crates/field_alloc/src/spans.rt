//! The span of each entry of a unit: from the first instruction that names it to the last one. A span
//! that a loop's stretch cuts takes in the whole stretch, since what stands in the entry then has to
//! last from one round to the next. An instruction that makes the entry, with which its span would
//! begin, does not count: it reads all before it writes, so the entry can have the bits of an operand.

ghost use Rattle.std.specs.Prelude.{◌≡◌, ◌⊎◌, ℕ, ◌<◌, ◌≤◌, Any, IfOk, length, None, OnOk, Some};
ghost use Rattle.std.specs.List.{slice_index_or};
ghost use Rattle.paris_code.specs.Spans.{IsNamedAt, entry_of};
ghost use Rattle.field_alloc.specs.Lasting.{AreBehindEnds, HaveStretches, IsClosed, LastsBy};
ghost use Rattle.field_alloc.specs.Lent.{HasFlag};
ghost use Rattle.field_alloc.specs.Made.{BeginsAt, IsUse};
ghost use Rattle.field_alloc.specs.Sweep.{EndsAt, HeldBy, Holds};
ghost use Rattle.field_alloc.specs.Named.{EndedAt, HeldAt, IsInUseAt};

use crate::fields::named;
use crate::lent::flag_at;
use crate::made::made_entries;
use crate::stretches::{behind_ends, is_straight, lasting, note_stretch};
use cstar_base::Memory;
use paris_code::{Field, Unit};
use std::alloc::Global;

/// The instructions from `first` to `last`.
#[derive(Clone, Copy, PartialEq, Eq)]
pub struct Span {
    pub first: u32,
    pub last: u32,
}

/// The spans of a unit's entries; none where no instruction names the entry. One that another unit
/// names, as `lent` says, lasts through the whole unit.
pub fn spans_of(alloc: Global, unit: &Unit, lent: &[bool]) -> Result<Vec<Option<Span>>, Memory>
    ensures length { IfOk result (λ spans. length spans.items ≡ length unit.now.fields.items) }
    ensures held { IfOk result (λ spans. (entry at : ℕ) → entry < length unit.now.fields.items → at < length unit.now.code.items → IsInUseAt unit.now lent.now entry at → HeldAt spans.items entry at) }
{
    let Ok(length) = u32::try_from(unit.code.len()) else {
        return Err(Memory);
    };
    let whole = Span {
        first: 0,
        last: length.saturating_sub(1),
    };
    let mut named = Vec::new(alloc);
    for _ in &unit.fields {
        named.push(None)?;
    }
    let loops = name_all(alloc, unit, &mut named)?;
    let made = made_entries(alloc, unit, named.as_slice())?;
    let behind = behind_ends(alloc, unit.code.len(), loops.as_slice())?;
    let uses = Uses {
        lent,
        made: made.as_slice(),
        whole,
        behind: behind.as_slice(),
        loops: loops.as_slice(),
    };
    let spans = in_use_all(alloc, named.as_slice(), &uses)?;
    Ok(spans)
}

/// What tells where entries are in use: which are lent, and so in use throughout the whole unit, which
/// are made where they are first named and named again, the stretches of the jumps back, and where these end.
#[derive(Clone, Copy)]
struct Uses<'a> {
    lent: &'a [bool],
    made: &'a [bool],
    whole: Span,
    behind: &'a [usize],
    loops: &'a [Span],
}

impl Uses<'_> {
    /// The span in which an entry is in use, that is named in this one: with the stretches that it
    /// meets and without the instruction that makes the entry, or the whole one.
    fn in_use(&self, span: Option<Span>, entry: usize) -> Option<Span>
        requires { AreBehindEnds self.now.loops.now self.now.behind.now }
        ensures lent { HasFlag self.now.lent.now entry → result ≡ Some self.now.whole }
        ensures held { (at : ℕ) → Holds self.now.whole at → LastsBy self.now.loops.now span at → HeldBy result at ⊎ (HasFlag self.now.made.now entry × BeginsAt self.now.loops.now span at) }
    {
        if flag_at(self.lent, entry) {
            return Some(self.whole);
        }
        let span = span?;
        let wide = self.lasting(span);
        Some(if flag_at(self.made, entry) && wide.first == span.first {
            behind_first(wide)
        } else {
            wide
        })
    }

    /// The span with the stretches that it meets, unless it lies inside one.
    fn lasting(&self, span: Span) -> Span
        requires { AreBehindEnds self.now.loops.now self.now.behind.now }
        ensures first { result.first ≤ span.first }
        ensures last { span.last ≤ result.last }
        ensures closed { IsClosed self.now.loops.now result }
    {
        if is_straight(span, self.behind) {
            span
        } else {
            lasting(span, self.loops)
        }
    }
}

/// The span without its first instruction, if it has more.
fn behind_first(span: Span) -> Span
    ensures rest { (at : ℕ) → Holds span at → Holds result at ⊎ ((at ≡ span.first) × (at < span.last)) }
{
    if span.first < span.last {
        Span {
            first: span.first + 1,
            last: span.last,
        }
    } else {
        span
    }
}

/// The spans in which the entries are in use that are named in these.
fn in_use_all(
    alloc: Global,
    named: &[Option<Span>],
    uses: &Uses,
) -> Result<Vec<Option<Span>>, Memory>
    requires { AreBehindEnds uses.now.loops.now uses.now.behind.now }
    ensures length { IfOk result (λ spans. length spans.items ≡ length named.now) }
    ensures each { IfOk result (λ spans. (entry : ℕ) → entry < length named.now → IsUse uses.now.lent.now uses.now.made.now uses.now.whole uses.now.loops.now (slice_index_or named.now entry None) entry (slice_index_or spans.items entry None)) }
{
    let mut spans = Vec::new(alloc);
    for span in named {
        let span = uses.in_use(*span, spans.len());
        spans.push(span)?;
    }
    Ok(spans)
}

/// Goes through the code from its end, and answers the stretches of the jumps back.
fn name_all(alloc: Global, unit: &Unit, spans: &mut Vec<Option<Span>>) -> Result<Vec<Span>, Memory>
    requires length { length spans.old.items ≡ length unit.now.fields.items }
    requires none { (entry at : ℕ) → EndedAt spans.old.items entry at → ⊥ }
    ensures length { OnOk result (length spans.new.items ≡ length spans.old.items) }
    ensures named { OnOk result ((entry at : ℕ) → entry < length unit.now.fields.items → IsNamedAt unit.now entry at → HeldAt spans.new.items entry at) }
    ensures ended { OnOk result ((entry at : ℕ) → EndedAt spans.new.items entry at → IsNamedAt unit.now entry at) }
    ensures stretches { IfOk result (λ loops. HaveStretches unit.now loops.items) }
{
    let mut loops = Vec::new(alloc);
    let mut fields = Vec::new(alloc);
    let mut left = unit.code.len();
    while left > 0 {
        left -= 1;
        let Ok(at) = u32::try_from(left) else {
            return Err(Memory);
        };
        let instr = &unit.code[left];
        note_stretch(instr, at, &mut loops)?;
        fields.clear();
        named(instr, &mut fields)?;
        name_fields(fields.as_slice(), at, spans);
    }
    Ok(loops)
}

/// The spans with one more instruction, which names these fields.
fn name_fields(named: &[Field], at: u32, spans: &mut Vec<Option<Span>>)
    ensures length { length spans.new.items ≡ length spans.old.items }
    ensures kept { (entry other : ℕ) → at ≤ other → HeldAt spans.old.items entry other → HeldAt spans.new.items entry other }
    ensures named { (k entry : ℕ) (field : Field) → k < length named.now → slice_index_or named.now k field ≡ field → field.offset ≡ entry → entry < length spans.old.items → HeldAt spans.new.items entry at }
    ensures ended { (entry other : ℕ) → EndedAt spans.new.items entry other → EndedAt spans.old.items entry other ⊎ ((other ≡ at) × Any (λ f. entry_of f ≡ entry) named.now) }
{
    for field in named {
        let number = field.offset as usize;
        if number < spans.len() {
            spans[number] = Some(widened(spans[number], at));
        }
    }
}

/// The span with one more instruction before it.
fn widened(span: Option<Span>, at: u32) -> Span
    ensures kept { (other : ℕ) → at ≤ other → HeldBy span other → Holds result other }
    ensures here { Holds result at }
    ensures ended { (result.last ≡ at) ⊎ EndsAt span result.last }
{
    let last = match span {
        Some(s) => s.last.max(at),
        None => at,
    };
    Span { first: at, last }
}
