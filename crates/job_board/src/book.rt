ghost use Rattle.std.specs.Prelude.{◌≡◌, ℕ, ◌≤◌, ◌<◌, vec_capacity, [], ◌∷◌, ◌++◌, Bool, true, false, ◌&&◌, not, Some, None, length, IfOk, IfSome, IfNone, MatchBool, MatchOption};
ghost use Rattle.std.specs.List.{position};
ghost use Rattle.job_board.specs.declared.entry.Entry.TheVariants as E;
ghost use Rattle.job_board.specs.History.{IsLegal, drawn, is_drawn, is_posted, posts, reported};

use crate::entry::Entry;
use crate::judge::Judge;
use crate::report::Report;
use cstar_base::Memory;
use std::alloc::Global;
use std::marker::{Model, PhantomData};
use std::sync::Mutex;

/// A book of jobs behind a lock. A caller takes the lock for one call of the book, and gives it back
/// before it does the job.
pub type Jobs<J> = Mutex<Book<J>>;

/// What happened to a list of jobs. Contracts see it as its history, which is one that a single
/// caller could have made.
#[derive(Drop)]
pub struct Book<J: Judge> {
    count: u32,
    drawn: u32,
    history: Vec<Entry>,
    judge: PhantomData<J>,
}

impl<J: Judge> Model for Book<J> {
    ghost use Rattle.std.specs.Prelude.{List, vec_capacity};
    ghost use Rattle.job_board.specs.declared.entry.Entry.{Entry};
    ghost use Rattle.job_board.specs.Keeping.{IsKept};

    ghost Value = { List Entry };

    ghost view = { λ b. b.history.items };

    ghost invariant = { λ b. IsKept J.jobs J.answers b.count b.drawn (vec_capacity b.history) b.history.items };
}

impl<J: Judge> Book<J> {
    /// A book of this many jobs, of which none is drawn. It takes the room for all that can happen
    /// to them; no other call takes memory. `Memory` where there is none.
    pub fn new(alloc: Global, count: u32) -> Result<Book<J>, Memory>
        requires count { count ≡ J.jobs }
        requires most { count ≤ 256 }
        ensures { IfOk result (λ book. book ≡ []) }
    {
        Ok(Book {
            count,
            drawn: 0,
            history: Vec::with_capacity(alloc, 2 * count as usize)?,
            judge: PhantomData,
        })
    }

    /// Draws the next number. `None` exactly where all are drawn.
    pub fn draw(&mut self) -> Option<u32>
        ensures none { IfNone result ((length (drawn self.old) ≡ J.jobs) × (self.new ≡ self.old)) }
        ensures next { IfSome result (λ number. (number ≡ length (drawn self.old)) × (number < J.jobs) × (self.new ≡ self.old ++ E.Drawn number ∷ [])) }
        ensures legal { IsLegal J.jobs J.answers self.new }
    {
        if self.drawn == self.count {
            return None;
        }
        let number = self.drawn;
        self.drawn += 1;
        note(&mut self.history, Entry::Drawn { number });
        Some(number)
    }

    /// Posts the report of a number. False exactly where the number is not drawn, or its report is
    /// posted.
    pub fn post(&mut self, number: u32, report: Report) -> bool
        requires { J.answers number report }
        ensures accepted { result ≡ (is_drawn number self.old && not (is_posted number self.old)) }
        ensures change { MatchBool result (self.new ≡ self.old ++ E.Posted number report ∷ []) (self.new ≡ self.old) }
        ensures legal { IsLegal J.jobs J.answers self.new }
    {
        if !has_draw(&self.history, number) || has_post(&self.history, number) {
            return false;
        }
        note(&mut self.history, Entry::Posted { number, report });
        true
    }

    /// The report that was posted for a number. `None` exactly where none was.
    pub fn report(&self, number: u32) -> Option<&Report>
        ensures posted { MatchOption result (is_posted number self.now ≡ false) (λ report. reported number self.now ≡ Some report.now) }
        ensures answers { IfSome result (λ report. J.answers number report.now) }
    {
        let at = place_of(&self.history, number)?;
        match &self.history[at] {
            Entry::Posted { report, .. } => Some(report),
            Entry::Drawn { .. } => unreachable!(),
        }
    }
}

/// Whether a number is drawn.
fn has_draw(history: &[Entry], number: u32) -> bool
    ensures { result ≡ is_drawn number history.now }
{
    history.iter().any(|entry| entry.draws(number))
}

/// Whether the report of a number is posted.
fn has_post(history: &[Entry], number: u32) -> bool
    ensures { result ≡ is_posted number history.now }
{
    history.iter().any(|entry| entry.posts(number))
}

/// The place of the report of a number.
fn place_of(history: &[Entry], number: u32) -> Option<usize>
    ensures { result ≡ position (posts number) history.now }
{
    history.iter().position(|entry| entry.posts(number))
}

/// Adds an entry, for which there is room.
fn note(history: &mut Vec<Entry>, entry: Entry)
    requires { length history.old.items < vec_capacity history.old }
    ensures entries { history.new.items ≡ history.old.items ++ entry ∷ [] }
    ensures room { vec_capacity history.old ≤ vec_capacity history.new }
{
    if history.push(entry).is_err() {
        unreachable!();
    }
}
