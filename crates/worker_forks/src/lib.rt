//! Work on the places of a slice, or at the indices below a number, by several threads. One thread starts
//! all others; where threads that were started started more, these would begin late. Of a slice it does no
//! part itself while the others work: the system may put the first thread that is started behind the one
//! that starts it, where it would wait for that one's part.
#![tactic(auto)]

ghost use Rattle.std.specs.Prelude.{◌≡◌, ℕ, ◌+◌, ◌^◌, ◌<◌, ◌≤◌, IfOk, length, vec_len};
ghost use Rattle.std.specs.Fork.{AcceptsAt, AcceptsEach, ChangesAt, ChangesEach, GivesEach};
ghost use Rattle.std.specs.Fork.Halves.{GivesFrom};
ghost use Rattle.worker_forks.specs.Parts.{AcceptsFrom, ChangesFrom};
ghost use denote.Param.Send.{Frees, IsSend, IsSync};

use std::alloc::{AllocError, Allocator};
use std::thread::{Threads, join, join_mut};

/// Calls f(i, &mut s[i]) at each place, in at most `threads` threads that are started, or in this one where
/// it is to be one: each takes as many neighbours as the others, but the last one, which may take fewer.
pub fn for_each_mut<R: Threads + Sync, T: Send, F: Fn(usize, &mut T) + Sync>(
    rt: &R,
    s: &mut [T],
    threads: usize,
    f: &F,
)
    requires threads { 0 < threads }
    requires accepts { AcceptsEach F.Fn f.now s.old }
    ensures { ChangesEach F.Fn f.now s.old s.new }
{
    if threads == 1 {
        in_turn(f, 0, s);
    } else if !s.is_empty() {
        let size = s.len().div_ceil(threads);
        from_place(rt, f, size, 0, s);
    }
}

/// The same of the places from one on, in parts of so many, each in a thread of its own.
#[cycle(parts)]
fn from_place<R: Threads + Sync, T: Send, F: Fn(usize, &mut T) + Sync>(
    rt: &R,
    f: &F,
    size: usize,
    base: usize,
    s: &mut [T],
)
    requires size { 0 < size }
    requires room { base + length s.old < 2 ^ 64 }
    requires accepts { AcceptsFrom F.Fn f.now base s.old }
    ensures { ChangesFrom F.Fn f.now base s.old s.new }
{
    if s.is_empty() {
        return;
    }
    let taken = size.min(s.len());
    let (part, rest) = s.split_at_mut(taken);
    part_and_rest(rt, f, size, base, part, base + taken, rest);
}

/// The same of a part, in a thread of its own where one can be made, and of the places behind it.
#[cycle(parts)]
fn part_and_rest<R: Threads + Sync, T: Send, F: Fn(usize, &mut T) + Sync>(
    rt: &R,
    f: &F,
    size: usize,
    base: usize,
    part: &mut [T],
    behind: usize,
    rest: &mut [T],
)
    requires size { 0 < size }
    requires part_room { base + length part.old < 2 ^ 64 }
    requires rest_room { behind + length rest.old < 2 ^ 64 }
    requires part { AcceptsFrom F.Fn f.now base part.old }
    requires rest { AcceptsFrom F.Fn f.now behind rest.old }
    ensures part { ChangesFrom F.Fn f.now base part.old part.new }
    ensures rest { ChangesFrom F.Fn f.now behind rest.old rest.new }
{
    let mut own = ||
        requires { IsSync F.row × IsSend T.row × (base + length part.now < 2 ^ 64) × AcceptsFrom F.Fn f.now base part.now }
        ensures { ChangesFrom F.Fn f.entry.now base part.entry.now part.exit.now }
    { in_turn(f, base, part) };
    let mut others = ||
        requires { IsSync R.row × IsSync F.row × IsSend T.row × (0 < size) × (behind + length rest.now < 2 ^ 64) × AcceptsFrom F.Fn f.now behind rest.now }
        ensures { ChangesFrom F.Fn f.entry.now behind rest.entry.now rest.exit.now }
    { from_place(rt, f, size, behind, rest) };
    join_mut(rt, &mut own, &mut others);
}

/// A call at one place.
fn at_place<T, F: Fn(usize, &mut T)>(f: &F, i: usize, it: &mut T)
    requires { AcceptsAt F.Fn f.now i it.old }
    ensures { ChangesAt F.Fn f.now i it.old it.new }
{
    f(i, it);
}

/// The calls at the places from one on, one after the other.
fn in_turn<T, F: Fn(usize, &mut T)>(f: &F, base: usize, s: &mut [T])
    requires room { base + length s.old < 2 ^ 64 }
    requires accepts { AcceptsFrom F.Fn f.now base s.old }
    ensures { ChangesFrom F.Fn f.now base s.old s.new }
{
    for k in 0..s.len() {
        at_place(f, base + k, &mut s[k]);
    }
}

/// Calls f(0) to f(n - 1), each in a thread of its own where one can be made and where they are several, and
/// gives the results in order. The stack grows with `n`. On `Err`, which means that memory ran out, the
/// results are dropped.
pub fn map_indices<
    R: Threads + Sync,
    X: Send + Drop,
    A: Allocator + Send,
    F: Fn(usize) -> X + Sync,
>(rt: &R, alloc: A, n: usize, f: &F) -> Result<Vec<X, A>, AllocError>
    requires { (i : ℕ) → i < n → F.pre f.now i }
    ensures len { IfOk result (λ v. vec_len v ≡ n) }
    ensures each { IfOk result (λ v. GivesEach F.Fn f.now n v.items) }
{
    if n == 1 {
        let mut one = Vec::new(alloc);
        one.push(f(0))?;
        return Ok(one);
    }
    calls_from(rt, alloc, 0, n, f)
}

/// The same of so many indices from one on.
#[cycle(calls)]
fn calls_from<R: Threads + Sync, X: Send + Drop, A: Allocator + Send, F: Fn(usize) -> X + Sync>(
    rt: &R,
    alloc: A,
    from: usize,
    count: usize,
    f: &F,
) -> Result<Vec<X, A>, AllocError>
    requires room { from + count < 2 ^ 64 }
    requires accepts { (i : ℕ) → from ≤ i → i < from + count → F.pre f.now i }
    ensures { IfOk result (λ v. GivesFrom F.Fn f.now from count v.items) }
{
    if count == 0 {
        return Ok(Vec::new(alloc));
    }
    let up = from + 1;
    let high = count - 1;
    let own = move || -> X
        requires { IsSync F.row × IsSend X.row × F.pre f.now from }
        ensures { F.post f.entry.now from result }
    { f(from) };
    let others = move || -> Result<Vec<X, A>, AllocError>
        requires { IsSync R.row × IsSync F.row × IsSend X.row × IsSend A.row × Frees A.Allocator A.dealloc_token × (up + high < 2 ^ 64) × ((i : ℕ) → up ≤ i → i < up + high → F.pre f.now i) }
        ensures { IfOk result (λ v. GivesFrom F.Fn f.entry.now up high v.items) }
    { calls_from(rt, alloc, up, high, f) };
    let (first, rest) = join(rt, own, others);
    let mut all = rest?;
    all.insert(0, first)?;
    Ok(all)
}
