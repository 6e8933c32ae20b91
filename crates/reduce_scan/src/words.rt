//! Running folds over the words of a block.

ghost use Rattle.std.specs.Prelude.{◌≡◌, ℕ, ◌<◌, ◌≤◌, ◌+◌, ◌%◌, ◌^◌, ◌==◌, true, IsTrue, length, slice_index, if◌then◌else◌};
ghost use Rattle.paris_code.specs.declared.operands.Reduction.TheVariants as R;
ghost use Rattle.bit_planes.specs.Bits.{bit};
ghost use Rattle.bit_planes.specs.Planes.{plane_at, number};
ghost use Rattle.cstar_base.specs.Folds.{fold_once};
ghost use Rattle.paris_code.specs.Operators.{combiner_of};
ghost use Rattle.paris_code.specs.Scanning.{with_own};
ghost use Rattle.bit_planes.specs.Rows.{held};
ghost use Rattle.reduce_scan.specs.Sums.{HasRun};
ghost use Rattle.reduce_scan.specs.WithinBlocks.{run_to, run_word};

use crate::sums::sum_all;
use bit_planes::plane::{Plane, both, either, lane, opposite, repeated};
use bit_planes::{Block, Rows};
use cstar_base::numbers::{fold_step, identity};
use cstar_base::{Combiner, Inclusion};
use lane_kernels::count;
use paris_code::Reduction;
use std::simd::prelude::*;

/// The first plane where the mask is 1, and the second where it is 0.
#[inline(always)]
fn chosen(mask: u64x8, a: u64x8, b: u64x8) -> u64x8
    ensures { (i : ℕ) → i < 512 → bit result i ≡ (if bit mask i == 1 then bit a i else bit b i) }
{
    either(both(mask, a), both(opposite(mask), b))
}

/// The numbers of a field of 32 bits in the active lanes of a block, and another one in the others,
/// chosen plane by plane.
fn rows_chosen(block: &Block, offset: u32, context: u32, other: u32) -> Rows
    requires field { offset + 32 ≤ context }
    requires context { context < length block.now.planes.items }
    ensures { (i : ℕ) → i < 512 → held result.planes i
        ≡ (if bit (plane_at block.now.planes.items context) i == 1 then number block.now.planes.items offset 32 i else other) }
{
    let active = block.plane(context);
    let mut planes = [Plane::zero(); 32];
    for j in 0..32 {
        let own = block.plane(offset + j);
        let elsewhere = repeated((other >> j) % 2 == 1);
        planes[j as usize] = Plane {
            bits: chosen(active, own, elsewhere),
        };
    }
    Rows::of_field(&planes, 0, 32)
}

/// The numbers of a field of 32 bits in the active lanes of a block, and another one in the others:
/// where all are active, the field as it stands.
pub(crate) fn rows_or(block: &Block, offset: u32, context: u32, other: u32) -> Rows
    requires field { offset + 32 ≤ context }
    requires context { context < length block.now.planes.items }
    ensures { (i : ℕ) → i < 512 → held result.planes i
        ≡ (if bit (plane_at block.now.planes.items context) i == 1 then number block.now.planes.items offset 32 i else other) }
{
    if count(opposite(block.plane(context))) == 0 {
        return Rows::of_field(&block.planes, offset, 32);
    }
    rows_chosen(block, offset, context, other)
}

/// A running fold: from which start, at which lanes it begins anew (lane 0 stands for the place behind
/// the last one), and whether a word takes the fold before it or the one behind it.
#[derive(Clone, Copy)]
pub(crate) struct Run {
    pub(crate) combiner: Reduction,
    pub(crate) inclusion: Inclusion,
    pub(crate) start: u32,
    pub(crate) cuts: u64x8,
}

impl Run {
    /// Runs over the numbers that rows hold, and gives the fold behind the last one: sums without a cut
    /// as they stand there, and all else over their words.
    pub(crate) fn over_rows(&self, rows: &mut Rows) -> u32
        ensures { HasRun self.now rows.old.planes rows.new.planes result }
    {
        if self.is_plain_sum() {
            return sum_all(&mut rows.planes, self.inclusion, self.start);
        }
        let mut words = rows.values();
        let total = self.over(&mut words);
        *rows = Rows::from_values(&words);
        total
    }

    /// Whether it adds, and begins nowhere anew.
    #[tactic(auto, using(crate::proofs::WordRuns::none_before))]
    fn is_plain_sum(&self) -> bool
        ensures { IsTrue result → (self.now.combiner ≡ R.SAdd) × ((i : ℕ) → i < 512 → bit self.now.cuts i ≡ 0) }
    {
        self.combiner == Reduction::SAdd && count(self.cuts) == 0
    }

    /// Runs over the words, and gives the fold behind the last one.
    pub(crate) fn over(&self, words: &mut [u32; 512]) -> u32
        ensures words { (i : ℕ) → i < 512 → slice_index words.new i ≡ run_word self.now words.old i }
        ensures total { result ≡ run_to self.now words.old 512 }
    {
        match self.combiner {
            Reduction::SAdd => self.by(words, &|a, b| fold_step(Combiner::Add, false, a, b)),
            Reduction::Logand => self.by(words, &|a, b| fold_step(Combiner::And, true, a, b)),
            Reduction::Logior => self.by(words, &|a, b| fold_step(Combiner::Or, true, a, b)),
            Reduction::Logxor => self.by(words, &|a, b| fold_step(Combiner::Xor, true, a, b)),
            Reduction::SMin => self.by(words, &|a, b| fold_step(Combiner::Min, false, a, b)),
            Reduction::UMin => self.by(words, &|a, b| fold_step(Combiner::Min, true, a, b)),
            Reduction::SMax => self.by(words, &|a, b| fold_step(Combiner::Max, false, a, b)),
            Reduction::UMax => self.by(words, &|a, b| fold_step(Combiner::Max, true, a, b)),
        }
    }

    /// The same by the combiner's step, one loop for each.
    #[inline(always)]
    fn by<F: Fn(u32, u32) -> u32>(&self, words: &mut [u32; 512], step: &F) -> u32
        requires callable { F.IsAlwaysCallable step.now }
        requires step { (a b r : ℕ) → F.post step.now a b r
            → r ≡ fold_once (combiner_of self.now.combiner).0 (combiner_of self.now.combiner).1 a b }
        ensures words { (i : ℕ) → i < 512 → slice_index words.new i ≡ run_word self.now words.old i }
        ensures total { result ≡ run_to self.now words.old 512 }
    {
        if count(self.cuts) == 0 {
            self.walk(words, true, step)
        } else {
            self.walk(words, false, step)
        }
    }

    /// The same, where it is known whether the fold goes on steadily from the first word to the last.
    #[inline(always)]
    fn walk<F: Fn(u32, u32) -> u32>(&self, words: &mut [u32; 512], steady: bool, step: &F) -> u32
        requires steady { steady ≡ true → (i : ℕ) → i < 512 → bit self.now.cuts i ≡ 0 }
        requires callable { F.IsAlwaysCallable step.now }
        requires step { (a b r : ℕ) → F.post step.now a b r
            → r ≡ fold_once (combiner_of self.now.combiner).0 (combiner_of self.now.combiner).1 a b }
        ensures words { (i : ℕ) → i < 512 → slice_index words.new i ≡ run_word self.now words.old i }
        ensures total { result ≡ run_to self.now words.old 512 }
    {
        let (combine, unsigned) = self.combiner.combiner();
        let none = identity(combine, unsigned);
        let mut total = self.start;
        for i in 0..512 {
            let next = step(total, words[i]);
            words[i] = self.taken(total, next);
            total = self.onward(steady, (i as u32 + 1) % 512, none, next);
        }
        total
    }

    /// What a word takes, of the folds before and behind it.
    #[inline(always)]
    fn taken(&self, total: u32, next: u32) -> u32
        ensures { result ≡ with_own self.now.inclusion (λ t. next) total }
    {
        match self.inclusion {
            Inclusion::Exclusive => total,
            Inclusion::Inclusive => next,
        }
    }

    /// The fold before the word at a lane, from the one behind the word before it.
    #[inline(always)]
    fn onward(&self, steady: bool, at: u32, none: u32, next: u32) -> u32
        requires at { at < 512 }
        requires steady { steady ≡ true → bit self.now.cuts at ≡ 0 }
        ensures { result ≡ (if bit self.now.cuts at == 1 then none else next) }
    {
        if steady {
            return next;
        }
        if lane(self.cuts, at) == 1 { none } else { next }
    }
}
