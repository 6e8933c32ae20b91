//! Image rule 3: how calls may be nested.

ghost use Rattle.std.specs.Prelude.{ℕ, ◌≡◌, ◌≢◌, ◌↔◌, ◌<◌, ◌≤◌, ◌+◌, suc, IsTrue, IfOk, length, MatchOption, Contains};
ghost use Rattle.paris_code.specs.Units.{unit_of, IsAt};
ghost use Rattle.paris_code.specs.RuleStack.{KeepsStack};
ghost use Rattle.image_check.specs.Calls.{Chain, IsDeep, AreMadeBy, AreMarks, AreLong, KeepsCall};
ghost use Rattle.image_check.specs.Stacks.{AreCalls, AreChains};
ghost use Rattle.image_check.specs.Tables.{AreUnitNumbers, AllKeepStack, IsFirstUnstacked};

use crate::chains::{Call, after_calls, reached_from};
use crate::marks::is_marked;
use crate::units::instruction;
use paris_code::{Image, Instr};
use std::alloc::{AllocError, Global};

/// The calls of an image; the units to which a chain of `depth` or more calls leads from unit 0; and
/// the units to which one of as many calls leads as there are units, such as all units on cycles.
#[derive(Drop)]
pub struct Chains {
    pub calls: Vec<Call>,
    pub deep: Vec<bool>,
    pub long: Vec<bool>,
}

/// The unit that an instruction calls.
fn called(instr: &Instr) -> Option<u32>
    ensures { MatchOption result ((to : ℕ) → instr.now ≢ Instr.FrontCall to) (λ unit. instr.now ≡ Instr.FrontCall unit) }
{
    match instr {
        Instr::FrontCall { unit } => Some(*unit),
        _ => None,
    }
}

/// The unit of an instruction.
fn unit_at(image: &Image, numbers: &[u32], place: usize) -> u32
    requires numbered { AreUnitNumbers image.now numbers.now }
    requires inside { place < length numbers.now }
    ensures { result ≡ unit_of image.now place }
{
    numbers[place]
}

/// The calls of the code, in its order.
fn calls_of(alloc: Global, image: &Image, numbers: &[u32]) -> Result<Vec<Call>, AllocError>
    requires { AreUnitNumbers image.now numbers.now }
    ensures { IfOk result (λ calls. AreCalls image.now (length image.now.code.items) calls.items) }
{
    let mut calls = Vec::new(alloc);
    for place in 0..image.code.len() {
        match called(instruction(image, place)) {
            Some(to) => {
                let from = unit_at(image, numbers, place);
                calls.push(Call { from, to })?;
            }
            None => {}
        }
    }
    Ok(calls)
}

/// The units that end a chain of so many calls from unit 0, or of more.
fn deep_units(
    alloc: Global,
    calls: &[Call],
    units: usize,
    depth: usize,
) -> Result<Vec<bool>, AllocError>
    requires { AreMadeBy units calls.now }
    ensures { IfOk result (λ marks. AreMarks units marks.items (IsDeep calls.now depth)) }
{
    let reached = reached_from(alloc, calls, units, 0)?;
    after_calls(alloc, calls, reached, depth)
}

/// The units that end a chain of as many calls as there are units.
fn long_units(alloc: Global, calls: &[Call], units: usize) -> Result<Vec<bool>, AllocError>
    requires { AreMadeBy units calls.now }
    ensures { IfOk result (λ marks. AreLong units calls.now marks.items) }
{
    let all = vec![in alloc; true; units]?;
    after_calls(alloc, calls, all, units)
}

fn chains_of(alloc: Global, image: &Image, numbers: &[u32]) -> Result<Chains, AllocError>
    requires numbered { AreUnitNumbers image.now numbers.now }
    requires units { 0 < length image.now.units.items }
    ensures { IfOk result (λ chains. AreChains image.now chains) }
{
    let units = image.units.len();
    let calls = calls_of(alloc, image, numbers)?;
    let deep = deep_units(alloc, calls.as_slice(), units, image.depth as usize)?;
    let long = long_units(alloc, calls.as_slice(), units)?;
    Ok(Chains { calls, deep, long })
}

/// Whether a call lies on a cycle of calls.
fn is_on_cycle(
    alloc: Global,
    image: &Image,
    chains: &Chains,
    call: Call,
) -> Result<bool, AllocError>
    requires chains { AreChains image.now chains.now }
    requires among { Contains chains.now.calls.items call }
    ensures { IfOk result (λ is. IsTrue is ↔ ((count : ℕ) × Chain chains.now.calls.items count call.to call.from)) }
{
    if !is_marked(chains.long.as_slice(), call.to as usize) {
        return Ok(false);
    }
    let below = reached_from(alloc, chains.calls.as_slice(), image.units.len(), call.to)?;
    Ok(is_marked(below.as_slice(), call.from as usize))
}

fn keeps_call(alloc: Global, image: &Image, chains: &Chains, call: Call) -> Result<bool, AllocError>
    requires chains { AreChains image.now chains.now }
    requires among { Contains chains.now.calls.items call }
    ensures { IfOk result (λ keeps. IsTrue keeps ↔ KeepsCall chains.now.calls.items image.now.depth call) }
{
    if is_marked(chains.deep.as_slice(), call.from as usize) {
        return Ok(false);
    }
    let is_cyclic = is_on_cycle(alloc, image, chains, call)?;
    Ok(!is_cyclic)
}

/// Whether an instruction keeps image rule 3.
fn keeps_stack(
    alloc: Global,
    image: &Image,
    numbers: &[u32],
    chains: &Chains,
    place: usize,
) -> Result<bool, AllocError>
    requires numbered { AreUnitNumbers image.now numbers.now }
    requires inside { place < length numbers.now }
    requires chains { AreChains image.now chains.now }
    ensures { IfOk result (λ keeps. IsTrue keeps ↔ ((instr : Instr) → IsAt image.now place instr → KeepsStack image.now place instr)) }
{
    match called(instruction(image, place)) {
        Some(to) => {
            let from = unit_at(image, numbers, place);
            keeps_call(alloc, image, chains, Call { from, to })
        }
        None => Ok(true),
    }
}

/// The first instruction that does not keep image rule 3.
fn first_unstacked(
    alloc: Global,
    image: &Image,
    numbers: &[u32],
    chains: &Chains,
) -> Result<Option<usize>, AllocError>
    requires numbered { AreUnitNumbers image.now numbers.now }
    requires chains { AreChains image.now chains.now }
    ensures { IfOk result (λ found. MatchOption found (AllKeepStack image.now) (IsFirstUnstacked image.now)) }
{
    for place in 0..image.code.len() {
        let keeps = keeps_stack(alloc, image, numbers, chains, place)?;
        if !keeps {
            return Ok(Some(place));
        }
    }
    Ok(None)
}

/// The first call that breaks image rule 3. This goes over the calls once for each call of the
/// longest chain, and where there are cycles once more for each call that may lie on one.
pub fn broken_stack(
    alloc: Global,
    image: &Image,
    numbers: &[u32],
) -> Result<Option<usize>, AllocError>
    requires numbered { AreUnitNumbers image.now numbers.now }
    requires units { 0 < length image.now.units.items }
    ensures { IfOk result (λ found. MatchOption found (AllKeepStack image.now) (IsFirstUnstacked image.now)) }
{
    let chains = chains_of(alloc, image, numbers)?;
    first_unstacked(alloc, image, numbers, &chains)
}
