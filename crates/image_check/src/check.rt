//! The check of an image, instruction by instruction.

ghost use Rattle.std.specs.Prelude.{ℕ, ◌≡◌, ◌≢◌, ◌↔◌, ◌<◌, ◌≤◌, IsTrue, IfOk, length, Some, MatchOption, MatchResult};
ghost use Rattle.paris_code.specs.RuleTarget.{HasUnits};
ghost use Rattle.paris_code.specs.Sound.{IsNumbered, KeepsRules, IsSound};
ghost use Rattle.image_check.specs.Faults.{IsFirstFault, IsAnswer, PartsKeep};
ghost use Rattle.image_check.specs.Tables.{AllKeepRules, AreTables, TellsStack, IsLeastRule, IsLeastRuleOfParts};

use crate::fault::{Fault, Rule};
use crate::parts::broken_part;
use crate::rule_back_edge::{jump_targets, keeps_back_edge};
use crate::rule_field::keeps_field;
use crate::rule_operands::keeps_operands;
use crate::rule_set::keeps_set;
use crate::rule_stack::broken_stack;
use crate::rule_target::keeps_target;
use crate::units::{are_starts, instruction, unit_numbers};
use paris_code::{Image, Instr};
use std::alloc::{AllocError, Global};

/// What is worked out of an image before its instructions are looked at: the unit of each
/// instruction, which of them are the target of a jump, and the first call that breaks image rule 3.
#[derive(Drop)]
pub struct Tables {
    pub numbers: Vec<u32>,
    pub marks: Vec<bool>,
    pub unstacked: Option<usize>,
}

fn tables_of(alloc: Global, image: &Image) -> Result<Tables, AllocError>
    requires numbered { IsNumbered image.now }
    requires units { 0 < length image.now.units.items }
    ensures { IfOk result (λ tables. AreTables image.now tables) }
{
    let numbers = unit_numbers(alloc, image)?;
    let marks = jump_targets(alloc, image)?;
    let unstacked = broken_stack(alloc, image, numbers.as_slice())?;
    Ok(Tables {
        numbers,
        marks,
        unstacked,
    })
}

fn is_at(found: Option<usize>, place: usize) -> bool
    ensures { IsTrue result ↔ (found ≡ Some place) }
{
    match found {
        Some(there) => there == place,
        None => false,
    }
}

/// The least image rule that an instruction breaks.
fn broken_rule(image: &Image, tables: &Tables, place: usize, instr: &Instr) -> Option<Rule>
    requires tables { AreTables image.now tables.now }
    requires inside { place < length image.now.code.items }
    requires told { TellsStack image.now tables.now place instr.now }
    ensures { MatchOption result (KeepsRules image.now place instr.now) (IsLeastRule image.now place instr.now) }
{
    let shapes = image.shapes.as_slice();
    let numbers = tables.numbers.as_slice();
    if !keeps_target(image, numbers, place, instr) {
        return Some(Rule::Target);
    }
    if !keeps_field(shapes, image.slots, instr) {
        return Some(Rule::Field);
    }
    if is_at(tables.unstacked, place) {
        return Some(Rule::Stack);
    }
    if !keeps_back_edge(image, numbers, tables.marks.as_slice(), place, instr) {
        return Some(Rule::BackEdge);
    }
    if !keeps_set(shapes, instr) {
        return Some(Rule::Set);
    }
    if !keeps_operands(shapes, instr) {
        return Some(Rule::Operands);
    }
    None
}

/// The first instruction that breaks an image rule, and the least rule that it breaks.
fn first_fault(image: &Image, tables: &Tables) -> Option<Fault>
    requires tables { AreTables image.now tables.now }
    requires numbered { IsNumbered image.now }
    ensures { MatchOption result (AllKeepRules image.now) (λ fault. IsFirstFault image.now fault.rule fault.at) }
{
    for place in 0..image.code.len() {
        match broken_rule(image, tables, place, instruction(image, place)) {
            Some(rule) => {
                return Some(Fault {
                    rule,
                    at: place as u32,
                });
            }
            None => {}
        }
    }
    None
}

/// The fault of a shape or a final variable.
fn fault_of_parts(image: &Image, rule: Rule) -> Fault
    requires numbered { IsNumbered image.now }
    requires each { AllKeepRules image.now }
    requires least { IsLeastRuleOfParts image.now rule }
    ensures { IsFirstFault image.now result.rule result.at }
{
    Fault {
        rule,
        at: image.code.len() as u32,
    }
}

/// The fault of the units.
fn fault_of_units(image: &Image) -> Fault
    requires numbered { IsNumbered image.now }
    requires units { ¬ HasUnits image.now }
    ensures { IsAnswer image.now result.rule result.at }
{
    Fault {
        rule: Rule::Target,
        at: image.code.len() as u32,
    }
}

/// The least place at which an image rule is broken, and the least rule that is broken there.
fn least_fault(image: &Image, tables: &Tables) -> Option<Fault>
    requires tables { AreTables image.now tables.now }
    requires numbered { IsNumbered image.now }
    requires units { HasUnits image.now }
    ensures { MatchOption result (IsSound image.now) (λ fault. ¬ IsSound image.now × IsAnswer image.now fault.rule fault.at) }
{
    match first_fault(image, tables) {
        Some(fault) => Some(fault),
        None => match broken_part(image) {
            Some(rule) => Some(fault_of_parts(image, rule)),
            None => None,
        },
    }
}

/// The least place at which an image rule is broken, and the least rule that is broken there; where
/// the units are broken, that alone.
pub fn find_fault(alloc: Global, image: &Image) -> Result<Option<Fault>, AllocError>
    requires { IsNumbered image.now }
    ensures { IfOk result (λ found. MatchOption found (IsSound image.now) (λ fault. ¬ IsSound image.now × IsAnswer image.now fault.rule fault.at)) }
{
    if !are_starts(image.units.as_slice(), image.code.len()) {
        return Ok(Some(fault_of_units(image)));
    }
    let tables = tables_of(alloc, image)?;
    Ok(least_fault(image, &tables))
}
