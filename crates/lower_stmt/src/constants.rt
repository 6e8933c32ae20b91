//! Which constants a program needs in registers. The choice changes the length of its code alone.

use cstar_base::Memory;
use paris_code::{Instr, Operand, Program, Unit};
use std::alloc::Global;

/// The most constants that stand in registers, since they are looked up one by one.
const MOST: usize = 256;

/// The numbers that code puts in registers, from `first` on, which nothing else writes: each once, in
/// the order of the code.
pub(crate) fn words_in(alloc: Global, program: &Program, first: u32) -> Result<Vec<u32>, Memory> {
    let mut writes = vec![in alloc; 0u8; program.slots as usize]?;
    for unit in program.units.as_slice() {
        count_writes(unit, writes.as_mut_slice());
    }
    let mut words = Vec::new(alloc);
    for unit in program.units.as_slice() {
        add_words(unit, first, writes.as_slice(), &mut words)?;
    }
    Ok(words)
}

/// Counts for each register the instructions of a unit that write it, up to 255.
fn count_writes(unit: &Unit, writes: &mut [u8]) {
    for instr in unit.code.as_slice() {
        let row = instr.row();
        for operand in row.operands() {
            count_write(*operand, writes);
        }
    }
}

/// One more instruction that writes a register, where the operand is one that is written.
fn count_write(operand: Operand, writes: &mut [u8]) {
    let Operand::Result(register) = operand else {
        return;
    };
    if let Some(count) = writes.get_mut(register as usize) {
        *count = count.saturating_add(1);
    }
}

/// Adds the numbers of a unit that are new, while there is room.
fn add_words(unit: &Unit, first: u32, writes: &[u8], words: &mut Vec<u32>) -> Result<(), Memory> {
    for instr in unit.code.as_slice() {
        if let Instr::FrontConst { dest, value } = instr {
            if *dest >= first && is_written_once(*dest, writes) {
                add_word(*value, words)?;
            }
        }
    }
    Ok(())
}

fn is_written_once(register: u32, writes: &[u8]) -> bool {
    match writes.get(register as usize) {
        Some(count) => *count == 1,
        None => false,
    }
}

/// Adds a number that is new, while there is room.
fn add_word(word: u32, words: &mut Vec<u32>) -> Result<(), Memory> {
    if words.len() < MOST && !words.contains(&word) {
        words.push(word)?;
    }
    Ok(())
}
