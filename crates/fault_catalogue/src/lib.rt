//! The catalogue of faults: what each means, and the way out. The page of faults has the same
//! sentences; `docs/faults.py` compares them.
#![tactic(auto)]

mod entries;
mod substitutes;

use crate::entries::ENTRIES;
pub use crate::substitutes::{instead_of, other_word};

/// A fault as a line of `cstar` names it, and what it means with the way out.
pub struct Entry {
    /// Letter and number, as `E05`.
    pub number: &'static str,
    pub name: &'static str,
    pub advice: &'static str,
}

/// The entry of a fault; none where no fault has this number and this name.
pub fn entry_of(number: &str, name: &str) -> Option<&'static Entry> {
    for entry in &ENTRIES {
        if entry.number == number && entry.name == name {
            return Some(entry);
        }
    }
    None
}
