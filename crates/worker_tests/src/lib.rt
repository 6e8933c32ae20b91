//! Tests of boards, and of passes and sends by several workers.
#![tactic(auto)]

#[cfg(test)]
mod boards;
#[cfg(test)]
mod sends;
#[cfg(test)]
mod workers;
