//! Tests of planes, and of the arithmetic on them.
#![tactic(auto)]

#[cfg(test)]
mod kernels;
#[cfg(test)]
mod planes;
