//! Tests that need more than rows of text: an outside that fails, every byte and every
//! beginning of a program, tokens, gates, files that are kept, and a listing of an image that breaks rules. Rows of programs,
//! listings and commands stand in `row_runs`.
#![tactic(auto)]

#[cfg(test)]
mod bad_input;
#[cfg(test)]
mod bench;
#[cfg(test)]
mod failures;
#[cfg(test)]
mod gates;
#[cfg(test)]
mod listings;
#[cfg(test)]
mod numbers;
#[cfg(test)]
mod saved;
#[cfg(test)]
mod tokens;
