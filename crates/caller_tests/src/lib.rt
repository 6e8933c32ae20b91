//! Tests of several callers: their book of jobs, their reports, and whole batches.
#![tactic(auto)]

#[cfg(test)]
mod batches;
#[cfg(test)]
mod books;
#[cfg(test)]
mod callers;
#[cfg(test)]
mod meeting;
