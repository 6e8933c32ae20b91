//! Tests of small crates by tables and by hand, in a crate of their own: each of those is proved once.
#![tactic(auto)]

#[cfg(test)]
mod drills;
#[cfg(test)]
mod ends;
#[cfg(test)]
mod lexing;
#[cfg(test)]
mod placing;
#[cfg(test)]
mod points;
#[cfg(test)]
mod real_ends;
#[cfg(test)]
mod sends;
