//! The tests of the handle for callers in other languages.
#![tactic(auto)]

#[cfg(test)]
mod asking;
#[cfg(test)]
mod questions;
#[cfg(test)]
mod rows;
#[cfg(test)]
mod wrong;
