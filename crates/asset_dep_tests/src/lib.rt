//! The tests of dependencies, by name and by seat, through their public calls. What the tests of permits call too is public.
#![tactic(auto)]

mod sitting;

pub use sitting::sitter;

#[cfg(test)]
mod deps;
#[cfg(test)]
mod deps_beside_list;
#[cfg(test)]
mod seated_deps;
