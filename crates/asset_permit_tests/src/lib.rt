//! The tests of permits, by name and by seat, through their public calls.
#![tactic(auto)]

#[cfg(test)]
mod copies;
#[cfg(test)]
mod open_permits;
#[cfg(test)]
mod permits;
#[cfg(test)]
mod seated_locks;
#[cfg(test)]
mod seated_permits;
#[cfg(test)]
mod sizes;
