//! The tests of locks and of the tables together, through their public calls.
#![tactic(auto)]

#[cfg(test)]
mod handing;
#[cfg(test)]
mod locks;
#[cfg(test)]
mod locks_beside_list;
#[cfg(test)]
mod sizes;
#[cfg(test)]
mod tables;
#[cfg(test)]
mod tables_depending;
