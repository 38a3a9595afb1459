//! The tests of the extended models: worked rows over a `Core`, three of them by a client of a manager too, models of two clients on
//! two threads, memory that runs out, and drawn models beside another client.
#![tactic(auto)]

#[cfg(test)]
mod asserts;
#[cfg(test)]
mod between;
#[cfg(test)]
mod clients;
#[cfg(test)]
mod counting;
#[cfg(test)]
mod drawn;
#[cfg(test)]
mod examples;
#[cfg(test)]
mod faults;
#[cfg(test)]
mod parts;
#[cfg(test)]
mod rows;
#[cfg(test)]
mod rows_of;
#[cfg(test)]
mod shared;
