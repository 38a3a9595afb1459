//! The tests of names and statuses, and of what stands on chains alone: seats, records and objects. They call what is public.
#![tactic(auto)]

#[cfg(test)]
mod adds;
#[cfg(test)]
mod asserts;
#[cfg(test)]
mod handing_writes;
#[cfg(test)]
mod many_live;
#[cfg(test)]
mod many_writes;
#[cfg(test)]
mod names;
#[cfg(test)]
mod objects;
#[cfg(test)]
mod objects_beside_list;
#[cfg(test)]
mod seats;
#[cfg(test)]
mod trans;
#[cfg(test)]
mod visits;
