//! The tests of the containers: chains, rows and columns, lists, buckets, names in groups and cycles. They call what is public.
#![tactic(auto)]

#[cfg(test)]
mod buckets;
#[cfg(test)]
mod chains;
#[cfg(test)]
mod crossed;
#[cfg(test)]
mod cycles;
#[cfg(test)]
mod lists;
#[cfg(test)]
mod name_groups;
