//! The tests of what is made of a history: what is left without its dead groups, its groups, sources and serial order, and the
//! reports that print them.
#![tactic(auto)]

#[cfg(test)]
mod copied;
#[cfg(test)]
mod deletion;
#[cfg(test)]
mod drawn;
#[cfg(test)]
mod groups;
#[cfg(test)]
mod histories;
#[cfg(test)]
mod memory;
#[cfg(test)]
mod reports;
#[cfg(test)]
mod serial;
#[cfg(test)]
mod sources;
#[cfg(test)]
mod tracing;
#[cfg(test)]
mod walks;
