//! The tests of who waits for whom and of who shares with whom: reports of worked scripts, which are written out here, drawn ones
//! beside the reference, long ones, and devices that fail; and the groups that a history keeps, after each step.
#![tactic(auto)]

#[cfg(test)]
mod devices;
#[cfg(test)]
mod drawn;
#[cfg(test)]
mod kept_drawn;
#[cfg(test)]
mod kept_many;
#[cfg(test)]
mod kept_rows;
#[cfg(test)]
mod plain;
#[cfg(test)]
mod reports;
#[cfg(test)]
mod rows;
#[cfg(test)]
mod sizes;
