//! The tests of adds and of open permits from scripts to tables: the worked rows by every word, the calls of the tables, many
//! adders of one object, and drawn steps with their groups.
#![tactic(auto)]

#[cfg(test)]
mod add_rows;
#[cfg(test)]
mod add_tables;
#[cfg(test)]
mod chains;
#[cfg(test)]
mod drawn;
#[cfg(test)]
mod many;
#[cfg(test)]
mod many_adders;
#[cfg(test)]
mod rows;
#[cfg(test)]
mod sharing;
#[cfg(test)]
mod steps;
#[cfg(test)]
mod tables;
#[cfg(test)]
mod words;
