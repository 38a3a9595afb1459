//! The tests of checks and of conversations: each reason by a line, whole scripts, scripts that are drawn, conversations by pieces of
//! any size whose replies come in time, and devices and memory that fail.
#![tactic(auto)]

#[cfg(test)]
mod checks;
#[cfg(test)]
mod drawn;
#[cfg(test)]
mod example;
#[cfg(test)]
mod faults;
#[cfg(test)]
mod reasons;
#[cfg(test)]
mod scripts;
#[cfg(test)]
mod talk_faults;
#[cfg(test)]
mod talk_rows;
#[cfg(test)]
mod talks;
#[cfg(test)]
mod timely;
