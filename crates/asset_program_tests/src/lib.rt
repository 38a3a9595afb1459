//! The tests of the program over readers and writers in memory; and of job scripts, from their bytes to the text that says how
//! the jobs ended. They stand in a crate of their own, because a test build proves again the whole crate that it belongs to.
#![tactic(auto)]

mod texts;

pub use texts::{HELP, VERSION};

#[cfg(test)]
mod asserts;
#[cfg(test)]
mod conversing;
#[cfg(test)]
mod faults;
#[cfg(test)]
mod job_devices;
#[cfg(test)]
mod job_reading;
#[cfg(test)]
mod job_rows;
#[cfg(test)]
mod job_running;
#[cfg(test)]
mod job_written;
#[cfg(test)]
mod readme;
#[cfg(test)]
mod refusals;
#[cfg(test)]
mod requests;
#[cfg(test)]
mod running;
#[cfg(test)]
mod scripts;
#[cfg(test)]
mod statuses;
