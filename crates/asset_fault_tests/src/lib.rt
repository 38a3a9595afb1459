//! The tests of faults: memory is refused, a reader or a writer fails, or the script is broken. Each of them is right too if
//! any one request for memory is refused, which `tests/refused.py` tries with each request in turn.
#![tactic(auto)]

#[cfg(test)]
mod alone;
#[cfg(test)]
mod broken;
#[cfg(test)]
mod facility;
#[cfg(test)]
mod jobs;
#[cfg(test)]
mod readers;
#[cfg(test)]
mod refused;
#[cfg(test)]
mod rows;
#[cfg(test)]
mod scripts;
#[cfg(test)]
mod sessions;
#[cfg(test)]
mod writers;
