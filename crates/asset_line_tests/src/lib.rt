//! The tests of the lines of scripts: each is read beside a parser by words in plain code, and steps and objects are printed as
//! lines.
#![tactic(auto)]

#[cfg(test)]
mod bad_lines;
#[cfg(test)]
mod drawn;
#[cfg(test)]
mod plain;
#[cfg(test)]
mod printing;
#[cfg(test)]
mod said;
#[cfg(test)]
mod same;
