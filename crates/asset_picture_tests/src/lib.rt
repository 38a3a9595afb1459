//! The tests of pictures: worked ones, whose shapes are written out here, and drawn ones, whose shapes are counted.
#![tactic(auto)]

#[cfg(test)]
mod drawing;
#[cfg(test)]
mod drawn;
#[cfg(test)]
mod scripts;
#[cfg(test)]
mod sizes;
#[cfg(test)]
mod worked;
