//! What every reader of scripts shares: devices for their bytes, which remember whether a call of theirs failed, the objects
//! before the first step, and the transcript that a script's bytes give.
#![tactic(auto)]

mod device;
mod ends;
mod faults;
mod opening_objects;
mod preamble;
mod prints;
mod reading;
mod transfer;
mod writing;

pub use device::Device;
pub use ends::RunEnd;
pub use faults::ScriptFault;
pub use opening_objects::OpeningObjects;
pub use preamble::{ObjectLine, Preamble, take_objects};
pub use prints::Prints;
pub use reading::read_all;
pub use transfer::{Render, render_all};
pub use writing::write_all;
