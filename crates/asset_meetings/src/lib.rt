//! Who met by open permits: a few joins that say it. Two steps that took effect meet if one is an open permit and the other
//! operates on an object that it lists, whatever operations it permits. The one fault is that memory runs out.
#![tactic(auto)]

mod joining;
mod noting;
mod users;

pub use joining::meetings;
