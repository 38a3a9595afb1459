//! A history as a picture: an SVG document with a lane for each transaction, marks for operations, and arrows. The one
//! fault is that memory runs out; a part of the text may have been appended then.
#![tactic(auto)]

mod arrow_text;
mod lane_text;
mod layout;
mod mark_text;
mod opening;
mod picture;
mod style;
mod table;

pub use picture::push_picture;
