//! The table of transactions.
#![tactic(auto)]

mod row;
mod table;

pub use row::TransRow;
pub use table::Trans;
