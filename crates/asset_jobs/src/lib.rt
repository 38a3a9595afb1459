//! Job scripts: reads what jobs are to do, and writes how each of them ended. Bytes come and go through the devices of
//! `asset_scripts`.
#![tactic(auto)]

mod acting;
mod drafts;
mod ended;
mod faults;
mod parsing;
mod reading;
mod rows;
mod scripts;
mod writing;

pub use acting::do_acts;
pub use asset_grammar::JobAct;
pub use ended::{names_of, rows_of};
pub use faults::JobsFault;
pub use reading::read_jobs;
pub use rows::JobText;
pub use scripts::JobScript;
pub use writing::write_jobs;
