//! The program `asset_load`: it asks many steps of a facility, by one caller or by several threads, and prints how long they
//! took. `bench/threads.py` runs it. Without arguments it prints its loads.
#![tactic(auto)]

mod alone;
mod asking;
mod auditing;
mod crowd;
mod request;
mod timing;

use crate::request::{Load, Request, requested};
use crate::timing::Took;
use std::{env, io};

/// What is printed without arguments that name a load.
const LOADS: &str = "\
asset_load LOAD COUNT [SESSIONS]: prints the microseconds that the load takes, and a number that it leaves
  core      COUNT transactions of six steps each by Core::step
  calls     the same by one session, through the manager's lock
  apart     the same by SESSIONS threads (1, 2 or 4), each on an object of its own
  together  the same by SESSIONS threads (1, 2 or 4) on one object
  watch     COUNT reads of the published counts
  loads     COUNT loads of a plain atomic word
  audit     the audit of SESSIONS sessions that took turns, over COUNT entries
";

fn main(rt: HostRuntime) -> io::Result<()> {
    let Some(request) = request::read(&rt) else {
        print!(rt; "{LOADS}")?;
        return Ok(());
    };
    let alloc = rt.alloc();
    let took: Option<Took> = match request.load {
        Load::Core => alone::core(&rt, alloc, &request),
        Load::Calls => alone::calls(&rt, alloc, &request),
        Load::Watch => alone::watch(&rt, alloc, &request),
        Load::Loads => alone::loads(&rt, &request),
        Load::Audit => auditing::audited(&rt, alloc, &request),
        Load::Apart => crowd::crowd(&rt, alloc, &request, true),
        Load::Together => crowd::crowd(&rt, alloc, &request, false),
    };
    match took {
        Some(took) => println!(rt; "{} {}", took.time.as_micros(), took.left),
        None => println!(rt; "the load could not be run"),
    }
}
