//! What the command line asks for.

use std::env;
use std::rt::Env;

/// What is run.
#[derive(Clone, Copy)]
pub enum Load {
    /// Transactions by one caller.
    Core,
    /// Transactions by one session, through the lock.
    Calls,
    /// Transactions by threads, each on an object of its own.
    Apart,
    /// Transactions by threads on one object.
    Together,
    /// Reads of the published counts.
    Watch,
    /// Loads of a plain atomic word.
    Loads,
    /// The audit of sessions that took turns, over a history with many entries.
    Audit,
}

/// A load, how much of it, and by how many sessions.
#[derive(Clone, Copy)]
pub struct Request {
    /// What is run.
    pub load: Load,
    /// How many transactions, reads or entries.
    pub count: u64,
    /// How many sessions or threads.
    pub sessions: usize,
}

/// Returns the load of this name.
fn load_named(name: &str) -> Option<Load> {
    match name {
        "core" => Some(Load::Core),
        "calls" => Some(Load::Calls),
        "apart" => Some(Load::Apart),
        "together" => Some(Load::Together),
        "watch" => Some(Load::Watch),
        "loads" => Some(Load::Loads),
        "audit" => Some(Load::Audit),
        _ => None,
    }
}

/// Returns what the arguments ask for, of which the first is the program's name, and `None` if they name no load or no
/// number.
pub fn requested(arguments: &[String]) -> Option<Request> {
    let load = load_named(arguments.get(1)?.as_str())?;
    let count = arguments.get(2)?.as_str().parse().ok()?;
    let sessions = match arguments.get(3) {
        Some(text) => text.as_str().parse().ok()?,
        None => 1,
    };
    Some(Request {
        load,
        count,
        sessions,
    })
}

/// Reads the request from the command line.
pub fn read<R: Env + AllocGlobal>(rt: &R) -> Option<Request> {
    let arguments: Vec<String> = env::args(rt).ok()?.collect(rt.alloc()).ok()?;
    requested(&arguments)
}
