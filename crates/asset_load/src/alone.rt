//! The loads of one thread. Each returns how long it took and a number that it left, and `None` if it could not be run.

ghost use Rattle.std.specs.Prelude.{◌≡◌, Some};
ghost use Rattle.asset_counts.specs.Pass.{IsOf};

use crate::asking::{OBJECTS, ROOM, run_alone, run_one};
use crate::request::Request;
use crate::timing::{Took, moment, since};
use asset_core::Core;
use asset_manager::{Manager, Session, WatchPass};
use std::alloc::Global;
use std::sync::Wait;
use std::sync::atomic::{AtomicU64, Ordering};
use std::time::Clock;

/// Returns how many transactions the core ran.
fn run_core(core: &mut Core, count: u64) -> u64 {
    for t in 0..count {
        if !run_alone(core, t) {
            return t;
        }
    }
    count
}

/// Runs transactions by one caller.
pub fn core<R: Clock>(rt: &R, alloc: Global, request: &Request) -> Option<Took> {
    let mut core = Core::open(alloc, &OBJECTS, ROOM).ok()?;
    let start = moment(rt);
    let ran = run_core(&mut core, request.count);
    let took = since(rt, start, ran);
    took
}

/// Returns how many transactions a session ran.
fn run_session<R: Wait>(rt: &R, manager: &Manager, session: &mut Session, count: u64) -> u64
    requires { IsOf session.old.of manager.now }
{
    for t in 0..count {
        if !run_one(rt, manager, session, t, 1) {
            return t;
        }
    }
    count
}

/// Takes the time of the transactions of a session with room for them.
fn time_session<R: Clock + Wait>(
    rt: &R,
    manager: &Manager,
    session: &mut Session,
    count: u64,
) -> Option<Took>
    requires { IsOf session.old.of manager.now }
{
    session.reserve(ROOM).ok()?;
    let start = moment(rt);
    let ran = run_session(rt, manager, session, count);
    since(rt, start, ran)
}

/// Runs transactions by one session, through the lock.
pub fn calls<R: Clock + Wait>(rt: &R, alloc: Global, request: &Request) -> Option<Took> {
    let (manager, mut session) = Manager::open(alloc, &OBJECTS, ROOM).ok()?;
    let took = time_session(rt, &manager, &mut session, request.count);
    drop(session);
    drop(manager);
    took
}

/// Returns the sum of the entries that many reads show.
fn read_often(manager: &Manager, pass: &mut WatchPass, count: u64) -> u64
    requires { IsOf pass.old.of manager.now }
{
    let mut sum: u64 = 0;
    for _ in 0..count {
        sum = sum.wrapping_add(manager.watch().read(pass).entries);
    }
    sum
}

/// Takes the time of many reads of the published counts.
fn time_reads<R: Clock>(
    rt: &R,
    manager: &Manager,
    session: &mut Session,
    count: u64,
) -> Option<Took>
    requires { IsOf session.old.of manager.now }
{
    let mut pass = session.watch_pass();
    let start = moment(rt);
    let sum = read_often(manager, &mut pass, count);
    since(rt, start, sum)
}

/// Reads the published counts.
pub fn watch<R: Clock>(rt: &R, alloc: Global, request: &Request) -> Option<Took> {
    let (manager, mut session) = Manager::open(alloc, &OBJECTS, ROOM).ok()?;
    let took = time_reads(rt, &manager, &mut session, request.count);
    drop(session);
    drop(manager);
    took
}

/// Loads a plain atomic word.
pub fn loads<R: Clock>(rt: &R, request: &Request) -> Option<Took> {
    let word = AtomicU64::new(0);
    let mut sum: u64 = 0;
    let start = moment(rt);
    for _ in 0..request.count {
        sum = sum.wrapping_add(word.load(Ordering::SeqCst));
    }
    since(rt, start, sum)
}
