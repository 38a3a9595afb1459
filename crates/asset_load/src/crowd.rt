//! The loads of several threads. Each returns how long it took and how many threads did all that they were to do.

ghost use Rattle.std.specs.Thread.{IsSync};
ghost use Rattle.asset_counts.specs.Pass.{IsOf};

use crate::asking::{OBJECTS, ROOM, run_one};
use crate::request::Request;
use crate::timing::{Took, moment, since};
use asset_manager::{Manager, Session};
use std::alloc::Global;
use std::sync::Wait;
use std::thread::{Threads, join};
use std::time::Clock;

/// The transactions of one thread: from the first number on, and on which object.
#[derive(Clone, Copy)]
struct Share {
    first: u64,
    count: u64,
    object: u64,
}

/// Returns how many of the threads' shares this one did whole: 1 or 0.
fn run_share<R: Wait>(rt: &R, manager: &Manager, session: &mut Session, share: Share) -> u64
    requires { IsOf session.old.of manager.now }
{
    for index in 0..share.count {
        if !run_one(
            rt,
            manager,
            session,
            share.first.wrapping_add(index),
            share.object,
        ) {
            return 0;
        }
    }
    1
}

/// Returns the share of the thread at the index, on the object of this number.
fn share_at(index: u64, count: u64, object: u64) -> Share {
    Share {
        first: index.wrapping_mul(count),
        count,
        object,
    }
}

/// Runs the shares of two threads at once. Returns how many were done whole.
fn run_two<R: Threads + Wait + Sync>(
    rt: &R,
    manager: &Manager,
    one: &mut Session,
    two: &mut Session,
    shares: [Share; 2],
) -> u64
    requires one { IsOf one.old.of manager.now }
    requires two { IsOf two.old.of manager.now }
{
    let [share, other] = shares;
    let (done, did) = join(
        rt,
        || -> u64
            requires { IsSync R.row × IsOf one.now.of manager.now }
        { run_share(rt, manager, one, share) },
        || -> u64
            requires { IsSync R.row × IsOf two.now.of manager.now }
        { run_share(rt, manager, two, other) },
    );
    done.wrapping_add(did)
}

/// Runs the shares of four threads at once. Returns how many were done whole.
fn run_four<R: Threads + Wait + Sync>(
    rt: &R,
    manager: &Manager,
    session: &mut Session,
    shares: [Share; 4],
) -> u64
    requires { IsOf session.old.of manager.now }
{
    let [first, second, third, fourth] = shares;
    let mut a = session.split();
    let mut b = session.split();
    let mut c = session.split();
    let (done, did) = join(
        rt,
        || -> u64
            requires { IsSync R.row × IsOf session.now.of manager.now × IsOf a.of manager.now }
        { run_two(rt, manager, session, &mut a, [first, second]) },
        || -> u64
            requires { IsSync R.row × IsOf b.of manager.now × IsOf c.of manager.now }
        { run_two(rt, manager, &mut b, &mut c, [third, fourth]) },
    );
    done.wrapping_add(did)
}

/// Runs the shares of the threads that are asked for: one, two or four.
fn run_shares<R: Threads + Wait + Sync>(
    rt: &R,
    manager: &Manager,
    session: &mut Session,
    request: &Request,
    apart: bool,
) -> u64
    requires { IsOf session.old.of manager.now }
{
    let objects: [u64; 4] = if apart { [1, 2, 3, 4] } else { [1, 1, 1, 1] };
    let first = share_at(0, request.count, objects[0]);
    let second = share_at(1, request.count, objects[1]);
    let third = share_at(2, request.count, objects[2]);
    let fourth = share_at(3, request.count, objects[3]);
    match request.sessions {
        1 => run_share(rt, manager, session, first),
        2 => {
            let mut other = session.split();
            run_two(rt, manager, session, &mut other, [first, second])
        }
        4 => run_four(rt, manager, session, [first, second, third, fourth]),
        _ => 0,
    }
}

/// Takes the time of the threads' transactions.
fn time_shares<R: Clock + Threads + Wait + Sync>(
    rt: &R,
    manager: &Manager,
    session: &mut Session,
    request: &Request,
    apart: bool,
) -> Option<Took>
    requires { IsOf session.old.of manager.now }
{
    let start = moment(rt);
    let done = run_shares(rt, manager, session, request, apart);
    since(rt, start, done)
}

/// Runs transactions by threads, each on an object of its own or all on one.
pub fn crowd<R: Clock + Threads + Wait + Sync>(
    rt: &R,
    alloc: Global,
    request: &Request,
    apart: bool,
) -> Option<Took> {
    let (manager, mut session) = Manager::open(alloc, &OBJECTS, ROOM).ok()?;
    let took = time_shares(rt, &manager, &mut session, request, apart);
    drop(session);
    drop(manager);
    took
}
