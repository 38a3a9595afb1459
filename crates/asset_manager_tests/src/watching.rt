//! The word of published counts, read by passes.

ghost use Rattle.std.specs.Prelude.{◌≡◌, IfOk};
ghost use Rattle.std.specs.Thread.{IsSync};
ghost use Rattle.asset_counts.specs.Shown.{no_counts};
ghost use Rattle.asset_counts.specs.Pass.{IsOf};

use crate::again::{ROOM, THREE, is_answered, opened};
use crate::asserts::same;
use crate::closing::{close_two, room_for};
use asset_counts::{Publisher, Watch, WatchPass};
use asset_manager::{Counts, Manager, Session};
use asset_names::{NoMemory, Reply, Step};
use asset_test_tools::initiate;
use std::alloc::Global;
use std::sync::Wait;
use std::test::Fail;
use std::thread;
use std::thread::{Threads, join};

/// Takes a pass, asks a step, and reads the word by that pass until it shows two entries, at most 1,000,000 times.
fn asks_and_looks<R: Wait>(rt: &R, manager: &Manager, session: &mut Session, step: Step) -> bool
    requires { IsOf session.old.of manager.now }
{
    let mut pass = session.watch_pass();
    if !is_answered(rt, manager, session, &step, Reply::Done) {
        return false;
    }
    for _ in 0..1_000_000 {
        if manager.watch().read(&mut pass).entries == 2 {
            return true;
        }
        thread::yield_now();
    }
    false
}

/// Initiates a transaction on each of two threads, which read the word until it shows both.
fn both_look<R: Threads + Wait + Sync>(
    rt: &R,
    manager: &Manager,
    first: &mut Session,
    second: &mut Session,
) -> (bool, bool)
    requires first { IsOf first.old.of manager.now }
    requires second { IsOf second.old.of manager.now }
{
    join(
        rt,
        || -> bool
            requires { IsSync R.row × IsOf first.now.of manager.now }
        { asks_and_looks(rt, manager, first, initiate(7)) },
        || -> bool
            requires { IsSync R.row × IsOf second.now.of manager.now }
        { asks_and_looks(rt, manager, second, initiate(8)) },
    )
}

#[test]
fn two_threads_see_two_entries(rt: HostRuntime) -> Result<(), Fail> {
    let closing = room_for(rt.alloc(), 2)?;
    let (manager, mut first) = opened(rt.alloc(), &THREE, ROOM)?;
    let mut second = first.split();
    let seen = both_look(&rt, &manager, &mut first, &mut second);
    let closed = close_two(manager, closing, first, second);
    same(&rt, seen, (true, true));
    same(&rt, closed, (2, Ok(())));
    Ok(())
}

/// Opens a word of counts. If memory runs out once, it is opened again.
pub(crate) fn word(alloc: Global) -> Result<(Watch, Publisher), NoMemory>
    ensures { IfOk result (λ word. (word.1.of ≡ word.0) × (word.1.last ≡ no_counts)) }
{
    match Watch::open(alloc) {
        Err(NoMemory) => Watch::open(alloc),
        opened => opened,
    }
}

/// Counts with `entries` entries, of which one is a commit and two are aborts.
fn counts(entries: u64) -> Counts
    ensures { result ≡ record { entries = entries; committed = 1; aborted = 2 } }
{
    Counts {
        entries,
        committed: 1,
        aborted: 2,
    }
}

/// The most counts that fit one word.
const MOST: Counts = Counts {
    entries: 1_048_575,
    committed: 1_048_575,
    aborted: 1_048_575,
};

/// Publishes twice, and returns what passes read before, between and afterwards: a new one, one of the publisher's, and
/// one that is split off it and joined again.
fn reads(watch: &Watch, by: &mut Publisher) -> [Counts; 5]
    requires own { by.old.of ≡ watch.now }
    requires last { by.old.last ≡ no_counts }
{
    let mut new = WatchPass::none();
    let before = watch.read(&mut new);
    let mut own = watch.pass_of(by);
    watch.publish(by, counts(10));
    let between = watch.read(&mut own);
    let mut other = watch.split(&mut own);
    watch.publish(by, MOST);
    let split = watch.read(&mut other);
    watch.join(&mut own, other);
    [
        before,
        between,
        split,
        watch.read(&mut own),
        watch.read(&mut new),
    ]
}

#[test]
fn passes_read_what_was_published(rt: HostRuntime) -> Result<(), Fail> {
    let (watch, mut by) = word(rt.alloc())?;
    let seen = reads(&watch, &mut by);
    drop(by);
    drop(watch);
    let none = Counts {
        entries: 0,
        committed: 0,
        aborted: 0,
    };
    assert_eq!(rt; seen, [none, counts(10), MOST, MOST, MOST]);
    Ok(())
}
