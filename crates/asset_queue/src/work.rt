//! Workers that take jobs until none is left: one in the calling thread, and each of the others in a thread of its own.

ghost use Rattle.std.specs.Prelude.{◌≡◌, ◌<◌, ◌≤◌, ◌+◌, ◌++◌, [], length, map, vec_len, vec_capacity, IfOk, IfErr};
ghost use Rattle.std.specs.Thread.{IsSync};
ghost use Rattle.crossbeam_queue.specs.Passes.{view, IsPassOf, ruled_capacity};
ghost use Rattle.asset_queue.specs.Each.{Each, IsAmong};
ghost use Rattle.asset_queue.specs.Once.{hand, SharedOut};
ghost use Rattle.asset_queue.specs.Rows.{tickets_of, Came, EachOf, HasRows};

use crate::rule::{Halves, Hand, Once, Origin, Puts, Takes, Ticketed};
use crossbeam_queue::{Pass, RuledArrayQueue};
use std::alloc::Global;
use std::marker::Brand;
use std::sync::Wait;
use std::thread::{Threads, join};

type Jobs<J, O> = RuledArrayQueue<J, Hand, Once<O>, Global>;

/// The most workers that share jobs.
pub const MOST_WORKERS: usize = 64;

/// The parts of the right to know the whole queue: two for each worker.
const PARTS: usize = 128;

/// Does jobs.
pub trait Work<J: Ticketed, E: Ticketed>: Sync {
    /// What may come of a job.
    ghost came: { J → E → Type 0 };

    /// Does one job, and returns what came of it. It may wait.
    fn run<R: Wait>(&self, rt: &R, job: J) -> E
        ensures ticket { E.ticket result ≡ J.ticket job }
        ensures came { came job result };
}

/// Takes jobs until none is left, or memory runs out. There is room from the start for so many answers as are expected, if
/// there is memory.
fn take_all<J: Ticketed, E: Ticketed, W: Work<J, E>, O: Origin<J>, R: Wait>(
    rt: &R,
    alloc: Global,
    jobs: &Jobs<J, O>,
    work: &W,
    mut pass: Pass<J, Hand>,
    expected: usize,
) -> (Pass<J, Hand>, Vec<E>)
    requires pass { IsPassOf jobs.now pass }
    requires hand { (view pass ≡ hand (view pass).parts [] []) × (0 < (view pass).parts) }
    ensures pass { IsPassOf jobs.now result.0 }
    ensures taken { view result.0 ≡ hand (view pass).parts [] (map E.ticket result.1.items) }
    ensures came { Each (Came O.from J.ticket E.ticket W.came) result.1.items }
{
    let mut ends = Vec::new(alloc);
    let _ = ends.reserve(expected);
    for _ in rt.forever() {
        if ends.reserve(1).is_err() {
            break;
        }
        match jobs.pop_as::<Takes<O>, R>(rt, &mut pass) {
            Some(job) => ends.push_reserved(work.run(rt, job)),
            None => break,
        }
    }
    (pass, ends)
}

/// Does what one worker does. It takes nothing if it has no room for its answers.
fn one<J: Ticketed, E: Ticketed + Drop, W: Work<J, E>, O: Origin<J>, R: Wait>(
    rt: &R,
    alloc: Global,
    jobs: &Jobs<J, O>,
    work: &W,
    pass: Pass<J, Hand>,
    expected: usize,
) -> (Pass<J, Hand>, Vec<Vec<E>>)
    requires pass { IsPassOf jobs.now pass }
    requires hand { (view pass ≡ hand (view pass).parts [] []) × (0 < (view pass).parts) }
    ensures pass { IsPassOf jobs.now result.0 }
    ensures taken { view result.0 ≡ hand (view pass).parts [] (tickets_of E.ticket result.1.items) }
    ensures came { EachOf (Came O.from J.ticket E.ticket W.came) result.1.items }
    ensures rows { HasRows 1 result.1 }
{
    let Ok(mut rows) = Vec::with_capacity(alloc, MOST_WORKERS) else {
        return (pass, Vec::new(alloc));
    };
    let (pass, ends) = take_all(rt, alloc, jobs, work, pass, expected);
    rows.push_reserved(ends);
    (pass, rows)
}

/// Returns the rows of both, in room that one of them has.
fn joined<E: Drop>(mut rows: Vec<Vec<E>>, mut more: Vec<Vec<E>>) -> Vec<Vec<E>>
    requires room { vec_len rows + vec_len more ≤ MOST_WORKERS }
    requires rows { HasRows (vec_len rows) rows }
    requires more { HasRows (vec_len more) more }
    ensures items { result.items ≡ rows.items ++ more.items }
    ensures rows { HasRows (vec_len rows + vec_len more) result }
{
    if rows.is_empty() {
        return more;
    }
    if rows.append(&mut more).is_err() {
        unreachable!()
    }
    rows
}

/// Shares the jobs among so many workers, by halves: the one half of them works here, the other in another thread, or here
/// afterwards if no thread can be started. Each is expected to do so many jobs.
fn share<
    J: Ticketed + Send,
    E: Ticketed + Drop + Send,
    W: Work<J, E>,
    O: Origin<J> + Send + Sync,
    R: Threads + Wait + Sync,
>(
    rt: &R,
    alloc: Global,
    jobs: &Jobs<J, O>,
    work: &W,
    mut pass: Pass<J, Hand>,
    workers: usize,
    expected: usize,
) -> (Pass<J, Hand>, Vec<Vec<E>>)
    requires pass { IsPassOf jobs.now pass }
    requires hand { view pass ≡ hand (view pass).parts [] [] }
    requires workers { (0 < workers) × (workers ≤ (view pass).parts) × (workers ≤ MOST_WORKERS) }
    ensures pass { IsPassOf jobs.now result.0 }
    ensures taken { view result.0 ≡ hand (view pass).parts [] (tickets_of E.ticket result.1.items) }
    ensures came { EachOf (Came O.from J.ticket E.ticket W.came) result.1.items }
    ensures rows { HasRows workers result.1 }
{
    if workers == 1 {
        return one(rt, alloc, jobs, work, pass, expected);
    }
    let half = workers / 2;
    let rest = workers - half;
    let other = jobs.another::<Halves>(&mut pass);
    let ((mut pass, rows), (other, more)) = join(
        rt,
        move || -> (Pass<J, Hand>, Vec<Vec<E>>)
            requires { IsSync R.row × IsPassOf jobs.now pass × (view pass ≡ hand (view pass).parts [] []) × (0 < rest) × (rest ≤ (view pass).parts) × (rest ≤ MOST_WORKERS) }
            ensures { IsPassOf jobs.entry.now result.0 × (view result.0 ≡ hand (view pass).parts [] (tickets_of E.ticket result.1.items)) × EachOf (Came O.from J.ticket E.ticket W.came) result.1.items × HasRows rest result.1 }
        { share(rt, alloc, jobs, work, pass, rest, expected) },
        move || -> (Pass<J, Hand>, Vec<Vec<E>>)
            requires { IsSync R.row × IsPassOf jobs.now other × (view other ≡ hand (view other).parts [] []) × (0 < half) × (half ≤ (view other).parts) × (half ≤ MOST_WORKERS) }
            ensures { IsPassOf jobs.entry.now result.0 × (view result.0 ≡ hand (view other).parts [] (tickets_of E.ticket result.1.items)) × EachOf (Came O.from J.ticket E.ticket W.came) result.1.items × HasRows half result.1 }
        { share(rt, alloc, jobs, work, other, half, expected) },
    );
    jobs.absorb::<Halves>(&mut pass, other);
    (pass, joined(rows, more))
}

/// Puts all jobs into a queue that has room for them.
fn put_all<J: Ticketed + Drop, O: Origin<J>, R: Wait>(
    rt: &R,
    jobs: &Jobs<J, O>,
    mut pass: Pass<J, Hand>,
    all: Vec<J>,
) -> Pass<J, Hand>
    requires pass { IsPassOf jobs.now pass }
    requires hand { view pass ≡ hand PARTS [] [] }
    requires room { vec_len all ≤ ruled_capacity jobs.now }
    requires from { Each O.from all.items }
    ensures pass { IsPassOf jobs.now result }
    ensures put { view result ≡ hand PARTS (map J.ticket all.items) [] }
{
    for job in all {
        match jobs.push_as::<Puts, R>(rt, &mut pass, job) {
            Ok(()) => {}
            Err(_) => unreachable!(),
        }
    }
    pass
}

/// Takes what is left. The pass has all parts, so it knows then that each job that was put was taken.
fn drain<J: Ticketed + Drop, O: Origin<J>, R: Wait>(
    rt: &R,
    jobs: &Jobs<J, O>,
    mut pass: Pass<J, Hand>,
    mut left: Vec<J>,
) -> Vec<J>
    requires pass { IsPassOf jobs.now pass }
    requires all { (view pass).parts ≡ PARTS }
    requires empty { left.items ≡ [] }
    requires room { length (view pass).put ≤ vec_capacity left }
    ensures once { SharedOut (view pass).put (view pass).taken (map J.ticket result.items) }
    ensures from { Each O.from result.items }
{
    for _ in rt.forever() {
        match jobs.pop_as::<Takes<O>, R>(rt, &mut pass) {
            Some(job) => left.push_reserved(job),
            None => return left,
        }
    }
    unreachable!()
}

/// Does the jobs one after another, in room that there is for what comes of them.
fn do_all<J: Ticketed + Drop, E: Ticketed + Drop, W: Work<J, E>, R: Wait>(
    rt: &R,
    work: &W,
    all: Vec<J>,
    mut ends: Vec<E>,
) -> Vec<E>
    requires empty { ends.items ≡ [] }
    requires room { vec_len all ≤ vec_capacity ends }
    ensures same { map E.ticket result.items ≡ map J.ticket all.items }
    ensures came { Each (Came (IsAmong all.items) J.ticket E.ticket W.came) result.items }
{
    for job in all {
        ends.push_reserved(work.run(rt, job));
    }
    ends
}

/// Has the jobs done by one worker, which is this thread: no queue is needed for that. If memory runs out before it starts,
/// all jobs come back as the error.
fn run_alone<J: Ticketed + Drop, E: Ticketed + Drop, W: Work<J, E>, R: Wait>(
    rt: &R,
    alloc: Global,
    work: &W,
    all: Vec<J>,
) -> Result<(Vec<Vec<E>>, Vec<J>), Vec<J>>
    ensures once { IfOk result (λ r. SharedOut (map J.ticket all.items) (tickets_of E.ticket r.0.items) (map J.ticket r.1.items)) }
    ensures came { IfOk result (λ r. EachOf (Came (IsAmong all.items) J.ticket E.ticket W.came) r.0.items) }
    ensures left { IfOk result (λ r. Each (IsAmong all.items) r.1.items) }
    ensures rows { IfOk result (λ r. vec_len r.0 ≤ 1) }
    ensures err { IfErr result (λ back. back.items ≡ all.items) }
{
    let (Ok(mut rows), Ok(ends)) = (
        Vec::with_capacity(alloc, 1),
        Vec::with_capacity(alloc, all.len()),
    ) else {
        return Err(all);
    };
    rows.push_reserved(do_all(rt, work, all, ends));
    Ok((rows, Vec::new(alloc)))
}

/// Has the jobs done by so many workers, by way of a queue that holds only jobs that may be there.
fn run_shared<
    J: Ticketed + Drop + Send,
    E: Ticketed + Drop + Send,
    W: Work<J, E>,
    O: Origin<J> + Send + Sync,
    R: Threads + Wait + Sync,
>(
    rt: &R,
    alloc: Global,
    work: &W,
    all: Vec<J>,
    workers: usize,
) -> Result<(Vec<Vec<E>>, Vec<J>), Vec<J>>
    requires workers { (0 < workers) × (workers ≤ MOST_WORKERS) }
    requires from { Each O.from all.items }
    ensures once { IfOk result (λ r. SharedOut (map J.ticket all.items) (tickets_of E.ticket r.0.items) (map J.ticket r.1.items)) }
    ensures came { IfOk result (λ r. EachOf (Came O.from J.ticket E.ticket W.came) r.0.items) }
    ensures left { IfOk result (λ r. Each O.from r.1.items) }
    ensures rows { IfOk result (λ r. vec_len r.0 ≤ workers) }
    ensures err { IfErr result (λ back. back.items ≡ all.items) }
{
    let Ok(left) = Vec::with_capacity(alloc, all.len()) else {
        return Err(all);
    };
    let Ok((queue, pass)) = Jobs::<J, O>::ruled(alloc, all.len().max(1)) else {
        return Err(all);
    };
    let expected = all.len() / workers;
    let mut pass = put_all(rt, &queue, pass, all);
    let theirs = queue.another::<Halves>(&mut pass);
    let (theirs, rows) = share(rt, alloc, &queue, work, theirs, workers, expected);
    queue.absorb::<Halves>(&mut pass, theirs);
    let left = drain(rt, &queue, pass, left);
    Ok((rows, left))
}

/// Has the jobs done by so many workers, from 1 to 64, of which one works in this thread and the others each in a thread of its
/// own. If a thread cannot be started, its workers work afterwards in the thread that was to start it.
///
/// Returns what came of the jobs, a row for each worker that had memory for one, and the jobs that nobody took: each job is
/// once in one or the other, and each answer came of one of the jobs. A job is left only if memory ran out. If it ran out before
/// the workers started, all jobs come back as the error.
pub fn run<
    J: Ticketed + Drop + Send,
    E: Ticketed + Drop + Send,
    W: Work<J, E>,
    R: Threads + Wait + Sync,
>(
    rt: &R,
    alloc: Global,
    work: &W,
    all: Vec<J>,
    workers: usize,
) -> Result<(Vec<Vec<E>>, Vec<J>), Vec<J>>
    requires { (0 < workers) × (workers ≤ MOST_WORKERS) }
    ensures once { IfOk result (λ r. SharedOut (map J.ticket all.items) (tickets_of E.ticket r.0.items) (map J.ticket r.1.items)) }
    ensures came { IfOk result (λ r. EachOf (Came (IsAmong all.items) J.ticket E.ticket W.came) r.0.items) }
    ensures left { IfOk result (λ r. Each (IsAmong all.items) r.1.items) }
    ensures rows { IfOk result (λ r. vec_len r.0 ≤ workers) }
    ensures err { IfErr result (λ back. back.items ≡ all.items) }
{
    if workers == 1 {
        return run_alone(rt, alloc, work, all);
    }
    run_shared::<J, E, W, Brand, R>(rt, alloc, work, all, workers)
}
