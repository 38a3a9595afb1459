//! Drawn histories: the calls of the facility that a report stands on, beside the reference.
use asset_core::{Core, NameSet};
use asset_core_tests::{ROOM, THREE, ask, opened};
use asset_names::{Kind, NoMemory, Ob, Op, Outcome, Reply, Status, Step, Txn};
use asset_reference::{answer, status_after};
use asset_test_tools::{
    abort, add, begin, commit, complete, delegate, depend, initiate, next, ops_of, permit,
    permit_any, read, write,
};
use std::test::Fail;

/// How many histories are drawn, and of how many steps.
const HISTORIES: u64 = 40;

const STEPS: usize = 40;

/// Returns the step that a number stands for.
fn drawn(number: u64) -> Step {
    let t = 5 + (number >> 40) % 5;
    let u = 5 + (number >> 30) % 5;
    let x = 1 + (number >> 20) % 3;
    match (number >> 50) % 19 {
        0 | 1 => initiate(t),
        2 | 3 => begin(t),
        4 | 5 => read(t, x),
        6 | 7 => write(t, x, (number % 1000) as i64),
        16 | 17 => add(t, x, (number % 1000) as i64),
        8 => complete(t),
        9 => commit(t),
        10 => abort(t),
        11 => permit(t, u, &[Ob(x)], (number % 3 != 0, number % 3 != 1)),
        12 => delegate(t, u, &[Ob(x)]),
        18 => permit_any(t, &[Ob(x)], ops_of(number)),
        13 => depend(Kind::Gc, t, u),
        14 => depend(Kind::Cd, t, u),
        _ => depend(Kind::Ad, t, u),
    }
}

/// Returns the set, which is asked for again if memory runs out once.
fn blockers(core: &mut Core, t: Txn, x: Ob, op: Op) -> Result<NameSet, NoMemory> {
    match core.blockers(t, x, op) {
        Ok(found) => Ok(found),
        Err(NoMemory) => core.blockers(t, x, op),
    }
}

fn unfinished(core: &mut Core, t: Txn) -> Result<NameSet, NoMemory> {
    match core.unfinished(t) {
        Ok(found) => Ok(found),
        Err(NoMemory) => core.unfinished(t),
    }
}

fn outside_sources(core: &mut Core, t: Txn) -> Result<NameSet, NoMemory> {
    match core.outside_sources(t) {
        Ok(found) => Ok(found),
        Err(NoMemory) => core.outside_sources(t),
    }
}

/// Returns the step that asks for the operation.
fn request(t: Txn, x: Ob, op: Op) -> Step {
    match op {
        Op::Read => read(t.0, x.0),
        Op::Write => write(t.0, x.0, 1),
        Op::Add => add(t.0, x.0, 1),
    }
}

/// Returns whether each of these is another that holds the object by an operation in conflict.
fn all_hold(core: &Core, found: &NameSet, t: Txn, x: Ob, op: Op) -> bool {
    for u in found.iter() {
        let reads = core.holds(Txn(*u), x, Op::Read) && Op::Read.conflicts_with(op);
        let writes = core.holds(Txn(*u), x, Op::Write);
        let adds = core.holds(Txn(*u), x, Op::Add) && Op::Add.conflicts_with(op);
        if *u == t.0 || !(reads || writes || adds) {
            return false;
        }
    }
    true
}

/// Returns whether somebody blocks a transaction that runs exactly if the reference has its request wait.
fn requests_agree(core: &mut Core, entries: &[(Step, Reply)], t: Txn) -> Result<bool, Fail> {
    for x in 1..4 {
        for op in [Op::Read, Op::Write, Op::Add] {
            let found = blockers(core, t, Ob(x), op).map_err(|_| "no memory")?;
            let waits = answer(&THREE, entries, &request(t, Ob(x), op)) == Outcome::Wait;
            if found.is_empty() == waits || !all_hold(core, &found, t, Ob(x), op) {
                return Ok(false);
            }
        }
    }
    Ok(true)
}

/// Returns whether somebody keeps the transaction from a commit exactly if the reference has its commit wait.
fn commits_agree(core: &mut Core, entries: &[(Step, Reply)], t: Txn) -> Result<bool, Fail> {
    let members = unfinished(core, t).map_err(|_| "no memory")?;
    let sources = outside_sources(core, t).map_err(|_| "no memory")?;
    let waits = answer(&THREE, entries, &commit(t.0)) == Outcome::Wait;
    Ok((members.is_empty() && sources.is_empty()) != waits)
}

/// Returns whether facility and reference agree on whom the transactions wait for.
fn agree(core: &mut Core, entries: &[(Step, Reply)]) -> Result<bool, Fail> {
    for t in 5..10 {
        if status_after(entries, Txn(t)) == Status::Running
            && !requests_agree(core, entries, Txn(t))?
        {
            return Ok(false);
        }
        if !commits_agree(core, entries, Txn(t))? {
            return Ok(false);
        }
    }
    Ok(true)
}

/// Returns whether they agree after each step of a history that is drawn from the seed.
fn all_agree(core: &mut Core, entries: &mut Vec<(Step, Reply)>, seed: u64) -> Result<bool, Fail> {
    let mut number = seed;
    for _ in 0..STEPS {
        number = next(number);
        let step = drawn(number);
        if let Ok(Outcome::Answer(reply)) = ask(core, &step) {
            entries.push((step, reply))?;
        }
        if !agree(core, entries)? {
            return Ok(false);
        }
    }
    Ok(true)
}

#[test]
fn facility_and_reference_agree_on_waits(rt: HostRuntime) -> Result<(), Fail> {
    let mut entries = Vec::new(rt.alloc());
    // Room for all entries, so that none of them asks for memory.
    if entries.reserve(STEPS).is_err() {
        entries.reserve(STEPS)?;
    }
    for seed in 0..HISTORIES {
        let mut core = opened(rt.alloc(), &THREE, ROOM)?;
        entries.clear();
        let agreed = all_agree(&mut core, &mut entries, seed);
        drop(core);
        assert!(rt; agreed?, "at {seed}");
    }
    Ok(())
}
