//! Histories that are appended to, and empty ones like them.

ghost use Rattle.std.specs.Prelude.{◌≡◌, [], IsTrue, IfOk};
ghost use Rattle.asset_entries.specs.Recorded.{opened as first, answer_to, after};

use crate::again::{ask, opened};
use asset_core::Core;
use asset_history::History;
use asset_names::{
    Fault, Kind, NoMemory, Ob, ObList, ObSet, Op, Ops, Outcome, Refusal, Reply, Step, Txn,
};
use asset_test_tools::{
    abort, add, begin, commit, complete, initiate, permit_any, read, wait, write,
};
use std::test::Fail;

/// Two objects.
const TWO: [(Ob, i64); 2] = [(Ob(1), 100), (Ob(2), 200)];

/// How many steps are asked.
const STEPS: u64 = 420;

/// Room for more entries than are asked.
const ROOM: usize = 500;

/// How many steps each transaction asks.
const LIFE: u64 = 7;

/// Returns the step at the index: each transaction writes, has a permit and a delegation refused, and commits.
fn step_at(index: u64, obs: &ObSet) -> Step {
    let t = index / LIFE;
    match index % LIFE {
        0 => initiate(t),
        1 => begin(t),
        2 => write(t, 1, -1),
        3 => Step::Permit {
            giver: Txn(t),
            taker: Txn(STEPS),
            obs: *obs,
            ops: Ops::only(Op::Write),
        },
        4 => Step::Delegate {
            giver: Txn(t),
            taker: Txn(t),
            obs: *obs,
        },
        5 => complete(t),
        _ => commit(t),
    }
}

/// Returns an empty history like the other. If memory runs out once, it is asked again.
fn emptied(history: &History) -> Result<History, NoMemory>
    ensures { IfOk result (λ empty. empty ≡ first history.now.opening history.now.capacity) }
{
    match history.empty_like() {
        Ok(empty) => Ok(empty),
        Err(NoMemory) => history.empty_like(),
    }
}

/// Asks a step. If memory runs out once, nothing has changed and it is asked again.
fn asked(core: &mut Core, step: &Step) -> Result<Outcome, Fault>
    ensures answered { IfOk result (λ outcome. outcome ≡ answer_to core.old.history step.now) }
    ensures grown { IfOk result (λ outcome. core.new.history ≡ after core.old.history step.now outcome) }
{
    match core.step(*step) {
        Err(Fault::NoMemory) => core.step(*step),
        answer => answer,
    }
}

/// Asks a step, and appends it with its reply to a history that is the facility's. Returns whether it could.
fn follow(core: &mut Core, copy: &mut History, step: &Step) -> bool
    requires { copy.old ≡ core.old.history }
    ensures { IsTrue result → copy.new ≡ core.new.history }
{
    if copy.len() >= copy.room() {
        return false;
    }
    match asked(core, step) {
        Ok(Outcome::Answer(reply)) => {
            copy.append(*step, reply);
            true
        }
        Ok(Outcome::Wait) => false,
        Err(_) => false,
    }
}

/// Asks all steps, and appends each with its reply to a history that is the facility's. Returns whether it could.
fn follow_all(core: &mut Core, copy: &mut History, obs: &ObSet) -> bool
    requires { copy.old ≡ core.old.history }
{
    'steps: for index in 0..STEPS {
        if !follow(core, copy, &step_at(index, obs)) {
            return false;
        }
    }
    true
}

/// Returns the index of the first entry that differs.
fn first_other(history: &History, other: &History) -> Option<usize> {
    for index in 0..history.len() {
        if history.entry(index) != other.entry(index) {
            return Some(index);
        }
    }
    None
}

/// Returns whether an empty history like the facility's becomes like it again, as all steps are asked and appended.
#[tactic(auto, unfolding(asset_entries::specs::Recorded::opened))]
fn are_appended(core: &mut Core, obs: &ObSet) -> bool
    requires { core.old.history.entries ≡ [] }
{
    match emptied(core.history()) {
        Ok(mut copy) => {
            let followed = follow_all(core, &mut copy, obs);
            let other = first_other(core.history(), &copy);
            let lens = (core.history().len(), copy.len(), copy.room());
            drop(copy);
            followed && other == None && lens == (420, 420, 500)
        }
        Err(_) => false,
    }
}

#[test]
#[tactic(auto, unfolding(asset_core::specs::Pending::facility_of, asset_entries::specs::Recorded::opened))]
fn entries_are_appended(rt: HostRuntime) -> Result<(), Fail> {
    let obs = ObSet::Listed(ObList::of(&[Ob(1), Ob(2)])?);
    let mut core = opened(rt.alloc(), &TWO, ROOM)?;
    let held = are_appended(&mut core, &obs);
    drop(core);
    assert!(rt; held);
    Ok(())
}

/// Returns whom the step at the index acts on: a permit on its giver and its taker, and any other on its transaction.
fn acted_on(index: u64) -> (Txn, Txn) {
    let t = Txn(index / LIFE);
    match index % LIFE {
        3 => (t, Txn(STEPS)),
        _ => (t, t),
    }
}

/// Asks all steps, and returns the first index at which the entry says that it acts on others.
fn first_other_pair(core: &mut Core, obs: &ObSet) -> Option<u64> {
    'steps: for index in 0..STEPS {
        let answered = asked(core, &step_at(index, obs)).is_ok();
        if !answered || core.history().acted_on(index as usize) != Some(acted_on(index)) {
            return Some(index);
        }
    }
    None
}

#[test]
fn entries_say_whom_they_act_on(rt: HostRuntime) -> Result<(), Fail> {
    let obs = ObSet::Listed(ObList::of(&[Ob(1), Ob(2)])?);
    let mut core = opened(rt.alloc(), &TWO, ROOM)?;
    let other = first_other_pair(&mut core, &obs);
    let past = core.history().acted_on(STEPS as usize);
    drop(core);
    assert_eq!(rt; (other, past), (None, None));
    Ok(())
}

/// Returns a step of each kind, and a second that initiates.
fn each_kind(obs: &ObSet) -> [Step; 14] {
    let (giver, taker) = (Txn(7), Txn(8));
    [
        initiate(7),
        Step::Initiate {
            t: taker,
            parent: Some(giver),
        },
        begin(7),
        read(7, 1),
        write(7, 1, -1),
        add(7, 1, -1),
        Step::Permit {
            giver,
            taker,
            obs: *obs,
            ops: Ops::only(Op::Write),
        },
        permit_any(7, &[Ob(1), Ob(2)], Ops::only(Op::Write)),
        Step::Depend {
            kind: Kind::Cd,
            a: giver,
            b: taker,
        },
        Step::Delegate {
            giver,
            taker,
            obs: *obs,
        },
        complete(7),
        commit(7),
        wait(7),
        abort(8),
    ]
}

/// Returns the first of the steps of which the entry at the index, with this reply, says wrongly whether it records it.
fn first_mistaken(
    history: &History,
    steps: &[Step],
    index: usize,
    reply: Reply,
) -> Option<(usize, usize)> {
    for (other, step) in steps.iter().enumerate() {
        let cycle = Reply::Refused(Refusal::Cycle);
        if history.records(index, step, reply) != (other == index)
            || history.records(index, step, cycle)
            || history.records(index.saturating_add(1), step, reply)
        {
            return Some((index, other));
        }
    }
    None
}

/// Asks the steps, and returns the first entry that says wrongly which of them it records, with that step.
fn first_mistaken_entry(core: &mut Core, steps: &[Step]) -> Option<(usize, usize)> {
    for (index, step) in steps.iter().enumerate() {
        let Ok(Outcome::Answer(reply)) = asked(core, step) else {
            return Some((index, index));
        };
        let mistaken = first_mistaken(core.history(), steps, index, reply);
        if mistaken != None {
            return mistaken;
        }
    }
    None
}

#[test]
fn entries_record_their_steps_alone(rt: HostRuntime) -> Result<(), Fail> {
    let obs = ObSet::Listed(ObList::of(&[Ob(1), Ob(2)])?);
    let mut core = opened(rt.alloc(), &TWO, ROOM)?;
    let mistaken = first_mistaken_entry(&mut core, &each_kind(&obs));
    drop(core);
    assert_eq!(rt; mistaken, None);
    Ok(())
}

/// Returns whether an empty history like this one, of one entry, has its opening and room.
fn is_emptied(history: &History) -> bool {
    match emptied(history) {
        Ok(empty) => {
            let lens = (history.len(), empty.len());
            let rooms = (history.room(), empty.room());
            let alike = empty.opening() == &TWO[..];
            drop(empty);
            alike && lens == (1, 0) && rooms == (ROOM, ROOM)
        }
        Err(_) => false,
    }
}

#[test]
fn empty_history_is_like_another(rt: HostRuntime) -> Result<(), Fail> {
    let mut core = opened(rt.alloc(), &TWO, ROOM)?;
    let answer = ask(&mut core, &begin(7));
    let history = core.into_history();
    let alike = is_emptied(&history);
    drop(history);
    assert_eq!(rt;
        answer,
        Ok(Outcome::Answer(Reply::Refused(Refusal::Unknown(Txn(7)))))
    );
    assert!(rt; alike);
    Ok(())
}
