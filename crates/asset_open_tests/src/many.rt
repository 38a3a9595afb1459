//! Hundreds of objects, of openers and of operators: their groups, and whether those who committed share something.

use crate::drawn::groups_of;
use crate::sharing::share_nothing;
use asset_core::{Core, OpenFault};
use asset_core_tests::{ask, opened};
use asset_deletion::Groups;
use asset_history::History;
use asset_names::{Ob, Op, Ops, Outcome, Reply, Step, Txn};
use asset_test_tools::{begin, commit, complete, initiate, permit_any, read};
use std::alloc::Global;
use std::test::Fail;

/// How many objects there are, and room for the steps.
const MANY: usize = 400;

const ROOM: usize = 8_000;

pub(crate) const DONE: Outcome = Outcome::Answer(Reply::Done);

pub(crate) const READ: Outcome = Outcome::Answer(Reply::Value(100));

/// Returns objects 1 to 400 with one value.
fn objects() -> [(Ob, i64); MANY] {
    let mut objects = [(Ob(0), 100); MANY];
    let mut x = 1;
    for given in objects.iter_mut() {
        *given = (Ob(x), 100);
        x = u64::saturating_add(x, 1);
    }
    objects
}

/// Returns the history of a facility over the objects once steps are played, and the first transaction whose steps are not
/// answered as they must be.
pub(crate) fn played<P: Fn(&mut Core) -> Option<u64> + Drop>(
    alloc: Global,
    play: P,
) -> Result<(History, Option<u64>), OpenFault>
    requires { P.IsAlwaysCallable play }
{
    let mut core = opened(alloc, &objects(), ROOM)?;
    let wrong = play(&mut core);
    Ok((core.into_history(), wrong))
}

/// Returns whether each step has the outcome beside it.
pub(crate) fn all_are(core: &mut Core, steps: &[(Step, Outcome)]) -> bool {
    for (step, outcome) in steps {
        if ask(core, step) != Ok(*outcome) {
            return false;
        }
    }
    true
}

/// Starts two transactions, of which the first opens an object to readers and the other reads it, before or after that.
fn two_meet(core: &mut Core, opener: u64, operator: u64, x: u64) -> bool {
    let starts = [
        (initiate(opener), DONE),
        (begin(opener), DONE),
        (initiate(operator), DONE),
        (begin(operator), DONE),
    ];
    let opens = [(permit_any(opener, &[Ob(x)], Ops::only(Op::Read)), DONE)];
    let reads = [(read(operator, x), READ)];
    if !all_are(core, &starts) {
        return false;
    }
    if x % 2 == 0 {
        all_are(core, &opens) && all_are(core, &reads)
    } else {
        all_are(core, &reads) && all_are(core, &opens)
    }
}

/// Two meet on each object, and then one opens objects 1 to 16.
fn pairs_meet(core: &mut Core) -> Option<u64> {
    for x in 1..401 {
        if !two_meet(core, x, x + 1_000, x) {
            return Some(x);
        }
    }
    let sixteen = [1, 2, 3, 4, 5, 6, 7, 8, 9, 10, 11, 12, 13, 14, 15, 16].map(|x| Ob(x));
    let opens = permit_any(0, &sixteen, Ops::only(Op::Write));
    if all_are(core, &[(initiate(0), DONE), (opens, DONE)]) {
        None
    } else {
        Some(0)
    }
}

/// Returns the first two of these that are of one group, or not, unexpectedly.
pub(crate) fn first_other(found: &Groups, pairs: &[(u64, u64, bool)]) -> Option<(u64, u64)> {
    for (t, u, same) in pairs {
        if found.same(Txn(*t), Txn(*u)) != *same {
            return Some((*t, *u));
        }
    }
    None
}

#[test]
fn hundreds_of_objects_are_opened(rt: HostRuntime) -> Result<(), Fail> {
    let (history, wrong) = played(rt.alloc(), pairs_meet)?;
    let found = groups_of(rt.alloc(), &history);
    drop(history);
    let found = found?;
    let pairs = [
        (1, 1_001, true),
        (0, 1_016, true),
        (3, 1_014, true),
        (16, 17, false),
        (17, 1_017, true),
        (399, 400, false),
        (400, 1_400, true),
    ];
    let other = first_other(&found, &pairs);
    let count = found.count();
    drop(found);
    assert_eq!(rt; (wrong, other), (None, None));
    assert_eq!(rt; count, 385);
    Ok(())
}

/// Starts a transaction that then asks a step.
pub(crate) fn one_asks(core: &mut Core, t: u64, step: Step, outcome: Outcome) -> bool {
    all_are(
        core,
        &[(initiate(t), DONE), (begin(t), DONE), (step, outcome)],
    )
}

/// Hundreds open object 1, hundreds read it, and hundreds open object 2, which nobody reads.
fn hundreds_meet(core: &mut Core) -> Option<u64> {
    let ops = Ops::only(Op::Read);
    for t in 1..301 {
        let opens = permit_any(t, &[Ob(1)], ops);
        let alone = permit_any(t + 2_000, &[Ob(2)], ops);
        if !one_asks(core, t, opens, DONE)
            || !one_asks(core, t + 1_000, read(t + 1_000, 1), READ)
            || !one_asks(core, t + 2_000, alone, DONE)
        {
            return Some(t);
        }
    }
    None
}

#[test]
fn hundreds_open_one_object(rt: HostRuntime) -> Result<(), Fail> {
    let (history, wrong) = played(rt.alloc(), hundreds_meet)?;
    let found = groups_of(rt.alloc(), &history);
    drop(history);
    let found = found?;
    let pairs = [
        (1, 300, true),
        (1, 1_300, true),
        (1_001, 1_300, true),
        (1, 2_001, false),
        (2_001, 2_300, false),
    ];
    let other = first_other(&found, &pairs);
    let count = found.count();
    drop(found);
    assert_eq!(rt; (wrong, other), (None, None));
    assert_eq!(rt; count, 301);
    Ok(())
}

/// Returns whether those who committed shared nothing, once hundreds have met and this transaction commits.
fn share_nothing_once_committed(alloc: Global, t: u64) -> Result<Option<bool>, Fail> {
    let mut core = opened(alloc, &objects(), ROOM)?;
    let wrong = hundreds_meet(&mut core);
    let committed = Outcome::Answer(Reply::Committed);
    let ended = all_are(&mut core, &[(complete(t), DONE), (commit(t), committed)]);
    let history = core.into_history();
    let nothing = share_nothing(alloc, &history);
    drop(history);
    let nothing = nothing?;
    Ok(if wrong == None && ended {
        Some(nothing)
    } else {
        None
    })
}

#[test]
fn who_met_among_hundreds_shares(rt: HostRuntime) -> Result<(), Fail> {
    let opener = share_nothing_once_committed(rt.alloc(), 150)?;
    let operator = share_nothing_once_committed(rt.alloc(), 1_150)?;
    let alone = share_nothing_once_committed(rt.alloc(), 2_150)?;
    assert_eq!(rt; (opener, operator), (Some(false), Some(false)));
    assert_eq!(rt; alone, Some(true));
    Ok(())
}
