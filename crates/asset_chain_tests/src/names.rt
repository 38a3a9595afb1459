//! Sets and lists, statuses, refusals and outcomes, on values worked out by hand.

use crate::asserts::{holds, same};
use asset_names::{
    Ob, ObList, ObSet, Op, Ops, Outcome, Refusal, Reply, SetFault, Status, Step, Txn,
    commit_outcome, least_double, refusal_between, refusal_to_abort, refusal_to_begin,
    refusal_to_find, refusal_to_initiate, refusal_to_operate, refusal_to_work, takes_effect,
    wait_outcome,
};
use std::test::Fail;

const NONE: [Ob; 0] = [];

/// One object more than a list has.
const TOO_MANY: usize = 17;

#[test]
fn sets_of_operations(rt: HostRuntime) -> Result<(), Fail> {
    holds(&rt, Ops::new(false, false).is_none());
    let reads = Ops::new(true, false).ok_or("reads")?;
    holds(&rt, reads.has(Op::Read) && !reads.has(Op::Write));
    let writes = Ops::new(false, true).ok_or("writes")?;
    holds(&rt, writes.has(Op::Write) && !writes.has(Op::Read));
    let both = Ops::new(true, true).ok_or("both")?;
    holds(&rt, both.has(Op::Read) && both.has(Op::Write));
    Ok(())
}

#[test]
fn sets_of_operations_grow(rt: HostRuntime) {
    let (reads, writes) = (Ops::only(Op::Read), Ops::only(Op::Write));
    holds(&rt, reads.has(Op::Read) && !reads.has(Op::Write));
    holds(&rt, writes.has(Op::Write) && !writes.has(Op::Read));
    holds(
        &rt,
        reads.with(Op::Read) == reads && writes.with(Op::Write) == writes,
    );
    for both in [reads.with(Op::Write), writes.with(Op::Read)] {
        holds(&rt, both.has(Op::Read) && both.has(Op::Write));
    }
}

/// Returns whether a list of these objects, and the set of that list, have the object, if they make a list.
fn have(objects: &[Ob], x: u64) -> Result<(bool, bool), SetFault> {
    let list = ObList::of(objects)?;
    Ok((list.has(Ob(x)), ObSet::Listed(list).has(Ob(x))))
}

/// Returns whether these objects make a list of the others, in this order.
fn makes(objects: &[Ob], rising: &[Ob]) -> bool {
    match ObList::of(objects) {
        Ok(list) => list.objects() == rising,
        Err(_) => false,
    }
}

#[test]
fn list_is_kept_rising(rt: HostRuntime) {
    let given = [Ob(5), Ob(0), Ob(7)];
    holds(&rt, makes(&given, &[Ob(0), Ob(5), Ob(7)]));
    for (x, listed) in [(0, true), (1, false), (5, true), (7, true), (8, false)] {
        assert_eq!(rt; have(&given, x), Ok((listed, listed)), "object {x}");
    }
    holds(
        &rt,
        ObList::of(&[Ob(7), Ob(5), Ob(0)]) == ObList::of(&given),
    );
    holds(&rt, ObSet::All.has(Ob(3)));
}

/// Returns the only object of the set that lists these, if they make a list.
fn only_of(objects: &[Ob]) -> Result<Option<Ob>, SetFault> {
    Ok(ObSet::Listed(ObList::of(objects)?).only())
}

/// Returns whether the list of one object is what a list of it is.
fn one_is_a_list(x: Ob) -> bool {
    let one = ObList::one(x);
    one.objects() == [x].as_slice() && ObList::of(&[x]) == Ok(one)
}

#[test]
fn only_object_of_a_set(rt: HostRuntime) {
    holds(&rt, one_is_a_list(Ob(5)));
    same(&rt, only_of(&[Ob(5)]), Ok(Some(Ob(5))));
    same(&rt, only_of(&[Ob(5), Ob(0)]), Ok(None));
    same(&rt, ObSet::All.only(), None);
}

/// Returns one object more than a list has, of which none is given twice.
fn one_too_many() -> [Ob; TOO_MANY] {
    let mut objects = [Ob(0); TOO_MANY];
    for (index, object) in objects.iter_mut().enumerate() {
        *object = Ob(100 - index as u64);
    }
    objects
}

#[test]
fn list_has_from_one_to_sixteen_objects(rt: HostRuntime) {
    let objects = one_too_many();
    for (given, expected) in [
        (&NONE[..], Err(SetFault::Empty)),
        (&objects[..16], Ok(16)),
        (&objects[..], Err(SetFault::TooMany)),
        (&[Ob(1); TOO_MANY][..], Err(SetFault::TooMany)),
    ] {
        assert_eq!(rt;
            ObList::of(given).map(|list| list.objects().len()),
            expected
        );
    }
}

#[test]
fn least_double_is_named(rt: HostRuntime) {
    let twice = [Ob(9), Ob(4), Ob(2), Ob(9), Ob(4)];
    for (objects, x) in [(&[Ob(1), Ob(1)][..], Ob(1)), (&twice[..], Ob(4))] {
        assert_eq!(rt; ObList::of(objects), Err(SetFault::Double(x)));
    }
}

#[test]
fn least_double_of_objects_and_of_pairs(rt: HostRuntime) {
    let twice = [Ob(9), Ob(4), Ob(2), Ob(9), Ob(4)];
    let pairs = [(Ob(3), 30), (Ob(1), 10), (Ob(3), -30)];
    for (found, double) in [
        (least_double(&twice), Some(Ob(4))),
        (least_double(&pairs), Some(Ob(3))),
        (least_double(&NONE), None),
    ] {
        assert_eq!(rt; found, double);
    }
}

#[test]
fn refusals_by_status(rt: HostRuntime) {
    let (t, u, x) = (Txn(7), Txn(8), Ob(1));
    let ended = refusal_between(t, Status::Running, u, Status::Aborted, Some(x));
    for (answer, refusal) in [
        (refusal_to_initiate(t, Status::Initiated), Refusal::Taken(t)),
        (refusal_to_begin(t, Status::Running), Refusal::Begun(t)),
        (
            refusal_to_work(t, Status::Completed),
            Refusal::NotRunning(t),
        ),
        (
            refusal_to_operate(t, Status::Running, x, false),
            Refusal::NoObject(x),
        ),
        (ended, Refusal::Ended(u)),
        (refusal_to_find(t, Status::Unknown), Refusal::Unknown(t)),
        (refusal_to_abort(t, Status::Committed), Refusal::TooLate(t)),
    ] {
        assert_eq!(rt; answer, Some(refusal));
    }
}

/// Returns whether four statuses are shown as what they are, and two are owed as many entries as they should be.
fn statuses_are_shown() -> bool {
    Status::Unknown.is_unknown()
        && Status::Aborted.has_ended()
        && Status::Initiated.is_live()
        && Status::Completed.is_completed()
        && (Status::Running.owed(), Status::Completed.owed()) == (2, 1)
}

#[test]
fn outcomes_and_statuses(rt: HostRuntime) {
    let committed = Outcome::Answer(Reply::Committed);
    let aborted = Outcome::Answer(Reply::Aborted);
    for (status, may, outcome) in [
        (Status::Running, false, Outcome::Wait),
        (Status::Completed, true, committed),
        (Status::Committed, false, committed),
        (Status::Aborted, true, aborted),
    ] {
        same(&rt, commit_outcome(status, may), outcome);
    }
    for (status, outcome) in [
        (Status::Running, Outcome::Wait),
        (Status::Completed, Outcome::Answer(Reply::Done)),
        (Status::Aborted, aborted),
    ] {
        same(&rt, wait_outcome(status), outcome);
    }
    holds(&rt, takes_effect(&Step::Begin { t: Txn(7) }, Reply::Done));
    holds(
        &rt,
        !takes_effect(&Step::WaitFor { t: Txn(7) }, Reply::Done),
    );
    holds(
        &rt,
        Op::Write.conflicts_with(Op::Read) && !Op::Read.conflicts_with(Op::Read),
    );
    holds(&rt, statuses_are_shown());
}
