//! Dependencies on worked values, and what is left if memory runs out.

use asset_deps::Deps;
use asset_names::{Kind, NoMemory, Txn};

/// How many transactions there are past any small constant.
const MANY: u64 = 300;

/// Enrols both and adds the dependency, unless it would close a cycle. Returns whether it was added.
pub(crate) fn add(deps: &mut Deps, kind: Kind, a: u64, b: u64) -> Result<bool, NoMemory> {
    enrol(deps, a)?;
    enrol(deps, b)?;
    add_between(deps, kind, Txn(a), Txn(b))
}

/// Adds a dependency between two that are enrolled, unless it would close a cycle, and returns whether it was added. If
/// memory runs out, the same call is made again.
pub(crate) fn add_between(deps: &mut Deps, kind: Kind, a: Txn, b: Txn) -> Result<bool, NoMemory> {
    if !deps.is_enrolled(a) || !deps.is_enrolled(b) || deps.would_cycle(kind, a, b) {
        return Ok(false);
    }
    match deps.add(kind, a, b) {
        Ok(()) => Ok(true),
        Err(NoMemory) => {
            deps.add(kind, a, b)?;
            Ok(true)
        }
    }
}

/// Enrols a transaction. If memory runs out, it is not enrolled, and the same call is made again.
pub(crate) fn enrol(deps: &mut Deps, t: u64) -> Result<(), NoMemory> {
    let before = deps.is_enrolled(Txn(t));
    match deps.enrol(Txn(t)) {
        Ok(()) => Ok(()),
        Err(NoMemory) if deps.is_enrolled(Txn(t)) == before => deps.enrol(Txn(t)),
        Err(NoMemory) => Err(NoMemory),
    }
}

/// Marks whom an abort of the transaction aborts, if it is enrolled.
pub(crate) fn doom(deps: &mut Deps, t: u64) {
    if deps.is_enrolled(Txn(t)) {
        deps.mark_doomed(Txn(t));
    }
}

/// Returns whether a dependency would close a cycle.
fn cycle(deps: &mut Deps, kind: Kind, a: u64, b: u64) -> bool {
    deps.would_cycle(kind, Txn(a), Txn(b))
}

/// Makes 8 depend on 7 by an abort dependency, and joins 8 and 9 in a class.
fn doom_into_a_class(deps: &mut Deps) -> bool {
    add(deps, Kind::Ad, 7, 8) == Ok(true) && add(deps, Kind::Gc, 8, 9) == Ok(true)
}

/// Returns whether the class of 8 and 9 stands behind 7, and a loop at it closes a cycle.
fn class_shows(deps: &mut Deps) -> bool {
    cycle(deps, Kind::Cd, 9, 7)
        && cycle(deps, Kind::Cd, 8, 9)
        && cycle(deps, Kind::Gc, 7, 9)
        && !cycle(deps, Kind::Cd, 7, 9)
        && !cycle(deps, Kind::Gc, 9, 8)
        && deps.same_class(Txn(8), Txn(9))
        && !deps.same_class(Txn(7), Txn(8))
        && deps.has_outside_source(Txn(9))
        && !deps.has_outside_source(Txn(7))
}

/// Returns whether an abort of 7 takes the whole class with it, and one of 8 does not go back to 7.
fn doom_spreads(deps: &mut Deps) -> bool {
    doom(deps, 7);
    let from_source = deps.is_doomed(Txn(7)) && deps.is_doomed(Txn(8)) && deps.is_doomed(Txn(9));
    doom(deps, 8);
    from_source
        && !deps.is_doomed(Txn(7))
        && deps.is_doomed(Txn(8))
        && deps.is_doomed(Txn(9))
        && deps.marked(1).is_some()
        && deps.marked(2) == None
}

/// Returns whether the class has no outside source once 7 has ended, and 8 alone loses its mark once 8 has.
fn source_ends(deps: &mut Deps) -> bool {
    deps.end(Txn(7));
    let alone = !deps.has_outside_source(Txn(9)) && deps.is_doomed(Txn(8));
    deps.end(Txn(8));
    alone
        && !deps.is_doomed(Txn(8))
        && deps.next_marked() == Some(Txn(9))
        && deps.next_marked() == None
        && !deps.is_enrolled(Txn(8))
        && !deps.same_class(Txn(8), Txn(9))
}

/// Returns whether all of this holds in turn.
fn doom_over_a_class(deps: &mut Deps) -> bool {
    doom_into_a_class(deps) && class_shows(deps) && doom_spreads(deps) && source_ends(deps)
}

#[test]
fn doom_spreads_over_a_class(rt: HostRuntime) {
    let mut deps = Deps::new(rt.alloc());
    let spreads = doom_over_a_class(&mut deps);
    drop(deps);
    assert!(rt; spreads);
}

/// Returns whether a search between two marks forgets none of them.
fn search_keeps_marks(deps: &mut Deps) -> bool {
    let made = add(deps, Kind::Ad, 1, 2) == Ok(true) && add(deps, Kind::Gc, 5, 6) == Ok(true);
    doom(deps, 1);
    made && deps.same_class(Txn(5), Txn(6))
        && deps.has_outside_source(Txn(2))
        && deps.is_doomed(Txn(1))
        && deps.is_doomed(Txn(2))
        && !deps.is_doomed(Txn(5))
}

#[test]
fn search_forgets_no_mark(rt: HostRuntime) {
    let mut deps = Deps::new(rt.alloc());
    let kept = search_keeps_marks(&mut deps);
    drop(deps);
    assert!(rt; kept);
}

/// Returns whether those who are not enrolled are alone.
fn strangers_are_alone(deps: &mut Deps) -> bool {
    !deps.is_enrolled(Txn(1))
        && deps.same_class(Txn(1), Txn(1))
        && !deps.same_class(Txn(1), Txn(2))
        && cycle(deps, Kind::Cd, 1, 1)
        && !cycle(deps, Kind::Gc, 1, 1)
        && !cycle(deps, Kind::Ad, 1, 2)
        && !deps.has_outside_source(Txn(1))
        && !deps.is_doomed(Txn(1))
        && deps.marked(0) == None
        && deps.next_marked() == None
}

#[test]
fn stranger_is_alone(rt: HostRuntime) {
    let mut deps = Deps::new(rt.alloc());
    let alone = strangers_are_alone(&mut deps);
    drop(deps);
    assert!(rt; alone);
}

/// Makes each transaction but the first depend on the one before it, by kinds in turn, and joins each fourth with the one
/// before it.
fn chain(deps: &mut Deps) -> Result<(), NoMemory> {
    for t in 1..MANY {
        let kind = match t % 4 {
            0 => Kind::Gc,
            1 => Kind::Cd,
            _ => Kind::Ad,
        };
        add(deps, kind, t - 1, t)?;
    }
    Ok(())
}

/// Makes all transactions depend on the first once more.
fn star(deps: &mut Deps) -> Result<(), NoMemory> {
    for t in 1..MANY {
        add(deps, Kind::Cd, 0, t)?;
    }
    Ok(())
}

/// Returns whether the last of the chain is behind the first, until one in the middle has ended.
fn many_show(deps: &mut Deps) -> bool {
    let last = MANY - 1;
    let behind = cycle(deps, Kind::Cd, last, 0)
        && cycle(deps, Kind::Gc, 0, last)
        && !cycle(deps, Kind::Ad, 0, last)
        && !deps.same_class(Txn(0), Txn(last));
    deps.end(Txn(0));
    let without_first = cycle(deps, Kind::Cd, last, 1);
    deps.end(Txn(MANY / 2));
    behind
        && without_first
        && !cycle(deps, Kind::Cd, last, 1)
        && cycle(deps, Kind::Cd, last, MANY / 2 + 1)
        && !deps.has_outside_source(Txn(1))
        && deps.has_outside_source(Txn(last))
}

#[test]
fn chain_of_hundreds(rt: HostRuntime) -> Result<(), std::test::Fail> {
    let mut deps = Deps::new(rt.alloc());
    let made = chain(&mut deps);
    let wide = star(&mut deps);
    let shows = many_show(&mut deps);
    drop(deps);
    made?;
    wide?;
    assert!(rt; shows);
    Ok(())
}

/// Joins all transactions in one class, each with the one before it.
fn class(deps: &mut Deps) -> Result<(), NoMemory> {
    for t in 1..MANY {
        add(deps, Kind::Gc, t - 1, t)?;
    }
    Ok(())
}

/// Marks the class of the transaction, if it is enrolled.
fn mark(deps: &mut Deps, t: u64) {
    if deps.is_enrolled(Txn(t)) {
        deps.mark_class(Txn(t));
    }
}

/// Ends those who are marked one by one, and returns how many there were.
fn end_marked(deps: &mut Deps) -> u64 {
    let mut count = 0;
    for i in 0..=MANY {
        if let Some(t) = deps.next_marked() {
            deps.end(t);
            count = i + 1;
        }
    }
    count
}

/// Returns whether a class ends whole, and a transaction beside it stays.
fn class_ends(deps: &mut Deps) -> bool {
    mark(deps, MANY / 2);
    let count = end_marked(deps);
    count == MANY
        && !deps.is_enrolled(Txn(0))
        && !deps.is_enrolled(Txn(MANY - 1))
        && deps.is_enrolled(Txn(MANY))
        && !deps.same_class(Txn(0), Txn(1))
}

#[test]
fn class_of_hundreds_ends(rt: HostRuntime) -> Result<(), std::test::Fail> {
    let mut deps = Deps::new(rt.alloc());
    let made = class(&mut deps);
    let beside = enrol(&mut deps, MANY);
    let ends = class_ends(&mut deps);
    drop(deps);
    made?;
    beside?;
    assert!(rt; ends);
    Ok(())
}
