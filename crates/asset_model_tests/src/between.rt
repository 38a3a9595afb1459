//! Drawn models with steps of another client between their own, each end compared with statuses and values. Now and then the
//! other client aborts a transaction of the model.

use crate::asserts::{holds, same};
use crate::drawn::{drawn_part, other_acts, values};
use crate::parts::part;
use crate::shared::Shared;
use asset_core::{Core, OpenFault};
use asset_core_tests::{THREE, opened};
use asset_history::History;
use asset_models::{
    Asset, ModelEnd, Part, atomic, contingent, cooperating, distributed, nested, saga,
};
use asset_names::{Fault, Ob, Reply, Status, Step, Txn};
use asset_test_tools::{abort, listed, next};
use std::alloc::Global;
use std::test::Fail;

/// How many models are drawn.
const ROUNDS: u64 = 600;

/// Room for all entries of a run.
const MUCH_ROOM: usize = 100_000;

/// The models that are drawn.
#[derive(Clone, Copy, PartialEq, Eq)]
enum Model {
    Atomic,
    Contingent,
    Distributed,
    Cooperating,
    Nested,
    Saga,
}

/// Returns the model that a number stands for.
fn drawn_model(number: u64) -> Model {
    match (number >> 50) % 6 {
        0 => Model::Atomic,
        1 => Model::Contingent,
        2 => Model::Distributed,
        3 => Model::Cooperating,
        4 => Model::Nested,
        _ => Model::Saga,
    }
}

/// Runs a saga of two pairs, whose second parts have no acts.
fn run_saga<A: Asset>(
    alloc: Global,
    asset: &mut A,
    t: u64,
    one: Part,
    two: Part,
) -> Result<ModelEnd, Fault> {
    let undo_one = part(alloc, t.wrapping_add(2), &[]);
    let undo_two = part(alloc, t.wrapping_add(3), &[]);
    saga(asset, &[(one, undo_one), (two, undo_two)], 1)
}

/// Runs a model of drawn parts, with transactions from `t` on.
fn run_model<A: Asset>(
    alloc: Global,
    asset: &mut A,
    model: Model,
    t: u64,
    number: u64,
) -> Result<ModelEnd, Fault> {
    let one = drawn_part(alloc, t, number);
    let two = drawn_part(alloc, t.wrapping_add(1), next(next(number)));
    match model {
        Model::Atomic => atomic(asset, &one, 1),
        Model::Contingent => contingent(asset, &[one, two], 1),
        Model::Distributed => distributed(asset, &[one, two], 1),
        Model::Cooperating => cooperating(asset, &one, &two, listed(&[]), 1),
        Model::Nested => nested(asset, &one, &[two], 1),
        Model::Saga => run_saga(alloc, asset, t, one, two),
    }
}

/// Returns whether the transactions ended as the model answered.
fn is_told(model: Model, end: &ModelEnd, [one, two, undo]: [Status; 3]) -> bool {
    use Status::{Aborted, Committed, Unknown};
    match (model, *end) {
        (Model::Atomic, ModelEnd::Committed) => one == Committed,
        (Model::Atomic, ModelEnd::Aborted) => one == Aborted,
        (Model::Atomic, _) => one != Committed,
        (Model::Contingent, ModelEnd::Committed) => {
            (one, two) == (Committed, Unknown) || (one, two) == (Aborted, Committed)
        }
        (Model::Contingent, ModelEnd::Aborted) => (one, two) == (Aborted, Aborted),
        (Model::Contingent, _) => one != Committed && two != Committed,
        (Model::Distributed | Model::Cooperating, ModelEnd::Committed) => {
            (one, two) == (Committed, Committed)
        }
        (Model::Distributed | Model::Cooperating, ModelEnd::Aborted) => {
            (one, two) == (Aborted, Aborted)
        }
        (Model::Distributed | Model::Cooperating, _) => one != Committed && two != Committed,
        (Model::Nested, ModelEnd::Committed) => {
            one == Committed && (two == Committed || two == Aborted)
        }
        (Model::Nested, ModelEnd::Aborted) => one == Aborted,
        (Model::Nested, _) => one != Committed,
        (Model::Saga, ModelEnd::Committed) => (one, two) == (Committed, Committed),
        (Model::Saga, ModelEnd::Undone) => {
            (one, two, undo) == (Aborted, Unknown, Unknown)
                || (one, two, undo) == (Committed, Aborted, Committed)
        }
        (Model::Saga, _) => two != Committed && undo != Committed,
    }
}

/// Returns whether each call of the model is an entry of the history from the index `from` on, in order.
fn are_entries(history: &History, from: usize, own: &[(Step, Reply)]) -> bool {
    let mut left = own;
    for index in from..history.len() {
        if let Some((call, more)) = left.split_first() {
            if history.entry(index) == Some(*call) {
                left = more;
            }
        }
    }
    left.is_empty()
}

/// Returns the value that those who committed left in an object, from the entry with this index on. What `parent` took over
/// from `child` stands only if both have committed.
fn left_by_committed(
    core: &Core,
    from: usize,
    x: Ob,
    before: Option<i64>,
    family: Option<(Txn, Txn)>,
) -> Option<i64> {
    let mut value = before;
    for index in from..core.history().len() {
        value = match core.history().entry(index) {
            Some((Step::Write { t, x: y, v }, Reply::Done)) if y == x && stands(core, t, family) =>
                { Some(v) }
            Some((Step::Add { t, x: y, d }, Reply::Done)) if y == x && stands(core, t, family) => {
                value.map(|before| before.wrapping_add(d))
            }
            _ => value,
        };
    }
    value
}

/// Returns whether what a transaction wrote and added stands.
fn stands(core: &Core, t: Txn, family: Option<(Txn, Txn)>) -> bool {
    let owner = match family {
        Some((parent, child)) if child == t => core.status(parent),
        _ => Status::Committed,
    };
    core.status(t) == Status::Committed && owner == Status::Committed
}

/// How often models ended in each way: committed, aborted, undone, stopped, refused.
type Ends = [usize; 5];

/// Counts an end.
fn count(ends: &mut Ends, end: &ModelEnd) {
    let way = match *end {
        ModelEnd::Committed => 0,
        ModelEnd::Aborted => 1,
        ModelEnd::Undone => 2,
        ModelEnd::Stopped(_) => 3,
        ModelEnd::Refused(_) => 4,
    };
    ends[way] = ends[way].wrapping_add(1);
}

/// Returns the statuses of the model's first three transactions, and then aborts what is left of the round.
fn end_round(core: &mut Core, t: u64) -> [Status; 3] {
    let statuses = [
        core.status(Txn(t)),
        core.status(Txn(t.wrapping_add(1))),
        core.status(Txn(t.wrapping_add(2))),
    ];
    for left in 0..8 {
        let _ended = core.step(abort(t.wrapping_add(left)));
    }
    statuses
}

/// Runs a drawn model, with steps of another client between its own, and then aborts what is left of the round. Returns whether
/// the model's end is told as it is, its calls are entries, and the values are those that the committed left. If memory ran
/// out, nothing is compared.
fn is_round_told(
    alloc: Global,
    shared: &mut Shared,
    round: u64,
    number: u64,
    ends: &mut Ends,
) -> bool {
    let t = round.wrapping_mul(8);
    let model = drawn_model(number);
    let from = shared.core.history().len();
    let before = values(&shared.core);
    shared.prepare(t, number);
    other_acts(&mut shared.core, t.wrapping_add(7), number);
    let end = run_model(alloc, shared, model, t, next(number));
    let statuses = end_round(&mut shared.core, t);
    match &end {
        Ok(end) => {
            count(ends, end);
            is_told(model, end, statuses)
                && are_entries(shared.core.history(), from, shared.own.as_slice())
                && are_values_left(&shared.core, model, t, from, before)
        }
        Err(Fault::NoMemory) => true,
        Err(Fault::Full) => false,
    }
}

/// Returns whether the values are those that the committed left since the entry with this index.
fn are_values_left(
    core: &Core,
    model: Model,
    t: u64,
    from: usize,
    before: [Option<i64>; 3],
) -> bool {
    let family = match model {
        Model::Nested => Some((Txn(t), Txn(t.wrapping_add(1)))),
        _ => None,
    };
    let [one, two, three] = before;
    let left = [
        left_by_committed(core, from, Ob(1), one, family),
        left_by_committed(core, from, Ob(2), two, family),
        left_by_committed(core, from, Ob(3), three, family),
    ];
    values(core) == left
}

/// Runs drawn models. Returns the first round that is told wrongly, and how often models ended in each way.
fn run_rounds(alloc: Global, shared: &mut Shared) -> (Option<u64>, Ends) {
    let mut ends: Ends = [0; 5];
    let mut number: u64 = 2;
    for round in 0..ROUNDS {
        number = next(next(number));
        if !is_round_told(alloc, shared, round, number, &mut ends) {
            return (Some(round), ends);
        }
    }
    (None, ends)
}

/// Opens a facility, and runs drawn models. Returns also how many entries the history then has.
fn run_all(alloc: Global) -> Result<(Option<u64>, Ends, usize), OpenFault> {
    let core = opened(alloc, &THREE, MUCH_ROOM)?;
    let mut shared = Shared::new(alloc, core);
    let (wrong, ends) = run_rounds(alloc, &mut shared);
    let Shared {
        core,
        own,
        first: _,
        number: _,
    } = shared;
    drop(own);
    let steps = core.history().len();
    drop(core.into_history());
    Ok((wrong, ends, steps))
}

#[test]
fn models_are_told_with_others_between_their_steps(rt: HostRuntime) -> Result<(), Fail> {
    let (wrong, ends, steps) = run_all(rt.alloc())?;
    same(&rt, wrong, None);
    let [committed, aborted, undone, stopped, refused] = ends;
    holds(
        &rt,
        committed > 0 && aborted > 0 && undone > 0 && stopped > 0 && refused > 0,
    );
    same(&rt, steps > 10_000, true);
    Ok(())
}
