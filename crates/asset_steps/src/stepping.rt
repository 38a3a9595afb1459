//! Steps that take effect, or are pending, while they are answered, so that rows and locks are not looked for again. Each answers
//! `NoMemory` if the step would take effect and memory runs out, and the tables then show what they did before.

ghost use Rattle.std.specs.Prelude.{◌≡◌, true, is_some, IfOk, OnErr};
ghost use Rattle.asset_names.specs.declared.steps.Step.{Step};
ghost use Rattle.asset_names.specs.declared.statuses.Status.{Status};
ghost use Rattle.asset_names.specs.Endings.{is_live_status};
ghost use Rattle.asset_objects.specs.Cells.{cells, has_object, number_of};
ghost use Rattle.asset_trans.specs.TransRows.{status_in, seat_in};
ghost use Rattle.asset_ends.specs.Updates.{step_of};
ghost use Rattle.asset_steps.specs.Stepped.{Lacked, Stepped};

use crate::answering::{missing, missing_beside};
use asset_ends::{Tables, Tried, Update};
use asset_names::{
    Kind, NoMemory, Ob, ObList, ObSet, Ops, Outcome, Refusal, Reply, Status, Step, Txn,
    commit_outcome, refusal_between, refusal_to_abort, refusal_to_begin, refusal_to_depend,
    refusal_to_find, refusal_to_initiate, refusal_to_open, refusal_to_operate, refusal_to_work,
    value_asked, wait_outcome,
};
use asset_seats::Sitter;

/// Initiates a transaction, unless that is refused.
#[inline(always)]
fn initiate_if_any(tables: &mut Tables, t: Txn, parent: Option<Txn>) -> Result<Outcome, NoMemory>
    ensures stepped { IfOk result (λ outcome. Stepped tables.old (Step.Initiate t parent) outcome tables.new) }
    ensures lacked { OnErr result (Lacked tables.old (Step.Initiate t parent) tables.new) }
{
    match refusal_to_initiate(t, tables.status(t)) {
        Some(refusal) => Ok(Outcome::Answer(Reply::Refused(refusal))),
        None => {
            tables.initiate(t, parent)?;
            Ok(Outcome::Answer(Reply::Done))
        }
    }
}

/// Starts a transaction, unless that is refused.
#[inline(always)]
fn begin_if_any(tables: &mut Tables, t: Txn) -> Outcome
    ensures { Stepped tables.old (Step.Begin t) result tables.new }
{
    match refusal_to_begin(t, tables.status(t)) {
        Some(refusal) => Outcome::Answer(Reply::Refused(refusal)),
        None => {
            tables.begin(t);
            Outcome::Answer(Reply::Done)
        }
    }
}

/// Reads an object that exists, whose number is given, for a transaction that runs, or makes the read its pending request.
#[inline(always)]
fn read_found(
    tables: &mut Tables,
    one: Sitter,
    number: Option<usize>,
    x: Ob,
) -> Result<Outcome, NoMemory>
    requires runs { status_in tables.old.trans one.t.0 ≡ Status.Running }
    requires seat { one.at ≡ seat_in tables.old.trans one.t.0 }
    requires exists { has_object (cells tables.old.objects) x.0 ≡ true }
    requires number { number ≡ number_of tables.old.objects x.0 }
    requires known { is_some number ≡ true }
    ensures stepped { IfOk result (λ outcome. Stepped tables.old (Step.Read one.t x) outcome tables.new) }
    ensures lacked { OnErr result (Lacked tables.old (Step.Read one.t x) tables.new) }
{
    match tables.read_at(one, number.unwrap(), x) {
        Ok(Some(v)) => Ok(Outcome::Answer(Reply::Value(v))),
        Ok(None) => Ok(Outcome::Wait),
        Err(fault) => Err(fault),
    }
}

/// Reads an object, unless that is refused, or makes the read the pending request of `t`.
#[inline(always)]
fn read_if_any(tables: &mut Tables, t: Txn, x: Ob) -> Result<Outcome, NoMemory>
    ensures stepped { IfOk result (λ outcome. Stepped tables.old (Step.Read t x) outcome tables.new) }
    ensures lacked { OnErr result (Lacked tables.old (Step.Read t x) tables.new) }
{
    let number = tables.number(x);
    let (status, one) = tables.find(t);
    match refusal_to_operate(t, status, x, number.is_some()) {
        Some(refusal) => Ok(Outcome::Answer(Reply::Refused(refusal))),
        None => read_found(tables, one, number, x),
    }
}

/// Writes or adds to an object that exists, whose number is given, for a transaction that runs, or makes that its pending
/// request.
#[inline(always)]
fn update_found(
    tables: &mut Tables,
    one: Sitter,
    number: Option<usize>,
    x: Ob,
    update: Update,
    v: i64,
) -> Result<Outcome, NoMemory>
    requires runs { status_in tables.old.trans one.t.0 ≡ Status.Running }
    requires seat { one.at ≡ seat_in tables.old.trans one.t.0 }
    requires exists { has_object (cells tables.old.objects) x.0 ≡ true }
    requires number { number ≡ number_of tables.old.objects x.0 }
    requires known { is_some number ≡ true }
    ensures stepped { IfOk result (λ outcome. Stepped tables.old (step_of update one.t x v) outcome tables.new) }
    ensures lacked { OnErr result (Lacked tables.old (step_of update one.t x v) tables.new) }
{
    match tables.update_at(one, number.unwrap(), x, update, v) {
        Ok(true) => Ok(Outcome::Answer(Reply::Done)),
        Ok(false) => Ok(Outcome::Wait),
        Err(fault) => Err(fault),
    }
}

/// Writes or adds to an object, unless that is refused, or makes that the pending request of `t`.
#[inline(always)]
fn update_if_any(
    tables: &mut Tables,
    t: Txn,
    x: Ob,
    update: Update,
    v: i64,
) -> Result<Outcome, NoMemory>
    ensures stepped { IfOk result (λ outcome. Stepped tables.old (step_of update t x v) outcome tables.new) }
    ensures lacked { OnErr result (Lacked tables.old (step_of update t x v) tables.new) }
{
    let number = tables.number(x);
    let (status, one) = tables.find(t);
    match refusal_to_operate(t, status, x, number.is_some()) {
        Some(refusal) => Ok(Outcome::Answer(Reply::Refused(refusal))),
        None => update_found(tables, one, number, x, update, v),
    }
}

/// Completes a transaction, unless that is refused.
#[inline(always)]
fn complete_if_any(tables: &mut Tables, t: Txn) -> Outcome
    ensures { Stepped tables.old (Step.Complete t) result tables.new }
{
    match refusal_to_work(t, tables.status(t)) {
        Some(refusal) => Outcome::Answer(Reply::Refused(refusal)),
        None => {
            tables.complete(t);
            Outcome::Answer(Reply::Done)
        }
    }
}

/// Commits a live transaction, if its class may commit.
#[inline(always)]
fn commit_found(tables: &mut Tables, one: Sitter, status: Status) -> Outcome
    requires live { is_live_status (status_in tables.old.trans one.t.0) ≡ true }
    requires status { status ≡ status_in tables.old.trans one.t.0 }
    requires seat { one.at ≡ seat_in tables.old.trans one.t.0 }
    ensures { Stepped tables.old (Step.Commit one.t) result tables.new }
{
    match tables.try_commit_at(one, status) {
        Tried::Committed => Outcome::Answer(Reply::Committed),
        Tried::Wait => Outcome::Wait,
    }
}

/// Commits a transaction, unless that is refused or waits. One that has ended stays as it is.
#[inline(always)]
fn commit_if_any(tables: &mut Tables, t: Txn) -> Outcome
    ensures { Stepped tables.old (Step.Commit t) result tables.new }
{
    let (status, one) = tables.find(t);
    match refusal_to_find(t, status) {
        Some(refusal) => Outcome::Answer(Reply::Refused(refusal)),
        None if status.is_live() => commit_found(tables, one, status),
        None => commit_outcome(status, false),
    }
}

/// Aborts a transaction, unless that is refused. One that has aborted stays as it is.
#[inline(always)]
fn abort_if_any(tables: &mut Tables, t: Txn) -> Outcome
    ensures { Stepped tables.old (Step.Abort t) result tables.new }
{
    let (status, one) = tables.find(t);
    match refusal_to_abort(t, status) {
        Some(refusal) => Outcome::Answer(Reply::Refused(refusal)),
        None => {
            if status.is_live() {
                tables.abort_at(one);
            }
            Outcome::Answer(Reply::Aborted)
        }
    }
}

/// Says how a transaction stands that is waited for, unless that is refused.
#[inline(always)]
fn wait_if_any(tables: &mut Tables, t: Txn) -> Outcome
    ensures { Stepped tables.old (Step.WaitFor t) result tables.new }
{
    let status = tables.status(t);
    match refusal_to_find(t, status) {
        Some(refusal) => Outcome::Answer(Reply::Refused(refusal)),
        None => wait_outcome(status),
    }
}

/// Lets the taker share objects, unless that is refused.
#[inline(always)]
fn permit_if_any(
    tables: &mut Tables,
    giver: Txn,
    taker: Txn,
    obs: &ObSet,
    ops: Ops,
) -> Result<Outcome, NoMemory>
    ensures stepped { IfOk result (λ outcome. Stepped tables.old (Step.Permit giver taker obs.now ops) outcome tables.new) }
    ensures lacked { OnErr result (Lacked tables.old (Step.Permit giver taker obs.now ops) tables.new) }
{
    let missing = missing(tables, obs);
    let (gives, from) = tables.find(giver);
    let (takes, to) = tables.find(taker);
    match refusal_between(giver, gives, taker, takes, missing) {
        Some(refusal) => Ok(Outcome::Answer(Reply::Refused(refusal))),
        None => {
            tables.permit_at(from, to, *obs, ops)?;
            Ok(Outcome::Answer(Reply::Done))
        }
    }
}

/// Lets anybody share objects, unless that is refused.
fn open_if_any(tables: &mut Tables, giver: Txn, obs: &ObList, ops: Ops) -> Result<Outcome, NoMemory>
    ensures stepped { IfOk result (λ outcome. Stepped tables.old (Step.PermitAny giver obs.now ops) outcome tables.new) }
    ensures lacked { OnErr result (Lacked tables.old (Step.PermitAny giver obs.now ops) tables.new) }
{
    let missing = missing(tables, &ObSet::Listed(*obs));
    let (gives, from) = tables.find(giver);
    match refusal_to_open(giver, gives, missing) {
        Some(refusal) => Ok(Outcome::Answer(Reply::Refused(refusal))),
        None => {
            tables.permit_any_at(from, *obs, ops)?;
            Ok(Outcome::Answer(Reply::Done))
        }
    }
}

/// Hands objects over to the taker, unless that is refused.
#[inline(always)]
fn delegate_if_any(
    tables: &mut Tables,
    giver: Txn,
    taker: Txn,
    obs: &ObSet,
) -> Result<Outcome, NoMemory>
    ensures stepped { IfOk result (λ outcome. Stepped tables.old (Step.Delegate giver taker obs.now) outcome tables.new) }
    ensures lacked { OnErr result (Lacked tables.old (Step.Delegate giver taker obs.now) tables.new) }
{
    let only = tables.number_of_only(obs);
    let missing = missing_beside(tables, obs, only);
    let (gives, from) = tables.find(giver);
    let (takes, to) = tables.find(taker);
    match refusal_between(giver, gives, taker, takes, missing) {
        Some(refusal) => Ok(Outcome::Answer(Reply::Refused(refusal))),
        None => {
            tables.delegate_at(from, to, obs, only)?;
            Ok(Outcome::Answer(Reply::Done))
        }
    }
}

/// Makes a dependency, unless that is refused.
#[inline(always)]
fn depend_if_any(tables: &mut Tables, kind: Kind, a: Txn, b: Txn) -> Result<Outcome, NoMemory>
    ensures stepped { IfOk result (λ outcome. Stepped tables.old (Step.Depend kind a b) outcome tables.new) }
    ensures lacked { OnErr result (Lacked tables.old (Step.Depend kind a b) tables.new) }
{
    let (first, source) = tables.find(a);
    let (second, dependent) = tables.find(b);
    match refusal_to_depend(a, first, b, second) {
        Some(refusal) => Ok(Outcome::Answer(Reply::Refused(refusal))),
        None => {
            if tables.would_cycle(kind, a, b) {
                return Ok(Outcome::Answer(Reply::Refused(Refusal::Cycle)));
            }
            tables.depend_at(kind, source, dependent)?;
            Ok(Outcome::Answer(Reply::Done))
        }
    }
}

/// Asks for a step: returns its answer, and makes it take effect if it does, or pending if it is a request that
/// waits. It answers `NoMemory` if the step would take effect and memory runs out, and the tables then show what they did before.
///
/// The row of a transaction is looked for once, and again if the step changes it or is a dependency; three times if it commits
/// with others of its class. An object that is read,
/// written or added to is looked for once, and the locks on it are looked at once, unless memory runs out.
#[inline(always)]
pub fn step_at_once(tables: &mut Tables, step: &Step) -> Result<Outcome, NoMemory>
    ensures stepped { IfOk result (λ outcome. Stepped tables.old step.now outcome tables.new) }
    ensures lacked { OnErr result (Lacked tables.old step.now tables.new) }
{
    match *step {
        Step::Initiate { t, parent } => initiate_if_any(tables, t, parent),
        Step::Begin { t } => Ok(begin_if_any(tables, t)),
        Step::Read { t, x } => read_if_any(tables, t, x),
        Step::Write { t, x, .. } => {
            update_if_any(tables, t, x, Update::Write, value_asked(step))
        }
        Step::Add { t, x, .. } => update_if_any(tables, t, x, Update::Add, value_asked(step)),
        Step::Complete { t } => Ok(complete_if_any(tables, t)),
        Step::Permit {
            giver,
            taker,
            ref obs,
            ops,
        } => permit_if_any(tables, giver, taker, obs, ops),
        Step::PermitAny {
            giver,
            ref obs,
            ops,
        } => open_if_any(tables, giver, obs, ops),
        Step::Delegate {
            giver,
            taker,
            ref obs,
        } => delegate_if_any(tables, giver, taker, obs),
        Step::Depend { kind, a, b } => depend_if_any(tables, kind, a, b),
        Step::Commit { t } => Ok(commit_if_any(tables, t)),
        Step::Abort { t } => Ok(abort_if_any(tables, t)),
        Step::WaitFor { t } => Ok(wait_if_any(tables, t)),
    }
}
