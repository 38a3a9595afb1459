//! Plain answers and plain steps, for outcomes and for entries.

ghost use Rattle.std.specs.Prelude.{◌≡◌, ◌≤◌, length, take, Some};
ghost use Rattle.asset_names.specs.Sets.{numbers};
ghost use Rattle.asset_names.specs.declared.sets.ObSet.TheVariants.{Listed};
ghost use Rattle.asset_names.specs.declared.steps.Step.TheVariants.{Add, Delegate, Depend, Initiate, Permit, PermitAny, Write};
ghost use Rattle.asset_handle.specs.Asked.{kind_in, ops_in, step_in};
ghost use Rattle.asset_handle.specs.Listed.{set_in};
ghost use Rattle.asset_handle.specs.Told.{about, bare, op_number, status_number, told, told_refusal};

use crate::plain::{ALL, PlainAnswer, PlainStep, SLOTS};
use asset_names::{
    Kind, Ob, ObList, ObSet, Op, Ops, Outcome, Refusal, Reply, Status, Step, Txn, value_asked,
};

/// Returns an answer of this kind about this name.
#[inline(always)]
#[tactic(auto, unfolding(crate::specs::Told::about))]
fn about(kind: u32, name: u64) -> PlainAnswer
    ensures { result ≡ about kind name }
{
    PlainAnswer {
        kind,
        name,
        value: 0,
    }
}

/// Returns the plain answer of a refusal.
#[tactic(auto, unfolding(crate::specs::Told::told_refusal))]
fn plain_refusal(refusal: Refusal) -> PlainAnswer
    ensures { result ≡ told_refusal refusal }
{
    match refusal {
        Refusal::Unknown(t) => about(16, t.0),
        Refusal::Ended(t) => about(17, t.0),
        Refusal::NotRunning(t) => about(18, t.0),
        Refusal::Taken(t) => about(19, t.0),
        Refusal::Begun(t) => about(20, t.0),
        Refusal::NoObject(x) => about(21, x.0),
        Refusal::Same => about(22, 0),
        Refusal::Cycle => about(23, 0),
        Refusal::TooLate(t) => about(24, t.0),
    }
}

/// Returns the plain answer of an outcome.
#[inline(always)]
#[tactic(auto, unfolding(crate::specs::Told::told))]
pub(crate) fn plain_answer(outcome: Outcome) -> PlainAnswer
    ensures { result ≡ told outcome }
{
    match outcome {
        Outcome::Answer(Reply::Done) => about(1, 0),
        Outcome::Answer(Reply::Value(value)) => PlainAnswer {
            kind: 2,
            name: 0,
            value,
        },
        Outcome::Answer(Reply::Committed) => about(3, 0),
        Outcome::Answer(Reply::Aborted) => about(4, 0),
        Outcome::Wait => about(5, 0),
        Outcome::Answer(Reply::Refused(refusal)) => plain_refusal(refusal),
    }
}

/// Returns the number of a status, from 0 for Unknown to 5 for Aborted.
#[tactic(auto, unfolding(crate::specs::Told::status_number))]
pub(crate) fn status_number(status: Status) -> u32
    ensures { result ≡ status_number status }
{
    match status {
        Status::Unknown => 0,
        Status::Initiated => 1,
        Status::Running => 2,
        Status::Completed => 3,
        Status::Committed => 4,
        Status::Aborted => 5,
    }
}

/// Returns the number of an operation: 1 of a read, 2 of a write, and 4 of an add.
#[tactic(auto, unfolding(crate::specs::Told::op_number))]
pub(crate) fn op_number(op: Op) -> u32
    ensures { result ≡ op_number op }
{
    match op {
        Op::Read => 1,
        Op::Write => 2,
        Op::Add => 4,
    }
}

/// Returns the number of operations: the sum of 1 to read, 2 to write, and 4 to add.
#[tactic(auto, unfolding(crate::specs::Asked::ops_in))]
fn ops_number(ops: Ops) -> u32
    ensures { ops_in result ≡ Some ops }
{
    ops.laws();
    match (ops.has(Op::Read), ops.has(Op::Write), ops.has(Op::Add)) {
        (true, true, true) => 7,
        (true, true, false) => 3,
        (true, false, true) => 5,
        (true, false, false) => 1,
        (false, true, true) => 6,
        (false, true, false) => 2,
        (false, false, _) => 4,
    }
}

/// Returns the number of a kind of dependency, from 1 to 3.
#[tactic(auto, unfolding(crate::specs::Asked::kind_in))]
fn kind_number(kind: Kind) -> u32
    ensures { kind_in result ≡ Some kind }
{
    match kind {
        Kind::Cd => 1,
        Kind::Ad => 2,
        Kind::Gc => 3,
    }
}

/// Returns a plain step that lists nothing.
#[tactic(auto, unfolding(crate::specs::Told::bare))]
fn bare(kind: u32, detail: u32, first: u64, second: u64) -> PlainStep
    ensures { result ≡ bare kind detail first second }
{
    PlainStep {
        kind,
        detail,
        first,
        second,
        value: 0,
        count: 0,
        objects: [0; SLOTS],
    }
}

/// Returns slots of which the first ones have the numbers of the objects.
fn slots_of(objects: &[Ob]) -> [u64; SLOTS]
    requires { length objects.now ≤ 16 }
    ensures { take (length objects.now) result ≡ numbers objects.now }
{
    let mut slots = [0; SLOTS];
    'objects: for i in 0..objects.len() {
        slots[i] = objects[i].0;
    }
    slots
}

/// Lists the objects of a list in a plain step.
#[tactic(auto, using(crate::proofs::ListedLemmas::listed_back))]
fn put_list(step: PlainStep, list: &ObList) -> PlainStep
    ensures set { set_in result.count result.objects ≡ Some (Listed list.now) }
    ensures kind { result.kind ≡ step.kind }
    ensures detail { result.detail ≡ step.detail }
    ensures first { result.first ≡ step.first }
    ensures second { result.second ≡ step.second }
{
    let objects = list.objects();
    PlainStep {
        count: objects.len() as u64,
        objects: slots_of(objects),
        ..step
    }
}

/// Lists a set of objects in a plain step.
#[tactic(auto, unfolding(crate::specs::Listed::set_in))]
fn put_set(step: PlainStep, obs: &ObSet) -> PlainStep
    ensures set { set_in result.count result.objects ≡ Some obs.now }
    ensures kind { result.kind ≡ step.kind }
    ensures detail { result.detail ≡ step.detail }
    ensures first { result.first ≡ step.first }
    ensures second { result.second ≡ step.second }
{
    match obs {
        ObSet::All => PlainStep { count: ALL, ..step },
        ObSet::Listed(list) => put_list(step, list),
    }
}

/// Returns the plain step of a permit.
#[tactic(auto, unfolding(crate::specs::Asked::step_in, crate::specs::Asked::permit_in, crate::specs::Asked::permit_of, crate::specs::Told::bare))]
fn plain_permit(giver: Txn, taker: Txn, obs: &ObSet, ops: Ops) -> PlainStep
    ensures { step_in result ≡ Some (Permit giver taker obs.now ops) }
{
    put_set(bare(6, ops_number(ops), giver.0, taker.0), obs)
}

/// Returns the plain step of an open permit.
#[tactic(auto, unfolding(crate::specs::Asked::step_in, crate::specs::Asked::permit_any_in, crate::specs::Asked::permit_any_of, crate::specs::Told::bare))]
fn plain_permit_any(giver: Txn, obs: &ObList, ops: Ops) -> PlainStep
    ensures { step_in result ≡ Some (PermitAny giver obs.now ops) }
{
    put_list(bare(13, ops_number(ops), giver.0, 0), obs)
}

/// Returns the plain step of a delegation.
#[tactic(auto, unfolding(crate::specs::Asked::step_in, crate::specs::Asked::delegate_in, crate::specs::Told::bare))]
fn plain_delegate(giver: Txn, taker: Txn, obs: &ObSet) -> PlainStep
    ensures { step_in result ≡ Some (Delegate giver taker obs.now) }
{
    put_set(bare(7, 0, giver.0, taker.0), obs)
}

/// Returns the plain step of an initiate.
#[tactic(auto, unfolding(crate::specs::Asked::step_in, crate::specs::Asked::initiate_in, crate::specs::Told::bare))]
fn plain_initiate(t: Txn, parent: Option<Txn>) -> PlainStep
    ensures { step_in result ≡ Some (Initiate t parent) }
{
    match parent {
        Some(parent) => bare(1, 1, t.0, parent.0),
        None => bare(1, 0, t.0, 0),
    }
}

/// Returns the plain step of a dependency.
#[tactic(auto, unfolding(crate::specs::Asked::step_in, crate::specs::Asked::depend_in, crate::specs::Told::bare))]
fn plain_depend(kind: Kind, a: Txn, b: Txn) -> PlainStep
    ensures { step_in result ≡ Some (Depend kind a b) }
{
    bare(8, kind_number(kind), a.0, b.0)
}

/// Returns the plain step of a write.
#[tactic(auto, unfolding(crate::specs::Asked::step_in, crate::specs::Told::bare))]
fn plain_write(t: Txn, x: Ob, value: i64) -> PlainStep
    ensures { step_in result ≡ Some (Write t x value) }
{
    PlainStep {
        value,
        ..bare(4, 0, t.0, x.0)
    }
}

/// Returns the plain step of an add.
#[tactic(auto, unfolding(crate::specs::Asked::step_in, crate::specs::Told::bare))]
fn plain_add(t: Txn, x: Ob, value: i64) -> PlainStep
    ensures { step_in result ≡ Some (Add t x value) }
{
    PlainStep {
        value,
        ..bare(12, 0, t.0, x.0)
    }
}

/// Returns a plain step that asks for this step.
#[tactic(auto, unfolding(asset_names::specs::Steps::value_asked, crate::specs::Asked::step_in, crate::specs::Told::bare))]
pub(crate) fn plain_step(step: &Step) -> PlainStep
    ensures { step_in result ≡ Some step.now }
{
    match *step {
        Step::Initiate { t, parent } => plain_initiate(t, parent),
        Step::Begin { t } => bare(2, 0, t.0, 0),
        Step::Read { t, x } => bare(3, 0, t.0, x.0),
        Step::Write { t, x, .. } => plain_write(t, x, value_asked(step)),
        Step::Add { t, x, .. } => plain_add(t, x, value_asked(step)),
        Step::Complete { t } => bare(5, 0, t.0, 0),
        Step::Permit {
            giver,
            taker,
            ref obs,
            ops,
        } => plain_permit(giver, taker, obs, ops),
        Step::PermitAny {
            giver,
            ref obs,
            ops,
        } => plain_permit_any(giver, obs, ops),
        Step::Delegate {
            giver,
            taker,
            ref obs,
        } => plain_delegate(giver, taker, obs),
        Step::Depend { kind, a, b } => plain_depend(kind, a, b),
        Step::Commit { t } => bare(9, 0, t.0, 0),
        Step::Abort { t } => bare(10, 0, t.0, 0),
        Step::WaitFor { t } => bare(11, 0, t.0, 0),
    }
}
