//! What the tables answer to a step: the first refusal that applies, or else what the step itself says.

ghost use Rattle.std.specs.Prelude.{◌≡◌, ℤ, not, find, [], ◌∷◌, None, Some, false};
ghost use Rattle.asset_names.specs.declared.names.Ob.{Ob as Object};
ghost use Rattle.asset_names.specs.declared.sets.ObSet.TheVariants.{Listed};
ghost use Rattle.asset_names.specs.InSet.{only_in};
ghost use Rattle.asset_names.specs.declared.steps.Step.{Step};
ghost use Rattle.asset_names.specs.Endings.{status};
ghost use Rattle.asset_names.specs.Answers.{answer, first_refusal, rules_for, unrefused, unknown, ended, not_running, no_object, one_name, cycle, is_unknown, commit_outcome, may_commit, missing_in, no_object_of};
ghost use Rattle.asset_objects.specs.Cells.{cells, has_object, number_of};
ghost use Rattle.asset_ends.specs.Shown.{ForShown};
ghost use Rattle.asset_ends.specs.Updates.{step_of};
ghost use Rattle.asset_steps.specs.Ready.{value_or_zero, read_outcome};

use asset_ends::{Tables, Update};
use asset_names::{
    Kind, Ob, ObList, ObSet, Op, Outcome, Refusal, Reply, Step, Txn, commit_outcome,
    refusal_between, refusal_to_abort, refusal_to_begin, refusal_to_depend, refusal_to_find,
    refusal_to_initiate, refusal_to_open, refusal_to_operate, refusal_to_work, wait_outcome,
};

/// Returns the first refusal of a step, if one applies. Nothing changes.
#[inline(always)]
fn refusal(tables: &mut Tables, step: &Step) -> Option<Refusal>
    ensures refusal { ForShown tables.old (λ opening steps. result ≡ first_refusal (rules_for opening steps step.now)) }
    ensures same { tables.new ≡ tables.old }
{
    match *step {
        Step::Initiate { t, .. } => refusal_to_initiate(t, tables.status(t)),
        Step::Begin { t } => refusal_to_begin(t, tables.status(t)),
        Step::Read { t, x } => refusal_to_use(tables, t, x),
        Step::Write { t, x, .. } => refusal_to_use(tables, t, x),
        Step::Add { t, x, .. } => refusal_to_use(tables, t, x),
        Step::Complete { t } => refusal_to_work(t, tables.status(t)),
        Step::Permit {
            giver,
            taker,
            obs,
            ..
        } => refusal_to_share(tables, giver, taker, &obs),
        Step::PermitAny { giver, obs, .. } => refusal_to_open_list(tables, giver, &obs),
        Step::Delegate { giver, taker, obs } => refusal_to_share(tables, giver, taker, &obs),
        Step::Depend { kind, a, b } => refusal_of_dependency(tables, kind, a, b),
        Step::Commit { t } => refusal_to_find(t, tables.status(t)),
        Step::WaitFor { t } => refusal_to_find(t, tables.status(t)),
        Step::Abort { t } => refusal_to_abort(t, tables.status(t)),
    }
}

/// Returns why `t` may not operate on `x`, and `None` if it may.
fn refusal_to_use(tables: &Tables, t: Txn, x: Ob) -> Option<Refusal>
    ensures { ForShown tables.now (λ opening steps. result ≡ first_refusal (unknown steps t ∷ ended steps t ∷ not_running steps t ∷ no_object opening x ∷ [])) }
{
    let exists = tables.value(x).is_some();
    refusal_to_operate(t, tables.status(t), x, exists)
}

/// Returns why the giver may not permit or hand over anything on the objects to the taker, and `None` if it may.
fn refusal_to_share(tables: &Tables, giver: Txn, taker: Txn, obs: &ObSet) -> Option<Refusal>
    ensures { ForShown tables.now (λ opening steps. result ≡ first_refusal (one_name giver taker ∷ unknown steps giver ∷ unknown steps taker ∷ ended steps giver ∷ ended steps taker ∷ no_object_of opening obs.now ∷ [])) }
{
    let missing = missing(tables, obs);
    refusal_between(
        giver,
        tables.status(giver),
        taker,
        tables.status(taker),
        missing,
    )
}

/// Returns why an open permit of the giver on these objects is refused, and `None` if it is not.
fn refusal_to_open_list(tables: &Tables, giver: Txn, obs: &ObList) -> Option<Refusal>
    ensures { ForShown tables.now (λ opening steps. result ≡ first_refusal (unknown steps giver ∷ ended steps giver ∷ no_object_of opening (Listed obs.now) ∷ [])) }
{
    let missing = missing(tables, &ObSet::Listed(*obs));
    refusal_to_open(giver, tables.status(giver), missing)
}

/// Returns why `b` may not be made to depend on `a`, and `None` if it may. Whether that would close a cycle is looked at
/// last. Nothing changes.
fn refusal_of_dependency(tables: &mut Tables, kind: Kind, a: Txn, b: Txn) -> Option<Refusal>
    ensures refusal { ForShown tables.old (λ opening steps. result ≡ first_refusal (one_name a b ∷ unknown steps a ∷ unknown steps b ∷ ended steps a ∷ ended steps b ∷ cycle steps kind a b ∷ [])) }
    ensures same { tables.new ≡ tables.old }
{
    match refusal_to_depend(a, tables.status(a), b, tables.status(b)) {
        Some(refusal) => Some(refusal),
        None => refusal_of_cycle(tables, kind, a, b),
    }
}

/// Returns Cycle if a dependency of `b` on `a` would close a cycle. Nothing changes.
fn refusal_of_cycle(tables: &mut Tables, kind: Kind, a: Txn, b: Txn) -> Option<Refusal>
    ensures refusal { ForShown tables.old (λ opening steps. result ≡ first_refusal (cycle steps kind a b ∷ [])) }
    ensures same { tables.new ≡ tables.old }
{
    if tables.would_cycle(kind, a, b) {
        Some(Refusal::Cycle)
    } else {
        None
    }
}

/// Returns the least object of the set that does not exist, if there is one.
pub(crate) fn missing(tables: &Tables, obs: &ObSet) -> Option<Ob>
    ensures { ForShown tables.now (λ opening steps. result ≡ missing_in opening obs.now) }
{
    match obs {
        ObSet::All => None,
        ObSet::Listed(list) => first_missing(tables, list.objects()),
    }
}

/// Returns the least object of the set that does not exist, if there is one. If the set lists one object, its number is given,
/// if it exists, so that it is not looked for.
#[inline(always)]
pub(crate) fn missing_beside(tables: &Tables, obs: &ObSet, only: Option<usize>) -> Option<Ob>
    requires { (x : Object) → only_in obs.now ≡ Some x → only ≡ number_of tables.now.objects x.0 }
    ensures { ForShown tables.now (λ opening steps. result ≡ missing_in opening obs.now) }
{
    match obs.only() {
        Some(_) if only.is_some() => None,
        Some(x) => Some(x),
        None => missing(tables, obs),
    }
}

/// Returns the first of the objects that does not exist, if there is one.
fn first_missing(tables: &Tables, objects: &[Ob]) -> Option<Ob>
    ensures { result ≡ find (λ x. not (has_object (cells tables.now.objects) x.0)) objects.now }
{
    objects.iter().copied().find(|x| is_missing(tables, *x))
}

/// Returns whether there is no such object.
#[tactic(auto, unfolding(asset_objects::specs::Cells::has_object, asset_objects::specs::Cells::value_in))]
fn is_missing(tables: &Tables, x: Ob) -> bool
    ensures { result ≡ not (has_object (cells tables.now.objects) x.0) }
{
    match tables.value(x) {
        Some(_) => false,
        None => true,
    }
}

/// Returns the value of an object, and 0 if there is no such object.
#[tactic(auto, unfolding(crate::specs::Ready::value_or_zero))]
fn value_or_zero(tables: &Tables, x: Ob) -> i64
    ensures { result ≡ value_or_zero tables.now x.0 }
{
    match tables.value(x) {
        Some(v) => v,
        None => 0,
    }
}

/// Returns the outcome of a read that is not refused. Nothing changes.
#[tactic(auto, unfolding(asset_ends::specs::Standing::is_free_for, crate::specs::Ready::read_outcome))]
fn read_outcome(tables: &mut Tables, t: Txn, x: Ob) -> Outcome
    ensures outcome { result ≡ read_outcome tables.old t.0 x.0 }
    ensures same { tables.new ≡ tables.old }
{
    if tables.is_free(t, x, Op::Read) {
        Outcome::Answer(Reply::Value(value_or_zero(tables, x)))
    } else {
        Outcome::Wait
    }
}

/// Returns the outcome of a write or an add, of any value, that is not refused. Nothing changes.
fn update_outcome(tables: &mut Tables, t: Txn, x: Ob, update: Update) -> Outcome
    ensures outcome { (v : ℤ) → ForShown tables.old (λ opening steps. result ≡ unrefused opening steps (step_of update t x v)) }
    ensures same { tables.new ≡ tables.old }
{
    if tables.is_free(t, x, update.op()) {
        Outcome::Answer(Reply::Done)
    } else {
        Outcome::Wait
    }
}

/// Returns the outcome of a commit of a transaction that was initiated. Nothing changes.
fn commit_outcome_of(tables: &mut Tables, t: Txn) -> Outcome
    ensures outcome { ForShown tables.old (λ opening steps. is_unknown (status steps t.0) ≡ false →
        result ≡ commit_outcome (status steps t.0) (may_commit steps t.0)) }
    ensures same { tables.new ≡ tables.old }
{
    let status = tables.status(t);
    if status.is_live() {
        commit_outcome(status, tables.may_commit(t))
    } else {
        commit_outcome(status, false)
    }
}

/// Returns the outcome of a step that is not refused. Nothing changes.
#[inline(always)]
fn unrefused(tables: &mut Tables, step: &Step) -> Outcome
    ensures outcome { ForShown tables.old (λ opening steps. first_refusal (rules_for opening steps step.now) ≡ None →
        result ≡ unrefused opening steps step.now) }
    ensures same { tables.new ≡ tables.old }
{
    match *step {
        Step::Initiate { .. } => Outcome::Answer(Reply::Done),
        Step::Begin { .. } => Outcome::Answer(Reply::Done),
        Step::Complete { .. } => Outcome::Answer(Reply::Done),
        Step::Permit { .. } => Outcome::Answer(Reply::Done),
        Step::PermitAny { .. } => Outcome::Answer(Reply::Done),
        Step::Delegate { .. } => Outcome::Answer(Reply::Done),
        Step::Depend { .. } => Outcome::Answer(Reply::Done),
        Step::Read { t, x } => read_outcome(tables, t, x),
        Step::Write { t, x, .. } => update_outcome(tables, t, x, Update::Write),
        Step::Add { t, x, .. } => update_outcome(tables, t, x, Update::Add),
        Step::Commit { t } => commit_outcome_of(tables, t),
        Step::Abort { .. } => Outcome::Answer(Reply::Aborted),
        Step::WaitFor { t } => wait_outcome(tables.status(t)),
    }
}

/// Returns the answer to a step: the first refusal that applies; otherwise what the step gives, or a wait. Nothing
/// changes: a search marks what it met, and no call shows that. It takes no memory.
#[inline(always)]
pub fn answer(tables: &mut Tables, step: &Step) -> Outcome
    ensures answer { ForShown tables.old (λ opening steps. result ≡ answer opening steps step.now) }
    ensures same { tables.new ≡ tables.old }
{
    match refusal(tables, step) {
        Some(refusal) => Outcome::Answer(Reply::Refused(refusal)),
        None => unrefused(tables, step),
    }
}
