//! What a step does to the tables when it takes effect, or when it waits.

ghost use Rattle.std.specs.Prelude.{◌≡◌, cond, true, false, OnOk, OnErr};
ghost use Rattle.asset_names.specs.declared.steps.Step.{Step};
ghost use Rattle.asset_names.specs.Steps.{takes_effect};
ghost use Rattle.asset_names.specs.declared.operations.Op.{Op as Operation};
ghost use Rattle.asset_names.specs.declared.statuses.Status.{Status};
ghost use Rattle.asset_names.specs.Endings.{is_live_status};
ghost use Rattle.asset_names.specs.Answers.{takes_memory};
ghost use Rattle.asset_deps.specs.Dependencies.{class_in, doomed_in};
ghost use Rattle.asset_objects.specs.Cells.{cells, has_object};
ghost use Rattle.asset_locks.specs.LockTable.{wait_in};
ghost use Rattle.asset_trans.specs.TransRows.{status_in};
ghost use Rattle.asset_ends.specs.Shown.{ShowsStill, ShowsWith, ShowsEntry, ShowsOrderly};
ghost use Rattle.asset_ends.specs.Standing.{is_free_for, may_commit_in, SameViewInAnyOrder};
ghost use Rattle.asset_ends.specs.Updates.{op_of};
ghost use Rattle.asset_steps.specs.Ready.{IsReady, MayWait, locks_after, locks_waiting, released};

use asset_ends::{Tables, Update};
use asset_names::{NoMemory, Ob, Reply, Step, Txn, takes_effect, value_asked};

/// Applies a step that takes effect. If memory runs out, the tables show what they did before.
#[inline(always)]
fn apply_step(tables: &mut Tables, step: &Step) -> Result<(), NoMemory>
    requires ready { IsReady step.now tables.old }
    ensures stand { OnOk result (ShowsOrderly tables.old step.now tables.new) }
    ensures locks { OnOk result (tables.new.locks ≡ locks_after step.now tables.old) }
    ensures memory { OnErr result (takes_memory step.now ≡ true) }
    ensures unchanged { OnErr result (SameViewInAnyOrder tables.new tables.old) }
{
    match *step {
        Step::Initiate { t, parent } => tables.initiate(t, parent),
        Step::Begin { t } => {
            tables.begin(t);
            Ok(())
        }
        Step::Read { t, x } => {
            tables.read(t, x)?;
            Ok(())
        }
        Step::Write { t, x, .. } => {
            tables.write(t, x, value_asked(step))?;
            Ok(())
        }
        Step::Add { t, x, .. } => {
            tables.add(t, x, value_asked(step))?;
            Ok(())
        }
        Step::Complete { t } => {
            tables.complete(t);
            Ok(())
        }
        Step::Permit {
            giver,
            taker,
            obs,
            ops,
        } => tables.permit(giver, taker, obs, ops),
        Step::PermitAny { giver, obs, ops } => tables.permit_any(giver, obs, ops),
        Step::Delegate { giver, taker, obs } => tables.delegate(giver, taker, &obs),
        Step::Depend { kind, a, b } => tables.depend(kind, a, b),
        Step::Commit { t } => {
            commit(tables, t);
            Ok(())
        }
        Step::Abort { t } => {
            abort(tables, t);
            Ok(())
        }
        Step::WaitFor { .. } => Ok(()),
    }
}

/// Commits a transaction whose class may commit, with its whole class. One that has ended stays as it is.
fn commit(tables: &mut Tables, t: Txn)
    requires ready { is_live_status (status_in tables.old.trans t.0) ≡ true → may_commit_in tables.old t.0 ≡ true }
    ensures stand { ShowsWith tables.old (Step.Commit t) tables.new }
    ensures locks { tables.new.locks ≡ released tables.old t.0 (class_in tables.old.deps t.0) }
{
    if tables.status(t).is_live() {
        tables.try_commit(t);
    }
}

/// Aborts a transaction that is live, with all whom that takes. One that has ended stays as it is.
fn abort(tables: &mut Tables, t: Txn)
    ensures stand { ShowsWith tables.old (Step.Abort t) tables.new }
    ensures locks { tables.new.locks ≡ released tables.old t.0 (doomed_in tables.old.deps t.0) }
{
    if tables.status(t).is_live() {
        tables.abort(t);
    }
}

/// Makes the read of an object that is not free the pending request of `t`.
fn wait_to_read(tables: &mut Tables, t: Txn, x: Ob)
    requires runs { status_in tables.old.trans t.0 ≡ Status.Running }
    requires blocked { is_free_for tables.old t.0 x.0 Operation.Read ≡ false }
    requires exists { has_object (cells tables.old.objects) x.0 ≡ true }
    ensures stand { ShowsStill tables.old tables.new }
    ensures locks { tables.new.locks ≡ wait_in t.0 x Operation.Read tables.old.locks }
{
    match tables.read(t, x) {
        Ok(_) => {}
        Err(_) => unreachable!(),
    }
}

/// Makes the write of an object that is not free, or the add to it, the pending request of `t`.
fn wait_to_update(tables: &mut Tables, t: Txn, x: Ob, update: Update, v: i64)
    requires runs { status_in tables.old.trans t.0 ≡ Status.Running }
    requires blocked { is_free_for tables.old t.0 x.0 (op_of update) ≡ false }
    requires exists { has_object (cells tables.old.objects) x.0 ≡ true }
    ensures stand { ShowsStill tables.old tables.new }
    ensures locks { tables.new.locks ≡ wait_in t.0 x (op_of update) tables.old.locks }
{
    let (_, one) = tables.find(t);
    let number = tables.number(x).unwrap();
    match tables.update_at(one, number, x, update, v) {
        Ok(_) => {}
        Err(_) => unreachable!(),
    }
}

/// Applies an answered step, if it takes effect: the tables then show their history with the entry. It answers
/// `NoMemory` if memory runs out, and the tables show what they did before.
#[inline(always)]
pub fn apply(tables: &mut Tables, step: &Step, reply: Reply) -> Result<(), NoMemory>
    requires ready { takes_effect step.now reply ≡ true → IsReady step.now tables.old }
    ensures stand { OnOk result (ShowsEntry tables.old (step.now, reply) tables.new) }
    ensures locks { OnOk result (tables.new.locks ≡ cond (takes_effect step.now reply) (locks_after step.now tables.old) tables.old.locks) }
    ensures memory { OnErr result ((takes_memory step.now ≡ true) × (takes_effect step.now reply ≡ true)) }
    ensures unchanged { OnErr result (SameViewInAnyOrder tables.new tables.old) }
{
    if !takes_effect(step, reply) {
        return Ok(());
    }
    apply_step(tables, step)
}

/// Makes a request that waits its transaction's pending request. Of any other step nothing is kept. It takes no memory.
pub fn wait(tables: &mut Tables, step: &Step)
    requires waits { MayWait step.now tables.old }
    ensures stand { ShowsStill tables.old tables.new }
    ensures locks { tables.new.locks ≡ locks_waiting step.now tables.old }
{
    match *step {
        Step::Read { t, x } => wait_to_read(tables, t, x),
        Step::Write { t, x, .. } => wait_to_update(tables, t, x, Update::Write, value_asked(step)),
        Step::Add { t, x, .. } => wait_to_update(tables, t, x, Update::Add, value_asked(step)),
        Step::Initiate { .. } => {}
        Step::Begin { .. } => {}
        Step::Complete { .. } => {}
        Step::Permit { .. } => {}
        Step::PermitAny { .. } => {}
        Step::Delegate { .. } => {}
        Step::Depend { .. } => {}
        Step::Commit { .. } => {}
        Step::Abort { .. } => {}
        Step::WaitFor { .. } => {}
    }
}
