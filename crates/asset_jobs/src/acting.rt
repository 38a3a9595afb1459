//! Does the acts of a job.

ghost use Rattle.std.specs.Prelude.{◌≡◌, ◌∷◌, [], Some};
ghost use Rattle.asset_bodies.specs.Working.{IsSame};
ghost use Rattle.asset_jobs.specs.Acts.{DidActs, DoesActs, goes_on, act_value};

use asset_bodies::{Finished, Tx};
use asset_grammar::JobAct;
use asset_names::{Fault, Outcome, Reply};
use std::sync::Wait;

/// Returns whether a job goes on after an act that met this.
#[tactic(auto, unfolding(crate::specs::Acts::goes_on))]
fn goes_on(met: Result<Outcome, Fault>) -> bool
    ensures { result ≡ goes_on met }
{
    match met {
        Ok(Outcome::Answer(Reply::Done)) => true,
        Ok(Outcome::Answer(Reply::Value(_))) => true,
        _ => false,
    }
}

/// Returns the value that an act writes or the amount that it adds, and 0 for any other act. A signed number from an act is
/// passed on as the result of a call, so that the proof knows its range.
#[tactic(auto, unfolding(crate::specs::Acts::act_value))]
fn act_value(act: JobAct) -> i64
    ensures { result ≡ act_value act }
{
    match act {
        JobAct::Write(_, v) => v,
        JobAct::Add(_, d) => d,
        _ => 0,
    }
}

/// Does one act. Returns whether the job goes on after it.
fn act<R: Wait>(rt: &R, tx: &mut Tx, act: JobAct) -> bool
    ensures same { IsSame tx.old tx.new }
    ensures did { DoesActs tx.old.name (act ∷ []) tx.old.list.calls result tx.new.list.calls }
{
    match act {
        JobAct::Read(x) => goes_on(tx.read(rt, x)),
        JobAct::Write(x, _) => goes_on(tx.write(rt, x, act_value(act))),
        JobAct::Add(x, _) => goes_on(tx.add(rt, x, act_value(act))),
        JobAct::GiveUp => false,
    }
}

/// Does the acts in order, and is done then. Gives up at once at an act that gives up, or that is not answered `Done` or with
/// a value.
pub fn do_acts<R: Wait>(rt: &R, tx: Tx, acts: &[JobAct]) -> Finished
    ensures own { (result.name ≡ tx.name) × (result.of ≡ Some tx.manager) }
    ensures did { DidActs tx acts.now result }
{
    let mut tx = tx;
    'acts: for next in acts {
        if !act(rt, &mut tx, *next) {
            return tx.give_up(rt);
        }
    }
    tx.done(rt)
}
