//! Short words for the steps that the tests ask.

use crate::sets::listed;
use asset_names::{Kind, Ob, ObList, Ops, Step, Txn};

/// Returns the step that initiates `t` without a parent.
pub fn initiate(t: u64) -> Step {
    Step::Initiate {
        t: Txn(t),
        parent: None,
    }
}

/// Returns the step that begins `t`.
pub fn begin(t: u64) -> Step {
    Step::Begin { t: Txn(t) }
}

/// Returns the step by which `t` reads `x`.
pub fn read(t: u64, x: u64) -> Step {
    Step::Read {
        t: Txn(t),
        x: Ob(x),
    }
}

/// Returns the step by which `t` writes `v` to `x`.
pub fn write(t: u64, x: u64, v: i64) -> Step {
    Step::Write {
        t: Txn(t),
        x: Ob(x),
        v,
    }
}

/// Returns the step by which `t` adds `d` to `x`.
pub fn add(t: u64, x: u64, d: i64) -> Step {
    Step::Add {
        t: Txn(t),
        x: Ob(x),
        d,
    }
}

/// Returns the step that completes `t`.
pub fn complete(t: u64) -> Step {
    Step::Complete { t: Txn(t) }
}

/// Returns the step that commits `t`.
pub fn commit(t: u64) -> Step {
    Step::Commit { t: Txn(t) }
}

/// Returns the step that aborts `t`.
pub fn abort(t: u64) -> Step {
    Step::Abort { t: Txn(t) }
}

/// Returns the step that asks whether `t` has ended.
pub fn wait(t: u64) -> Step {
    Step::WaitFor { t: Txn(t) }
}

/// Returns a permit of one transaction for another to read or to write, on all objects if none is given.
pub fn permit(giver: u64, taker: u64, objects: &[Ob], (read, write): (bool, bool)) -> Step {
    match Ops::new(read, write) {
        Some(ops) => permit_ops(giver, taker, objects, ops),
        None => begin(giver),
    }
}

/// Returns a permit of one transaction for another, on all objects if none is given.
pub fn permit_ops(giver: u64, taker: u64, objects: &[Ob], ops: Ops) -> Step {
    Step::Permit {
        giver: Txn(giver),
        taker: Txn(taker),
        obs: listed(objects),
        ops,
    }
}

/// Returns a permit of one transaction to anybody on 1 to 16 objects. For another number of them, the step that begins it.
pub fn permit_any(giver: u64, objects: &[Ob], ops: Ops) -> Step {
    match ObList::of(objects) {
        Ok(obs) => Step::PermitAny {
            giver: Txn(giver),
            obs,
            ops,
        },
        Err(_) => begin(giver),
    }
}

/// Returns a delegation of one transaction to another, of all objects if none is given.
pub fn delegate(giver: u64, taker: u64, objects: &[Ob]) -> Step {
    Step::Delegate {
        giver: Txn(giver),
        taker: Txn(taker),
        obs: listed(objects),
    }
}

/// Returns the step that makes `b` depend on `a`.
pub fn depend(kind: Kind, a: u64, b: u64) -> Step {
    Step::Depend {
        kind,
        a: Txn(a),
        b: Txn(b),
    }
}
