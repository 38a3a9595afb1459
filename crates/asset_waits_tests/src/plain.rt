//! Groups of transactions 0, 1 and so on, found by comparing every two entries: what the kept ones are compared with.

use asset_core::Core;
use asset_history::History;
use asset_names::{Ob, Reply, Step, Txn, actor, partner, takes_effect};
use asset_test_tools::{join_in, label_in};

/// How many transactions there are. They are initiated and begun in order, so the least of a group is its first.
pub(crate) const NAMES: u64 = 24;

/// The labels of the transactions, and who committed.
#[derive(Drop)]
pub(crate) struct Plain {
    labels: [usize; NAMES as usize],
    committed: [bool; NAMES as usize],
}

/// Returns the object that a step operates on, if it is an operation.
fn object_of(step: &Step) -> Option<Ob> {
    match *step {
        Step::Read { x, .. } | Step::Write { x, .. } | Step::Add { x, .. } => Some(x),
        _ => None,
    }
}

/// Returns whether a step is an open permit of an object that another one operates on.
fn opens_for(step: &Step, other: &Step) -> bool {
    match (step, object_of(other)) {
        (Step::PermitAny { obs, .. }, Some(x)) => obs.has(x),
        _ => false,
    }
}

/// Returns whether two entries took effect and meet by an open permit.
fn meet(one: &(Step, Reply), other: &(Step, Reply)) -> bool {
    takes_effect(&one.0, one.1)
        && takes_effect(&other.0, other.1)
        && (opens_for(&one.0, &other.0) || opens_for(&other.0, &one.0))
}

impl Plain {
    /// Returns the groups of no entries.
    pub(crate) fn new() -> Plain {
        let mut labels = [0; NAMES as usize];
        for (t, label) in labels.iter_mut().enumerate() {
            *label = t;
        }
        Plain {
            labels,
            committed: [false; NAMES as usize],
        }
    }

    /// Joins two transactions.
    fn join(&mut self, a: Txn, b: Txn) {
        join_in(&mut self.labels, a.0 as usize, b.0 as usize);
    }

    /// Joins the newest entry with each older one that it meets, and its own two transactions, and notes a commit.
    pub(crate) fn note_newest(&mut self, history: &History) {
        let newest = history.len().saturating_sub(1);
        let Some(entry) = history.entry(newest) else {
            return;
        };
        self.join(actor(&entry.0), partner(&entry.0));
        for older in 0..newest {
            match history.entry(older) {
                Some(other) if meet(&entry, &other) => self.join(actor(&entry.0), actor(&other.0)),
                _ => {}
            }
        }
        if let (Step::Commit { t }, Reply::Committed) = entry {
            if let Some(slot) = self.committed.get_mut(t.0 as usize) {
                *slot = true;
            }
        }
    }

    /// Returns whether a transaction of the group with the label has committed.
    fn has_committed(&self, label: usize) -> bool {
        for t in 0..NAMES as usize {
            if label_in(&self.labels, t) == label && self.committed.get(t) == Some(&true) {
                return true;
            }
        }
        false
    }

    /// Returns how many groups there are.
    pub(crate) fn count(&self) -> usize {
        let mut count = 0;
        for t in 0..NAMES as usize {
            count = usize::saturating_add(count, usize::from(label_in(&self.labels, t) == t));
        }
        count
    }

    /// Returns the first transaction of which the facility says something else.
    pub(crate) fn first_other(&self, core: &Core) -> Option<u64> {
        for t in 0..NAMES {
            let label = label_in(&self.labels, t as usize);
            let told = (core.first_of(Txn(t)), core.group_committed(Txn(t)));
            if told != (Some(Txn(label as u64)), self.has_committed(label)) {
                return Some(t);
            }
        }
        None
    }
}
