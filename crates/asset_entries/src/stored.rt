//! How entries are stored: in 32 bytes each. The set of objects of a permit or a delegation, which is large, stands in a list of sets,
//! and the entry has its index.

ghost use Rattle.std.specs.Prelude.{◌≡◌};
ghost use Rattle.asset_entries.specs.Stored.{opened_step};

use crate::reply_tag::{ReplyTag, value_read};
use crate::stored_set::{missing_at, object_at};
use crate::stored_sets::StoredSets;
use asset_names::{Kind, Ob, ObSet, Ops, Reply, Step, Txn, value_asked};
use std::mem::size_of;

/// An entry as it is stored: the step, and the tag of its reply. A read has the value that it read, or 0. The tag comes
/// first, because fields lie in this order, and so it fits beside that of the variant.
#[derive(Clone, Copy)]
pub(crate) enum Stored {
    Initiate {
        tag: ReplyTag,
        t: Txn,
        parent: Option<Txn>,
    },
    Begin {
        tag: ReplyTag,
        t: Txn,
    },
    Read {
        tag: ReplyTag,
        t: Txn,
        x: Ob,
        v: i64,
    },
    Write {
        tag: ReplyTag,
        t: Txn,
        x: Ob,
        v: i64,
    },
    Add {
        tag: ReplyTag,
        t: Txn,
        x: Ob,
        d: i64,
    },
    Complete {
        tag: ReplyTag,
        t: Txn,
    },
    /// Its set is the stored one at the index `set`; a refusal may say that the object at the index `missing` of that
    /// set does not exist.
    Permit {
        tag: ReplyTag,
        missing: u8,
        ops: Ops,
        set: usize,
        giver: Txn,
        taker: Txn,
    },
    /// Its set, which is a list, and the missing object are as those of a permit.
    PermitAny {
        tag: ReplyTag,
        missing: u8,
        ops: Ops,
        set: usize,
        giver: Txn,
    },
    /// Its set and the missing object are as those of a permit.
    Delegate {
        tag: ReplyTag,
        missing: u8,
        set: usize,
        giver: Txn,
        taker: Txn,
    },
    Depend {
        tag: ReplyTag,
        kind: Kind,
        a: Txn,
        b: Txn,
    },
    Commit {
        tag: ReplyTag,
        t: Txn,
    },
    Abort {
        tag: ReplyTag,
        t: Txn,
    },
    WaitFor {
        tag: ReplyTag,
        t: Txn,
    },
}

const _: () = prove!(size_of::<Stored>() == 32);

/// Returns the step of a permit to anybody by its set, which is a list.
#[tactic(auto, unfolding(crate::specs::Stored::opened_step))]
fn opened(giver: Txn, obs: ObSet, ops: Ops) -> Step
    ensures { result ≡ opened_step giver obs ops }
{
    match obs {
        ObSet::Listed(obs) => Step::PermitAny { giver, obs, ops },
        ObSet::All => Step::Permit {
            giver,
            taker: giver,
            obs,
            ops,
        },
    }
}

impl Stored {
    ghost use Rattle.std.specs.Prelude.{◌≡◌, List, true, length};
    ghost use Rattle.asset_entries.specs.Acting.{both_of};
    ghost use Rattle.asset_entries.specs.StoredSets.{StoredSet};
    ghost use Rattle.asset_entries.specs.Stored.{stored_as, entry_of, permit_entry, open_entry, delegate_entry, value_stored, has_set, moved};

    /// Returns the entry as it is stored, if `count` sets are stored.
    #[inline(always)]
    #[tactic(auto, unfolding(crate::specs::Stored::stored_as, asset_names::specs::Steps::value_asked))]
    pub(crate) fn of(step: &Step, reply: Reply, count: usize) -> Stored
        ensures { result ≡ stored_as count step.now reply }
    {
        let tag = ReplyTag::of(reply);
        match *step {
            Step::Initiate { t, parent } => Stored::Initiate { tag, t, parent },
            Step::Begin { t } => Stored::Begin { tag, t },
            Step::Read { t, x } => Stored::Read {
                tag,
                t,
                x,
                v: value_read(reply),
            },
            Step::Write { t, x, .. } => Stored::Write {
                tag,
                t,
                x,
                v: value_asked(step),
            },
            Step::Add { t, x, .. } => Stored::Add {
                tag,
                t,
                x,
                d: value_asked(step),
            },
            Step::Complete { t } => Stored::Complete { tag, t },
            Step::Permit {
                giver,
                taker,
                ref obs,
                ops,
            } => Stored::Permit {
                tag: ReplyTag::of_two(giver, reply),
                missing: missing_at(obs, reply),
                ops,
                set: count,
                giver,
                taker,
            },
            Step::PermitAny { giver, obs, ops } => Stored::PermitAny {
                tag: ReplyTag::of_two(giver, reply),
                missing: missing_at(&ObSet::Listed(obs), reply),
                ops,
                set: count,
                giver,
            },
            Step::Delegate {
                giver,
                taker,
                ref obs,
            } => Stored::Delegate {
                tag: ReplyTag::of_two(giver, reply),
                missing: missing_at(obs, reply),
                set: count,
                giver,
                taker,
            },
            Step::Depend { kind, a, b } => Stored::Depend {
                tag: ReplyTag::of_two(a, reply),
                kind,
                a,
                b,
            },
            Step::Commit { t } => Stored::Commit { tag, t },
            Step::Abort { t } => Stored::Abort { tag, t },
            Step::WaitFor { t } => Stored::WaitFor { tag, t },
        }
    }

    /// Returns the entry, whose set, if it has one, is among the stored sets.
    #[inline(always)]
    pub(crate) fn entry(&self, sets: &StoredSets) -> (Step, Reply)
        requires there { has_set (length sets.now.sets) self.now ≡ true }
        ensures { result ≡ entry_of sets.now.sets self.now }
    {
        let mut step = Step::Commit { t: Txn(0) };
        let reply = self.put(sets, &mut step);
        (step, reply)
    }

    /// Puts the step of the entry into the slot, and returns its reply. Its set, if it has one, is among the stored sets.
    #[inline(always)]
    #[tactic(auto, unfolding(crate::specs::Stored::entry_of, crate::specs::Stored::value_stored, crate::specs::Stored::permit_entry, crate::specs::Stored::open_entry, crate::specs::Stored::delegate_entry, crate::specs::StoredSets::set_or_all, crate::specs::Stored::has_set))]
    pub(crate) fn put(&self, sets: &StoredSets, step: &mut Step) -> Reply
        requires there { has_set (length sets.now.sets) self.now ≡ true }
        ensures { (step.new, result) ≡ entry_of sets.now.sets self.now }
    {
        match *self {
            Stored::Initiate { tag, t, parent } => {
                *step = Step::Initiate { t, parent };
                tag.about_name(t)
            }
            Stored::Begin { tag, t } => {
                *step = Step::Begin { t };
                tag.about_name(t)
            }
            Stored::Read { tag, t, x, .. } => {
                *step = Step::Read { t, x };
                tag.about(t, x, self.value())
            }
            Stored::Write { tag, t, x, .. } => {
                let v = self.value();
                *step = Step::Write { t, x, v };
                tag.about(t, x, 0)
            }
            Stored::Add { tag, t, x, .. } => {
                let d = self.value();
                *step = Step::Add { t, x, d };
                tag.about(t, x, 0)
            }
            Stored::Complete { tag, t } => {
                *step = Step::Complete { t };
                tag.about_name(t)
            }
            Stored::Permit {
                tag,
                missing,
                ops,
                set,
                giver,
                taker,
            } => {
                let obs = sets.set(set);
                let reply = tag.about_two(giver, taker, object_at(&obs, missing));
                *step = Step::Permit {
                    giver,
                    taker,
                    obs,
                    ops,
                };
                reply
            }
            Stored::PermitAny {
                tag,
                missing,
                ops,
                set,
                giver,
            } => {
                let obs = sets.set(set);
                let reply = tag.about_two(giver, giver, object_at(&obs, missing));
                *step = opened(giver, obs, ops);
                reply
            }
            Stored::Delegate {
                tag,
                missing,
                set,
                giver,
                taker,
            } => {
                let obs = sets.set(set);
                let reply = tag.about_two(giver, taker, object_at(&obs, missing));
                *step = Step::Delegate { giver, taker, obs };
                reply
            }
            Stored::Depend { tag, kind, a, b } => {
                *step = Step::Depend { kind, a, b };
                tag.about_two(a, b, Ob::default())
            }
            Stored::Commit { tag, t } => {
                *step = Step::Commit { t };
                tag.about_name(t)
            }
            Stored::Abort { tag, t } => {
                *step = Step::Abort { t };
                tag.about_name(t)
            }
            Stored::WaitFor { tag, t } => {
                *step = Step::WaitFor { t };
                tag.about_name(t)
            }
        }
    }

    /// Returns the entry with the stored set at this index in place of its own, if it has one.
    #[inline(always)]
    #[tactic(auto, unfolding(crate::specs::Stored::moved))]
    pub(crate) fn moved(self, count: usize) -> Stored
        ensures { result ≡ moved count self }
    {
        match self {
            Stored::Permit {
                tag,
                missing,
                ops,
                giver,
                taker,
                ..
            } => Stored::Permit {
                tag,
                missing,
                ops,
                set: count,
                giver,
                taker,
            },
            Stored::PermitAny {
                tag,
                missing,
                ops,
                giver,
                ..
            } => Stored::PermitAny {
                tag,
                missing,
                ops,
                set: count,
                giver,
            },
            Stored::Delegate {
                tag,
                missing,
                giver,
                taker,
                ..
            } => Stored::Delegate {
                tag,
                missing,
                set: count,
                giver,
                taker,
            },
            _ => self,
        }
    }

    /// Returns the two transactions that the entry's step acts on, which are one if it acts on one.
    #[inline(always)]
    #[tactic(auto, unfolding(crate::specs::Stored::entry_of, crate::specs::Stored::permit_entry, crate::specs::Stored::open_entry, crate::specs::Stored::delegate_entry, asset_names::specs::Groups::actor, asset_names::specs::Groups::partner))]
    pub(crate) fn both(&self) -> (Txn, Txn)
        ensures { (sets : List StoredSet) → result ≡ both_of (entry_of sets self.now) }
    {
        match *self {
            Stored::Initiate { t, .. } => (t, t),
            Stored::Begin { t, .. } => (t, t),
            Stored::Read { t, .. } => (t, t),
            Stored::Write { t, .. } => (t, t),
            Stored::Add { t, .. } => (t, t),
            Stored::Complete { t, .. } => (t, t),
            Stored::Permit { giver, taker, .. } => (giver, taker),
            Stored::PermitAny { giver, .. } => (giver, giver),
            Stored::Delegate { giver, taker, .. } => (giver, taker),
            Stored::Depend { a, b, .. } => (a, b),
            Stored::Commit { t, .. } => (t, t),
            Stored::Abort { t, .. } => (t, t),
            Stored::WaitFor { t, .. } => (t, t),
        }
    }

    /// Returns the value that a stored entry reads, writes or adds, and 0 for any other.
    #[tactic(auto, unfolding(crate::specs::Stored::value_stored))]
    fn value(&self) -> i64
        ensures { result ≡ value_stored self.now }
    {
        match *self {
            Stored::Read { v, .. } => v,
            Stored::Write { v, .. } => v,
            Stored::Add { d, .. } => d,
            _ => 0,
        }
    }
}
