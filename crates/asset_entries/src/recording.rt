//! Whether an entry records a step with its reply. An entry of the same kind of step is not read back for that, if the step names
//! one transaction and no set of objects.

ghost use Rattle.std.specs.Prelude.{◌≡◌, IsTrue};
ghost use Rattle.asset_entries.specs.Stored.{reply_about, reply_of_name};

use crate::reply_tag::ReplyTag;
use crate::stored::Stored;
use crate::stored_sets::StoredSets;
use asset_names::{Ob, Reply, Step, Txn};

/// Returns whether two steps that name one transaction each name the same, and the tag says the reply.
#[inline(always)]
fn is_of_name(tag: ReplyTag, t: Txn, named: Txn, reply: Reply) -> bool
    ensures same { IsTrue result → (t ≡ named) × (reply_of_name t tag ≡ reply) }
    ensures found { t ≡ named → reply_of_name t tag ≡ reply → IsTrue result }
{
    t == named && tag.about_name(t) == reply
}

/// Returns whether two steps that name one transaction and one object each name the same, and the tag says the reply, with the
/// value if it is that of a read.
#[inline(always)]
fn is_of_object(tag: ReplyTag, v: i64, own: (Txn, Ob), named: (Txn, Ob), reply: Reply) -> bool
    ensures same { IsTrue result → (own ≡ named) × (reply_about own.0 own.1 v tag ≡ reply) }
    ensures found { own ≡ named → reply_about own.0 own.1 v tag ≡ reply → IsTrue result }
{
    own == named && tag.about(own.0, own.1, v) == reply
}

impl Stored {
    ghost use Rattle.std.specs.Prelude.{◌≡◌, IsTrue, true, length};
    ghost use Rattle.asset_entries.specs.Stored.{entry_of, has_set};

    /// Returns whether the entry is that of the step with the reply. Its set, if it has one, is among the stored sets.
    #[tactic(auto, unfolding(crate::specs::Stored::entry_of, crate::specs::Stored::has_set))]
    pub(crate) fn records(&self, sets: &StoredSets, step: &Step, reply: Reply) -> bool
        requires there { has_set (length sets.now.sets) self.now ≡ true }
        ensures same { IsTrue result → entry_of sets.now.sets self.now ≡ (step.now, reply) }
        ensures found { entry_of sets.now.sets self.now ≡ (step.now, reply) → IsTrue result }
    {
        match (self, step) {
            (Stored::Read { tag, t, x, v }, Step::Read { t: u, x: y }) => {
                is_of_object(*tag, *v, (*t, *x), (*u, *y), reply)
            }
            (Stored::Write { tag, t, x, v }, Step::Write { t: u, x: y, v: w }) => {
                v == w && is_of_object(*tag, 0, (*t, *x), (*u, *y), reply)
            }
            (Stored::Add { tag, t, x, d }, Step::Add { t: u, x: y, d: e }) => {
                d == e && is_of_object(*tag, 0, (*t, *x), (*u, *y), reply)
            }
            _ => self.records_start(sets, step, reply),
        }
    }

    /// Returns the same as `records`, and looks first whether the transaction is initiated, begins or completes.
    #[tactic(auto, unfolding(crate::specs::Stored::entry_of, crate::specs::Stored::has_set))]
    fn records_start(&self, sets: &StoredSets, step: &Step, reply: Reply) -> bool
        requires there { has_set (length sets.now.sets) self.now ≡ true }
        ensures same { IsTrue result → entry_of sets.now.sets self.now ≡ (step.now, reply) }
        ensures found { entry_of sets.now.sets self.now ≡ (step.now, reply) → IsTrue result }
    {
        match (self, step) {
            (Stored::Initiate { tag, t, parent }, Step::Initiate { t: u, parent: p }) => {
                parent == p && is_of_name(*tag, *t, *u, reply)
            }
            (Stored::Begin { tag, t }, Step::Begin { t: u }) => is_of_name(*tag, *t, *u, reply),
            (Stored::Complete { tag, t }, Step::Complete { t: u }) => {
                is_of_name(*tag, *t, *u, reply)
            }
            _ => self.records_end(sets, step, reply),
        }
    }

    /// Returns the same as `records`, and looks first whether the transaction ends or is waited for.
    #[tactic(auto, unfolding(crate::specs::Stored::entry_of, crate::specs::Stored::has_set))]
    fn records_end(&self, sets: &StoredSets, step: &Step, reply: Reply) -> bool
        requires there { has_set (length sets.now.sets) self.now ≡ true }
        ensures same { IsTrue result → entry_of sets.now.sets self.now ≡ (step.now, reply) }
        ensures found { entry_of sets.now.sets self.now ≡ (step.now, reply) → IsTrue result }
    {
        match (self, step) {
            (Stored::Commit { tag, t }, Step::Commit { t: u }) => is_of_name(*tag, *t, *u, reply),
            (Stored::Abort { tag, t }, Step::Abort { t: u }) => is_of_name(*tag, *t, *u, reply),
            (Stored::WaitFor { tag, t }, Step::WaitFor { t: u }) => {
                is_of_name(*tag, *t, *u, reply)
            }
            _ => self.is_read_back_as(sets, step, reply),
        }
    }

    /// Returns the same as `records`, by reading the step back.
    fn is_read_back_as(&self, sets: &StoredSets, step: &Step, reply: Reply) -> bool
        requires there { has_set (length sets.now.sets) self.now ≡ true }
        ensures same { IsTrue result → entry_of sets.now.sets self.now ≡ (step.now, reply) }
        ensures found { entry_of sets.now.sets self.now ≡ (step.now, reply) → IsTrue result }
    {
        let (recorded, replied) = self.entry(sets);
        recorded == *step && replied == reply
    }
}
