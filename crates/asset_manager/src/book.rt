//! The value behind the lock, and the lists of the sessions, to which it alone adds.

ghost use Rattle.std.specs.Prelude.{◌≡◌, ◌≤◌, ◌<◌, ◌+◌, ◌++◌, ◌∷◌, [], length, vec_len, vec_capacity, OnOk, OnErr, MatchBool};
ghost use Rattle.asset_manager.specs.Listed.{with_call};

use crate::session::Session;
use asset_audit::{AuditFault, audit};
use asset_core::{Core, History};
use asset_counts::{Publisher, Watch};
use asset_names::{Fault, NoMemory, Outcome, Reply, Step, Txn};
use std::alloc::Global;
use std::marker::Model;
use std::sync::Arc;

/// The recorded calls of one session: of each the number of its entry, the step and the reply.
#[derive(Drop)]
pub(crate) struct CallList {
    items: Vec<(usize, Step, Reply)>,
}

impl Model for CallList {
    ghost use Rattle.std.specs.Prelude.{vec_capacity};
    ghost use Rattle.asset_manager.specs.Listed.{Listed};

    ghost Value = { Listed };

    ghost view = { λ list. record { calls = list.items.items; room = vec_capacity list.items } };
}

impl CallList {
    /// Returns a list without calls. It does not allocate.
    pub(crate) fn new(alloc: Global) -> CallList
        ensures { result.calls ≡ [] }
    {
        CallList {
            items: Vec::new(alloc),
        }
    }

    /// Makes room for `count` more calls. It fails if memory runs out, and then the list and its room are as before.
    pub(crate) fn reserve(&mut self, count: usize) -> Result<(), NoMemory>
        ensures calls { self.new.calls ≡ self.old.calls }
        ensures room { OnOk result (length self.new.calls + count ≤ self.new.room) }
        ensures memory { OnErr result (self.old.room < length self.old.calls + count) }
        ensures kept { self.old.room ≤ self.new.room }
    {
        match self.items.reserve(count) {
            Ok(()) => Ok(()),
            Err(_) => Err(NoMemory),
        }
    }

    /// Returns whether there is room for `count` more calls.
    pub(crate) fn has_room(&self, count: usize) -> bool
        ensures { MatchBool result (length self.now.calls + count ≤ self.now.room) (self.now.room < length self.now.calls + count) }
    {
        count <= self.items.capacity() - self.items.len()
    }

    /// Returns the calls, oldest first.
    pub(crate) fn as_slice(&self) -> &[(usize, Step, Reply)]
        ensures { result.now ≡ self.now.calls }
    {
        self.items.as_slice()
    }

    /// Appends a call, for which there is room.
    fn add(&mut self, number: usize, step: &Step, reply: Reply)
        requires { length self.old.calls < self.old.room }
        ensures { self.new ≡ with_call self.old number step.now reply }
    {
        add_call(&mut self.items, number, step, reply);
    }
}

/// Appends an item, for which there is room.
fn push_item<T: Copy>(items: &mut Vec<T>, item: &T)
    requires { vec_len items.old < vec_capacity items.old }
    ensures items { items.new.items ≡ items.old.items ++ item.now ∷ [] }
    ensures room { vec_capacity items.new ≡ vec_capacity items.old }
{
    items.push_reserved(*item);
}

/// Appends a call, for which there is room.
fn add_call(items: &mut Vec<(usize, Step, Reply)>, number: usize, step: &Step, reply: Reply)
    requires { vec_len items.old < vec_capacity items.old }
    ensures items { items.new.items ≡ items.old.items ++ (number, step.now, reply) ∷ [] }
    ensures room { vec_capacity items.new ≡ vec_capacity items.old }
{
    let call = (number, *step, reply);
    push_item(items, &call);
}

/// A facility, with the right to publish its counts. What it published last are always its counts. Contracts see the
/// facility, and the word of counts with what was published there last.
#[derive(Drop)]
pub struct Book {
    core: Core,
    watch: Arc<Watch, Global>,
    by: Publisher,
}

impl Model for Book {
    ghost use Rattle.std.specs.Prelude.{◌≡◌};
    ghost use Rattle.std.specs.Arc.{arc_value};
    ghost use Rattle.asset_names.specs.Counted.{counts_of};
    ghost use Rattle.asset_manager.specs.Booked.{Booked};

    ghost Value = { Booked };

    ghost view = { λ book. record { facility = book.core; published = book.by } };

    ghost invariant = { λ book. (book.by.of ≡ arc_value book.watch) × (book.by.last ≡ counts_of book.core.history.entries) };
}

impl Book {
    ghost use Rattle.std.specs.Prelude.{map, reverse, IsOk};
    ghost use Rattle.std.specs.Arc.{arc_value};
    ghost use Rattle.asset_names.specs.Answers.{IsLegal};
    ghost use Rattle.asset_names.specs.Counted.{counts_of};
    ghost use Rattle.asset_audit.specs.Audited.{IsAudit, HasEach};
    ghost use Rattle.asset_core.specs.Stepped.{IsStep};
    ghost use Rattle.asset_history.specs.Sharing.{first_of, group_committed};
    ghost use Rattle.asset_manager.specs.Listed.{Lists};
    ghost use Rattle.asset_manager.specs.Booked.{IsValid};
    ghost use Rattle.asset_manager.specs.Serves.{Serves};

    /// Returns a book of a facility, whose counts were published last by the right to publish at the word.
    pub fn new(core: Core, watch: Arc<Watch, Global>, by: Publisher) -> Book
        requires own { by.of ≡ arc_value watch }
        requires shown { by.last ≡ counts_of core.history.entries }
        ensures facility { result.facility ≡ core }
        ensures published { result.published ≡ by }
    {
        Book { core, watch, by }
    }

    /// Says what holds of every book.
    fn laws(&self)
        ensures { IsValid self.now }
    {
        // The contracts of `history` and `len` say that a facility can have it.
        let _len = self.core.history().len();
    }

    /// Asks for one step, as `Core::step` does. A recorded answer is appended to the history and, with the number of
    /// its entry, to the session's list, and the counts are published; a wait or a fault is not.
    ///
    /// It makes room in the list first, and answers `NoMemory` if memory runs out for that, whatever the step. The
    /// other faults are those of `Core::step`. After a fault no list, history or count has changed.
    pub fn serve(&mut self, session: &mut Session, step: Step) -> Result<Outcome, Fault>
        ensures served { Serves self.old.facility session.old step result self.new.facility session.new }
        ensures valid { IsValid self.old × IsValid self.new }
        ensures word { self.new.published.of ≡ self.old.published.of }
    {
        self.serve_lent(session, &step)
    }

    /// Asks for one step that is lent, as `serve` does. The step stays the caller's, and the list keeps a copy of it.
    pub fn serve_lent(&mut self, session: &mut Session, step: &Step) -> Result<Outcome, Fault>
        ensures served { Serves self.old.facility session.old step.now result self.new.facility session.new }
        ensures valid { IsValid self.old × IsValid self.new }
        ensures word { self.new.published.of ≡ self.old.published.of }
    {
        self.laws();
        match session.list.reserve(1) {
            Ok(()) => self.ask(&mut session.list, step),
            Err(NoMemory) => Err(Fault::NoMemory),
        }
    }

    /// Asks for one step, as `serve` does, if the list has room for a call.
    fn ask(&mut self, list: &mut CallList, step: &Step) -> Result<Outcome, Fault>
        requires { length list.old.calls < list.old.room }
        ensures asked { IsStep self.old.facility step.now result self.new.facility }
        ensures lists { Lists (length self.old.facility.history.entries) list.old.calls step.now result list.new.calls }
        ensures room { list.new.room ≡ list.old.room }
        ensures valid { IsValid self.new }
        ensures word { self.new.published.of ≡ self.old.published.of }
    {
        let number = self.core.history().len();
        match self.core.step_lent(step) {
            Ok(Outcome::Answer(reply)) => {
                list.add(number, step, reply);
                let counts = self.core.counts();
                self.watch.publish(&mut self.by, counts);
                self.laws();
                Ok(Outcome::Answer(reply))
            }
            Ok(Outcome::Wait) => {
                self.laws();
                Ok(Outcome::Wait)
            }
            Err(fault) => {
                self.laws();
                Err(fault)
            }
        }
    }

    /// Returns the first of those with whom `t` has come to share, as `Core::first_of` does.
    pub fn first_of(&self, t: Txn) -> Option<Txn>
        ensures first { result ≡ first_of self.now.facility.history.entries t.0 }
        ensures valid { IsValid self.now }
    {
        self.laws();
        self.core.first_of(t)
    }

    /// Returns whether somebody with whom `t` has come to share has committed, as `Core::group_committed` does.
    pub fn group_committed(&self, t: Txn) -> bool
        ensures committed { result ≡ group_committed self.now.facility.history.entries t.0 }
        ensures valid { IsValid self.now }
    {
        self.laws();
        self.core.group_committed(t)
    }

    /// Returns the history, and the audit of the sessions against it. It does not allocate.
    pub fn close(self, sessions: Vec<Session>) -> Closed
        ensures history { result.history ≡ self.facility.history }
        ensures legal { IsLegal result.history.opening result.history.entries }
        ensures audit { IsAudit (reverse result.history.entries) (map (λ session. session.list.calls) sessions.items) result.audit }
        ensures each { IsOk result.audit → HasEach (reverse result.history.entries) (map (λ session. session.list.calls) sessions.items) }
    {
        let Book {
            core,
            watch: _,
            by: _,
        } = self;
        let history = core.into_history();
        // The contract of `len` says that the history is legal.
        let _len = history.len();
        let audit = audit(&history, sessions.as_slice());
        Closed { history, audit }
    }
}

/// What is left of a facility that was closed.
#[derive(Drop)]
pub struct Closed {
    /// The history.
    pub history: History,
    /// The audit of the sessions that were handed in against it.
    pub audit: Result<(), AuditFault>,
}
