//! The facility for one caller.

ghost use Rattle.std.specs.Prelude.{◌≡◌, ◌≤◌, cond};
ghost use Rattle.asset_names.specs.Room.{initiates};

use crate::OpenFault;
use asset_ends::{NameSet, Tables};
use asset_history::History;
use asset_names::{
    Counts, End, Fault, NoMemory, Ob, Op, Outcome, Reply, Status, Step, Txn, takes_effect,
};
use asset_objects::ObjectsFault;
use asset_steps::{answer, apply, step_at_once, wait};
use std::alloc::Global;
use std::marker::Model;

/// The greatest capacity of a history.
const MOST: usize = 1_000_000;

/// Returns whether the step initiates a transaction.
#[tactic(auto, unfolding(asset_names::specs::Room::initiates))]
fn initiates(step: &Step) -> bool
    ensures { result ≡ initiates step.now }
{
    matches!(step, Step::Initiate { .. })
}

/// Returns how many entries a step may be owed beside its own: two if it initiates a transaction.
fn may_owe(step: &Step) -> usize
    ensures owed { result ≡ cond (initiates step.now) 2 0 }
    ensures most { result ≤ 2 }
{
    if initiates(step) { 2 } else { 0 }
}

/// A history, which grows by one answered step at a time, and the tables that show it. Contracts see the
/// history, and the pending request of each live transaction. It is `Send`.
pub struct Core {
    history: History,
    tables: Tables,
}

/// It is proved here, once for all crates that drop a facility.
impl Drop for Core {
    fn drop(self) {
        drop(self.into_history());
    }
}

impl Model for Core {
    ghost use Rattle.asset_core.specs.Pending.{Facility};
    ghost use Rattle.asset_core.specs.Tables.{IsValid, pending_in};

    ghost Value = { Facility };

    ghost view = { λ core. record { history = core.history; pending = pending_in core.tables.locks } };

    ghost invariant = { λ core. IsValid core.history core.tables };
}

impl Core {
    ghost use Rattle.std.specs.Prelude.{◌≡◌, ℕ, ◌+◌, ◌<◌, ◌≤◌, [], ◌∷◌, true, false, cond, map, filter, reverse, length, slice_get, IfOk, IfErr, OnOk, Err};
    ghost use Rattle.asset_names.specs.Steps.{takes_effect, applied, initiated, objects_of};
    ghost use Rattle.asset_names.specs.Endings.{live, status};
    ghost use Rattle.asset_names.specs.Operations.{holds, value_if_any};
    ghost use Rattle.asset_names.specs.declared.replies.Outcome.TheVariants.{Answer, Wait as Waits};
    ghost use Rattle.asset_names.specs.Room.{initiates, owed, fits, changes_status};
    ghost use Rattle.asset_entries.specs.Recorded.{answer_to, after, has_room, is_ending};
    ghost use Rattle.asset_history.specs.Sharing.{first_of, group_committed};
    ghost use Rattle.asset_names.specs.Arrows.{lists};
    ghost use Rattle.asset_ends.specs.Waits.{is_blocker, is_unfinished, is_outside_source};
    ghost use Rattle.asset_core.specs.Pending.{Pending, facility_of, pending_after, pending_of, waiting_for};
    ghost use Rattle.asset_names.specs.Sources.{is_operation};
    ghost use Rattle.asset_core.specs.Stepped.{IsStep};
    ghost use Rattle.asset_names.specs.Sets.{HasNoDouble};
    ghost use Rattle.asset_core.specs.OpenFaults.{IsCapacity, MayOpen, IsOpenFault};
    ghost use Rattle.asset_ends.specs.Shows.{Shows};
    ghost use Rattle.asset_ends.specs.Standing.{values_of};
    ghost use Rattle.asset_core.specs.Tables.{pending_in};
    ghost use Rattle.asset_names.specs.Counted.{counts_of};

    /// Opens the facility over these objects with their values, with room for `capacity` entries.
    ///
    /// It answers `BadCapacity` unless the capacity is from 1 to 1,000,000; otherwise `DoubleObject` with the least
    /// object that is given twice; otherwise `NoMemory` if memory runs out. To name that object it compares each pair
    /// of objects, also when memory ran out: `open_distinct` does not.
    pub fn open(alloc: Global, opening: &[(Ob, i64)], capacity: usize) -> Result<Core, OpenFault>
        ensures opened { IfOk result (λ core. core ≡ facility_of opening.now capacity) }
        ensures may { OnOk result (MayOpen opening.now capacity) }
        ensures fault { IfErr result (IsOpenFault opening.now capacity) }
    {
        if capacity < 1 || capacity > MOST {
            return Err(OpenFault::BadCapacity);
        }
        let tables = match Tables::open(alloc, opening) {
            Ok(tables) => tables,
            Err(ObjectsFault::DoubleObject(x)) => return Err(OpenFault::DoubleObject(x)),
            Err(ObjectsFault::NoMemory) => return Err(OpenFault::NoMemory),
        };
        match Core::over(alloc, opening, capacity, tables) {
            Ok(core) => Ok(core),
            Err(NoMemory) => Err(OpenFault::NoMemory),
        }
    }

    /// Opens the facility over objects that are all different, with their values and with room for `capacity`
    /// entries, which is from 1 to 1,000,000. It fails only if memory runs out, and then at once.
    pub fn open_distinct(
        alloc: Global,
        opening: &[(Ob, i64)],
        capacity: usize,
    ) -> Result<Core, NoMemory>
        requires capacity { IsCapacity capacity }
        requires distinct { HasNoDouble (objects_of opening.now) }
        ensures { IfOk result (λ core. core ≡ facility_of opening.now capacity) }
    {
        let tables = Tables::open_distinct(alloc, opening)?;
        Core::over(alloc, opening, capacity, tables)
    }

    /// Returns the facility over the tables of an opening, which gives no object twice.
    fn over(
        alloc: Global,
        opening: &[(Ob, i64)],
        capacity: usize,
        tables: Tables,
    ) -> Result<Core, NoMemory>
        requires capacity { IsCapacity capacity }
        requires different { HasNoDouble (objects_of opening.now) }
        requires shows { Shows opening.now [] (values_of tables) }
        requires locks { tables.locks ≡ [] }
        ensures { IfOk result (λ core. core ≡ facility_of opening.now capacity) }
    {
        match History::open(alloc, opening, capacity) {
            Ok(history) => Ok(Core { history, tables }),
            Err(_) => Err(NoMemory),
        }
    }

    /// Asks for one step. An answered step, refused or not, becomes an entry of the history. A step that waits does
    /// not, and may be asked again: a read, a write or an add that waits becomes its transaction's pending request,
    /// until the transaction's next read, write or add that is granted or waits, or until it ends.
    ///
    /// It answers `Full` exactly if the entries with this one, together with those that live transactions are
    /// owed after it, exceed the capacity. A complete, a commit or an abort that changes a status always finds
    /// room. `NoMemory` can come only if an initiate, a read, a write, an add, a permit, a delegation or a dependency
    /// would take effect. After `Full` and `NoMemory` nothing has changed; nor has anything after a wait of a step that is
    /// no read, write or add.
    #[inline(always)]
    pub fn step(&mut self, step: Step) -> Result<Outcome, Fault>
        ensures { IsStep self.old step result self.new }
    {
        self.step_lent(&step)
    }

    /// Asks for one step that is lent, as `step` does. The step stays the caller's, who may ask it again.
    #[inline(always)]
    pub fn step_lent(&mut self, step: &Step) -> Result<Outcome, Fault>
        ensures { IsStep self.old step.now result self.new }
    {
        if self.has_place(step) {
            self.step_at_once(step)
        } else {
            self.ask(step)
        }
    }

    /// Returns whether there is room for the step's entry whatever it is answered: an initiate may be owed two entries more,
    /// and no other step owes more than before.
    #[inline(always)]
    fn has_place(&self, step: &Step) -> bool
        ensures { result ≡ true → length self.now.history.entries + 1 + owed (applied self.now.history.entries) + cond (initiates step.now) 2 0 ≤ self.now.history.capacity }
    {
        let capacity = self.history.room();
        self.history.len() + 1 + self.tables.owed() + may_owe(step) <= capacity
    }

    /// Asks for a step, for whose entry there is room whatever it is answered: it is answered while it takes effect.
    #[inline(always)]
    fn step_at_once(&mut self, step: &Step) -> Result<Outcome, Fault>
        requires room { length self.old.history.entries + 1 + owed (applied self.old.history.entries) + cond (initiates step.now) 2 0 ≤ self.old.history.capacity }
        ensures { IsStep self.old step.now result self.new }
    {
        match step_at_once(&mut self.tables, step) {
            Ok(Outcome::Answer(answer)) => {
                self.history.append_lent(step, answer);
                Ok(Outcome::Answer(answer))
            }
            Ok(Outcome::Wait) => Ok(Outcome::Wait),
            Err(_) => Err(Fault::NoMemory),
        }
    }

    /// Asks for a step: finds its answer first, and then whether there is room for it. Only a facility that is nearly full asks so.
    #[inline(never)]
    fn ask(&mut self, step: &Step) -> Result<Outcome, Fault>
        ensures { IsStep self.old step.now result self.new }
    {
        match self.answer(step) {
            Outcome::Wait => {
                self.wait(step);
                Ok(Outcome::Wait)
            }
            Outcome::Answer(reply) => self.record(step, reply),
        }
    }

    /// Returns the answer to a step. Nothing changes.
    #[inline(always)]
    fn answer(&mut self, step: &Step) -> Outcome
        ensures answer { result ≡ answer_to self.old.history step.now }
        ensures same { self.new ≡ self.old }
    {
        answer(&mut self.tables, step)
    }

    /// Keeps a request that waits as pending.
    fn wait(&mut self, step: &Step)
        requires waits { answer_to self.old.history step.now ≡ Waits }
        ensures history { self.new.history ≡ self.old.history }
        ensures pending { self.new.pending ≡ pending_after self.old step.now Waits }
        ensures still { is_operation step.now ≡ false → self.new ≡ self.old }
    {
        wait(&mut self.tables, step);
    }

    /// Returns whether the answer is that of a complete, a commit or an abort that changes a status; `effect` says
    /// whether the step takes effect.
    #[tactic(auto, unfolding(asset_names::specs::Room::changes_status))]
    fn is_ending(&self, step: &Step, reply: Reply, effect: bool) -> bool
        requires effect { effect ≡ takes_effect step.now reply }
        ensures { result ≡ changes_status (applied self.now.history.entries) step.now reply }
    {
        match *step {
            Step::Complete { .. } => effect,
            Step::Commit { t } => effect && self.is_live(t),
            Step::Abort { t } => effect && self.is_live(t),
            Step::Initiate { .. } => false,
            Step::Begin { .. } => false,
            Step::Read { .. } => false,
            Step::Write { .. } => false,
            Step::Add { .. } => false,
            Step::Permit { .. } => false,
            Step::PermitAny { .. } => false,
            Step::Delegate { .. } => false,
            Step::Depend { .. } => false,
            Step::WaitFor { .. } => false,
        }
    }

    /// Returns whether the transaction is live.
    fn is_live(&self, t: Txn) -> bool
        ensures { result ≡ live (applied self.now.history.entries) t.0 }
    {
        self.status(t).is_live()
    }

    /// Returns how many entries are owed after an answer that is no such ending; `effect` says whether the step takes
    /// effect.
    fn owed_after(&self, step: &Step, reply: Reply, effect: bool) -> usize
        requires answer { answer_to self.now.history step.now ≡ Answer reply }
        requires effect { effect ≡ takes_effect step.now reply }
        requires quiet { changes_status (applied self.now.history.entries) step.now reply ≡ false }
        ensures owed { result ≡ owed (applied ((step.now, reply) ∷ self.now.history.entries)) }
        ensures bound { result ≤ owed (applied self.now.history.entries) + 2 }
    {
        let owed = self.tables.owed();
        if effect && initiates(step) {
            owed + 2
        } else {
            owed
        }
    }

    /// Returns whether there is room for an answer and for what is owed after it; `effect` says whether the step takes
    /// effect. An ending always finds room, so nothing is counted for it.
    fn has_room(&self, step: &Step, reply: Reply, effect: bool) -> bool
        requires answer { answer_to self.now.history step.now ≡ Answer reply }
        requires effect { effect ≡ takes_effect step.now reply }
        ensures room { result ≡ has_room self.now.history step.now (Answer reply) }
        ensures ending { is_ending self.now.history step.now (Answer reply) ≡ true → result ≡ true }
        ensures within { result ≡ true → length self.now.history.entries < self.now.history.capacity }
    {
        let capacity = self.history.room();
        if self.is_ending(step, reply, effect) {
            return true;
        }
        self.history.len() + 1 + self.owed_after(step, reply, effect) <= capacity
    }

    /// Records the answer to a step, if there is room for it.
    #[inline(always)]
    fn record(&mut self, step: &Step, reply: Reply) -> Result<Outcome, Fault>
        requires answer { answer_to self.old.history step.now ≡ Answer reply }
        ensures { IsStep self.old step.now result self.new }
    {
        let effect = takes_effect(step, reply);
        if !self.has_room(step, reply, effect) {
            return Err(Fault::Full);
        }
        match apply(&mut self.tables, step, reply) {
            Ok(()) => {
                self.history.append_lent(step, reply);
                Ok(Outcome::Answer(reply))
            }
            Err(_) => Err(Fault::NoMemory),
        }
    }

    /// Returns the status of a transaction: Unknown if it was never initiated.
    pub fn status(&self, t: Txn) -> Status
        ensures { result ≡ status (applied self.now.history.entries) t.0 }
    {
        self.tables.status(t)
    }

    /// Returns the first of the transactions with whom `t` has come to share, in the order in which steps first acted on them, and
    /// `None` if no step acts on `t`. It may be `t` itself. It looks for the name once and goes up at most log2 of
    /// the names from there, and takes no memory.
    pub fn first_of(&self, t: Txn) -> Option<Txn>
        ensures { result ≡ first_of self.now.history.entries t.0 }
    {
        self.history.first_of(t)
    }

    /// Returns whether somebody with whom `t` has come to share has committed, or `t` itself; if no step acts on `t`, it is false. It
    /// costs what `first_of` does.
    pub fn group_committed(&self, t: Txn) -> bool
        ensures { result ≡ group_committed self.now.history.entries t.0 }
    {
        self.history.group_committed(t)
    }

    /// Returns the value of an object, and `None` if there is no such object.
    pub fn value(&self, x: Ob) -> Option<i64>
        ensures { result ≡ value_if_any self.now.history.opening (applied self.now.history.entries) x.0 }
    {
        self.tables.value(x)
    }

    /// Returns the waiter at the index among the live transactions whose pending request is on `x`, in order of
    /// initiation from 0, with the operation that it asked for, and `None` past the end. Each live transaction has one place
    /// for a pending request, in order of initiation, and nobody else has one.
    pub fn waiters(&self, x: Ob, index: usize) -> Option<(Txn, Op)>
        ensures waiter { result ≡ slice_get (waiting_for x.0 self.now.pending) index }
        ensures askers { map (λ (asker : Pending). asker.name) self.now.pending ≡ filter (live (applied self.now.history.entries)) (reverse (initiated (applied self.now.history.entries))) }
    {
        self.tables.waiters(x, index)
    }

    /// Returns the pending request of a transaction, if there is one: the object and the operation. Its cost is constant.
    pub fn pending(&self, t: Txn) -> Option<(Ob, Op)>
        ensures { result ≡ pending_of t.0 self.now.pending }
    {
        self.tables.pending(t)
    }

    /// Returns whether `t` is live and holds `x` by `op`. It looks at the locks of `t` or at those on `x`, whichever are
    /// fewer.
    pub fn holds(&self, t: Txn, x: Ob, op: Op) -> bool
        ensures { result ≡ holds (applied self.now.history.entries) t.0 x.0 op }
    {
        self.tables.holds(t, x, op)
    }

    /// Returns who blocks `t` from `op` on `x`, rising: each other transaction that holds `x` by an operation in conflict
    /// and does not allow `t`, and nobody else. If `t` asked for it, it would wait for them, and for nobody else. It looks
    /// at the locks on `x` that may conflict, and marks all who allow `t` once; if open permits were given, it searches for a
    /// permit from each holder in conflict.
    ///
    /// If memory runs out, the answer is `NoMemory`. Nothing changes.
    pub fn blockers(&mut self, t: Txn, x: Ob, op: Op) -> Result<NameSet, NoMemory>
        ensures named { IfOk result (λ found. (u : ℕ) → lists found.keys u ≡ is_blocker (applied self.old.history.entries) t.0 x.0 op u) }
        ensures same { self.new ≡ self.old }
    {
        self.tables.blockers(t, x, op)
    }

    /// Returns the members of the class of `t` that have not completed, rising, and nobody if `t` is not live. A commit of
    /// `t` waits for them. It looks at the class and its dependencies.
    ///
    /// If memory runs out, the answer is `NoMemory`. Nothing changes.
    pub fn unfinished(&mut self, t: Txn) -> Result<NameSet, NoMemory>
        ensures named { IfOk result (λ found. (u : ℕ) → lists found.keys u ≡ is_unfinished (applied self.old.history.entries) t.0 u) }
        ensures same { self.new ≡ self.old }
    {
        self.tables.unfinished(t)
    }

    /// Returns the live transactions outside the class of `t` on which a member depends by a commit or an abort dependency,
    /// rising, and nobody if `t` is not live. A commit of `t` waits for them. It looks at the class and its dependencies.
    ///
    /// If memory runs out, the answer is `NoMemory`. Nothing changes.
    pub fn outside_sources(&mut self, t: Txn) -> Result<NameSet, NoMemory>
        ensures named { IfOk result (λ found. (u : ℕ) → lists found.keys u ≡ is_outside_source (applied self.old.history.entries) t.0 u) }
        ensures same { self.new ≡ self.old }
    {
        self.tables.outside_sources(t)
    }

    /// Returns the history so far, whose capacity is at most 1,000,000: its entries and those that are owed are within it.
    pub fn history(&self) -> &History
        ensures history { result.now ≡ self.now.history }
        ensures fits { fits (applied self.now.history.entries) (length self.now.history.entries) self.now.history.capacity ≡ true }
        ensures capacity { self.now.history.capacity ≤ 1000000 }
    {
        &self.history
    }

    /// Returns how many entries the history has, and how many transactions have committed and have aborted in it. It
    /// looks at counters alone.
    pub fn counts(&self) -> Counts
        ensures counts { result ≡ counts_of self.now.history.entries }
        ensures most { result.entries ≤ 1000000 }
        ensures committed { result.committed ≤ result.entries }
        ensures aborted { result.aborted ≤ result.entries }
    {
        Counts {
            entries: self.history.len() as u64,
            committed: self.tables.ended(End::Committed) as u64,
            aborted: self.tables.ended(End::Aborted) as u64,
        }
    }

    /// Returns the history and drops the tables.
    pub fn into_history(self) -> History
        ensures { result ≡ self.history }
    {
        let Core { history, tables: _ } = self;
        history
    }
}
