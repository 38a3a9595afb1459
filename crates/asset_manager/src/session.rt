//! Sessions.

ghost use Rattle.std.specs.Prelude.{◌≡◌, ◌≤◌, ◌<◌, ◌+◌, ◌⊎◌, [], true, length, OnOk, OnErr, IfOk, IfSome, IsSome, MatchBool, Some, None, Err};
ghost use Rattle.std.specs.Arc.{arc_value};
ghost use Rattle.atomic_table.specs.Seated.{TableId};
ghost use Rattle.asset_names.specs.declared.replies.Outcome.TheVariants.{Answer};
ghost use Rattle.asset_names.specs.declared.replies.Fault.TheVariants.{NoMemory as LacksMemory};
ghost use Rattle.asset_names.specs.Answers.{takes_memory};
ghost use Rattle.asset_names.specs.Counted.{IsBelow};
ghost use Rattle.asset_counts.specs.Pass.{IsOf};
ghost use Rattle.asset_manager.specs.Listed.{IsListed};
ghost use Rattle.asset_manager.specs.Asks.{AreOfOne, Asks, IsAnswer, IsFirstSharer, HasCommitted, SawLast, as_outcome};

use crate::book::CallList;
use crate::manager::Manager;
use asset_audit::Calls;
use asset_counts::{Watch, WatchPass};
use asset_names::{Fault, NoMemory, Outcome, Reply, Step, Txn};
use crossbeam_utils::Backoff;
use std::alloc::Global;
use std::marker::Model;
use std::sync::{Arc, Wait};
use std::thread;

/// How often the published counts are looked at before a step whose answer was to wait is asked again all the same.
const LOOKS: u32 = 32;

/// The word of a session's manager, with a pass of it.
#[derive(Drop)]
struct Link {
    watch: Arc<Watch, Global>,
    pass: WatchPass,
}

/// Who asks a manager, with the list of the calls that were recorded. It belongs to the manager that it came from.
/// Contracts see the manager's word, once the session knows it, the counts that it saw last, and the list. It is
/// `Send`.
pub struct Session {
    link: Option<Link>,
    pub(crate) list: CallList,
    alloc: Global,
}

/// It is proved here, once for all crates that drop a session.
impl Drop for Session {
    fn drop(self) {
        let Session {
            link,
            list,
            alloc: _,
        } = self;
        drop(link);
        drop(list);
    }
}

impl Model for Session {
    ghost use Rattle.asset_manager.specs.Asker.{Asker};

    ghost Value = { Asker };

    ghost use Rattle.asset_manager.specs.Linked.{asker_of, IsLinked};

    ghost view = { asker_of };

    ghost invariant = { IsLinked };
}

/// Reads the word until it shows more than `number` entries.
fn catch_up<R: Wait>(rt: &R, watch: &Watch, pass: &mut WatchPass, number: usize)
    requires { pass.old.of ≡ Some watch.now }
    ensures own { pass.new.of ≡ Some watch.now }
    ensures later { IsBelow pass.old.last pass.new.last }
    ensures past { number < pass.new.last.entries }
{
    for _ in rt.forever() {
        if watch.read(pass).entries > number as u64 {
            return;
        }
        thread::yield_now();
    }
    unreachable!()
}

/// Reads the word until it shows another number of ends than `known`, up to `LOOKS` times, ever less often. Returns the
/// number that it shows.
fn await_end(watch: &Watch, pass: &mut WatchPass, known: u64) -> u64
    requires { pass.old.of ≡ Some watch.now }
    ensures own { pass.new.of ≡ Some watch.now }
    ensures later { IsBelow pass.old.last pass.new.last }
{
    let backoff = Backoff::new();
    for _ in 0..LOOKS {
        let counts = watch.read(pass);
        let ended = counts.committed.wrapping_add(counts.aborted);
        if ended != known {
            return ended;
        }
        backoff.snooze();
    }
    known
}

impl Link {
    ghost use Rattle.std.specs.Prelude.{◌≡◌, IfSome, Some};

    /// Returns a link to the word, whose pass has seen what it shows.
    fn to(watch: Arc<Watch, Global>) -> Link
        ensures watch { arc_value result.watch ≡ arc_value watch }
        ensures own { result.pass.of ≡ Some (arc_value watch) }
    {
        let mut pass = WatchPass::none();
        watch.read(&mut pass);
        Link { watch, pass }
    }

    /// Returns another, which has seen as much, and `None` if the word has too many owners.
    fn second(&mut self) -> Option<Link>
        requires { self.old.pass.of ≡ Some (arc_value self.old.watch) }
        ensures same { (self.new.watch ≡ self.old.watch) × (self.new.pass ≡ self.old.pass) }
        ensures given { IfSome result (λ link. (arc_value link.watch ≡ arc_value self.old.watch) × (link.pass ≡ self.old.pass)) }
    {
        let watch = Arc::try_clone(&self.watch).ok()?;
        let pass = self.watch.split(&mut self.pass);
        Some(Link { watch, pass })
    }
}

impl Session {
    /// Returns the first session of a manager, with a pass of its word.
    pub(crate) fn first(alloc: Global, watch: Arc<Watch, Global>, pass: WatchPass) -> Session
        requires { pass.of ≡ Some (arc_value watch) }
        ensures of { result.of ≡ Some (arc_value watch) }
        ensures seen { result.seen ≡ pass.last }
        ensures calls { result.list.calls ≡ [] }
    {
        Session {
            link: Some(Link { watch, pass }),
            list: CallList::new(alloc),
            alloc,
        }
    }

    /// Returns the recorded calls, oldest first: of each the number of its entry, the step and the reply.
    pub fn calls(&self) -> &[(usize, Step, Reply)]
        ensures { result.now ≡ self.now.list.calls }
    {
        self.list.as_slice()
    }

    /// Makes room in the list for `count` more calls. It answers `NoMemory` if memory runs out, and then no call and no
    /// room is lost.
    pub fn reserve(&mut self, count: usize) -> Result<(), NoMemory>
        ensures same { (self.new.of ≡ self.old.of) × (self.new.seen ≡ self.old.seen) × (self.new.list.calls ≡ self.old.list.calls) }
        ensures room { OnOk result (length self.new.list.calls + count ≤ self.new.list.room) }
        ensures memory { OnErr result (self.old.list.room < length self.old.list.calls + count) }
        ensures kept { self.old.list.room ≤ self.new.list.room }
    {
        self.list.reserve(count)
    }

    /// Returns whether the list has room for `count` more calls. It does not allocate.
    pub fn has_room(&self, count: usize) -> bool
        ensures { MatchBool result (length self.now.list.calls + count ≤ self.now.list.room) (self.now.list.room < length self.now.list.calls + count) }
    {
        self.list.has_room(count)
    }

    /// Returns another session of the same manager, without calls, which has seen as much. It does not allocate. If the
    /// session does not know the manager's word, or the word has too many owners, the new session learns it at its first
    /// call, which then may answer `NoMemory`.
    pub fn split(&mut self) -> Session
        ensures same { self.new ≡ self.old }
        ensures calls { result.list.calls ≡ [] }
        ensures of { (manager : TableId) → IsOf self.old.of manager → IsOf result.of manager }
        ensures seen { (result.of ≡ None) ⊎ ((result.of ≡ self.old.of) × (result.seen ≡ self.old.seen)) }
    {
        let link = match &mut self.link {
            Some(link) => link.second(),
            None => None,
        };
        Session {
            link,
            list: CallList::new(self.alloc),
            alloc: self.alloc,
        }
    }

    /// Takes in another session of the same manager, whose list has no calls. It does not allocate.
    pub fn join(&mut self, other: Session)
        requires calls { other.list.calls ≡ [] }
        requires of { AreOfOne self.old.of other.of }
        ensures { self.new ≡ self.old }
    {
        let Session {
            link: theirs,
            list: _,
            alloc: _,
        } = other;
        if let Some(Link { watch: _, pass }) = theirs {
            if let Some(mine) = &mut self.link {
                mine.watch.join(&mut mine.pass, pass);
            }
        }
    }

    /// Returns a pass that has seen the counts that the session has seen. It does not allocate.
    pub fn watch_pass(&mut self) -> WatchPass
        ensures same { self.new ≡ self.old }
        ensures of { result.of ≡ self.old.of }
        ensures seen { result.last ≡ self.old.seen }
    {
        match &mut self.link {
            Some(link) => link.watch.split(&mut link.pass),
            None => WatchPass::none(),
        }
    }

    /// Gives the session a pass of the manager's word, if it has none. It answers `NoMemory` if the word has too many
    /// owners.
    fn link_to(&mut self, manager: &Manager) -> Result<(), NoMemory>
        requires { IsOf self.old.of manager.now }
        ensures linked { OnOk result (self.new.of ≡ Some manager.now) }
        ensures unlinked { OnErr result ((self.old.of ≡ None) × (self.new ≡ self.old)) }
        ensures list { self.new.list ≡ self.old.list }
        ensures later { IsBelow self.old.seen self.new.seen }
    {
        if self.link.is_some() {
            return Ok(());
        }
        match Arc::try_clone(manager.word()) {
            Ok(watch) => {
                self.link = Some(Link::to(watch));
                Ok(())
            }
            Err(_) => Err(NoMemory),
        }
    }

    /// Reads the word until it shows the entry of the last call.
    pub(crate) fn see_last<R: Wait>(&mut self, rt: &R)
        requires { IsSome self.old.of }
        ensures same { (self.new.of ≡ self.old.of) × (self.new.list ≡ self.old.list) }
        ensures later { IsBelow self.old.seen self.new.seen }
        ensures past { SawLast self.new.list.calls self.new.seen }
    {
        let number = match self.list.as_slice().last() {
            Some((number, _, _)) => *number,
            None => return,
        };
        if let Some(link) = &mut self.link {
            catch_up(rt, &link.watch, &mut link.pass, number);
        }
    }

    /// Asks the manager for one step, and takes its lock once. A recorded answer is appended to the history and, with
    /// the number of its entry, to the session's list, and the session has seen a count of entries that includes it. A
    /// wait is not recorded.
    ///
    /// The faults are those of `Core::step`, after which no list or history has changed. `NoMemory` comes also if
    /// memory runs out for the list, or if a session without a pass finds that the word has too many owners: with room in
    /// the list and a pass, only a step that takes memory answers it.
    pub fn call<R: Wait>(&mut self, rt: &R, manager: &Manager, step: Step) -> Result<Outcome, Fault>
        requires { IsOf self.old.of manager.now }
        ensures asked { Asks self.old step result self.new }
        ensures answer { IfOk result (IsAnswer step) }
        ensures listed { IsListed self.old.list.calls step result self.new.list.calls }
        ensures of { IsOf self.new.of manager.now }
        ensures linked { OnOk result (self.new.of ≡ Some manager.now) }
        ensures keeps { self.old.of ≡ Some manager.now → self.new.of ≡ Some manager.now }
        ensures room { self.old.list.room ≤ self.new.list.room }
        ensures memory { length self.old.list.calls < self.old.list.room → IsSome self.old.of → result ≡ Err LacksMemory → takes_memory step ≡ true }
        ensures later { IsBelow self.old.seen self.new.seen }
    {
        self.call_lent(rt, manager, &step)
    }

    /// Asks the manager for one step that is lent, as `call` does. The step stays the caller's, and the list keeps a copy
    /// of it.
    pub fn call_lent<R: Wait>(
        &mut self,
        rt: &R,
        manager: &Manager,
        step: &Step,
    ) -> Result<Outcome, Fault>
        requires { IsOf self.old.of manager.now }
        ensures asked { Asks self.old step.now result self.new }
        ensures answer { IfOk result (IsAnswer step.now) }
        ensures listed { IsListed self.old.list.calls step.now result self.new.list.calls }
        ensures of { IsOf self.new.of manager.now }
        ensures linked { OnOk result (self.new.of ≡ Some manager.now) }
        ensures keeps { self.old.of ≡ Some manager.now → self.new.of ≡ Some manager.now }
        ensures room { self.old.list.room ≤ self.new.list.room }
        ensures memory { length self.old.list.calls < self.old.list.room → IsSome self.old.of → result ≡ Err LacksMemory → takes_memory step.now ≡ true }
        ensures later { IsBelow self.old.seen self.new.seen }
    {
        match self.link_to(manager) {
            Ok(()) => self.call_linked(rt, manager, step),
            Err(NoMemory) => Err(Fault::NoMemory),
        }
    }

    /// Asks the manager for one step, as `call` does, by a session that has a pass.
    fn call_linked<R: Wait>(
        &mut self,
        rt: &R,
        manager: &Manager,
        step: &Step,
    ) -> Result<Outcome, Fault>
        requires { IsSome self.old.of }
        ensures asked { Asks self.old step.now result self.new }
        ensures of { self.new.of ≡ self.old.of }
        ensures room { self.old.list.room ≤ self.new.list.room }
        ensures later { IsBelow self.old.seen self.new.seen }
    {
        match manager.serve(rt, self, step) {
            Ok(Outcome::Answer(reply)) => {
                manager.notify();
                Ok(Outcome::Answer(reply))
            }
            Ok(Outcome::Wait) => Ok(Outcome::Wait),
            Err(fault) => Err(fault),
        }
    }

    /// Returns the first of those with whom `t` has come to share, in the order in which steps first acted on them, and
    /// `None` if no step acts on `t`. It may be `t` itself. It takes the lock once, and no memory; the answer is that
    /// of the history at that moment. The clause says only that this is some legal history.
    pub fn first_of<R: Wait>(&self, rt: &R, manager: &Manager, t: Txn) -> Option<Txn>
        requires { IsOf self.now.of manager.now }
        ensures { IsFirstSharer t result }
    {
        manager.first_of(rt, t)
    }

    /// Returns whether somebody with whom `t` has come to share has committed, or `t` itself. It takes the lock once,
    /// and no memory; the answer is that of the history at that moment. The clause says only that this is some legal
    /// history.
    pub fn group_committed<R: Wait>(&self, rt: &R, manager: &Manager, t: Txn) -> bool
        requires { IsOf self.now.of manager.now }
        ensures { HasCommitted t result }
    {
        manager.group_committed(rt, t)
    }

    /// Waits for a while until another number of transactions than `known` has ended, and returns how many have. It takes no
    /// lock. Before the first ask that waited, `known` is 0.
    fn await_another_end(&mut self, known: u64) -> u64
        ensures same { (self.new.of ≡ self.old.of) × (self.new.list ≡ self.old.list) }
        ensures later { IsBelow self.old.seen self.new.seen }
    {
        match &mut self.link {
            Some(link) => await_end(&link.watch, &mut link.pass, known),
            None => known,
        }
    }

    /// Asks the manager for one step, as `call` does, and, while the answer is to wait, at most `turns` times again.
    /// Between two asks it lets a while pass, which ends once the published counts show another number of ended
    /// transactions than after the pause before; the first ends at once if any transaction has ended before.
    pub fn call_turns<R: Wait>(
        &mut self,
        rt: &R,
        manager: &Manager,
        step: Step,
        turns: u32,
    ) -> Result<Outcome, Fault>
        requires { IsOf self.old.of manager.now }
        ensures asked { Asks self.old step result self.new }
        ensures answer { IfOk result (IsAnswer step) }
        ensures listed { IsListed self.old.list.calls step result self.new.list.calls }
        ensures of { IsOf self.new.of manager.now }
        ensures linked { OnOk result (self.new.of ≡ Some manager.now) }
        ensures keeps { self.old.of ≡ Some manager.now → self.new.of ≡ Some manager.now }
        ensures room { self.old.list.room ≤ self.new.list.room }
        ensures memory { length self.old.list.calls < self.old.list.room → IsSome self.old.of → result ≡ Err LacksMemory → takes_memory step ≡ true }
        ensures later { IsBelow self.old.seen self.new.seen }
    {
        self.call_turns_lent(rt, manager, &step, turns)
    }

    /// Asks the manager for one step that is lent, as `call_turns` does.
    pub fn call_turns_lent<R: Wait>(
        &mut self,
        rt: &R,
        manager: &Manager,
        step: &Step,
        turns: u32,
    ) -> Result<Outcome, Fault>
        requires { IsOf self.old.of manager.now }
        ensures asked { Asks self.old step.now result self.new }
        ensures answer { IfOk result (IsAnswer step.now) }
        ensures listed { IsListed self.old.list.calls step.now result self.new.list.calls }
        ensures of { IsOf self.new.of manager.now }
        ensures linked { OnOk result (self.new.of ≡ Some manager.now) }
        ensures keeps { self.old.of ≡ Some manager.now → self.new.of ≡ Some manager.now }
        ensures room { self.old.list.room ≤ self.new.list.room }
        ensures memory { length self.old.list.calls < self.old.list.room → IsSome self.old.of → result ≡ Err LacksMemory → takes_memory step.now ≡ true }
        ensures later { IsBelow self.old.seen self.new.seen }
    {
        let mut ended = 0;
        for _ in 0..turns {
            match self.call_lent(rt, manager, step) {
                Ok(Outcome::Wait) => ended = self.await_another_end(ended),
                answered => return answered,
            }
        }
        self.call_lent(rt, manager, step)
    }

    /// Asks the manager for one step, as `call` does, and sleeps while the answer is to wait, until somebody's step is
    /// answered. It may never return.
    pub fn call_wait<R: Wait>(
        &mut self,
        rt: &R,
        manager: &Manager,
        step: Step,
    ) -> Result<Reply, Fault>
        requires { IsOf self.old.of manager.now }
        ensures asked { Asks self.old step (as_outcome result) self.new }
        ensures answer { IfOk result (λ reply. IsAnswer step (Answer reply)) }
        ensures listed { IsListed self.old.list.calls step (as_outcome result) self.new.list.calls }
        ensures of { IsOf self.new.of manager.now }
        ensures linked { OnOk result (self.new.of ≡ Some manager.now) }
        ensures keeps { self.old.of ≡ Some manager.now → self.new.of ≡ Some manager.now }
        ensures room { self.old.list.room ≤ self.new.list.room }
        ensures memory { length self.old.list.calls < self.old.list.room → IsSome self.old.of → result ≡ Err LacksMemory → takes_memory step ≡ true }
        ensures later { IsBelow self.old.seen self.new.seen }
    {
        self.call_wait_lent(rt, manager, &step)
    }

    /// Asks the manager for one step that is lent, as `call_wait` does.
    pub fn call_wait_lent<R: Wait>(
        &mut self,
        rt: &R,
        manager: &Manager,
        step: &Step,
    ) -> Result<Reply, Fault>
        requires { IsOf self.old.of manager.now }
        ensures asked { Asks self.old step.now (as_outcome result) self.new }
        ensures answer { IfOk result (λ reply. IsAnswer step.now (Answer reply)) }
        ensures listed { IsListed self.old.list.calls step.now (as_outcome result) self.new.list.calls }
        ensures of { IsOf self.new.of manager.now }
        ensures linked { OnOk result (self.new.of ≡ Some manager.now) }
        ensures keeps { self.old.of ≡ Some manager.now → self.new.of ≡ Some manager.now }
        ensures room { self.old.list.room ≤ self.new.list.room }
        ensures memory { length self.old.list.calls < self.old.list.room → IsSome self.old.of → result ≡ Err LacksMemory → takes_memory step.now ≡ true }
        ensures later { IsBelow self.old.seen self.new.seen }
    {
        match self.link_to(manager) {
            Ok(()) => self.wait_linked(rt, manager, step),
            Err(NoMemory) => Err(Fault::NoMemory),
        }
    }

    /// Asks the manager for one step, as `call_wait` does, by a session that has a pass.
    fn wait_linked<R: Wait>(
        &mut self,
        rt: &R,
        manager: &Manager,
        step: &Step,
    ) -> Result<Reply, Fault>
        requires { IsSome self.old.of }
        ensures asked { Asks self.old step.now (as_outcome result) self.new }
        ensures of { self.new.of ≡ self.old.of }
        ensures room { self.old.list.room ≤ self.new.list.room }
        ensures later { IsBelow self.old.seen self.new.seen }
    {
        match manager.serve_waiting(rt, self, step) {
            Ok(reply) => {
                manager.notify();
                self.see_last(rt);
                Ok(reply)
            }
            Err(fault) => Err(fault),
        }
    }
}

impl Calls for Session {
    ghost listed = { λ session. session.list.calls };

    fn calls(&self) -> &[(usize, Step, Reply)] {
        Session::calls(self)
    }
}
