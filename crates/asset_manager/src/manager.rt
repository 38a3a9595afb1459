//! The manager.

ghost use Rattle.std.specs.Prelude.{◌≡◌, ◌≤◌, [], IfOk, IfErr, OnOk, IsOk, IsSome, Some, map, reverse};
ghost use Rattle.std.specs.Arc.{arc_value};
ghost use Rattle.asset_names.specs.Answers.{IsLegal};
ghost use Rattle.asset_names.specs.Counted.{IsBelow};
ghost use Rattle.asset_audit.specs.Audited.{IsAudit, HasEach};
ghost use Rattle.asset_core.specs.OpenFaults.{MayOpen, IsOpenFault};
ghost use Rattle.asset_counts.specs.Shown.{no_counts};
ghost use Rattle.asset_manager.specs.Serves.{IsServed};
ghost use Rattle.asset_manager.specs.Asks.{Asks, IsFirstSharer, HasCommitted, as_outcome};

use crate::book::{Book, Closed};
use crate::session::Session;
use asset_core::{Core, OpenFault};
use asset_counts::{Publisher, Watch, WatchPass};
use asset_names::{Fault, NoMemory, Ob, Outcome, Reply, Step, Txn};
use std::alloc::Global;
use std::hint::spin_loop;
use std::marker::Model;
use std::sync::atomic::{AtomicU64, Ordering};
use std::sync::{Arc, Condvar, Mutex, MutexGuard, Wait};

/// How often a thread tries to get the lock before it sleeps.
const TRIES: u32 = 12;

/// How often the time between two tries is doubled.
const DOUBLINGS: u32 = 5;

/// Lets some time pass after so many tries to get the lock: the longer, the more there were, up to 256 pauses of the
/// processor, which are some 10 microseconds.
fn pass_time(tried: u32) {
    for _ in 0..8u32 << tried.min(DOUBLINGS) {
        spin_loop();
    }
}

/// A word of counts that shows zeros, three times, with the right to publish there and a pass of it.
#[derive(Drop)]
struct Word {
    for_book: Arc<Watch, Global>,
    for_session: Arc<Watch, Global>,
    for_manager: Arc<Watch, Global>,
    by: Publisher,
    pass: WatchPass,
}

/// Returns the word, to be shared.
fn share(alloc: Global, watch: Watch) -> Result<Arc<Watch, Global>, NoMemory>
    ensures { IfOk result (λ shared. arc_value shared ≡ watch) }
{
    match Arc::new(alloc, watch) {
        Ok(shared) => Ok(shared),
        Err(_) => Err(NoMemory),
    }
}

/// Returns the word once more. It answers `NoMemory` if it has too many owners.
fn again(watch: &Arc<Watch, Global>) -> Result<Arc<Watch, Global>, NoMemory>
    ensures { IfOk result (λ shared. arc_value shared ≡ arc_value watch.now) }
{
    match Arc::try_clone(watch) {
        Ok(shared) => Ok(shared),
        Err(_) => Err(NoMemory),
    }
}

/// Returns a new word of counts.
fn make_word(alloc: Global) -> Result<Word, NoMemory>
    ensures { IfOk result (λ word. (arc_value word.for_book ≡ arc_value word.for_manager) × (arc_value word.for_session ≡ arc_value word.for_manager) × (word.by.of ≡ arc_value word.for_manager) × (word.by.last ≡ no_counts) × (word.pass.of ≡ Some (arc_value word.for_manager)) × (word.pass.last ≡ no_counts)) }
{
    let (watch, mut by) = Watch::open(alloc)?;
    let pass = watch.pass_of(&mut by);
    let for_manager = share(alloc, watch)?;
    let for_book = again(&for_manager)?;
    let for_session = again(&for_manager)?;
    Ok(Word {
        for_book,
        for_session,
        for_manager,
        by,
        pass,
    })
}

/// A facility under a lock, to be shared by threads, each of which asks by a session. Contracts see its word of
/// published counts, by which they know which sessions are its own. It is `Send` and `Sync`.
pub struct Manager {
    book: Mutex<Book>,
    turned: Condvar,
    sleepers: AtomicU64,
    watch: Arc<Watch, Global>,
}

/// It is proved here, once for all crates that drop a manager.
impl Drop for Manager {
    fn drop(self) {
        let Manager {
            book,
            turned,
            sleepers: _,
            watch,
        } = self;
        drop(book);
        drop(turned);
        drop(watch);
    }
}

impl Model for Manager {
    ghost use Rattle.std.specs.Arc.{arc_value};
    ghost use Rattle.atomic_table.specs.Seated.{TableId};

    ghost Value = { TableId };

    ghost view = { λ manager. arc_value manager.watch };
}

impl Manager {
    /// Opens a manager of a facility over these objects with their values, with room for `capacity` entries, and its
    /// first session.
    ///
    /// It answers `BadCapacity` unless the capacity is from 1 to 1,000,000; otherwise `DoubleObject` with the least
    /// object that is given twice; otherwise `NoMemory` if memory runs out.
    pub fn open(
        alloc: Global,
        opening: &[(Ob, i64)],
        capacity: usize,
    ) -> Result<(Manager, Session), OpenFault>
        ensures of { IfOk result (λ opened. opened.1.of ≡ Some opened.0) }
        ensures calls { IfOk result (λ opened. opened.1.list.calls ≡ []) }
        ensures seen { IfOk result (λ opened. opened.1.seen ≡ no_counts) }
        ensures may { OnOk result (MayOpen opening.now capacity) }
        ensures fault { IfErr result (IsOpenFault opening.now capacity) }
    {
        let core = Core::open(alloc, opening, capacity)?;
        match make_word(alloc) {
            Ok(word) => Ok(Manager::over(alloc, core, word)),
            Err(NoMemory) => Err(OpenFault::NoMemory),
        }
    }

    /// Returns a manager of a facility without entries, and its first session.
    fn over(alloc: Global, core: Core, word: Word) -> (Manager, Session)
        requires empty { core.history.entries ≡ [] }
        requires word { (arc_value word.for_book ≡ arc_value word.for_manager) × (arc_value word.for_session ≡ arc_value word.for_manager) }
        requires by { (word.by.of ≡ arc_value word.for_manager) × (word.by.last ≡ no_counts) }
        requires pass { (word.pass.of ≡ Some (arc_value word.for_manager)) × (word.pass.last ≡ no_counts) }
        ensures of { result.1.of ≡ Some result.0 }
        ensures calls { result.1.list.calls ≡ [] }
        ensures seen { result.1.seen ≡ no_counts }
    {
        let Word {
            for_book,
            for_session,
            for_manager,
            by,
            pass,
        } = word;
        let manager = Manager {
            book: Mutex::new(Book::new(core, for_book, by)),
            turned: Condvar::new(),
            sleepers: AtomicU64::new(0),
            watch: for_manager,
        };
        (manager, Session::first(alloc, for_session, pass))
    }

    /// Returns the word of published counts.
    pub fn watch(&self) -> &Watch
        ensures { result.now ≡ self.now }
    {
        self.word()
    }

    /// Returns the word of published counts, to be shared.
    pub(crate) fn word(&self) -> &Arc<Watch, Global>
        ensures { arc_value result.now ≡ self.now }
    {
        &self.watch
    }

    /// Takes the lock. While another thread has it, it is tried ever less often, so that who has it can serve several steps
    /// in a row; then this thread sleeps until it gets it.
    fn lock<R: Wait>(&self, rt: &R) -> MutexGuard<'_, Book> {
        for tried in 0..TRIES {
            if let Some(book) = self.book.try_lock() {
                return book;
            }
            pass_time(tried);
        }
        self.book.lock(rt)
    }

    /// Serves a step under the lock. The session has seen the entry of an answer when the lock is given up.
    pub(crate) fn serve<R: Wait>(
        &self,
        rt: &R,
        session: &mut Session,
        step: &Step,
    ) -> Result<Outcome, Fault>
        requires { IsSome session.old.of }
        ensures asked { Asks session.old step.now result session.new }
        ensures of { session.new.of ≡ session.old.of }
        ensures room { session.old.list.room ≤ session.new.list.room }
        ensures later { IsBelow session.old.seen session.new.seen }
    {
        let mut book = self.lock(rt);
        match book.serve_lent(session, step) {
            Ok(Outcome::Answer(reply)) => {
                session.see_last(rt);
                Ok(Outcome::Answer(reply))
            }
            Ok(Outcome::Wait) => Ok(Outcome::Wait),
            Err(fault) => Err(fault),
        }
    }

    /// Serves a step under the lock, and while the answer is to wait gives the lock up and sleeps until it is woken.
    pub(crate) fn serve_waiting<R: Wait>(
        &self,
        rt: &R,
        session: &mut Session,
        step: &Step,
    ) -> Result<Reply, Fault>
        ensures { IsServed session.old step.now (as_outcome result) session.new }
    {
        let mut book = self.lock(rt);
        for _ in rt.forever() {
            match book.serve_lent(session, step) {
                Ok(Outcome::Answer(reply)) => return Ok(reply),
                Ok(Outcome::Wait) => {}
                Err(fault) => return Err(fault),
            }
            // It is counted under the lock, so whoever gets the lock after this knows of it.
            self.sleepers.fetch_add(1, Ordering::SeqCst);
            book = self.turned.wait(rt, book);
            self.sleepers.fetch_sub(1, Ordering::SeqCst);
        }
        unreachable!()
    }

    /// Returns the first of those with whom `t` has come to share, under the lock.
    pub(crate) fn first_of<R: Wait>(&self, rt: &R, t: Txn) -> Option<Txn>
        ensures { IsFirstSharer t result }
    {
        let book = self.lock(rt);
        book.first_of(t)
    }

    /// Returns whether somebody with whom `t` has come to share has committed, under the lock.
    pub(crate) fn group_committed<R: Wait>(&self, rt: &R, t: Txn) -> bool
        ensures { HasCommitted t result }
    {
        let book = self.lock(rt);
        book.group_committed(t)
    }

    /// Wakes all who sleep until somebody's step is answered, if there are any.
    pub(crate) fn notify(&self) {
        if self.sleepers.load(Ordering::SeqCst) != 0 {
            self.turned.notify_all();
        }
    }

    /// Closes the manager: returns the history, and the audit of the sessions against it, as `Book::close` does. It
    /// does not allocate.
    pub fn close(self, sessions: Vec<Session>) -> Closed
        ensures legal { IsLegal result.history.opening result.history.entries }
        ensures audit { IsAudit (reverse result.history.entries) (map (λ session. session.list.calls) sessions.items) result.audit }
        ensures each { IsOk result.audit → HasEach (reverse result.history.entries) (map (λ session. session.list.calls) sessions.items) }
    {
        let Manager {
            book,
            turned: _,
            sleepers: _,
            watch: _,
        } = self;
        book.into_inner().close(sessions)
    }
}
