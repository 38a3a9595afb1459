//! A book that is asked without a lock.

ghost use Rattle.std.specs.Prelude.{◌≡◌, IfOk};
ghost use Rattle.std.specs.Arc.{arc_value};
ghost use Rattle.asset_counts.specs.Shown.{no_counts};

use crate::again::{ROOM, THREE, opened};
use crate::closing::{hand_in, room_for};
use crate::watching::word;
use asset_core_tests::{opened as opened_core, parsed, reads};
use asset_counts::{Publisher, Watch, WatchPass};
use asset_manager::{AuditFault, Book, Counts, OpenFault, Session};
use asset_names::{Fault, NoMemory, Outcome, Step};
use std::alloc::Global;
use std::sync::Arc;
use std::test::Fail;

/// Shares a word of counts.
fn share(alloc: Global, watch: Watch) -> Result<Arc<Watch, Global>, NoMemory>
    ensures { IfOk result (λ shared. arc_value shared ≡ watch) }
{
    match Arc::new(alloc, watch) {
        Ok(shared) => Ok(shared),
        Err(_) => Err(NoMemory),
    }
}

/// Opens a word of counts, and shares it.
fn shared_word(alloc: Global) -> Result<(Arc<Watch, Global>, Publisher), NoMemory>
    ensures { IfOk result (λ word. (word.1.of ≡ arc_value word.0) × (word.1.last ≡ no_counts)) }
{
    let (watch, by) = word(alloc)?;
    Ok((share(alloc, watch)?, by))
}

/// Opens a book and its word. If memory runs out once for the word, it is opened again.
fn made_book(alloc: Global) -> Result<(Book, Arc<Watch, Global>), OpenFault> {
    let opened = match shared_word(alloc) {
        Err(NoMemory) => shared_word(alloc),
        opened => opened,
    };
    match opened {
        Ok((watch, by)) => book_at(alloc, watch, by),
        Err(NoMemory) => Err(OpenFault::NoMemory),
    }
}

/// Opens a book that publishes at this word, which shows zeros.
fn book_at(
    alloc: Global,
    watch: Arc<Watch, Global>,
    by: Publisher,
) -> Result<(Book, Arc<Watch, Global>), OpenFault>
    requires own { by.of ≡ arc_value watch }
    requires last { by.last ≡ no_counts }
{
    let core = opened_core(alloc, &THREE, ROOM)?;
    match Arc::try_clone(&watch) {
        Ok(for_book) => Ok((Book::new(core, for_book, by), watch)),
        Err(_) => Err(OpenFault::NoMemory),
    }
}

/// Returns a session whose manager is closed already.
fn session_alone(alloc: Global) -> Result<Session, OpenFault> {
    let (manager, session) = opened(alloc, &THREE, ROOM)?;
    drop(manager.close(Vec::new(alloc)));
    Ok(session)
}

/// Serves a step. If memory runs out once, the list has not changed and it is served again.
fn serve(book: &mut Book, session: &mut Session, step: &Step) -> Result<Outcome, Fault> {
    let before = session.calls().len();
    match book.serve(session, *step) {
        Err(Fault::NoMemory) if session.calls().len() == before => book.serve(session, *step),
        answer => answer,
    }
}

/// Serves the step of a line, and returns whether it has the outcome that the line says.
fn serves_line(alloc: Global, book: &mut Book, session: &mut Session, line: &str) -> bool {
    match parsed(line) {
        Some((step, expected)) => reads(alloc, serve(book, session, &step), expected),
        None => false,
    }
}

/// Serves the steps of a script up to the first that has another outcome, and returns the number of its line, from 1
/// on.
fn first_wrong_line(
    alloc: Global,
    book: &mut Book,
    session: &mut Session,
    script: &str,
) -> Option<usize> {
    for (before, line) in script.lines().enumerate() {
        if !serves_line(alloc, book, session, line) {
            return Some(before.saturating_add(1));
        }
    }
    None
}

/// A reader waits for a writer, which aborts, and then goes on. Nine steps are recorded, and one waits.
const WAITS: &str = "\
    initiate 7: ok\nbegin 7: ok\nwrite 7 1 50: ok\ninitiate 8: ok\nbegin 8: ok\nread 8 1: wait\n\
    abort 7: aborted\nread 8 1: 100\ncomplete 8: ok\ncommit 8: committed\n";

/// What the script leaves in the word.
const NINE: Counts = Counts {
    entries: 9,
    committed: 1,
    aborted: 1,
};

/// Serves the script and closes the book. Returns the line that went wrong, the counts of the word, how long the
/// history is, and the audit.
fn serves(
    alloc: Global,
    mut book: Book,
    watch: &Watch,
    mut session: Session,
    mut closing: Vec<Session>,
) -> (Option<usize>, Counts, usize, Result<(), AuditFault>) {
    let wrong = first_wrong_line(alloc, &mut book, &mut session, WAITS);
    let mut pass = WatchPass::none();
    let counts = watch.read(&mut pass);
    let _handed = hand_in(&mut closing, session);
    let closed = book.close(closing);
    let (len, audit) = (closed.history.len(), closed.audit);
    drop(closed);
    (wrong, counts, len, audit)
}

#[test]
fn book_serves_as_a_facility_does(rt: HostRuntime) -> Result<(), Fail> {
    let session = session_alone(rt.alloc())?;
    let closing = room_for(rt.alloc(), 1)?;
    let (book, watch) = made_book(rt.alloc())?;
    let served = serves(rt.alloc(), book, &watch, session, closing);
    assert_eq!(rt; served, (None, NINE, 9, Ok(())));
    Ok(())
}
