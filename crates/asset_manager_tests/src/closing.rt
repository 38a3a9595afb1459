//! Sessions that are handed in, and managers that are closed.

use asset_manager::{AuditFault, Manager, Session};
use std::alloc::{AllocError, Global};

/// Returns an empty list with room for these many sessions. If memory runs out once, it is made again.
pub fn room_for(alloc: Global, count: usize) -> Result<Vec<Session>, AllocError> {
    match Vec::with_capacity(alloc, count) {
        Err(AllocError) => Vec::with_capacity(alloc, count),
        made => made,
    }
}

/// Puts a session into a list that has room for it, and returns whether it did.
pub fn hand_in(sessions: &mut Vec<Session>, session: Session) -> bool {
    sessions.push(session).is_ok()
}

/// Closes a manager with these sessions, and returns how many entries the history has, and the audit.
fn close_with(manager: Manager, closing: Vec<Session>) -> (usize, Result<(), AuditFault>) {
    let closed = manager.close(closing);
    let left = (closed.history.len(), closed.audit);
    drop(closed);
    left
}

/// Closes a manager with one session, for which the list has room, as `close_with` does. A session that is lost would be
/// missed by the audit.
pub fn close_one(
    manager: Manager,
    mut closing: Vec<Session>,
    session: Session,
) -> (usize, Result<(), AuditFault>) {
    let _handed = hand_in(&mut closing, session);
    close_with(manager, closing)
}

/// Closes a manager with two sessions, as `close_one` does.
pub fn close_two(
    manager: Manager,
    mut closing: Vec<Session>,
    first: Session,
    second: Session,
) -> (usize, Result<(), AuditFault>) {
    let _handed = hand_in(&mut closing, first);
    close_one(manager, closing, second)
}
