//! Whether each recorded call is an entry of the history, and each entry one call.

ghost use Rattle.std.specs.Prelude.{◌≤◌, ◌<◌, [], map, take, length, reverse, IsOk, MatchOption};
ghost use Rattle.asset_audit.specs.Audited.{ListsAreGood, IsFirstDifference, IsAudit, HasEach};
ghost use Rattle.asset_audit.specs.Apart.{AreGoodAlone, IsWrongAt};

use crate::calls::Calls;
use crate::checking::first_wrong;
use crate::marking::count_apart;
use asset_history::History;
use thiserror::Error;

/// What an audit found.
#[derive(Clone, Copy, Debug, PartialEq, Eq, Error)]
pub enum AuditFault {
    /// The first call that differs from the history: its session, by place in the list, and its number.
    #[error("session {session} differs from the history at entry {number}")]
    Differs { session: usize, number: usize },
    /// All calls agree with the history, and they are fewer than its entries.
    #[error("the sessions have {told} calls and the history {kept} entries")]
    Missing { told: usize, kept: usize },
}

/// Audits the sessions against a history: whether the numbers of each rise, the entry of each call is the call's, no
/// entry is of two sessions, and each entry is of one.
///
/// It answers `Differs` for the first session, by place in the list, and its first call that breaks one of the first
/// three; otherwise `Missing` if there are not as many calls as entries.
///
/// It does not allocate. It takes 64 KiB of the stack, and 256 KiB if there are more than 65,536 entries. It takes time
/// nearly in proportion to the calls: it goes over them twice, and for each 262,144 entries it finds in each session the
/// first call from there on, by a binary search unless that is the first call or past the last. If a call differs, it also
/// looks up the numbers of that session in each earlier one.
pub fn audit<C: Calls>(history: &History, sessions: &[C]) -> Result<(), AuditFault>
    ensures audit { IsAudit (reverse history.now.entries) (map C.listed sessions.now) result }
    ensures each { IsOk result → HasEach (reverse history.now.entries) (map C.listed sessions.now) }
{
    match first_difference(history, sessions) {
        Some((session, number)) => Err(AuditFault::Differs { session, number }),
        None => compare(history, sessions),
    }
}

/// Returns whether good sessions have as many calls as the history has entries.
fn compare<C: Calls>(history: &History, sessions: &[C]) -> Result<(), AuditFault>
    requires { ListsAreGood (reverse history.now.entries) (map C.listed sessions.now) (length sessions.now) }
    ensures audit { IsAudit (reverse history.now.entries) (map C.listed sessions.now) result }
    ensures each { IsOk result → HasEach (reverse history.now.entries) (map C.listed sessions.now) }
{
    let kept = history.len();
    let mut told = 0;
    for session in sessions {
        told += session.calls().len();
    }
    if told == kept {
        Ok(())
    } else {
        Err(AuditFault::Missing { told, kept })
    }
}

/// Returns the session and the number of the first call that is not good, and `None` if all are.
fn first_difference<C: Calls>(history: &History, sessions: &[C]) -> Option<(usize, usize)>
    ensures { MatchOption result (ListsAreGood (reverse history.now.entries) (map C.listed sessions.now) (length sessions.now)) (λ r. IsFirstDifference (reverse history.now.entries) (map C.listed sessions.now) r.0 r.1) }
{
    let session = count_good(history, sessions);
    if session == sessions.len() {
        return None;
    }
    let number = first_wrong(history, &sessions[..session], sessions[session].calls())?;
    Some((session, number))
}

/// Returns how many of the first sessions have only good calls.
fn count_good<C: Calls>(history: &History, sessions: &[C]) -> usize
    ensures within { result ≤ length sessions.now }
    ensures good { ListsAreGood (reverse history.now.entries) (map C.listed sessions.now) result }
    ensures next { result < length sessions.now → IsWrongAt (reverse history.now.entries) (take result (map C.listed sessions.now)) (map C.listed sessions.now) result }
{
    let alone = count_good_alone(history, sessions);
    count_apart(&sessions[..alone], history.len())
}

/// Returns how many of the first sessions have only calls that are good whatever the other sessions have.
fn count_good_alone<C: Calls>(history: &History, sessions: &[C]) -> usize
    ensures within { result ≤ length sessions.now }
    ensures good { AreGoodAlone (reverse history.now.entries) (map C.listed sessions.now) result }
    ensures next { result < length sessions.now → IsWrongAt (reverse history.now.entries) [] (map C.listed sessions.now) result }
{
    for (place, session) in sessions.iter().enumerate() {
        if first_wrong(history, &sessions[..0], session.calls()).is_some() {
            return place;
        }
    }
    sessions.len()
}
