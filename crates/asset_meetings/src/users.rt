//! Who opens an object, and who operates on one that is opened.

ghost use Rattle.std.specs.Prelude.{◌≡◌, ◌++◌, nat_eq, reverse, slice_get, OnOk, IfOk};
ghost use Rattle.indexmap.specs.IndexMap.{get};
ghost use Rattle.asset_entries.specs.Operating.{operator_at};
ghost use Rattle.asset_meetings.specs.Users.{users_of, opener_users, openers_of, operator_users, operators_of};

use crate::noting::FirstUsers;
use asset_history::History;
use asset_names::{Ob, ObList, Txn};
use std::alloc::{AllocError, Global};

/// A transaction that uses an object: it opens the object, or operates on it.
#[derive(Clone, Copy)]
pub(crate) struct User {
    pub t: Txn,
    pub x: Ob,
}

/// Appends the transaction as a user of each object.
fn push_users(users: &mut Vec<User>, t: Txn, obs: &[Ob]) -> Result<(), AllocError>
    ensures { OnOk result (users.new.items ≡ users.old.items ++ users_of t obs.now) }
{
    'objects: for k in 0..obs.len() {
        users.push(User { t, x: obs[k] })?;
    }
    Ok(())
}

/// Appends an opener, if there is one, as a user of each of its objects.
#[tactic(auto, unfolding(crate::specs::Users::opener_users))]
fn push_opened(users: &mut Vec<User>, opener: Option<(Txn, ObList)>) -> Result<(), AllocError>
    ensures { OnOk result (users.new.items ≡ users.old.items ++ opener_users opener) }
{
    match opener {
        Some((t, obs)) => push_users(users, t, obs.objects()),
        None => Ok(()),
    }
}

/// Returns who opens which objects by open permits that took effect, oldest first. It takes no memory if there is no such
/// permit.
pub(crate) fn openers_of(alloc: Global, history: &History) -> Result<Vec<User>, AllocError>
    ensures { IfOk result (λ users. users.items ≡ openers_of history.now.entries) }
{
    let mut users = Vec::new(alloc);
    'entries: for i in 0..history.len() {
        push_opened(&mut users, history.opener(i))?;
    }
    Ok(users)
}

/// Returns who operates on which object at the index, if the entry there is an operation that took effect.
#[inline(always)]
fn operated_at(history: &History, index: usize) -> Option<(Txn, Ob)>
    ensures { result ≡ operator_at (slice_get (reverse history.now.entries) index) }
{
    history.operator(index)
}

/// Appends an operator, if there is one, as a user of its object, unless nobody is noted for the object.
#[tactic(auto, unfolding(crate::specs::Users::operator_users))]
fn push_operated(
    users: &mut Vec<User>,
    noted: &FirstUsers,
    operator: Option<(Txn, Ob)>,
) -> Result<(), AllocError>
    ensures { OnOk result (users.new.items ≡ users.old.items ++ operator_users (get nat_eq noted.now) operator) }
{
    if let Some((t, x)) = operator {
        if noted.get(&x.0).is_some() {
            users.push(User { t, x })?;
        }
    }
    Ok(())
}

/// Returns who operates on which objects by operations that took effect, oldest first. Objects for which nobody is noted are
/// left out.
pub(crate) fn operators_of(
    alloc: Global,
    history: &History,
    noted: &FirstUsers,
) -> Result<Vec<User>, AllocError>
    ensures { IfOk result (λ users. users.items ≡ operators_of (get nat_eq noted.now) history.now.entries) }
{
    let mut users = Vec::new(alloc);
    'entries: for i in 0..history.len() {
        push_operated(&mut users, noted, operated_at(history, i))?;
    }
    Ok(users)
}
