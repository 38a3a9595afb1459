//! The joins of those who met.

ghost use Rattle.std.specs.Prelude.{◌≡◌, ◌++◌, [], ℕ, nat_eq, OnOk, IfOk};
ghost use Rattle.indexmap.specs.IndexMap.{get};
ghost use Rattle.asset_meetings.specs.Users.{first_user, joins_of, joined_with, meetings_by, meetings_of, openers_of, operators_of};
ghost use Rattle.asset_meetings.specs.Meetings.{AreMeetings};

use crate::noting::{FirstUsers, first_users};
use crate::users::{User, openers_of, operators_of};
use asset_history::History;
use asset_names::{NoMemory, Txn};
use std::alloc::{AllocError, Global};

/// Appends the join of a user with the one who is noted for the object, if there is one.
#[tactic(auto, unfolding(crate::specs::Users::joins_of))]
fn push_join(joins: &mut Vec<(Txn, Txn)>, noted: &FirstUsers, used: User) -> Result<(), AllocError>
    ensures { OnOk result (joins.new.items ≡ joins.old.items ++ joins_of used.t (get nat_eq noted.now used.x.0)) }
{
    if let Some(other) = noted.get(&used.x.0) {
        joins.push((used.t, *other))?;
    }
    Ok(())
}

/// Appends the join of each user with the one who is noted for its object, if there is one.
fn push_joins(
    joins: &mut Vec<(Txn, Txn)>,
    noted: &FirstUsers,
    users: &[User],
) -> Result<(), AllocError>
    ensures { OnOk result (joins.new.items ≡ joins.old.items ++ joined_with (get nat_eq noted.now) users.now) }
{
    'users: for k in 0..users.len() {
        push_join(joins, noted, users[k])?;
    }
    Ok(())
}

/// Appends the joins of those who met, if these opened objects and these operated on them: each opener of an object with its
/// first operator, and each operator with its first opener.
fn push_both(
    joins: &mut Vec<(Txn, Txn)>,
    opened: &[User],
    openers: &FirstUsers,
    operated: &[User],
    operators: &FirstUsers,
) -> Result<(), AllocError>
    requires none { joins.old.items ≡ [] }
    requires openers { (y : ℕ) → get nat_eq openers.now y ≡ first_user opened.now y }
    requires operators { (y : ℕ) → get nat_eq operators.now y ≡ first_user operated.now y }
    ensures { OnOk result (joins.new.items ≡ meetings_by opened.now operated.now) }
{
    push_joins(joins, operators, opened)?;
    push_joins(joins, openers, operated)?;
    Ok(())
}

/// Returns the joins of those who met, if these opened objects, by the first opener of each object.
fn joins_by_openers(
    alloc: Global,
    history: &History,
    opened: &[User],
    openers: &FirstUsers,
) -> Result<Vec<(Txn, Txn)>, AllocError>
    requires { (y : ℕ) → get nat_eq openers.now y ≡ first_user opened.now y }
    ensures { IfOk result (λ joins. joins.items ≡ meetings_by opened.now (operators_of (first_user opened.now) history.now.entries)) }
{
    let operated = operators_of(alloc, history, openers)?;
    let users = operated.as_slice();
    let operators = first_users(alloc, users)?;
    let mut joins = Vec::new(alloc);
    push_both(&mut joins, opened, openers, users, &operators)?;
    Ok(joins)
}

/// Returns the joins of those who met, if these opened objects.
fn joins_of_openers(
    alloc: Global,
    history: &History,
    opened: &[User],
) -> Result<Vec<(Txn, Txn)>, AllocError>
    requires { opened.now ≡ openers_of history.now.entries }
    ensures { IfOk result (λ joins. joins.items ≡ meetings_of history.now.entries) }
{
    let openers = first_users(alloc, opened)?;
    joins_by_openers(alloc, history, opened, &openers)
}

/// Returns the joins of those who met, as `meetings` does.
fn joins_of_history(alloc: Global, history: &History) -> Result<Vec<(Txn, Txn)>, AllocError>
    ensures { IfOk result (λ joins. joins.items ≡ meetings_of history.now.entries) }
{
    let opened = openers_of(alloc, history)?;
    if opened.is_empty() {
        return Ok(Vec::new(alloc));
    }
    joins_of_openers(alloc, history, &opened)
}

/// Returns joins that say who met by open permits, or `NoMemory` if memory runs out. With the two transactions of each entry
/// they make the groups of the history, and no transaction that shares something is missed.
///
/// If an object has an opener and an operator, all its openers and operators are of one group. So each opener is joined with
/// the first operator, and each operator with the first opener: at most as many joins as objects in open permits and
/// operations on them. It takes time that is nearly in proportion to the entries. If there is no open permit, it goes over the
/// entries once, reads no step back and takes no memory.
pub fn meetings(alloc: Global, history: &History) -> Result<Vec<(Txn, Txn)>, NoMemory>
    ensures { IfOk result (λ joins. AreMeetings history.now.entries joins.items) }
{
    match joins_of_history(alloc, history) {
        Ok(joins) => Ok(joins),
        Err(_) => Err(NoMemory),
    }
}
