//! The first user of each object.

ghost use Rattle.std.specs.Prelude.{◌≡◌, ℕ, nat_eq, None, OnOk, IfOk};
ghost use Rattle.indexmap.specs.IndexMap.{get};
ghost use Rattle.asset_meetings.specs.Users.{noted_by, first_user};

use crate::users::User;
use asset_names::Txn;
use indexmap::IndexMap;
use std::alloc::{AllocError, Global};

/// For each object, one of those who use it.
pub(crate) type FirstUsers = IndexMap<u64, Txn>;

/// Notes the user for the object, unless somebody is noted for it.
fn note(noted: &mut FirstUsers, used: User) -> Result<(), AllocError>
    ensures { OnOk result ((y : ℕ) → get nat_eq noted.new y ≡ noted_by (get nat_eq noted.old y) used y) }
{
    if noted.get(&used.x.0).is_none() {
        noted.insert(used.x.0, used.t)?;
    }
    Ok(())
}

/// Notes the first user of each object.
fn note_all(noted: &mut FirstUsers, users: &[User]) -> Result<(), AllocError>
    requires { (y : ℕ) → get nat_eq noted.old y ≡ None }
    ensures { OnOk result ((y : ℕ) → get nat_eq noted.new y ≡ first_user users.now y) }
{
    'users: for k in 0..users.len() {
        note(noted, users[k])?;
    }
    Ok(())
}

/// Returns the first user of each object.
pub(crate) fn first_users(alloc: Global, users: &[User]) -> Result<FirstUsers, AllocError>
    ensures { IfOk result (λ noted. (y : ℕ) → get nat_eq noted y ≡ first_user users.now y) }
{
    let mut noted = IndexMap::new(alloc);
    note_all(&mut noted, users)?;
    Ok(noted)
}
