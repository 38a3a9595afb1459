//! Notes who uses which objects, from the first open permit on.

ghost use Rattle.std.specs.Prelude.{◌≡◌, ℕ, ◌+◌, ◌*◌, ◌<◌, ◌≤◌, [], Bool, true, ◌&&◌, ◌==◌, cond, nat_eq, not, List, length, is_some, Some, None};
ghost use Rattle.indexmap.specs.IndexMap.{get, spare};
ghost use Rattle.asset_names.specs.Steps.{Entry, applied};
ghost use Rattle.asset_names.specs.Answers.{IsLegal};
ghost use Rattle.asset_names.specs.Operations.{exists};
ghost use Rattle.asset_history.specs.Kept.{SayUsers};
ghost use Rattle.asset_history.specs.declared.users.Users.TheVariants.{Nobody};
ghost use Rattle.asset_history.specs.Named.{names_of};
ghost use Rattle.asset_history.specs.Together.{name_at, AreJoined};
ghost use Rattle.asset_history.specs.Uses.{opens, operates, has_object};
ghost use Rattle.asset_history.specs.Users.{also, uses_as, users_or_nobody, AreAmongAll, AreUsersWithin, SayAll};

use crate::joining::node_of_known;
use crate::links::UserLinks;
use crate::users::{Use, Users, with_user};
use asset_entries::Entries;
use asset_name_groups::NameGroups;
use asset_names::Ob;
use indexmap::IndexMap;

/// What is kept of the users of each object.
pub(crate) type Found = IndexMap<u64, Users>;

/// The users of each object, and the chains of those who are of several groups.
#[derive(Drop)]
pub(crate) struct UsersOfObjects {
    pub found: Found,
    pub links: UserLinks,
}

/// Returns the users of an object.
fn users_of(found: &Found, x: Ob) -> Users
    ensures { result ≡ users_or_nobody (get nat_eq found.now x.0) }
{
    match found.get(&x.0) {
        Some(users) => *users,
        None => Users::Nobody,
    }
}

/// Writes the users of an object that is there.
fn put_users(found: &mut Found, x: Ob, users: Users)
    requires { is_some (get nat_eq found.old x.0) ≡ true }
    ensures { (y : ℕ) → get nat_eq found.new y ≡ cond (x.0 == y) (Some users) (get nat_eq found.old y) }
{
    if found.insert(x.0, users).is_err() {
        unreachable!();
    }
}

/// Notes a use of an object that is there, and joins those who meet by it.
fn note_use(groups: &mut NameGroups, users: &mut UsersOfObjects, used: Use)
    requires node { used.node < length groups.old.names }
    requires there { is_some (get nat_eq users.old.found used.x.0) ≡ true }
    requires within { AreUsersWithin (length groups.old.names) users.old.links.links (users_or_nobody (get nat_eq users.old.found used.x.0)) }
    requires links { length users.old.links.links < users.old.links.room }
    ensures names { groups.new.names ≡ groups.old.names }
    ensures there { (y : ℕ) → is_some (get nat_eq users.old.found y) ≡ true → is_some (get nat_eq users.new.found y) ≡ true }
    ensures within { (y : ℕ) → AreUsersWithin (length groups.old.names) users.old.links.links (users_or_nobody (get nat_eq users.old.found y)) → AreUsersWithin (length groups.new.names) users.new.links.links (users_or_nobody (get nat_eq users.new.found y)) }
    ensures few { length users.new.links.links ≤ length users.old.links.links + 1 }
    ensures room { users.new.links.room ≡ users.old.links.room }
    ensures said { (all : List Entry) (openers operators : ℕ → ℕ → Bool) → uses_as used.opens (applied all) (name_at groups.old used.node) used.x.0 ≡ true
        → AreAmongAll openers (opens (applied all)) → AreAmongAll operators (operates (applied all))
        → SayAll groups.old users.old.links.links all openers operators (get nat_eq users.old.found)
        → AreJoined all groups.old groups.new
        × SayAll groups.new users.new.links.links all (λ a x. also (used.opens && used.x.0 == x) (name_at groups.old used.node) (λ u. openers u x) a) (λ t x. also (not used.opens && used.x.0 == x) (name_at groups.old used.node) (λ u. operators u x) t) (get nat_eq users.new.found) }
{
    let was = users_of(&users.found, used.x);
    let now = with_user(groups, &mut users.links, was, used);
    put_users(&mut users.found, used.x, now);
}

/// Notes that a node opens objects that are there, and joins those who meet by them.
fn note_opened(groups: &mut NameGroups, users: &mut UsersOfObjects, node: usize, obs: &[Ob])
    requires node { node < length groups.old.names }
    requires there { (x : ℕ) → has_object obs.now x ≡ true → is_some (get nat_eq users.old.found x) ≡ true }
    requires within { (x : ℕ) → AreUsersWithin (length groups.old.names) users.old.links.links (users_or_nobody (get nat_eq users.old.found x)) }
    requires links { length users.old.links.links + length obs.now ≤ users.old.links.room }
    ensures names { groups.new.names ≡ groups.old.names }
    ensures there { (y : ℕ) → is_some (get nat_eq users.old.found y) ≡ true → is_some (get nat_eq users.new.found y) ≡ true }
    ensures few { length users.new.links.links ≤ length users.old.links.links + length obs.now }
    ensures room { users.new.links.room ≡ users.old.links.room }
    ensures said { (all : List Entry) (openers operators : ℕ → ℕ → Bool) → ((x : ℕ) → has_object obs.now x ≡ true → opens (applied all) (name_at groups.old node) x ≡ true)
        → AreAmongAll openers (opens (applied all)) → AreAmongAll operators (operates (applied all))
        → SayAll groups.old users.old.links.links all openers operators (get nat_eq users.old.found)
        → AreJoined all groups.old groups.new
        × SayAll groups.new users.new.links.links all (λ a x. also (has_object obs.now x) (name_at groups.old node) (λ u. openers u x) a) operators (get nat_eq users.new.found) }
{
    'objects: for k in 0..obs.len() {
        note_use(
            groups,
            users,
            Use {
                x: obs[k],
                node,
                opens: true,
            },
        );
    }
}

/// Notes whom the entry at the index has use which objects, and joins those who meet by it. An entry takes room for 16 links at
/// most.
pub(crate) fn note_entry(
    groups: &mut NameGroups,
    users: &mut UsersOfObjects,
    entries: &Entries,
    index: usize,
)
    requires index { index < length entries.now.entries }
    requires legal { IsLegal entries.now.opening entries.now.entries }
    requires named { groups.old.names ≡ names_of entries.now.entries }
    requires there { (x : ℕ) → exists entries.now.opening x ≡ true → is_some (get nat_eq users.old.found x) ≡ true }
    requires links { length users.old.links.links + 16 ≤ users.old.links.room }
    requires said { SayUsers groups.old users.old.links.links entries.now.entries index (get nat_eq users.old.found) }
    ensures joined { AreJoined entries.now.entries groups.old groups.new }
    ensures there { (x : ℕ) → exists entries.now.opening x ≡ true → is_some (get nat_eq users.new.found x) ≡ true }
    ensures few { length users.new.links.links ≤ length users.old.links.links + 16 }
    ensures room { users.new.links.room ≡ users.old.links.room }
    ensures said { SayUsers groups.new users.new.links.links entries.now.entries (index + 1) (get nat_eq users.new.found) }
{
    if let Some((t, x)) = entries.operator(index) {
        let node = node_of_known(groups, t);
        let used = Use {
            x,
            node,
            opens: false,
        };
        note_use(groups, users, used);
    } else if let Some((t, obs)) = entries.opener(index) {
        let node = node_of_known(groups, t);
        note_opened(groups, users, node, obs.objects());
    }
}

/// Notes that nobody uses an object, for which there is room.
fn add_object(found: &mut Found, x: Ob)
    requires { 0 < spare found.old }
    ensures added { (y : ℕ) → get nat_eq found.new y ≡ cond (x.0 == y) (Some Nobody) (get nat_eq found.old y) }
    ensures room { spare found.old ≤ spare found.new + 1 }
{
    if found.insert(x.0, Users::Nobody).is_err() {
        unreachable!();
    }
}

/// Notes that nobody uses any object of the opening, for each of which there is room.
fn note_objects(found: &mut Found, opening: &[(Ob, i64)])
    requires room { length opening.now ≤ spare found.old }
    requires empty { (x : ℕ) → get nat_eq found.old x ≡ None }
    ensures there { (x : ℕ) → exists opening.now x ≡ true → is_some (get nat_eq found.new x) ≡ true }
    ensures nobody { (x : ℕ) → users_or_nobody (get nat_eq found.new x) ≡ Nobody }
{
    'objects: for k in 0..opening.len() {
        add_object(found, opening[k].0);
    }
}

/// Notes who uses which objects by the entries before the index.
pub(crate) fn note_first(
    groups: &mut NameGroups,
    users: &mut UsersOfObjects,
    entries: &Entries,
    index: usize,
)
    requires index { index ≤ length entries.now.entries }
    requires legal { IsLegal entries.now.opening entries.now.entries }
    requires named { groups.old.names ≡ names_of entries.now.entries }
    requires objects { length entries.now.opening ≤ spare users.old.found }
    requires empty { (x : ℕ) → get nat_eq users.old.found x ≡ None }
    requires unlinked { users.old.links.links ≡ [] }
    requires links { 16 * index ≤ users.old.links.room }
    ensures joined { AreJoined entries.now.entries groups.old groups.new }
    ensures there { (x : ℕ) → exists entries.now.opening x ≡ true → is_some (get nat_eq users.new.found x) ≡ true }
    ensures few { length users.new.links.links ≤ 16 * index }
    ensures room { users.new.links.room ≡ users.old.links.room }
    ensures said { SayUsers groups.new users.new.links.links entries.now.entries index (get nat_eq users.new.found) }
{
    note_objects(&mut users.found, entries.opening());
    'entries: for i in 0..index {
        note_entry(groups, users, entries, i);
    }
}
