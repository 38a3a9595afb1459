//! The groups that are kept beside the entries of a history.

ghost use Rattle.std.specs.Prelude.{◌≡◌, ◌+◌, ◌*◌, ◌≤◌, length, reverse, slice_get};
ghost use Rattle.asset_names.specs.Answers.{IsLegal};
ghost use Rattle.asset_history.specs.Kept.{before, leaves_groups_at, pair_at, AreLabels, AreNamed};
ghost use Rattle.asset_history.specs.Named.{names_of};
ghost use Rattle.asset_history.specs.Together.{AreFlagged, HaveGrown};

use crate::joining::{join_nodes, node_of_known};
use crate::links::UserLinks;
use crate::noting::{UsersOfObjects, note_entry, note_first};
use asset_entries::Entries;
use asset_name_groups::NameGroups;
use asset_names::MOST_OBJECTS;
use indexmap::IndexMap;
use std::alloc::{AllocError, Global};

/// The groups of those on whom the entries of a history act, and the users of objects, which are kept from the first open permit
/// on, when an object is opened.
#[derive(Drop)]
pub(crate) struct KeptGroups {
    pub groups: NameGroups,
    pub users: UsersOfObjects,
    pub is_opened: bool,
}

/// Names those on whom the newest entry acts, and joins them if they are two.
fn name_newest(groups: &mut NameGroups, entries: &Entries, newest: usize)
    requires newest { length entries.now.entries ≡ newest + 1 }
    requires legal { IsLegal entries.now.opening entries.now.entries }
    requires labels { AreLabels (before entries.now.entries newest) groups.old }
    requires room { 2 * length entries.now.entries ≤ groups.old.room }
    ensures named { AreNamed entries.now.entries (before entries.now.entries newest) (pair_at entries.now.entries newest) groups.new }
    ensures grown { HaveGrown groups.old groups.new }
    ensures room { groups.new.room ≡ groups.old.room }
{
    groups.laws();
    if entries.is_of_known(newest) {
        return;
    }
    if let Some((t, u)) = entries.acted_on(newest) {
        let i = groups.node_of(t.0);
        groups.laws();
        if t.0 != u.0 {
            let j = groups.node_of(u.0);
            join_nodes(groups, i, j);
            groups.laws();
        }
    }
}

/// Returns whether the newest entry is of one transaction that was known, and commits nobody. Such an entry leaves names, groups and
/// flags as they are, and opens no object.
#[inline(always)]
fn leaves_groups(entries: &Entries, newest: usize) -> bool
    ensures { result ≡ leaves_groups_at (slice_get (reverse entries.now.entries) newest) }
{
    entries.is_of_known(newest) && entries.commit_at(newest).is_none()
}

/// Flags the group of whoever committed by the newest entry.
fn flag_newest(groups: &mut NameGroups, entries: &Entries, newest: usize)
    requires newest { length entries.now.entries ≡ newest + 1 }
    requires named { groups.old.names ≡ names_of entries.now.entries }
    requires flagged { AreFlagged (before entries.now.entries newest) groups.old }
    ensures names { groups.new.names ≡ groups.old.names }
    ensures labels { groups.new.labels ≡ groups.old.labels }
    ensures room { groups.new.room ≡ groups.old.room }
    ensures flagged { AreFlagged entries.now.entries groups.new }
{
    if let Some(t) = entries.commit_at(newest) {
        let node = node_of_known(groups, t);
        groups.laws();
        groups.flag(node);
    }
}

impl KeptGroups {
    ghost use Rattle.std.specs.Prelude.{◌≡◌, ◌+◌, ◌*◌, ◌≤◌, ℕ, false, nat_eq, length, reverse, slice_get, None, IfOk};
    ghost use Rattle.indexmap.specs.IndexMap.{get, spare};
    ghost use Rattle.asset_names.specs.Answers.{IsLegal};
    ghost use Rattle.asset_name_groups.specs.NamesInGroups.{none_named};
    ghost use Rattle.asset_entries.specs.Operating.{opener_at};
    ghost use Rattle.asset_history.specs.Kept.{before, AreLabels, AreKept};
    ghost use Rattle.asset_history.specs.Links.{no_links};
    ghost use Rattle.asset_history.specs.Named.{names_of};
    ghost use Rattle.asset_history.specs.Together.{AreJoined};

    /// Returns no groups, with room for two names and 16 links for each of `capacity` entries, and for the users of so many objects.
    /// It takes that room here, and fails if memory runs out.
    pub(crate) fn with_room(
        alloc: Global,
        objects: usize,
        capacity: usize,
    ) -> Result<KeptGroups, AllocError>
        ensures groups { IfOk result (λ kept. kept.groups ≡ none_named (2 * capacity)) }
        ensures users { IfOk result (λ kept. (x : ℕ) → get nat_eq kept.users.found x ≡ None) }
        ensures room { IfOk result (λ kept. objects ≤ spare kept.users.found) }
        ensures links { IfOk result (λ kept. kept.users.links ≡ no_links (16 * capacity)) }
        ensures closed { IfOk result (λ kept. kept.is_opened ≡ false) }
    {
        let Some(names) = capacity.checked_mul(2) else {
            return Err(AllocError);
        };
        let Some(links) = capacity.checked_mul(MOST_OBJECTS) else {
            return Err(AllocError);
        };
        let groups = NameGroups::with_room(alloc, names)?;
        let links = UserLinks::with_room(alloc, links)?;
        match IndexMap::with_capacity(alloc, objects) {
            Ok(found) => Ok(KeptGroups {
                groups,
                users: UsersOfObjects { found, links },
                is_opened: false,
            }),
            Err(fault) => Err(fault),
        }
    }

    /// Notes who uses which objects by all entries before the newest one, if that is the first open permit.
    fn open_by_newest(&mut self, entries: &Entries, newest: usize)
        requires newest { length entries.now.entries ≡ newest + 1 }
        requires legal { IsLegal entries.now.opening entries.now.entries }
        requires named { self.old.groups.names ≡ names_of entries.now.entries }
        requires kept { AreKept entries.now.opening entries.now.entries (before entries.now.entries newest) self.old }
        requires links { 16 * length entries.now.entries ≤ self.old.users.links.room }
        ensures joined { AreJoined entries.now.entries self.old.groups self.new.groups }
        ensures kept { AreKept entries.now.opening entries.now.entries (before entries.now.entries newest) self.new }
        ensures links { self.new.users.links.room ≡ self.old.users.links.room }
        ensures closed { self.new.is_opened ≡ false → opener_at (slice_get (reverse entries.now.entries) newest) ≡ None }
    {
        if !self.is_opened && entries.opener(newest).is_some() {
            note_first(&mut self.groups, &mut self.users, entries, newest);
            self.is_opened = true;
        }
    }

    /// Notes who uses which objects by the newest entry, and joins those who meet by it.
    fn note_users(&mut self, entries: &Entries, newest: usize)
        requires newest { length entries.now.entries ≡ newest + 1 }
        requires legal { IsLegal entries.now.opening entries.now.entries }
        requires named { self.old.groups.names ≡ names_of entries.now.entries }
        requires kept { AreKept entries.now.opening entries.now.entries (before entries.now.entries newest) self.old }
        requires links { 16 * length entries.now.entries ≤ self.old.users.links.room }
        ensures joined { AreJoined entries.now.entries self.old.groups self.new.groups }
        ensures kept { AreKept entries.now.opening entries.now.entries entries.now.entries self.new }
        ensures links { self.new.users.links.room ≡ self.old.users.links.room }
    {
        self.open_by_newest(entries, newest);
        if self.is_opened {
            note_entry(&mut self.groups, &mut self.users, entries, newest);
        }
    }

    /// Does what `note_newest` does, whatever the newest entry is.
    fn note_any(&mut self, entries: &Entries, newest: usize)
        requires newest { length entries.now.entries ≡ newest + 1 }
        requires legal { IsLegal entries.now.opening entries.now.entries }
        requires labels { AreLabels (before entries.now.entries newest) self.old.groups }
        requires kept { AreKept entries.now.opening (before entries.now.entries newest) (before entries.now.entries newest) self.old }
        requires room { 2 * length entries.now.entries ≤ self.old.groups.room }
        requires links { 16 * length entries.now.entries ≤ self.old.users.links.room }
        ensures labels { AreLabels entries.now.entries self.new.groups }
        ensures kept { AreKept entries.now.opening entries.now.entries entries.now.entries self.new }
        ensures room { self.new.groups.room ≡ self.old.groups.room }
        ensures links { self.new.users.links.room ≡ self.old.users.links.room }
    {
        name_newest(&mut self.groups, entries, newest);
        flag_newest(&mut self.groups, entries, newest);
        self.note_users(entries, newest);
        self.groups.laws();
    }

    /// Names, flags and joins what the newest entry does. It does not allocate. Most entries do none of it, and that takes one look
    /// at the entry.
    #[inline(always)]
    pub(crate) fn note_newest(&mut self, entries: &Entries, newest: usize)
        requires newest { length entries.now.entries ≡ newest + 1 }
        requires legal { IsLegal entries.now.opening entries.now.entries }
        requires labels { AreLabels (before entries.now.entries newest) self.old.groups }
        requires kept { AreKept entries.now.opening (before entries.now.entries newest) (before entries.now.entries newest) self.old }
        requires room { 2 * length entries.now.entries ≤ self.old.groups.room }
        requires links { 16 * length entries.now.entries ≤ self.old.users.links.room }
        ensures labels { AreLabels entries.now.entries self.new.groups }
        ensures kept { AreKept entries.now.opening entries.now.entries entries.now.entries self.new }
        ensures room { self.new.groups.room ≡ self.old.groups.room }
        ensures links { self.new.users.links.room ≡ self.old.users.links.room }
    {
        self.groups.laws();
        if !self.is_opened && leaves_groups(entries, newest) {
            return;
        }
        self.note_any(entries, newest);
    }
}
