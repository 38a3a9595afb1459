//! The ends of transactions: a commit of a whole class, and an abort of all that it spreads to.

ghost use Rattle.std.specs.Prelude.{◌≡◌, ℕ, ◌==◌, cond, None, true, false};
ghost use Rattle.std.specs.List.{list_all};
ghost use Rattle.asset_names.specs.Arrows.{lists};
ghost use Rattle.asset_names.specs.Answers.{is_completed};
ghost use Rattle.asset_names.specs.Endings.{is_live_status};
ghost use Rattle.asset_objects.specs.Cells.{cells, ended, change_each};
ghost use Rattle.asset_objects.specs.Placed.{objects_in, IsTied as AreWritesTied};
ghost use Rattle.asset_seats.specs.Seated.{Seated, seat, HasSeat};
ghost use Rattle.asset_deps.specs.Dependencies.{class_in};
ghost use Rattle.asset_deps.specs.Valid.{dependencies_in, marked_in, IsTied};
ghost use Rattle.asset_trans.specs.TransRows.{status_in};
ghost use Rattle.asset_ends.specs.Ended.{marked_by, AreEnded};
ghost use Rattle.asset_ends.specs.Standing.{class_may_commit_in, LiveAreSeated};
ghost use Rattle.asset_ends.specs.Tied.{PartsAreTied};

use crate::parts::Parts;
use crate::tables::Tables;
use asset_deps::SeatedDeps;
use asset_names::{End, Status, Txn};
use asset_objects::SeatedObjects;
use asset_seats::{Seats, Sitter};
use asset_trans::Trans;

/// What became of a commit.
#[derive(Clone, Copy, Debug, PartialEq, Eq)]
pub enum Tried {
    /// The transaction has committed, with its whole class.
    Committed,
    /// Its class may not commit yet, so the commit waits, and nothing has changed.
    Wait,
}

/// Makes the updates of the transaction final, or undoes them. The transaction may leave its seat then.
fn end_writes(objects: &mut SeatedObjects, seats: &Seats, one: Sitter, how: End)
    requires tied { AreWritesTied objects.old seats.now }
    requires sits { HasSeat seats.now one }
    ensures leaves { (left : Seated) → ((c : ℕ) → seat left c ≡ cond (c == one.at) None (seat seats.now c)) → AreWritesTied objects.new left }
    ensures cells { cells (objects_in objects.new) ≡ change_each (ended how (λ n. n == one.t.0)) (cells (objects_in objects.old)) }
    ensures objects { objects.new.objects ≡ objects.old.objects }
{
    match how {
        End::Committed => objects.settle(seats, one),
        End::Aborted => objects.undo(seats, one),
    }
}

/// Ends a live transaction in each table, and takes its seat from it.
fn end_one(parts: &mut Parts, one: Sitter, how: End)
    requires live { is_live_status (status_in parts.old.trans one.t.0) ≡ true }
    requires tied { PartsAreTied parts.old }
    requires sits { HasSeat parts.old.seats one }
    ensures tied { PartsAreTied parts.new }
    ensures ended { AreEnded (λ n. n == one.t.0) how parts.old parts.new }
    ensures marked { lists (marked_by parts.old) one.t.0 ≡ false → marked_by parts.new ≡ marked_by parts.old }
{
    end_writes(&mut parts.objects, &parts.seats, one, how);
    parts.locks.release(&parts.seats, one);
    parts.permits.drop_all(&parts.seats, one);
    parts.deps.end(&parts.seats, one);
    parts.trans.end(one.t, how);
    parts.seats.laws();
    parts.seats.leave(one.at);
}

/// Ends those who are marked, all of whom are live. The order does not matter.
fn end_marked(parts: &mut Parts, how: End)
    requires live { (n : ℕ) → lists (marked_by parts.old) n ≡ true → is_live_status (status_in parts.old.trans n) ≡ true }
    requires tied { PartsAreTied parts.old }
    ensures tied { PartsAreTied parts.new }
    ensures ended { AreEnded (lists (marked_by parts.old)) how parts.old parts.new }
{
    parts.objects.laws();
    'marked: while let Some(one) = parts.deps.next_marked_sitter(&parts.seats) {
        end_one(parts, one, how);
    }
}

/// Returns whether all who are marked have completed.
fn all_completed(seats: &Seats, trans: &Trans, deps: &SeatedDeps) -> bool
    requires { IsTied deps.now seats.now }
    ensures { result ≡ list_all (λ n. is_completed (status_in trans.now n)) (marked_in seats.now deps.now) }
{
    'marked: for index in 0..deps.marked_count() {
        if let Some(t) = deps.marked_name(seats, index) {
            if !trans.status(t).is_completed() {
                return false;
            }
        }
    }
    true
}

/// Marks the class of a live transaction, and nobody else, and returns whether it may commit.
fn class_may_commit(seats: &Seats, trans: &Trans, deps: &mut SeatedDeps, one: Sitter) -> bool
    requires seated { LiveAreSeated trans.now seats.now }
    requires tied { IsTied deps.old seats.now }
    requires sits { HasSeat seats.now one }
    ensures tied { IsTied deps.new seats.now }
    ensures marked { (n : ℕ) → lists (marked_in seats.now deps.new) n ≡ class_in (dependencies_in deps.old) one.t.0 n }
    ensures dependencies { dependencies_in deps.new ≡ dependencies_in deps.old }
    ensures may { result ≡ class_may_commit_in trans.now (dependencies_in deps.old) one.t.0 }
{
    deps.mark_class(seats, one);
    all_completed(seats, trans, deps) && !deps.marked_have_outside_source(seats)
}

impl Tables {
    ghost use Rattle.std.specs.Prelude.{◌≡◌, ℕ, ◌==◌, cond, true, false};
    ghost use Rattle.asset_names.specs.declared.steps.Step.{Step};
    ghost use Rattle.asset_names.specs.Answers.{may_commit};
    ghost use Rattle.asset_names.specs.Endings.{is_live_status};
    ghost use Rattle.asset_deps.specs.Dependencies.{class_in, doomed_in, outside_source_in};
    ghost use Rattle.asset_locks.specs.LockTable.{release_in};
    ghost use Rattle.asset_trans.specs.TransRows.{status_in, seat_in};
    ghost use Rattle.asset_ends.specs.Shown.{ForShown, ShowsWith, ShowsWithIf};
    ghost use Rattle.asset_ends.specs.Standing.{may_commit_in, tried};

    /// Returns whether the class of a live transaction may commit: each member has completed, and no commit or abort
    /// dependency leads into the class from a live transaction outside it. Nothing changes: a search marks what it met,
    /// and no call shows that. The cost is that of the class and its dependencies.
    pub fn may_commit(&mut self, t: Txn) -> bool
        requires live { is_live_status (status_in self.old.trans t.0) ≡ true }
        ensures may { result ≡ may_commit_in self.old t.0 }
        ensures shown { ForShown self.old (λ opening steps. result ≡ may_commit steps t.0) }
        ensures same { self.new ≡ self.old }
    {
        let (status, one) = self.find(t);
        self.may_commit_at(one, status)
    }

    /// Does what `may_commit` does, for a transaction whose status and seat are found.
    fn may_commit_at(&mut self, one: Sitter, status: Status) -> bool
        requires live { is_live_status (status_in self.old.trans one.t.0) ≡ true }
        requires status { status ≡ status_in self.old.trans one.t.0 }
        requires seat { one.at ≡ seat_in self.old.trans one.t.0 }
        ensures may { result ≡ may_commit_in self.old one.t.0 }
        ensures same { self.new ≡ self.old }
    {
        if !self.parts.deps.is_linked(&self.parts.seats, one) {
            return status.is_completed();
        }
        class_may_commit(
            &self.parts.seats,
            &self.parts.trans,
            &mut self.parts.deps,
            one,
        )
    }

    /// Commits a live transaction with its whole class, if the class may commit: their updates stand for good, and their
    /// locks, permits and dependencies go. Otherwise nothing changes. The cost is that of what goes. It takes no memory.
    pub fn try_commit(&mut self, t: Txn) -> Tried
        requires live { is_live_status (status_in self.old.trans t.0) ≡ true }
        ensures tried { result ≡ tried (may_commit_in self.old t.0) }
        ensures stand { ShowsWithIf self.old (may_commit_in self.old t.0) (Step.Commit t) self.new }
        ensures locks { self.new.locks ≡ cond (may_commit_in self.old t.0) (release_in (class_in self.old.deps t.0) self.old.locks) self.old.locks }
        ensures still { may_commit_in self.old t.0 ≡ false → self.new ≡ self.old }
    {
        let (status, one) = self.find(t);
        self.try_commit_at(one, status)
    }

    /// Does what `try_commit` does, for a transaction whose status and seat are found. It is live, and both are those of its
    /// row. It takes no memory.
    pub fn try_commit_at(&mut self, one: Sitter, status: Status) -> Tried
        requires live { is_live_status (status_in self.old.trans one.t.0) ≡ true }
        requires status { status ≡ status_in self.old.trans one.t.0 }
        requires seat { one.at ≡ seat_in self.old.trans one.t.0 }
        ensures tried { result ≡ tried (may_commit_in self.old one.t.0) }
        ensures stand { ShowsWithIf self.old (may_commit_in self.old one.t.0) (Step.Commit one.t) self.new }
        ensures locks { self.new.locks ≡ cond (may_commit_in self.old one.t.0) (release_in (class_in self.old.deps one.t.0) self.old.locks) self.old.locks }
        ensures still { may_commit_in self.old one.t.0 ≡ false → self.new ≡ self.old }
    {
        let is_alone = !self.parts.deps.is_linked(&self.parts.seats, one);
        if is_alone {
            self.try_commit_alone(one, status)
        } else {
            self.try_commit_class(one)
        }
    }

    /// Does what `try_commit_at` does, for a transaction that is a class of its own, on no source.
    fn try_commit_alone(&mut self, one: Sitter, status: Status) -> Tried
        requires live { is_live_status (status_in self.old.trans one.t.0) ≡ true }
        requires status { status ≡ status_in self.old.trans one.t.0 }
        requires seat { one.at ≡ seat_in self.old.trans one.t.0 }
        requires alone { (n : ℕ) → class_in self.old.deps one.t.0 n ≡ (one.t.0 == n) }
        requires no_source { outside_source_in self.old.deps one.t.0 ≡ false }
        ensures tried { result ≡ tried (may_commit_in self.old one.t.0) }
        ensures stand { ShowsWithIf self.old (may_commit_in self.old one.t.0) (Step.Commit one.t) self.new }
        ensures locks { self.new.locks ≡ cond (may_commit_in self.old one.t.0) (release_in (class_in self.old.deps one.t.0) self.old.locks) self.old.locks }
        ensures still { may_commit_in self.old one.t.0 ≡ false → self.new ≡ self.old }
    {
        if status.is_completed() {
            end_one(&mut self.parts, one, End::Committed);
            Tried::Committed
        } else {
            Tried::Wait
        }
    }

    /// Does what `try_commit_at` does, for a transaction that others may depend on. The class is searched for once.
    fn try_commit_class(&mut self, one: Sitter) -> Tried
        requires live { is_live_status (status_in self.old.trans one.t.0) ≡ true }
        requires seat { one.at ≡ seat_in self.old.trans one.t.0 }
        ensures tried { result ≡ tried (may_commit_in self.old one.t.0) }
        ensures stand { ShowsWithIf self.old (may_commit_in self.old one.t.0) (Step.Commit one.t) self.new }
        ensures locks { self.new.locks ≡ cond (may_commit_in self.old one.t.0) (release_in (class_in self.old.deps one.t.0) self.old.locks) self.old.locks }
        ensures still { may_commit_in self.old one.t.0 ≡ false → self.new ≡ self.old }
    {
        if class_may_commit(
            &self.parts.seats,
            &self.parts.trans,
            &mut self.parts.deps,
            one,
        ) {
            end_marked(&mut self.parts, End::Committed);
            Tried::Committed
        } else {
            Tried::Wait
        }
    }

    /// Aborts a live transaction, with its class and all to whom abort dependencies lead: their updates are undone, and
    /// their locks, permits and dependencies go. The cost is that of what goes. It takes no memory.
    pub fn abort(&mut self, t: Txn)
        requires live { is_live_status (status_in self.old.trans t.0) ≡ true }
        ensures stand { ShowsWith self.old (Step.Abort t) self.new }
        ensures locks { self.new.locks ≡ release_in (doomed_in self.old.deps t.0) self.old.locks }
    {
        let (_, one) = self.find(t);
        self.abort_at(one)
    }

    /// Does what `abort` does, for a transaction whose seat is found. It is live, and the seat is that of its row. It takes no
    /// memory.
    pub fn abort_at(&mut self, one: Sitter)
        requires live { is_live_status (status_in self.old.trans one.t.0) ≡ true }
        requires seat { one.at ≡ seat_in self.old.trans one.t.0 }
        ensures stand { ShowsWith self.old (Step.Abort one.t) self.new }
        ensures locks { self.new.locks ≡ release_in (doomed_in self.old.deps one.t.0) self.old.locks }
    {
        if self.parts.deps.is_linked(&self.parts.seats, one) {
            self.parts.deps.mark_doomed(&self.parts.seats, one);
            end_marked(&mut self.parts, End::Aborted);
        } else {
            end_one(&mut self.parts, one, End::Aborted);
        }
    }
}
