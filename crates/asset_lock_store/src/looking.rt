//! A look at the locks on an object, for a request: who blocks it, and what a grant of it has to know.

ghost use Rattle.std.specs.Prelude.{◌≡◌};
ghost use Rattle.asset_lock_store.specs.Looked.{look_with};

use crate::allows::Allows;
use crate::lock::{Request, one_conflicts};
use crate::store::{LockStore, adders_of, excluders_of, readers_of};
use asset_names::Op;
use asset_seats::{Seats, Sitter};

/// What a look at locks on the object that is asked for finds. It ends at the first lock that blocks the request.
#[derive(Clone, Copy)]
pub struct Look {
    /// Whether a lock blocks the request.
    pub blocked: bool,
    /// The key of the asker's own lock, if the look met it.
    pub own: Option<usize>,
    /// Whether the look met a lock of another that conflicts with the request.
    pub conflicts: bool,
}

impl Look {
    /// What a look at no lock finds.
    pub(crate) const NOTHING: Look = Look {
        blocked: false,
        own: None,
        conflicts: false,
    };

    /// Returns what the two looks find.
    #[tactic(auto, unfolding(crate::specs::Looked::look_with))]
    fn with(self, more: Look) -> Look
        ensures { result ≡ look_with self more }
    {
        Look {
            blocked: self.blocked || more.blocked,
            own: self.own.or(more.own),
            conflicts: self.conflicts || more.conflicts,
        }
    }
}

impl LockStore {
    ghost use Rattle.std.specs.Prelude.{◌≡◌, ℕ, true, false, Some, IfSome, IfNone, None};
    ghost use Rattle.asset_names.specs.declared.names.Txn.{Txn};
    ghost use Rattle.asset_chains.specs.Chained.{home_of};
    ghost use Rattle.asset_lists.specs.declared.part.Section.{Section};
    ghost use Rattle.asset_lists.specs.Parted.{part_of, IsAt};
    ghost use Rattle.asset_seats.specs.Seated.{seat, HasSeat};
    ghost use Rattle.asset_lock_store.specs.LockRules.{blocks};
    ghost use Rattle.asset_names.specs.Numbered.{number_in};
    ghost use Rattle.asset_lock_store.specs.Stored.{name_of, locks_at, part_for};
    ghost use Rattle.asset_lock_store.specs.Looked.{looks_at, IsLook, IsLookedAt};

    /// Returns who has the lock at the key, if anybody has it.
    #[tactic(auto, unfolding(crate::specs::Stored::name_of))]
    pub(crate) fn owner(&self, key: usize, seats: &Seats) -> Option<Sitter>
        ensures found { IfSome result (λ owner. HasSeat seats.now owner × (name_of seats.now (home_of self.now.by_owner key) ≡ Some owner.t)) }
        ensures none { IfNone result (name_of seats.now (home_of self.now.by_owner key) ≡ None) }
    {
        let at = self.by_owner.home(key)?;
        let t = seats.name_at(at)?;
        Some(Sitter { t, at })
    }

    /// Looks at the lock at the key, which is on the object that is asked for. `again` says whether the permits are asked
    /// about other holders too.
    #[inline(always)]
    pub(crate) fn look_at<A: Allows>(
        &self,
        key: usize,
        request: Request,
        seats: &Seats,
        permits: &mut A,
        again: bool,
    ) -> Look
        requires { A.can_ask permits.old seats.now request.asker }
        ensures look { IsLook self.now seats.now (λ u. A.allows permits.old u request.asker.t.0 request.x.0 request.op) request.asker.t.0 request.op (λ (k : ℕ). k ≡ key) result }
        ensures permits { permits.new ≡ permits.old }
    {
        let Some(owner) = self.owner(key, seats) else {
            return Look::NOTHING;
        };
        if owner.t == request.asker.t {
            return Look {
                blocked: false,
                own: Some(key),
                conflicts: false,
            };
        }
        if one_conflicts(self.lock(key).ops, request.op) {
            Look {
                blocked: !permits.allows(seats, owner, request.asker, request.x, request.op, again),
                own: None,
                conflicts: true,
            }
        } else {
            Look::NOTHING
        }
    }

    /// Looks at the locks at the keys, which are on the object that is asked for. From the second lock that conflicts on, all
    /// who allow the asker are found at once.
    #[inline(always)]
    fn look_over<A: Allows>(
        &self,
        keys: &[u32],
        request: Request,
        seats: &Seats,
        permits: &mut A,
    ) -> Look
        requires { A.can_ask permits.old seats.now request.asker }
        ensures look { IsLook self.now seats.now (λ u. A.allows permits.old u request.asker.t.0 request.x.0 request.op) request.asker.t.0 request.op (λ (k : ℕ). (q : ℕ) × IsAt keys.now q k) result }
        ensures permits { permits.new ≡ permits.old }
    {
        let mut look = Look::NOTHING;
        'keys: for key in keys {
            let again = look.conflicts;
            look = look.with(self.look_at(*key as usize, request, seats, permits, again));
            if look.blocked {
                return look;
            }
        }
        look
    }

    /// Looks at the locks on the object of this number, which is the one that is asked for: for a read at those that do
    /// not only read, for an add at those that do not only add, and for a write at all.
    #[inline(always)]
    fn look_on<A: Allows>(
        &self,
        number: usize,
        request: Request,
        seats: &Seats,
        permits: &mut A,
    ) -> Look
        requires { A.can_ask permits.old seats.now request.asker }
        ensures look { IsLook self.now seats.now (λ u. A.allows permits.old u request.asker.t.0 request.x.0 request.op) request.asker.t.0 request.op (λ (k : ℕ). (w : Section) × (part_of self.now.by_object k ≡ Some (part_for number w)) × (looks_at request.op w ≡ true)) result }
        ensures permits { permits.new ≡ permits.old }
    {
        match request.op {
            Op::Read => {
                let keys = self.by_object.keys_up_to(adders_of(number));
                self.look_over(keys, request, seats, permits)
            }
            Op::Write => {
                let keys = self.by_object.keys_up_to(readers_of(number));
                self.look_over(keys, request, seats, permits)
            }
            Op::Add => {
                let front = self.by_object.keys(excluders_of(number));
                let excluders = self.look_over(front, request, seats, permits);
                if excluders.blocked {
                    return excluders;
                }
                let back = self.by_object.keys(readers_of(number));
                excluders.with(self.look_over(back, request, seats, permits))
            }
        }
    }

    /// Looks at the locks on the object that is asked for, whose number is given if it has one: for a read at those
    /// that do not only read, for an add at those that do not only add, and for a write at all.
    #[inline(always)]
    pub fn look<A: Allows>(
        &self,
        number: Option<usize>,
        request: Request,
        seats: &Seats,
        permits: &mut A,
    ) -> Look
        requires number { number ≡ number_in self.now.objects request.x.0 }
        requires asker { A.can_ask permits.old seats.now request.asker }
        ensures blocked { result.blocked ≡ true → (c : ℕ) × (u : Txn) × (seat seats.now c ≡ Some u) × (blocks (λ u. A.allows permits.old u request.asker.t.0 request.x.0 request.op) request.asker.t.0 request.x.0 request.op u.0 (locks_at self.now c) ≡ true) }
        ensures free { result.blocked ≡ false → (c : ℕ) (u : Txn) → seat seats.now c ≡ Some u → blocks (λ u. A.allows permits.old u request.asker.t.0 request.x.0 request.op) request.asker.t.0 request.x.0 request.op u.0 (locks_at self.now c) ≡ false }
        ensures look { IsLook self.now seats.now (λ u. A.allows permits.old u request.asker.t.0 request.x.0 request.op) request.asker.t.0 request.op (IsLookedAt self.now request.x.0 request.op) result }
        ensures permits { permits.new ≡ permits.old }
    {
        self.laws();
        match number {
            Some(number) => self.look_on(number, request, seats, permits),
            None => Look::NOTHING,
        }
    }
}
