//! The table of locks by seat, and its calls.

ghost use Rattle.std.specs.Prelude.{◌≡◌, Some};
ghost use Rattle.std.specs.Option.{option_to_list};
ghost use Rattle.asset_names.specs.declared.names.Txn.{Txn as Name};
ghost use Rattle.asset_seats.specs.Seated.{seat};
ghost use Rattle.asset_locks.specs.LockTable.{waiting_at};
ghost use Rattle.asset_locks.specs.Tied.{pending_at, name_or_zero};

use crate::asked::Asked;
use crate::room::{add_pending, add_to_order};
use asset_chains::Chains;
use asset_lock_store::{Allows, HeldObjects, LockState, LockStore, NameSet, Request};
use asset_names::{NoMemory, Ob, ObSet, Op, Txn};
use asset_seats::{Seats, Sitter};
use std::alloc::Global;
use std::marker::Model;

/// The locks on objects, and the enrolled transactions with what each holds and waits for, asked by seat. Contracts see a
/// row for each enrolled transaction, in order of enrolment; nobody sees in which order locks were granted on an object.
/// The seats are kept elsewhere: each call about a transaction takes them, and requires that the table is tied to them. Who has
/// a seat need not be enrolled. Objects are asked for by their numbers, which are kept elsewhere too: each object that may have
/// a lock is added first.
pub struct SeatedLocks {
    pending: Vec<Option<(Ob, Op)>>,
    order: Chains,
    store: LockStore,
}

impl Drop for SeatedLocks {
    fn drop(self) {
        let SeatedLocks {
            pending,
            order,
            store,
        } = self;
        drop(pending);
        drop(order);
        drop(store);
    }
}

impl Model for SeatedLocks {
    ghost use Rattle.asset_locks.specs.Tied.{LockParts};

    ghost Value = { LockParts };

    ghost view = { λ l. record { pending = l.pending.items; order = l.order; store = l.store } };
}

/// Returns who has the seat, with the operation that is asked for, if its pending request is on `x`.
#[tactic(auto, unfolding(crate::specs::LockTable::waiting_at, crate::specs::Tied::name_or_zero, crate::specs::Tied::pending_at))]
fn waiter_at(seats: &Seats, pending: &[Option<(Ob, Op)>], c: usize, x: Ob) -> Option<(Txn, Op)>
    ensures { (t : Name) → seat seats.now c ≡ Some t → option_to_list result ≡ waiting_at x.0 t.0 (pending_at pending.now c) }
{
    let t = seats.name_at(c)?;
    match pending.get(c).copied()? {
        Some((y, op)) if y == x => Some((t, op)),
        _ => None,
    }
}

/// Returns the request of the seat that waits, if there is one.
#[tactic(auto, unfolding(crate::specs::Tied::pending_at))]
fn request_at(pending: &[Option<(Ob, Op)>], c: usize) -> Option<(Ob, Op)>
    ensures { result ≡ pending_at pending.now c }
{
    match pending.get(c) {
        Some(request) => *request,
        None => None,
    }
}

impl SeatedLocks {
    ghost use Rattle.std.specs.Prelude.{◌≡◌, ℕ, ◌==◌, Bool, cond, true, false, [], ◌∷◌, ◌++◌, length, take, None, Some, is_some, slice_get, filter, IfOk, IsErr, OnOk, OnErr};
    ghost use Rattle.asset_names.specs.Arrows.{lists};
    ghost use Rattle.asset_names.specs.declared.names.Ob.{Ob as Object};
    ghost use Rattle.asset_names.specs.declared.operations.Op.{Op as Operation};
    ghost use Rattle.asset_names.specs.InSet.{in_set, only_in};
    ghost use Rattle.asset_names.specs.Numbered.{number_in};
    ghost use Rattle.asset_chains.specs.Chained.{IsConsistent};
    ghost use Rattle.asset_seats.specs.Seated.{Seated, seat, HasSeat};
    ghost use Rattle.asset_locks.specs.LockTable.{carries, enrol_in, release_in, hand_over_in, enrolled_in, is_free_in, lock_in, status_in, held_in, waiters_in};
    ghost use Rattle.asset_locks.specs.Valid.{answer_where, after_ask, IsValid};
    ghost use Rattle.asset_locks.specs.Blocking.{is_blocker_in, request_in};
    ghost use Rattle.asset_locks.specs.Tied.{rows_in, IsTied, HasRoom};

    /// Returns a table in which nobody is enrolled, over no objects. It does not allocate.
    pub fn new(alloc: Global) -> SeatedLocks
        ensures rows { (seats : Seated) → rows_in seats result ≡ [] }
        ensures objects { result.store.objects ≡ [] }
        ensures tied { (seats : Seated) → ((c : ℕ) → seat seats c ≡ None) → IsTied result seats }
    {
        SeatedLocks {
            pending: Vec::new(alloc),
            order: Chains::new(alloc),
            store: LockStore::new(alloc),
        }
    }

    /// Returns the objects that may have locks, in the order of their numbers.
    pub fn objects(&self) -> &[Ob]
        ensures { result.now ≡ self.now.store.objects }
    {
        self.store.objects()
    }

    /// The object gets the next number. The caller makes sure that it has none yet, which no clause asks for. If memory
    /// runs out, no object gets one. No row changes.
    pub fn add_object(&mut self, x: Ob) -> Result<(), NoMemory>
        ensures added { OnOk result (self.new.store.objects ≡ self.old.store.objects ++ x ∷ []) }
        ensures unchanged { OnErr result (self.new.store.objects ≡ self.old.store.objects) }
        ensures rows { (seats : Seated) → rows_in seats self.new ≡ rows_in seats self.old }
        ensures tied { (seats : Seated) → IsTied self.old seats → IsTied self.new seats }
    {
        self.store.add_object(x)
    }

    /// Each of the objects gets the next number, in order. The caller makes sure that none has one yet, which no clause
    /// asks for. If memory runs out, some may have got one. Those that had numbers keep them. No row changes.
    pub fn add_objects(&mut self, objects: &[Ob]) -> Result<(), NoMemory>
        ensures added { OnOk result (self.new.store.objects ≡ self.old.store.objects ++ objects.now) }
        ensures kept { take (length self.old.store.objects) self.new.store.objects ≡ self.old.store.objects }
        ensures rows { (seats : Seated) → rows_in seats self.new ≡ rows_in seats self.old }
        ensures tied { (seats : Seated) → IsTied self.old seats → IsTied self.new seats }
    {
        self.store.add_objects(objects)
    }

    /// Adds places for requests, chains and keys until the seat has them. If memory runs out, some may have been added, and
    /// no row has changed.
    pub fn make_room(&mut self, c: usize) -> Result<(), NoMemory>
        ensures room { OnOk result (HasRoom self.new c) }
        ensures rows { (seats : Seated) → rows_in seats self.new ≡ rows_in seats self.old }
        ensures tied { (seats : Seated) → IsTied self.old seats → IsTied self.new seats }
        ensures objects { self.new.store.objects ≡ self.old.store.objects }
    {
        add_pending(&mut self.pending, c)?;
        self.store.reserve_seat(c)?;
        add_to_order(&mut self.order, c)
    }

    /// Enrols `t`: it comes last, holds nothing and waits for nothing. If `t` is enrolled already, nothing changes. It
    /// takes no memory, and the cost is constant.
    pub fn enrol(&mut self, seats: &Seats, t: Sitter)
        requires tied { IsTied self.old seats.now }
        requires sits { HasSeat seats.now t }
        ensures tied { IsTied self.new seats.now }
        ensures valid { IsValid (rows_in seats.now self.old) }
        ensures done { enrolled_in (rows_in seats.now self.old) t.t.0 ≡ None → rows_in seats.now self.new ≡ enrol_in t.t.0 (rows_in seats.now self.old) }
        ensures again { is_some (enrolled_in (rows_in seats.now self.old) t.t.0) ≡ true → self.new ≡ self.old }
        ensures enrolled { is_some (enrolled_in (rows_in seats.now self.new) t.t.0) ≡ true }
        ensures objects { self.new.store.objects ≡ self.old.store.objects }
    {
        self.laws(seats);
        self.order.laws();
        self.store.laws();
        if self.order.home(t.at).is_some() {
            return;
        }
        self.pending[t.at] = None;
        self.order.push(0, t.at);
    }

    /// Returns whether `x` is free for `t` to do `op`: each lock on `x` that conflicts with `op`, granted or suspended,
    /// is its own or belongs to a transaction that allows it. It does not look at locks on `x` that only read if
    /// `op` is a read, nor at those that only add if it is an add. The seat of `t` matters only to the permits. The number of
    /// `x` is given, if it has one.
    pub fn is_free<A: Allows>(
        &self,
        seats: &Seats,
        t: Sitter,
        number: Option<usize>,
        x: Ob,
        op: Op,
        permits: &mut A,
    ) -> bool
        requires tied { IsTied self.now seats.now }
        requires number { number ≡ number_in self.now.store.objects x.0 }
        requires asker { A.can_ask permits.old seats.now t }
        ensures free { result ≡ is_free_in (rows_in seats.now self.now) (λ u. A.allows permits.old u t.t.0 x.0 op) t.t.0 x.0 op }
        ensures valid { IsValid (rows_in seats.now self.now) }
        ensures permits { permits.new ≡ permits.old }
    {
        self.laws(seats);
        self.order.laws();
        self.store.laws();
        let request = Request { asker: t, x, op };
        !self.store.look(number, request, seats, permits).blocked
    }

    /// Asks for `op` on `x` for `t`, which is enrolled. If `x` is free for it, `t` is granted a lock that carries `op`
    /// besides what it carried, each conflicting lock of another is suspended, and `t` has no pending request. Otherwise
    /// the request becomes the pending request of `t`.
    ///
    /// Only the first grant to `t` on `x` can answer `NoMemory`, and then nothing changes. It looks at the locks at which
    /// `is_free` looks, and again only to suspend some. If a read or an add meets no lock of `t` among them, it
    /// searches for one among those of `t` or those on `x` at which it did not look, whichever are fewer. The number of `x`
    /// is given.
    pub fn ask<A: Allows>(
        &mut self,
        seats: &Seats,
        t: Sitter,
        number: usize,
        x: Ob,
        op: Op,
        permits: &mut A,
    ) -> Result<Asked, NoMemory>
        requires tied { IsTied self.old seats.now }
        requires sits { HasSeat seats.now t }
        requires enrolled { is_some (enrolled_in (rows_in seats.now self.old) t.t.0) ≡ true }
        requires number { number_in self.old.store.objects x.0 ≡ Some number }
        requires asker { A.can_ask permits.old seats.now t }
        ensures tied { IsTied self.new seats.now }
        ensures answer { IfOk result (λ asked. asked ≡ answer_where (is_free_in (rows_in seats.now self.old) (λ u. A.allows permits.old u t.t.0 x.0 op) t.t.0 x.0 op)) }
        ensures done { OnOk result (rows_in seats.now self.new ≡ after_ask (is_free_in (rows_in seats.now self.old) (λ u. A.allows permits.old u t.t.0 x.0 op) t.t.0 x.0 op) t.t.0 x op (rows_in seats.now self.old)) }
        ensures valid { IsValid (rows_in seats.now self.old) }
        ensures memory { IsErr result → is_free_in (rows_in seats.now self.old) (λ u. A.allows permits.old u t.t.0 x.0 op) t.t.0 x.0 op ≡ true }
        ensures first { IsErr result → lock_in (rows_in seats.now self.old) t.t.0 x.0 ≡ None }
        ensures unchanged { OnErr result (rows_in seats.now self.new ≡ rows_in seats.now self.old) }
        ensures objects { self.new.store.objects ≡ self.old.store.objects }
        ensures permits { permits.new ≡ permits.old }
    {
        self.laws(seats);
        self.order.laws();
        self.store.laws();
        let request = Request { asker: t, x, op };
        let look = self.store.look(Some(number), request, seats, permits);
        if look.blocked {
            self.pending[t.at] = Some((x, op));
            return Ok(Asked::Pending);
        }
        self.store.grant(look, number, t.at, x, op)?;
        self.pending[t.at] = None;
        Ok(Asked::Granted)
    }

    /// Returns who blocks `t` from `op` on `x`, and nobody else: each other transaction that has a lock on `x`, granted or
    /// suspended, which conflicts with `op`, and that does not allow `t`. It looks at the locks at which `is_free` looks. The
    /// seat of `t` matters only to the permits. The number of `x` is given, if it has one.
    ///
    /// If memory runs out, the answer is `NoMemory`.
    pub fn blockers<A: Allows>(
        &self,
        alloc: Global,
        seats: &Seats,
        t: Sitter,
        number: Option<usize>,
        x: Ob,
        op: Op,
        permits: &mut A,
    ) -> Result<NameSet, NoMemory>
        requires tied { IsTied self.now seats.now }
        requires number { number ≡ number_in self.now.store.objects x.0 }
        requires asker { A.can_ask permits.old seats.now t }
        ensures named { IfOk result (λ found. (u : ℕ) → lists found.keys u ≡ is_blocker_in (rows_in seats.now self.now) (λ n. A.allows permits.old n t.t.0 x.0 op) t.t.0 x.0 op u) }
        ensures permits { permits.new ≡ permits.old }
    {
        self.laws(seats);
        self.order.laws();
        self.store.laws();
        let request = Request { asker: t, x, op };
        self.store.blockers(alloc, number, request, seats, permits)
    }

    /// Returns whether a lock of `t` on `x` carries `op`. It looks at the locks of `t` or at those on `x`, whichever are fewer.
    /// The number of `x` is given, if it has one.
    pub fn carries(&self, seats: &Seats, t: Sitter, number: Option<usize>, x: Ob, op: Op) -> bool
        requires tied { IsTied self.now seats.now }
        requires sits { HasSeat seats.now t }
        requires number { number ≡ number_in self.now.store.objects x.0 }
        ensures { result ≡ carries (rows_in seats.now self.now) t.t.0 x.0 op }
    {
        self.laws(seats);
        self.order.laws();
        self.store.laws();
        match self.store.key_on(number, t.at, x) {
            Some(key) => self.store.lock(key).ops.has(op),
            None => false,
        }
    }

    /// Returns the request of `t` that waits, if there is one. `t` is enrolled.
    pub fn pending(&self, seats: &Seats, t: Sitter) -> Option<(Ob, Op)>
        requires tied { IsTied self.now seats.now }
        requires sits { HasSeat seats.now t }
        requires enrolled { is_some (enrolled_in (rows_in seats.now self.now) t.t.0) ≡ true }
        ensures { result ≡ request_in (rows_in seats.now self.now) t.t.0 }
    {
        self.laws(seats);
        self.order.laws();
        self.store.laws();
        request_at(&self.pending, t.at)
    }

    /// Returns the state of the lock that `t` has on `x`, if it has one. It looks at the locks of `t` or at those on `x`,
    /// whichever are fewer. The number of `x` is given, if it has one.
    pub fn status(
        &self,
        seats: &Seats,
        t: Sitter,
        number: Option<usize>,
        x: Ob,
    ) -> Option<LockState>
        requires tied { IsTied self.now seats.now }
        requires sits { HasSeat seats.now t }
        requires number { number ≡ number_in self.now.store.objects x.0 }
        ensures status { result ≡ status_in (rows_in seats.now self.now) t.t.0 x.0 }
        ensures valid { IsValid (rows_in seats.now self.now) }
    {
        self.laws(seats);
        self.order.laws();
        self.store.laws();
        let key = self.store.key_on(number, t.at, x)?;
        Some(self.store.lock(key).state())
    }

    /// Returns the object at the index among those on which `t` has a lock, from 0 in order of first grant or move, and
    /// `None` past the end. It looks at the locks of `t` up to it.
    pub fn held_by(&self, seats: &Seats, t: Sitter, n: usize) -> Option<Ob>
        requires tied { IsTied self.now seats.now }
        requires sits { HasSeat seats.now t }
        ensures held { result ≡ slice_get (held_in (rows_in seats.now self.now) t.t.0) n }
        ensures valid { IsValid (rows_in seats.now self.now) }
    {
        self.laws(seats);
        self.order.laws();
        self.store.laws();
        self.store.held_at(t.at, n)
    }

    /// Returns the objects of the set on which `t` has a lock, in the order of `held_by`. It looks at the locks of `t`
    /// once. If the set lists one object, its number is given, if it has one, and the lock on it is looked for at those of `t`
    /// or those on the object, whichever are fewer.
    ///
    /// If memory runs out, the answer is `NoMemory`. Up to eight objects take no memory.
    pub fn held_among(
        &self,
        alloc: Global,
        seats: &Seats,
        t: Sitter,
        objects: &ObSet,
        only: Option<usize>,
    ) -> Result<HeldObjects, NoMemory>
        requires tied { IsTied self.now seats.now }
        requires sits { HasSeat seats.now t }
        requires only { (x : Object) → only_in objects.now ≡ Some x → only ≡ number_in self.now.store.objects x.0 }
        ensures held { IfOk result (λ held. held.items ≡ filter (λ (x : Ob). in_set objects.now x.0) (held_in (rows_in seats.now self.now) t.t.0)) }
        ensures valid { IsValid (rows_in seats.now self.now) }
    {
        self.laws(seats);
        self.order.laws();
        self.store.laws();
        self.store.held_among(alloc, t.at, objects, only)
    }

    /// Returns the waiter at the index among those whose pending request is on `x`, in order of enrolment from 0, with
    /// the operation that it asked for, and `None` past the end. It looks at the transactions enrolled up to it.
    pub fn waiters(&self, seats: &Seats, x: Ob, n: usize) -> Option<(Txn, Op)>
        requires { IsTied self.now seats.now }
        ensures { result ≡ slice_get (waiters_in (rows_in seats.now self.now) x.0) n }
    {
        self.order.laws();
        let mut before = n;
        let mut next = self.order.first(0);
        'enrolled: while let Some(c) = next {
            if let Some(waiter) = waiter_at(seats, &self.pending, c, x) {
                if before == 0 {
                    return Some(waiter);
                }
                before -= 1;
            }
            next = self.order.next(c);
        }
        None
    }

    /// Ends the enrolment of `t`, with its locks and its pending request, so that it may leave its seat. If it is not
    /// enrolled, no row changes. The cost is that of its own locks.
    pub fn release(&mut self, seats: &Seats, t: Sitter)
        requires tied { IsTied self.old seats.now }
        requires sits { HasSeat seats.now t }
        ensures tied { IsTied self.new seats.now }
        ensures leaves { (left : Seated) → ((c : ℕ) → seat left c ≡ cond (c == t.at) None (seat seats.now c)) → IsTied self.new left × (rows_in left self.new ≡ rows_in seats.now self.new) }
        ensures released { rows_in seats.now self.new ≡ release_in (λ n. n == t.t.0) (rows_in seats.now self.old) }
        ensures objects { self.new.store.objects ≡ self.old.store.objects }
    {
        self.order.laws();
        self.store.release(t.at);
        self.order.unlink(t.at);
        self.order.laws();
    }

    /// Makes the locks of `giver` on objects of the set those of `taker`; both are enrolled. If `taker` has no lock on an
    /// object, the lock keeps its operations and its state, and comes at the end of those of `taker`, in the order of
    /// `giver`. If it has one, the two become one in its place, with the operations of both, which is suspended. Pending
    /// requests stay. If both are one, nothing changes.
    ///
    /// It takes no memory. It looks at each lock of `giver`. If the set lists one object, its number is given, if it has one, and
    /// the lock on it is looked for at those of `giver` or those on the object, whichever are fewer. For each lock that moves it
    /// looks so for that of `taker`.
    #[inline(always)]
    pub fn hand_over(
        &mut self,
        seats: &Seats,
        giver: Sitter,
        taker: Sitter,
        objects: &ObSet,
        only: Option<usize>,
    )
        requires tied { IsTied self.old seats.now }
        requires giver_sits { HasSeat seats.now giver }
        requires taker_sits { HasSeat seats.now taker }
        requires giver { is_some (enrolled_in (rows_in seats.now self.old) giver.t.0) ≡ true }
        requires taker { is_some (enrolled_in (rows_in seats.now self.old) taker.t.0) ≡ true }
        requires only { (x : Object) → only_in objects.now ≡ Some x → only ≡ number_in self.old.store.objects x.0 }
        ensures tied { IsTied self.new seats.now }
        ensures done { rows_in seats.now self.new ≡ hand_over_in giver.t.0 taker.t.0 objects.now (rows_in seats.now self.old) }
        ensures valid { IsValid (rows_in seats.now self.old) }
        ensures objects { self.new.store.objects ≡ self.old.store.objects }
    {
        self.laws(seats);
        self.order.laws();
        if giver.t == taker.t {
            return;
        }
        self.store.hand_over(giver.at, taker.at, objects, only);
    }

    /// Says what holds of each table that is tied to the seats, for proofs. It does nothing.
    pub fn laws(&self, seats: &Seats)
        requires { IsTied self.now seats.now }
        ensures valid { IsValid (rows_in seats.now self.now) }
        ensures order { IsConsistent self.now.order }
    {
        let _ = seats;
        self.order.laws();
        self.store.laws();
    }

    /// Says that nobody has a lock on an object without a number, for proofs. It does nothing.
    pub(crate) fn unnumbered(&self, seats: &Seats, x: Ob)
        requires { IsTied self.now seats.now }
        ensures free { number_in self.now.store.objects x.0 ≡ None → (allows : ℕ → Bool) (t : ℕ) (op : Operation) → is_free_in (rows_in seats.now self.now) allows t x.0 op ≡ true }
        ensures none { number_in self.now.store.objects x.0 ≡ None → (t : ℕ) → lock_in (rows_in seats.now self.now) t x.0 ≡ None }
    {
        let _ = seats;
        let _ = x;
        self.order.laws();
        self.store.laws();
    }
}
