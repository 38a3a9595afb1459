//! What always holds of the queue of jobs, and what each step on it tells.

use crossbeam_queue::protocol::{Join, Lesson, Outcome, Protocol, Split};
use std::collections::LinkedList;
use std::marker::{Brand, PhantomData};

/// What has a ticket: a job, and what came of one.
pub trait Ticketed {
    ghost use Rattle.asset_queue.specs.Once.{Ticket};

    /// Its place in the order in which jobs were made, and its name.
    ghost ticket: { Self → Ticket };
}

/// Which jobs may be in a queue. No value of it is made: a call picks them.
pub trait Origin<J> {
    ghost from: { J → Type 0 };
}

impl<J> Origin<J> for Brand {
    ghost use Rattle.std.specs.Prelude.{⊤};

    ghost from = { λ job. ⊤ };
}

/// What a pass of the queue has put and taken. No value of it is made: proofs alone speak of it.
pub struct Hand {
    /// Its parts of the right to know the whole, of which there are 128.
    pub parts: u128,
    /// The tickets of the jobs that it put.
    pub put: LinkedList<(u64, u64)>,
    /// The tickets of the jobs that it took.
    pub taken: LinkedList<(u64, u64)>,
}

/// The rule: each job that was put stands once, in the queue or as taken by one pass, and the queue holds only jobs that may
/// be there.
pub struct Once<O>(PhantomData<O>);

impl<J: Ticketed, O: Origin<J>> Protocol<J, Hand> for Once<O> {
    ghost use Rattle.std.specs.Prelude.{[]};
    ghost use Rattle.asset_queue.specs.Once.{hand, Holds};

    ghost holds = { Holds J.ticket O.from };

    ghost first = { hand 128 [] [] };
}

/// How a pass is split, and how two are joined: half of the parts go to the new one, which has put and taken nothing, and
/// the one that takes another in has what both have.
pub struct Halves;

impl Split<Hand> for Halves {
    ghost use Rattle.std.specs.Prelude.{◌-◌, ◌/◌, []};
    ghost use Rattle.asset_queue.specs.Once.{hand};

    ghost left = { λ v. hand (v.parts - v.parts / 2) v.put v.taken };

    ghost right = { λ v. hand (v.parts / 2) [] [] };
}

impl Join<Hand> for Halves {
    ghost use Rattle.std.specs.Prelude.{◌+◌, ◌++◌, []};
    ghost use Rattle.asset_queue.specs.Once.{hand};

    ghost both = { λ v w. hand (v.parts + w.parts) (v.put ++ w.put) (v.taken ++ w.taken) };

    ghost spent = { hand 0 [] [] };
}

/// The step that puts a job.
pub struct Puts;

impl<J: Ticketed> Outcome<J, Hand> for Puts {
    ghost use Rattle.std.specs.Prelude.{◌≡◌, ◌++◌, ◌∷◌, []};
    ghost use Rattle.asset_queue.specs.Once.{hand};

    ghost then = { λ v x w. w ≡ hand v.parts (v.put ++ J.ticket x ∷ []) v.taken };
}

impl<J: Ticketed> Lesson<J, Hand> for Puts {
    ghost use Rattle.std.specs.Prelude.{map};
    ghost use Rattle.asset_queue.specs.Once.{Accounts};

    ghost fact = { λ v items. Accounts v (map J.ticket items) };
}

/// The step that takes a job, which is one of those that may be there. A pass with all parts has then taken no more than it
/// put. If none is left, a pass with all parts knows that each that was put was taken.
pub struct Takes<O>(PhantomData<O>);

impl<J: Ticketed, O: Origin<J>> Outcome<J, Hand> for Takes<O> {
    ghost use Rattle.std.specs.Prelude.{◌≡◌, ◌++◌, ◌∷◌, []};
    ghost use Rattle.asset_queue.specs.Once.{hand, Within};

    ghost then = { λ v x w. (w ≡ hand v.parts v.put (v.taken ++ J.ticket x ∷ [])) × Within w × O.from x };
}

impl<J: Ticketed, O: Origin<J>> Lesson<J, Hand> for Takes<O> {
    ghost use Rattle.std.specs.Prelude.{map};
    ghost use Rattle.asset_queue.specs.Once.{Accounts};

    ghost fact = { λ v items. Accounts v (map J.ticket items) };
}
