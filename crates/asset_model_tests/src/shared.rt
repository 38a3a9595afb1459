//! A facility that another client uses too.

ghost use Rattle.std.specs.Prelude.{◌≡◌, ◌<◌, ◌∷◌, [], ◌++◌, reverse, vec_len, vec_capacity};
ghost use Rattle.std.specs.Bool.{OnTrue};
ghost use Rattle.asset_models.specs.Calls.{called};

use asset_core::Core;
use asset_models::Asset;
use asset_names::{Fault, Outcome, Reply, Step};
use asset_test_tools::{abort, begin, commit, complete, initiate, next, read, write};
use std::alloc::Global;

/// A facility in which another client asks a drawn step before each step of a model. Its meaning is the list of the model's
/// own calls, in order.
#[derive(Drop)]
pub struct Shared {
    /// The facility.
    pub core: Core,
    /// The steps of the model that were answered, with their replies.
    pub own: Vec<(Step, Reply)>,
    /// The least number of a transaction of the model. The other client's have the numbers that are 6 and 7 above it.
    pub first: u64,
    /// What the steps of the other client are drawn from.
    pub number: u64,
}

/// Returns a step that another client asks: mostly one of its own transactions, and seldom an abort of one of the model's.
fn drawn_step(first: u64, number: u64) -> Step {
    let t = first.wrapping_add(6 + (number >> 16) % 2);
    let x = 1 + (number >> 24) % 3;
    match (number >> 32) % 32 {
        0..=3 => initiate(t),
        4..=7 => begin(t),
        8..=12 => read(t, x),
        13..=18 => write(t, x, (number % 500) as i64),
        19..=22 => complete(t),
        23..=27 => commit(t),
        28..=30 => abort(t),
        _ => abort(first.wrapping_add((number >> 40) % 2)),
    }
}

/// Appends an item, for which there is room.
fn push_item<T: Copy>(items: &mut Vec<T>, item: &T)
    requires { vec_len items.old < vec_capacity items.old }
    ensures { items.new.items ≡ items.old.items ++ item.now ∷ [] }
{
    items.push_reserved(*item);
}

/// Appends the answer to a step, if it is one. There is room for it.
#[tactic(auto, unfolding(asset_models::specs::Calls::called), using(crate::proofs::CallLemmas::appended_is_called))]
fn note(own: &mut Vec<(Step, Reply)>, asked: &Step, outcome: &Result<Outcome, Fault>)
    requires { vec_len own.old < vec_capacity own.old }
    ensures { reverse own.new.items ≡ called (reverse own.old.items) asked.now outcome.now }
{
    if let Ok(Outcome::Answer(reply)) = outcome {
        push_item(own, &(*asked, *reply));
    }
}

impl Shared {
    /// Returns a facility that no model has asked yet.
    pub fn new(alloc: Global, core: Core) -> Shared {
        Shared {
            core,
            own: Vec::new(alloc),
            first: 0,
            number: 0,
        }
    }

    /// Forgets the calls of the model before, and prepares for one with transactions from `first` on.
    pub fn prepare(&mut self, first: u64, number: u64) {
        self.own.clear();
        self.first = first;
        self.number = number;
    }

    /// Makes room for one more call, and returns whether there is.
    fn make_room(&mut self) -> bool
        ensures items { self.new.own.items ≡ self.old.own.items }
        ensures room { OnTrue result (vec_len self.new.own < vec_capacity self.new.own) }
    {
        self.own.reserve(1).is_ok()
    }

    /// Asks a drawn step of the other client, and then a step of the model.
    fn ask(&mut self, asked: &Step) -> Result<Outcome, Fault>
        ensures { self.new.own ≡ self.old.own }
    {
        self.number = next(self.number);
        let _other = self.core.step(drawn_step(self.first, self.number));
        self.core.step(*asked)
    }

    /// Asks as `ask` does, and notes the answer, for which there is room.
    fn ask_and_note(&mut self, asked: &Step) -> Result<Outcome, Fault>
        requires { vec_len self.old.own < vec_capacity self.old.own }
        ensures { reverse self.new.own.items ≡ called (reverse self.old.own.items) asked.now result }
    {
        let outcome = self.ask(asked);
        note(&mut self.own, asked, &outcome);
        outcome
    }
}

impl Asset for Shared {
    ghost calls = { λ shared. reverse shared.own.items };

    #[tactic(auto, unfolding(asset_models::specs::Calls::called))]
    fn step(&mut self, step: Step) -> Result<Outcome, Fault> {
        if self.make_room() {
            self.ask_and_note(&step)
        } else {
            Err(Fault::NoMemory)
        }
    }
}
