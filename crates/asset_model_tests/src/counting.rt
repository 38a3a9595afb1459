//! A facility that counts what it is asked.

ghost use Rattle.std.specs.Prelude.{◌≡◌};

use asset_core::Core;
use asset_models::Asset;
use asset_names::{Fault, Outcome, Reply, Step};

/// A facility that counts how often it is asked and how often it answers, and keeps its last answer.
#[derive(Drop)]
pub struct Counting {
    /// The facility.
    pub core: Core,
    /// How often it was asked.
    pub asks: u32,
    /// How often it answered.
    pub answers: usize,
    /// The step that it answered last, and the reply.
    pub last: Option<(Step, Reply)>,
}

impl Counting {
    /// Returns a facility that was asked nothing yet.
    pub fn new(core: Core) -> Counting {
        Counting {
            core,
            asks: 0,
            answers: 0,
            last: None,
        }
    }

    /// Notes the answer to a step, if it is one.
    fn note(&mut self, step: &Step, outcome: &Result<Outcome, Fault>)
        ensures { self.new.core ≡ self.old.core }
    {
        self.asks = self.asks.wrapping_add(1);
        if let Ok(Outcome::Answer(reply)) = outcome {
            self.answers = self.answers.wrapping_add(1);
            self.last = Some((*step, *reply));
        }
    }
}

impl Asset for Counting {
    ghost use Rattle.asset_models.specs.Calls.{calls_of};

    ghost calls = { λ counting. calls_of counting.core };

    fn step(&mut self, step: Step) -> Result<Outcome, Fault> {
        let asked = &step;
        let outcome = Asset::step(&mut self.core, *asked);
        self.note(asked, &outcome);
        outcome
    }
}
