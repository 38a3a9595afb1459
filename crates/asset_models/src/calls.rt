//! Who answers the steps of a model.

use asset_core::Core;
use asset_names::{Fault, Outcome, Step};

/// A facility that a model asks. Its meaning is the list of recorded calls, newest first.
pub trait Asset {
    ghost use Rattle.std.specs.Prelude.{◌≡◌, List};
    ghost use Rattle.asset_names.specs.Steps.{Entry};
    ghost use Rattle.asset_models.specs.Calls.{called};

    ghost calls: { Self → List Entry };

    /// Asks for one step. An answer is recorded with its step; a wait and a fault record nothing.
    fn step(&mut self, step: Step) -> Result<Outcome, Fault>
        ensures calls { calls self.new ≡ called (calls self.old) step result };

    /// Asks for one step that is lent, as `step` does. Models ask by this call, so a facility that can do without a copy
    /// of the step writes it.
    fn step_lent(&mut self, step: &Step) -> Result<Outcome, Fault>
        ensures calls { calls self.new ≡ called (calls self.old) step.now result }
    {
        self.step(*step)
    }
}

impl Asset for Core {
    ghost use Rattle.std.specs.Prelude.{◌≡◌};
    ghost use Rattle.asset_core.specs.Stepped.{IsStep};
    ghost use Rattle.asset_models.specs.Calls.{called, calls_of};

    ghost calls = { calls_of };

    #[tactic(auto, unfolding(crate::specs::Calls::called, crate::specs::Calls::calls_of, asset_entries::specs::Recorded::after, asset_entries::specs::Recorded::with_entry))]
    fn step(&mut self, step: Step) -> Result<Outcome, Fault>
        ensures calls { calls_of self.new ≡ called (calls_of self.old) step result }
        ensures asked { IsStep self.old step result self.new }
    {
        Core::step(self, step)
    }

    #[tactic(auto, unfolding(crate::specs::Calls::called, crate::specs::Calls::calls_of, asset_entries::specs::Recorded::after, asset_entries::specs::Recorded::with_entry))]
    fn step_lent(&mut self, step: &Step) -> Result<Outcome, Fault>
        ensures calls { calls_of self.new ≡ called (calls_of self.old) step.now result }
        ensures asked { IsStep self.old step.now result self.new }
    {
        Core::step_lent(self, step)
    }
}
