//! The laws of reports: why somebody waits, and deadlocks. They stand on the contracts of functions that do nothing.

ghost use Rattle.std.specs.Prelude.{◌≡◌, ◌↔◌, ℕ, true, ◌==◌, List, ◌++◌, length, Some};
ghost use Rattle.asset_names.specs.declared.names.Ob.{Ob};
ghost use Rattle.asset_names.specs.declared.operations.Op.{Op};
ghost use Rattle.asset_names.specs.declared.steps.Step.{Step};
ghost use Rattle.asset_names.specs.Answers.{may_commit};
ghost use Rattle.asset_names.specs.Endings.{live};
ghost use Rattle.asset_names.specs.Operations.{free};
ghost use Rattle.asset_core.specs.Pending.{Pending};
ghost use Rattle.asset_waits.specs.Chains.{WaitChain, OneLineNames};
ghost use Rattle.asset_waits.specs.Waiting.{blockers_of, unfinished_of, outside_sources_of};

/// One line of a cycle names two transactions exactly if a chain of waits leads from each to the other. So a transaction has
/// a place in such a line exactly if a chain of waits leads from it back to it.
pub fn deadlocks_are_cycles_of_waits()
    ensures { (steps : List Step) (pending : List Pending) (t u : ℕ) →
        (OneLineNames steps pending t u ↔ (WaitChain steps pending t u × WaitChain steps pending u t)) }
{}

/// An object is free for a request exactly if nobody blocks the request, and a live transaction may commit exactly if nobody
/// keeps it from that. So a report names somebody for each pending request that has to wait, and for each transaction that
/// has completed and has to wait with its commit.
pub fn waits_are_explained()
    ensures requests { (steps : List Step) (t : ℕ) (x : Ob) (op : Op) → free steps t x.0 op ≡ (length (blockers_of steps t (Some (x, op))) == 0) }
    ensures commits { (steps : List Step) (t : ℕ) → live steps t ≡ true → may_commit steps t ≡ (length (unfinished_of steps t ++ outside_sources_of steps t) == 0) }
{}
