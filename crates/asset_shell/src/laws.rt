//! What a conversation has to do with a run.
ghost use Rattle.std.specs.Prelude.{ℕ, List};
ghost use Rattle.asset_shell.specs.Laws.{PrintsAsRun, StaysSaid};

/// A conversation prints what a run of the same bytes prints, and goes on after a bad line; without a bad line it prints
/// nothing else. What it has said of complete lines stays when further bytes come.
pub fn conversations_print_as_runs()
    ensures as_run { (bytes : List ℕ) (capacity : ℕ) → PrintsAsRun bytes capacity }
    ensures stays { (bytes more : List ℕ) (capacity : ℕ) → StaysSaid bytes more capacity }
{}
