//! The law of scripts that reports print.

ghost use Rattle.std.specs.Prelude.{ℕ, ◌*◌, ◌≤◌, List, length};
ghost use Rattle.asset_names.specs.Steps.{Entry};
ghost use Rattle.asset_cli.specs.Again.{FitThroughout, PrunedRunsAgain, SerialRunsAgain};

/// A script that is printed of the history that another one leaves runs again: without its dead groups, or of those who
/// committed one after another, over a history with room for its entries, it prints the replies that its steps had. A
/// capacity of three times the entries has room for them.
pub fn printed_scripts_run_again()
    ensures pruned { (bytes : List ℕ) (capacity : ℕ) → PrunedRunsAgain bytes capacity }
    ensures room { (entries : List Entry) (capacity : ℕ) → 3 * length entries ≤ capacity → FitThroughout entries capacity }
    ensures serial { (bytes : List ℕ) (capacity : ℕ) → SerialRunsAgain bytes capacity }
{}
