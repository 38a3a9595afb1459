//! What holds of every report of who waits for whom.
ghost use Rattle.std.specs.Prelude.{ℕ, List};
ghost use Rattle.asset_scripts.specs.declared.prints.Prints.{Prints};
ghost use Rattle.asset_standing.specs.Waited.{ReportEndsAsRun};

/// Says that the report of who waits for whom ends as a run of the same script does: with the same bad line, if there is one,
/// and over the same history. It does nothing.
pub fn waits_end_as_runs()
    ensures { (prints : Prints) (bytes : List ℕ) (capacity : ℕ) → ReportEndsAsRun prints bytes capacity }
{}
