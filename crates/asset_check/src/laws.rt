//! What a check has to do with a run.
ghost use Rattle.std.specs.Prelude.{ℕ, Bool, List};
ghost use Rattle.asset_check.specs.Laws.{EndsAsRun, IsQuietIfFinished, NamesFirst};
ghost use Rattle.asset_reasons.specs.Mistakes.{HasReasonIfBad};
ghost use Rattle.asset_scripts.specs.declared.prints.Prints.{Prints};

/// A line has a reason exactly if it is bad. A check ends as a run of the same bytes does. It is silent if no line is bad, and
/// otherwise names the line first at which the run stops.
pub fn checks_end_as_runs()
    ensures reason { (line : List ℕ) → HasReasonIfBad line }
    ensures end { (bytes : List ℕ) (prints : Prints) (capacity : ℕ) → EndsAsRun bytes prints capacity }
    ensures quiet { (bytes : List ℕ) → IsQuietIfFinished bytes }
    ensures first { (bytes : List ℕ) (n : ℕ) → NamesFirst bytes n }
{}
