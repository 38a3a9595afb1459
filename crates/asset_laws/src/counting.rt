//! Laws of the counts of a history.

ghost use Rattle.std.specs.Prelude.{◌≤◌, List, ◌∷◌, length};
ghost use Rattle.asset_names.specs.Steps.{Entry};
ghost use Rattle.asset_names.specs.Counted.{counts_of, IsBelow};

/// No entry lowers a count; no more transactions have committed than there are entries, and no more have aborted.
pub fn counts_never_fall()
    ensures grown { (entry : Entry) (older : List Entry) → IsBelow (counts_of older) (counts_of (entry ∷ older)) }
    ensures most { (entries : List Entry) → ((counts_of entries).committed ≤ length entries) × ((counts_of entries).aborted ≤ length entries) }
{}
