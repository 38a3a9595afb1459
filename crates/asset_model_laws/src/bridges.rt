//! From the clause of a model to the premises of the laws.

ghost use Rattle.std.specs.Prelude.{◌≡◌, List, [], ◌++◌, length, map, reverse, Bool, Result};
ghost use Rattle.asset_names.specs.declared.replies.Fault.{Fault};
ghost use Rattle.asset_names.specs.Steps.{Opening, Entry};
ghost use Rattle.asset_names.specs.Answers.{IsLegal};
ghost use Rattle.asset_audit.specs.Audited.{Call};
ghost use Rattle.asset_models.specs.Clients.{entry_of};
ghost use Rattle.asset_models.specs.declared.parts.ModelEnd.{ModelEnd};
ghost use Rattle.asset_models.specs.Courses.{Course, IsRun};
ghost use Rattle.asset_model_laws.specs.Amid.{IsAmid};
ghost use Rattle.asset_model_laws.specs.Clients.{AgreesWith, OthersPass, OthersBetweenPass};

/// A run over a `Core` stands in its history: the new entries are the calls of the run, on top of the old ones.
pub fn run_stands_in_its_facility()
    ensures { (course : Course) (old new : List Entry) (result : Result ModelEnd Fault) → IsRun course old new result →
        (calls : List Entry) × (new ≡ calls ++ old) × IsRun course [] calls result × ((others : Entry → Bool) → IsAmid others old calls new) }
{}

/// The calls of a run by a client are those by which the list of its session has grown. The run stands in each history with which that
/// list agrees, as the lists do with the history of a closed manager whose audit is `Ok`. The other entries are those that are not of
/// the list. If a test is asked only of those between the first call of the run and its last, then the run stands in the history up
/// to its last call.
pub fn run_stands_in_the_history_of_its_client()
    ensures all { (course : Course) (entries : List Entry) (earlier : List (List Call)) (before later : List Call) (result : Result ModelEnd Fault) (others : Entry → Bool) →
        AgreesWith entries earlier later → OthersPass others entries later →
        IsRun course (reverse (map entry_of before)) (reverse (map entry_of later)) result →
        (calls : List Entry) × (old : List Entry) × (reverse (map entry_of later) ≡ calls ++ reverse (map entry_of before)) × IsRun course [] calls result × IsAmid others old calls entries }
    ensures between { (course : Course) (entries : List Entry) (earlier : List (List Call)) (before later : List Call) (result : Result ModelEnd Fault) (others : Entry → Bool) →
        AgreesWith entries earlier later → OthersBetweenPass others entries later (length before) →
        IsRun course (reverse (map entry_of before)) (reverse (map entry_of later)) result →
        (calls : List Entry) × (old : List Entry) × (upto : List Entry) × (rest : List Entry) × (entries ≡ rest ++ upto) × (reverse (map entry_of later) ≡ calls ++ reverse (map entry_of before)) × IsRun course [] calls result × IsAmid others old calls upto × ((opening : Opening) → IsLegal opening entries → IsLegal opening upto) }
{}
