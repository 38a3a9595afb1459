//! What a run of each model means in a legal history that has its calls. Others may act before, between and after the calls; three
//! laws ask that they do nothing in the name of one transaction.

ghost use Rattle.std.specs.Prelude.{◌≡◌, List, ◌∷◌, ◌++◌, [], Contains, Bool, Result, Ok, Some};
ghost use Rattle.asset_names.specs.declared.names.Txn.{Txn};
ghost use Rattle.asset_names.specs.declared.sets.ObSet.{ObSet};
ghost use Rattle.asset_names.specs.declared.sets.ObSet.TheVariants.{All};
ghost use Rattle.asset_names.specs.declared.statuses.End.TheVariants.{Committed as Commits, Aborted as Aborts};
ghost use Rattle.asset_names.specs.declared.steps.Step.TheVariants.{Delegate, Commit, Abort};
ghost use Rattle.asset_names.specs.declared.replies.Reply.TheVariants.{Done, Committed, Aborted};
ghost use Rattle.asset_names.specs.declared.replies.Fault.{Fault};
ghost use Rattle.asset_names.specs.Steps.{Opening, Entry, applied};
ghost use Rattle.asset_names.specs.Endings.{end_of};
ghost use Rattle.asset_names.specs.Answers.{IsLegal};
ghost use Rattle.asset_models.specs.declared.parts.Part.{Part};
ghost use Rattle.asset_models.specs.declared.parts.ModelEnd.{ModelEnd};
ghost use Rattle.asset_models.specs.declared.parts.ModelEnd.TheVariants.{Committed as IsCommitted, Aborted as IsAborted, Undone};
ghost use Rattle.asset_models.specs.Courses.{IsRun, contingent_course, distributed_course, cooperating_course, nested_course, split_course, join_course, saga_course};
ghost use Rattle.asset_model_laws.specs.Amid.{IsAmid};
ghost use Rattle.asset_model_laws.specs.Ended.{AllEnded};
ghost use Rattle.asset_model_laws.specs.Contingent.{OneAtMost};
ghost use Rattle.asset_model_laws.specs.Nested.{HandsOver, AllHandOver};
ghost use Rattle.asset_model_laws.specs.Handing.{is_anothers, StandsAs, TakesAll};
ghost use Rattle.asset_model_laws.specs.Sagas.{Pair, IsUndone};

/// The reply to a commit or an abort says how the transaction has ended, then and ever after.
pub fn replies_say_the_end()
    ensures committed { (opening : Opening) (newer older : List Entry) (t : Txn) → IsLegal opening (newer ++ (Commit t, Committed) ∷ older) → end_of (applied (newer ++ (Commit t, Committed) ∷ older)) t.0 ≡ Some Commits }
    ensures fell { (opening : Opening) (newer older : List Entry) (t : Txn) → IsLegal opening (newer ++ (Commit t, Aborted) ∷ older) → end_of (applied (newer ++ (Commit t, Aborted) ∷ older)) t.0 ≡ Some Aborts }
    ensures aborted { (opening : Opening) (newer older : List Entry) (t : Txn) → IsLegal opening (newer ++ (Abort t, Aborted) ∷ older) → end_of (applied (newer ++ (Abort t, Aborted) ∷ older)) t.0 ≡ Some Aborts }
{}

/// Of the parts that `contingent` initiated all have aborted, but perhaps the last. So at most one has committed, and all
/// before that one have aborted, however the model ended.
pub fn contingent_commits_one_at_most()
    ensures { (opening : Opening) (others : Entry → Bool) (parts : List Part) (old calls new : List Entry) (result : Result ModelEnd Fault) → IsLegal opening new →
        IsRun (contingent_course parts) [] calls result → IsAmid others old calls new → OneAtMost parts calls new }
{}

/// If `distributed` answers `Committed`, all parts have committed, and if it answers `Aborted`, all have aborted.
pub fn distributed_ends_in_one_way()
    ensures committed { (opening : Opening) (others : Entry → Bool) (parts : List Part) (old calls new : List Entry) → IsLegal opening new →
        IsRun (distributed_course parts) [] calls (Ok IsCommitted) → IsAmid others old calls new → AllEnded Commits new parts }
    ensures aborted { (opening : Opening) (others : Entry → Bool) (parts : List Part) (old calls new : List Entry) → IsLegal opening new →
        IsRun (distributed_course parts) [] calls (Ok IsAborted) → IsAmid others old calls new → AllEnded Aborts new parts }
{}

/// If `cooperating` answers `Committed`, both parts have committed, and if it answers `Aborted`, both have aborted.
pub fn cooperating_ends_in_one_way()
    ensures committed { (opening : Opening) (others : Entry → Bool) (p q : Part) (obs : ObSet) (old calls new : List Entry) → IsLegal opening new →
        IsRun (cooperating_course p q obs) [] calls (Ok IsCommitted) → IsAmid others old calls new → AllEnded Commits new (p ∷ q ∷ []) }
    ensures aborted { (opening : Opening) (others : Entry → Bool) (p q : Part) (obs : ObSet) (old calls new : List Entry) → IsLegal opening new →
        IsRun (cooperating_course p q obs) [] calls (Ok IsAborted) → IsAmid others old calls new → AllEnded Aborts new (p ∷ q ∷ []) }
{}

/// Whatever `nested` answers, each child whose hand-over was answered `Done` has handed over to its parent all for which it was
/// responsible, and the parent is responsible for that as long as nobody else acts in its name. If it answers `Committed`, each
/// child has done so or has aborted, and the parent has committed.
pub fn nested_takes_over()
    ensures handed { (opening : Opening) (others : Entry → Bool) (p : Part) (children : List Part) (old calls new : List Entry) (result : Result ModelEnd Fault) (child : Txn) → IsLegal opening new →
        IsRun (nested_course p children) [] calls result → IsAmid others old calls new → Contains calls (Delegate child p.name All, Done) → HandsOver child p.name new }
    ensures kept { (opening : Opening) (p : Part) (children : List Part) (old calls new : List Entry) (result : Result ModelEnd Fault) (child : Txn) → IsLegal opening new →
        IsRun (nested_course p children) [] calls result → IsAmid (is_anothers p.name) old calls new → Contains calls (Delegate child p.name All, Done) → TakesAll child p.name All new }
    ensures children { (opening : Opening) (others : Entry → Bool) (p : Part) (children : List Part) (old calls new : List Entry) → IsLegal opening new →
        IsRun (nested_course p children) [] calls (Ok IsCommitted) → IsAmid others old calls new → AllHandOver p.name new children }
    ensures parent { (opening : Opening) (others : Entry → Bool) (p : Part) (children : List Part) (old calls new : List Entry) → IsLegal opening new →
        IsRun (nested_course p children) [] calls (Ok IsCommitted) → IsAmid others old calls new → end_of (applied new) p.name.0 ≡ Some Commits }
{}

/// If `split` answers `Committed` and nobody else acted in the name of `u`, then what was split off is `u`'s for ever, and `u`
/// has committed. So its writes stand, however `t` and the others end later.
pub fn split_stands_for_ever()
    ensures { (opening : Opening) (t u : Txn) (obs : ObSet) (old calls new : List Entry) → IsLegal opening new →
        IsRun (split_course t u obs) [] calls (Ok IsCommitted) → IsAmid (is_anothers u) old calls new → StandsAs opening t u obs new }
{}

/// If `join` answers `Committed` and nobody else acted in the name of `u`, then `u` is responsible for all for which `t` was.
pub fn joined_is_its_takers()
    ensures { (opening : Opening) (t u : Txn) (old calls new : List Entry) → IsLegal opening new →
        IsRun (join_course t u) [] calls (Ok IsCommitted) → IsAmid (is_anothers u) old calls new → TakesAll t u All new }
{}

/// If `saga` answers `Undone`, then the first parts of some pairs committed, that of the next pair aborted, and the second
/// parts of these pairs committed in reverse order.
pub fn saga_is_undone_in_reverse()
    ensures { (opening : Opening) (others : Entry → Bool) (pairs : List Pair) (old calls new : List Entry) → IsLegal opening new →
        IsRun (saga_course pairs) [] calls (Ok Undone) → IsAmid others old calls new → IsUndone pairs calls new }
{}
