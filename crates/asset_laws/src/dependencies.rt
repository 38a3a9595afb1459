//! Laws of dependencies: classes, what an abort takes, and cycles.

ghost use Rattle.std.specs.Prelude.{◌≡◌, ℕ, Bool, ◌↔◌, true, cond, List, ◌∷◌, ◌++◌, Some};
ghost use Rattle.asset_names.specs.declared.names.Txn.{Txn};
ghost use Rattle.asset_names.specs.declared.steps.Step.{Step};
ghost use Rattle.asset_names.specs.declared.steps.Step.TheVariants.{Commit, Abort};
ghost use Rattle.asset_names.specs.declared.statuses.End.TheVariants.{Committed, Aborted};
ghost use Rattle.asset_names.specs.Arrows.{Arrow, among};
ghost use Rattle.asset_names.specs.Paths.{leads};
ghost use Rattle.asset_names.specs.Steps.{Opening, Entry, applied};
ghost use Rattle.asset_names.specs.Endings.{class_arrows, order_arrows, live, end_of, same_class};
ghost use Rattle.asset_names.specs.Answers.{IsLegal};
ghost use Rattle.asset_laws.specs.Textbook.{Path, IsAcyclic, IsClosed, ends};

/// The members of a class are never split: each step ends all of them, and in one way, or none of them. So two that are
/// of one class at some point end together and in one way, or neither has ended, however many steps follow.
pub fn classes_are_never_split()
    ensures split { (step : Step) (steps : List Step) (a b : ℕ) → live steps a ≡ true → live steps b ≡ true → same_class steps a b ≡ true →
        end_of (step ∷ steps) a ≡ end_of (step ∷ steps) b }
    ensures ever { (newer older : List Step) (a b : ℕ) → live older a ≡ true → live older b ≡ true → same_class older a b ≡ true →
        end_of (newer ++ older) a ≡ end_of (newer ++ older) b }
{}

/// A commit of a live transaction ends exactly its class, by a commit; everybody else is as before.
pub fn commit_takes_the_class()
    ensures class { (t : Txn) (steps : List Step) (n : ℕ) → live steps t.0 ≡ true → ends (Commit t) steps n ≡ same_class steps t.0 n }
    ensures committed { (t : Txn) (steps : List Step) (n : ℕ) → end_of (Commit t ∷ steps) n ≡ cond (ends (Commit t) steps n) (Some Committed) (end_of steps n) }
{}

/// Those whom an abort of a live transaction ends have aborted, and everybody else is as before. They are the least set
/// that has the transaction and is closed under classes and under abort dependencies: it has the transaction, it is
/// closed, and each closed set that has the transaction has all of them.
pub fn abort_takes_the_least()
    ensures aborted { (t : Txn) (steps : List Step) (n : ℕ) → end_of (Abort t ∷ steps) n ≡ cond (ends (Abort t) steps n) (Some Aborted) (end_of steps n) }
    ensures itself { (t : Txn) (steps : List Step) → live steps t.0 ≡ true → ends (Abort t) steps t.0 ≡ true }
    ensures closed { (t : Txn) (steps : List Step) → live steps t.0 ≡ true → IsClosed steps (ends (Abort t) steps) }
    ensures least { (t : Txn) (steps : List Step) (taken : ℕ → Bool) → live steps t.0 ≡ true → IsClosed steps taken → taken t.0 ≡ true →
        (n : ℕ) → ends (Abort t) steps n ≡ true → taken n ≡ true }
{}

/// One transaction leads to another, as it is computed, exactly if there is a path over classes from the one to the
/// other.
pub fn path_is_leading()
    ensures { (classes orders : List Arrow) (a b : ℕ) → (leads classes orders a b ≡ true) ↔ Path classes orders a b }
{}

/// No cycle of commit and abort dependencies stands among the classes of live transactions in any legal history.
pub fn no_cycle_stands()
    ensures { (opening : Opening) (entries : List Entry) → IsLegal opening entries →
        IsAcyclic (among (live (applied entries)) (class_arrows (applied entries))) (among (live (applied entries)) (order_arrows (applied entries))) }
{}
