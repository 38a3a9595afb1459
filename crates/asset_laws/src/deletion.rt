//! Laws of deletion: what is left of a legal history without dead groups, and who shares a group.

ghost use Rattle.std.specs.Prelude.{◌≡◌, ◌≢◌, ◌<◌, ◌^◌, ℕ, ℤ, true, false, List, ◌∷◌, ◌++◌, length, Some};
ghost use Rattle.asset_names.specs.declared.names.Txn.{Txn};
ghost use Rattle.asset_names.specs.declared.names.Ob.{Ob};
ghost use Rattle.asset_names.specs.declared.operations.Op.{Op};
ghost use Rattle.asset_names.specs.declared.steps.Step.{Step};
ghost use Rattle.asset_names.specs.declared.steps.Step.TheVariants.{Read};
ghost use Rattle.asset_names.specs.declared.replies.Reply.TheVariants.{Value};
ghost use Rattle.asset_names.specs.declared.statuses.End.TheVariants.{Committed};
ghost use Rattle.asset_names.specs.Steps.{Opening, Entry, applied};
ghost use Rattle.asset_names.specs.Endings.{end_of};
ghost use Rattle.asset_names.specs.Operations.{conflict, holds, value};
ghost use Rattle.asset_names.specs.Groups.{same_group, dead, stays, without};
ghost use Rattle.asset_names.specs.Sources.{Numbered, source, source_value, added, with_added, IsAlone, IsOwnOrCommitted, AreOwnOrCommitted};
ghost use Rattle.asset_names.specs.Answers.{IsLegal, answer};
ghost use Rattle.asset_names.specs.Room.{fits};
ghost use Rattle.asset_laws.specs.Renumbered.{source_number, writing, outcome_read, renumbered, zeroed, IsWrittenOn, AreAddedOn};

/// What is left of a legal history without chosen dead groups is legal: every remaining step, with the reply that it
/// got, is answered so again. Groups stay or go whole, and each one that is not dead stays.
pub fn history_without_dead_groups_is_legal()
    ensures legal { (opening : Opening) (entries : List Entry) (chosen : List ℕ) → IsLegal opening entries → IsLegal opening (without entries chosen) }
    ensures unsplit { (entries : List Entry) (chosen : List ℕ) (a b : ℕ) → same_group entries a b ≡ true → stays entries chosen a ≡ stays entries chosen b }
    ensures undead { (entries : List Entry) (chosen : List ℕ) (n : ℕ) → dead entries n ≡ false → stays entries chosen n ≡ true }
{}

/// In a dead group nobody has committed, and its members are dead together.
pub fn dead_groups_have_not_committed()
    ensures uncommitted { (entries : List Entry) (t n : ℕ) → dead entries t ≡ true → same_group entries t n ≡ true → end_of (applied entries) n ≢ Some Committed }
    ensures together { (entries : List Entry) (t n : ℕ) → same_group entries t n ≡ true → dead entries t ≡ dead entries n }
{}

/// Two transactions that hold one object by conflicting operations are of one group, also after delegations.
pub fn conflicting_holders_share_a_group()
    ensures { (opening : Opening) (entries : List Entry) (u t x : ℕ) (op other : Op) → IsLegal opening entries →
        holds (applied entries) u x op ≡ true → holds (applied entries) t x other ≡ true → conflict op other ≡ true → same_group entries u t ≡ true }
{}

/// A transaction that is alone in its group reads opening values, its own writes and adds and committed ones alone: such are
/// the source of each value that it reads, and each add in it. The value of an object is that of its source with the adds after
/// it, and the entry of a source is a write on the object, of that value, and that of an add an add on it.
pub fn alone_reads_own_or_committed()
    ensures alone { (opening : Opening) (newer older : List Entry) (t : Txn) (x : Ob) (v : ℤ) → IsLegal opening (newer ++ (Read t x, Value v) ∷ older) →
        IsAlone (newer ++ (Read t x, Value v) ∷ older) t.0 → IsOwnOrCommitted older t x (source older x.0) × AreOwnOrCommitted older t x (added older x.0) }
    ensures sourced { (opening : Opening) (entries : List Entry) (x : ℕ) → value opening (applied entries) x ≡ with_added (source_value opening x (source entries x)) (added entries x) }
    ensures written { (entries : List Entry) (x : ℕ) (found : Numbered) → source entries x ≡ Some found → IsWrittenOn entries x found }
    ensures added { (entries : List Entry) (x : ℕ) → AreAddedOn entries x (added entries x) }
{}

/// Sources are what is read if each write writes the number of its entry, counted from 1, each add adds 0, and each opening
/// value is 0: that history is legal if the one with values is, and each object has the number of its source. Each step has the
/// same outcome in it but that a read reads the number of its source, and as many entries fit. A number has to be an `i64`.
pub fn sources_are_read_as_numbers()
    ensures legal { (opening : Opening) (entries : List Entry) → length entries < 2 ^ 63 → IsLegal opening entries → IsLegal (zeroed opening) (renumbered entries) }
    ensures read { (opening : Opening) (entries : List Entry) → length entries < 2 ^ 63 → (x : ℕ) → value (zeroed opening) (applied (renumbered entries)) x ≡ source_number (source entries x) }
    ensures outcome { (opening : Opening) (older : List Entry) → length older < 2 ^ 63 → (step : Step) →
        answer (zeroed opening) (applied (renumbered older)) (writing (length older) step) ≡ outcome_read older step (answer opening (applied older) step) }
    ensures room { (entries : List Entry) (count capacity : ℕ) → fits (applied (renumbered entries)) count capacity ≡ fits (applied entries) count capacity }
{}
