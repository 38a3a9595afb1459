//! Laws of the definitions, each on the contract of a function that does nothing.

ghost use Rattle.std.specs.Prelude.{◌≡◌, ◌≢◌, ℕ, ◌+◌, ◌↔◌, true, List, ◌∷◌, length};
ghost use Rattle.asset_names.specs.declared.steps.Step.{Step};
ghost use Rattle.asset_names.specs.declared.replies.Reply.{Reply};
ghost use Rattle.asset_names.specs.declared.replies.Outcome.TheVariants.{Answer};
ghost use Rattle.asset_names.specs.Steps.{Opening, Entry, applied};
ghost use Rattle.asset_names.specs.Answers.{IsLegal, answer};
ghost use Rattle.asset_names.specs.declared.operations.Op.{Op};
ghost use Rattle.asset_names.specs.Operations.{conflict, holds, allows, free};
ghost use Rattle.asset_names.specs.Room.{fits, changes_status};
ghost use Rattle.asset_names.specs.Arrows.{Arrow, linked, Chain};
ghost use Rattle.asset_laws.specs.Textbook.{Allowing};

/// Two names are linked exactly if a chain of arrows leads from the first to the second.
pub fn linked_is_chain()
    ensures { (arrows : List Arrow) (a b : ℕ) → (linked arrows a b ≡ true) ↔ Chain arrows a b }
{}

/// A transaction allows another exactly if a chain of live ones leads from the first to the second, each of which permits the
/// next, by name or as anybody.
pub fn allowing_is_chain()
    ensures { (steps : List Step) (u t x : ℕ) (op : Op) → (allows steps u t x op ≡ true) ↔ Allowing steps x op u t }
{}

/// A complete, a commit or an abort that changes a status finds room in every legal history whose entries and
/// owed entries fit the capacity: with its entry added, they fit again.
pub fn endings_find_room()
    ensures { (opening : Opening) (entries : List Entry) (step : Step) (reply : Reply) (capacity : ℕ) →
        IsLegal opening entries → fits (applied entries) (length entries) capacity ≡ true →
        answer opening (applied entries) step ≡ Answer reply → changes_status (applied entries) step reply ≡ true →
        fits (applied ((step, reply) ∷ entries)) (length entries + 1) capacity ≡ true }
{}

/// An object is free for an operation exactly if every other transaction that holds it by a conflicting
/// operation allows it.
pub fn free_is_allowed_by_holders()
    ensures { (steps : List Step) (t x : ℕ) (op : Op) → (free steps t x op ≡ true)
        ↔ ((u : ℕ) (other : Op) → holds steps u x other ≡ true → conflict other op ≡ true → u ≢ t → allows steps u t x op ≡ true) }
{}
