//! The law of serial equivalence.

ghost use Rattle.std.specs.Prelude.{◌≡◌, ℕ, false, List};
ghost use Rattle.asset_names.specs.declared.operations.Op.TheVariants.{Write, Add};
ghost use Rattle.asset_names.specs.Steps.{Opening, Entry, applied};
ghost use Rattle.asset_names.specs.Operations.{holds, value};
ghost use Rattle.asset_names.specs.Answers.{IsLegal};
ghost use Rattle.asset_laws.specs.Serial.{serial, CommittedShareNothing, committed_value};

/// If those who committed shared nothing, they would have got the same replies had they run one after another in the
/// order of their commits, with nobody else, and each object would hold what they left in it. An object that no
/// live transaction holds by a write or by an add has that value now. Others may permit, delegate
/// and depend among themselves as they like. It does not extend to groups: a group may commit in two parts with another
/// transaction between them.
pub fn committed_could_have_run_alone()
    ensures legal { (opening : Opening) (entries : List Entry) → IsLegal opening entries → CommittedShareNothing entries → IsLegal opening (serial entries) }
    ensures left { (opening : Opening) (entries : List Entry) → IsLegal opening entries → CommittedShareNothing entries →
        (x : ℕ) → value opening (applied (serial entries)) x ≡ committed_value opening (applied entries) x }
    ensures settled { (opening : Opening) (entries : List Entry) → IsLegal opening entries → CommittedShareNothing entries →
        (x : ℕ) → ((u : ℕ) → holds (applied entries) u x Write ≡ false) → ((u : ℕ) → holds (applied entries) u x Add ≡ false) → value opening (applied entries) x ≡ value opening (applied (serial entries)) x }
{}
