//! A law of who allows whom, on the contract of a function that does nothing.

ghost use Rattle.std.specs.Prelude.{◌≡◌, ℕ, ◌↔◌, ◌⊎◌, true, List};
ghost use Rattle.asset_names.specs.declared.operations.Op.{Op};
ghost use Rattle.asset_names.specs.Arrows.{Chain};
ghost use Rattle.asset_permits.specs.Descriptors.{Descriptor, arrows_for, one_covers, opens, allows_by};

/// A transaction allows another exactly if a chain of permits leads from the one to the other, or from the one to an opener,
/// each of which covers the operation on the object. So only what is covered and what is opened matters, and no order.
pub fn allowed_is_chain()
    ensures chain { (descriptors : List Descriptor) (u t x : ℕ) (op : Op) →
        (allows_by descriptors u t x op ≡ true) ↔ (Chain (arrows_for descriptors x op) u t ⊎ ((a : ℕ) × Chain (arrows_for descriptors x op) u a × (opens descriptors a x op ≡ true))) }
    ensures covered { (descriptors others : List Descriptor) (x : ℕ) (op : Op) → ((u t : ℕ) → one_covers descriptors u t x op ≡ one_covers others u t x op) → ((u : ℕ) → opens descriptors u x op ≡ opens others u x op) →
        (u t : ℕ) → allows_by descriptors u t x op ≡ allows_by others u t x op }
{}
