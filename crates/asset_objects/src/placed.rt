//! The objects with their values in place and their update records.

ghost use Rattle.std.specs.Prelude.{◌≡◌, ℕ, None, IfSome, OnSome};
ghost use Rattle.asset_names.specs.Sets.{HasNoDouble};
ghost use Rattle.slab.specs.Slab.{slab_len};
ghost use Rattle.asset_seats.specs.Seated.{Seated, seat};
ghost use Rattle.asset_records.specs.Listed.{lists_in, IsTied};
ghost use Rattle.asset_names.specs.Steps.{objects_of};
ghost use Rattle.asset_objects.specs.Placed.{IsOpened};

use asset_names::Ob;
use asset_records::Records;
use indexmap::IndexSet;
use std::alloc::Global;

/// The objects in the order of the opening, and by the index of each its value and its update records.
#[derive(Drop)]
pub(crate) struct Placed {
    pub(crate) objects: IndexSet<Ob>,
    pub(crate) values: Vec<i64>,
    pub(crate) records: Records,
}

impl Placed {
    ghost use Rattle.std.specs.Prelude.{◌≡◌, false, ◌∷◌, [], ◌++◌};
    ghost use Rattle.asset_seats.specs.Seated.{Seated};
    ghost use Rattle.asset_records.specs.Listed.{lists_in, IsTied, IsNoMore};
    ghost use Rattle.std.specs.Bool.{OnTrue};
    ghost use Rattle.asset_names.specs.Arrows.{lists};
    ghost use Rattle.asset_names.specs.Sets.{numbers};
    ghost use Rattle.asset_objects.specs.Placed.{word};

    /// Adds an object with its value and no record; returns whether it was added. It is not if it is there already or
    /// memory runs out.
    pub(crate) fn add(&mut self, x: Ob, value: i64) -> bool
        ensures objects { OnTrue result (self.new.objects.keys ≡ self.old.objects.keys ++ x ∷ []) }
        ensures values { OnTrue result (self.new.values.items ≡ self.old.values.items ++ value ∷ []) }
        ensures records { OnTrue result (lists_in self.new.records ≡ lists_in self.old.records ++ [] ∷ []) }
        ensures fits { OnTrue result (word value ≡ value) }
        ensures tied { (seats : Seated) → IsTied self.old.records seats → IsTied self.new.records seats }
        ensures few { IsNoMore self.old.records self.new.records }
        ensures different { OnTrue result (lists (numbers self.old.objects.keys) x.0 ≡ false) }
    {
        if self.values.push(value).is_err() || self.records.add_object().is_err() {
            return false;
        }
        match self.objects.insert(x) {
            Ok(is_new) => is_new,
            Err(_) => false,
        }
    }
}

/// Returns the objects of an opening at their opening values, and `None` if an object is given twice or memory runs
/// out.
pub(crate) fn place_all(alloc: Global, opening: &[(Ob, i64)]) -> Option<Placed>
    ensures placed { IfSome result (λ placed. IsOpened opening.now placed.objects.keys placed.values.items (lists_in placed.records)) }
    ensures tied { IfSome result (λ placed. (seats : Seated) → ((c : ℕ) → seat seats c ≡ None) → IsTied placed.records seats) }
    ensures len { IfSome result (λ placed. slab_len placed.records.items ≡ 0) }
    ensures different { OnSome result (HasNoDouble (objects_of opening.now)) }
{
    let Ok(objects) = IndexSet::with_capacity(alloc, opening.len()) else {
        return None;
    };
    let mut placed = Placed {
        objects,
        values: Vec::new(alloc),
        records: Records::new(alloc),
    };
    'pairs: for &(x, value) in opening {
        if !placed.add(x, value) {
            return None;
        }
    }
    Some(placed)
}
