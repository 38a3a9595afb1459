//! The objects of a permit, as they are stored.

use asset_names::{NoMemory, Ob, ObSet};
use std::alloc::Global;

/// Every object, or the objects of a list. Only a list of two objects or more takes memory, that of those objects alone.
#[derive(Drop)]
pub(crate) enum PermitObjects {
    /// Every object.
    All,
    /// The object of a list of one.
    One(Ob),
    /// The objects of the list.
    Listed(Vec<Ob>),
}

impl PermitObjects {
    ghost use Rattle.std.specs.Prelude.{◌≡◌, IfOk};
    ghost use Rattle.asset_names.specs.InSet.{in_set};
    ghost use Rattle.asset_permits.specs.Descriptors.{same_objects};
    ghost use Rattle.asset_permits.specs.Stored.{set_of};

    /// Stores a set. It answers `NoMemory` if memory runs out.
    #[tactic(auto, unfolding(asset_names::specs::InSet::only_in))]
    pub(crate) fn of(set: &ObSet, alloc: Global) -> Result<PermitObjects, NoMemory>
        ensures { IfOk result (λ objects. set_of objects ≡ set.now) }
    {
        if let Some(x) = set.only() {
            return Ok(PermitObjects::One(x));
        }
        match set {
            ObSet::All => Ok(PermitObjects::All),
            ObSet::Listed(list) => match Vec::from_slice(alloc, list.objects()) {
                Ok(objects) => Ok(PermitObjects::Listed(objects)),
                Err(_) => Err(NoMemory),
            },
        }
    }

    /// Returns whether the object is in the set.
    pub(crate) fn has(&self, x: Ob) -> bool
        ensures { result ≡ in_set (set_of self.now) x.0 }
    {
        match self {
            PermitObjects::All => true,
            PermitObjects::One(only) => only.0 == x.0,
            PermitObjects::Listed(objects) => is_listed(objects, x),
        }
    }

    /// Returns whether this is the set.
    #[tactic(auto, unfolding(crate::specs::Descriptors::same_objects))]
    pub(crate) fn is_same(&self, set: &ObSet) -> bool
        ensures { result ≡ same_objects (set_of self.now) set.now }
    {
        match (self, set) {
            (PermitObjects::All, ObSet::All) => true,
            (PermitObjects::One(only), ObSet::Listed(list)) => [*only].as_slice() == list.objects(),
            (PermitObjects::Listed(objects), ObSet::Listed(list)) => {
                objects.as_slice() == list.objects()
            }
            _ => false,
        }
    }
}

ghost use Rattle.std.specs.Prelude.{◌≡◌, ◌==◌};
ghost use Rattle.std.specs.List.{list_any};

/// Returns whether the object is listed.
fn is_listed(objects: &[Ob], x: Ob) -> bool
    ensures { result ≡ list_any (λ o. o.0 == x.0) objects.now }
{
    objects.iter().any(|o| o.0 == x.0)
}
