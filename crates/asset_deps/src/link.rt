//! Dependencies, as they are stored.

use asset_names::{Kind, Txn};
use std::marker::Model;
use std::mem::size_of;

/// A dependency that stands: the dependent transaction depends on the source.
#[derive(Drop)]
pub(crate) struct Link {
    kind: Kind,
    source: Txn,
    dependent: Txn,
}

const _: () = prove!(size_of::<Link>() == 24);

impl Model for Link {
    ghost use Rattle.asset_deps.specs.Dependencies.{Dependency};

    ghost Value = { Dependency };

    ghost view = { λ l. record { kind = l.kind; source = l.source.0; dependent = l.dependent.0 } };
}

impl Link {
    ghost use Rattle.std.specs.Prelude.{◌≡◌};
    ghost use Rattle.asset_deps.specs.Dependencies.{Dependency, same_dependency};

    /// Returns the dependency of this kind of the second transaction on the first.
    pub(crate) fn of(kind: Kind, source: Txn, dependent: Txn) -> Link
        ensures { result ≡ record { kind = kind; source = source.0; dependent = dependent.0 } }
    {
        Link {
            kind,
            source,
            dependent,
        }
    }

    /// Returns the kind of the dependency.
    pub(crate) fn kind(&self) -> Kind
        ensures { result ≡ self.now.kind }
    {
        self.kind
    }

    /// Returns whether the two are the same.
    #[tactic(auto, unfolding(crate::specs::Dependencies::same_dependency))]
    pub(crate) fn is_same(&self, other: &Link) -> bool
        ensures { result ≡ same_dependency self.now other.now }
    {
        same_kind(self.kind, other.kind)
            && self.source == other.source
            && self.dependent == other.dependent
    }
}

ghost use Rattle.std.specs.Prelude.{◌≡◌};
ghost use Rattle.asset_names.specs.Paths.{same_kind};

/// Returns whether the two are the same kind.
#[tactic(auto, unfolding(asset_names::specs::Paths::same_kind))]
fn same_kind(kind: Kind, other: Kind) -> bool
    ensures { result ≡ same_kind kind other }
{
    match (kind, other) {
        (Kind::Cd, Kind::Cd) => true,
        (Kind::Ad, Kind::Ad) => true,
        (Kind::Gc, Kind::Gc) => true,
        _ => false,
    }
}
