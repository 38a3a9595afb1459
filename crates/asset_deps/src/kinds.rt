//! Sets of kinds, along whose dependencies a search goes.

use crate::link::Link;
use asset_marks::Pick;
use asset_names::Kind;

/// The kinds of dependencies along which a search goes from source to dependent.
#[derive(Clone, Copy)]
pub(crate) enum Kinds {
    /// Group commits, which make classes.
    Class,
    /// Group commits and abort dependencies, along which an abort spreads.
    Dooming,
    /// Commit and abort dependencies, whose dependents commit only after their sources have ended.
    Order,
    /// All kinds.
    All,
}

impl Kinds {
    ghost use Rattle.std.specs.Prelude.{◌≡◌};
    ghost use Rattle.asset_deps.specs.Reached.{has_kind};

    /// Returns whether the kind is among them.
    #[tactic(auto, unfolding(crate::specs::Reached::has_kind))]
    fn has(self, kind: Kind) -> bool
        ensures { result ≡ has_kind self kind }
    {
        match (self, kind) {
            (Kinds::Class, Kind::Gc) => true,
            (Kinds::Class, _) => false,
            (Kinds::Dooming, Kind::Cd) => false,
            (Kinds::Dooming, _) => true,
            (Kinds::Order, Kind::Gc) => false,
            (Kinds::Order, _) => true,
            (Kinds::All, _) => true,
        }
    }
}

impl Pick<Link> for Kinds {
    ghost use Rattle.asset_deps.specs.Reached.{of_kinds};

    ghost passes = { of_kinds };

    #[tactic(auto, unfolding(crate::specs::Reached::of_kinds))]
    fn passes(&self, link: &Link) -> bool {
        self.has(link.kind())
    }
}
