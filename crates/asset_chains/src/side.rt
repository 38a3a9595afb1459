//! Rows and columns.

/// One of the two partitions of the items of a `Crossed`.
#[derive(Clone, Copy)]
pub enum Side {
    /// The rows.
    Row,
    /// The columns.
    Column,
}

impl Side {
    ghost use Rattle.std.specs.Prelude.{◌≡◌};
    ghost use Rattle.asset_chains.specs.Crossed.{other_side};

    /// Returns the other side.
    pub fn other(self) -> Side
        ensures { result ≡ other_side self }
    {
        match self {
            Side::Row => Side::Column,
            Side::Column => Side::Row,
        }
    }
}
