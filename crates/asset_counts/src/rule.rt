//! What always holds of the word, and what each step on it tells.

use asset_names::Counts;
use atomic_table::{Join, Play, Split, TableRule};

/// What is known at a seat of the word. No value of it is made: proofs alone speak of it.
pub struct Last {
    /// Whether it is the publisher's.
    pub publishes: bool,
    /// The counts that it published or saw last.
    pub last: Counts,
}

/// The rule: the word shows what the publisher published last, and nobody has seen more.
pub struct Published;

impl TableRule<u8, Last, ()> for Published {
    ghost use Rattle.asset_counts.specs.Shown.{ShowsPublished, publisher, no_counts};

    ghost holds = { λ _. ShowsPublished };

    ghost first = { λ _. publisher no_counts };
}

/// The step that publishes.
pub struct Publish;

impl Play<u8, Last> for Publish {
    ghost use Rattle.asset_counts.specs.Shown.{published};

    ghost then = { published };
}

/// The step that reads.
pub struct Look;

impl Play<u8, Last> for Look {
    ghost use Rattle.asset_counts.specs.Shown.{looked};

    ghost then = { looked };
}

/// The step that makes a new seat, by a load.
pub struct Enter;

impl Play<u8, Last> for Enter {
    ghost use Rattle.asset_counts.specs.Shown.{entered};

    ghost then = { entered };
}

/// How a seat is split, and how two are joined: the new one starts with what the old one saw, and the one that takes
/// another in keeps what it saw.
pub struct Keep;

impl Split<Last> for Keep {
    ghost use Rattle.asset_counts.specs.Shown.{reader};

    ghost left = { λ v. v };

    ghost right = { λ v. reader v.last };
}

impl Join<Last> for Keep {
    ghost use Rattle.asset_counts.specs.Shown.{reader, no_counts};

    ghost both = { λ v w. v };

    ghost spent = { reader no_counts };
}
