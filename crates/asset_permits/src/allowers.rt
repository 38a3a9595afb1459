//! Marks on all who allow one transaction to do an operation on an object.

ghost use Rattle.std.specs.Prelude.{◌≡◌, ◌<◌, true, Some};
ghost use Rattle.asset_marks.specs.Searched.{AreWithin};
ghost use Rattle.asset_permits.specs.Marked.{arrows_back, HasMarked};

use crate::permit::Permit;
use crate::search::{Covered, Search};
use asset_chains::{Crossed, Side};
use asset_marks::{Marks, spread};

/// A question that marks answer: who allows the transaction in the seat to do the operation on the object.
#[derive(Clone, Copy, PartialEq, Eq)]
pub(crate) struct Question {
    /// The seat of the one who is allowed.
    pub taker: usize,
    /// The object and the operation.
    pub covered: Covered,
}

/// Marks all who allow what the question asks, unless they are marked already. It goes from the one who is allowed back along the
/// permits that cover what the question asks.
pub(crate) fn mark_allowers(
    permits: &Crossed<Permit>,
    marks: &mut Marks,
    marked: &mut Option<Question>,
    question: Question,
)
    requires marked { HasMarked permits.now marks.old.nodes marked.old }
    requires within { AreWithin (arrows_back question.covered permits.now) marks.old.size }
    requires taker { question.taker < marks.old.size }
    ensures size { marks.new.size ≡ marks.old.size }
    ensures question { marked.new ≡ Some question }
    ensures marked { HasMarked permits.now marks.new.nodes (Some question) }
{
    if *marked == Some(question) {
        return;
    }
    let search = Search {
        permits,
        side: Side::Column,
        covered: question.covered,
    };
    spread(&search, question.taker, marks);
    *marked = Some(question);
}
