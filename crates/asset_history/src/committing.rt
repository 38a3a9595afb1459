//! The commits that a history answers.

ghost use Rattle.std.specs.Prelude.{◌≡◌, reverse, slice_get};
ghost use Rattle.asset_entries.specs.Committing.{commit_at};

use crate::history::History;
use asset_names::Txn;

/// Returns the transaction whose commit is answered with `Committed` at the index, oldest first from 0, and `None` if the
/// entry there is not such a commit. The step is not read back.
#[inline(always)]
pub fn committed_at(history: &History, index: usize) -> Option<Txn>
    ensures { result ≡ commit_at (slice_get (reverse history.now.entries) index) }
{
    history.commit_at(index)
}
