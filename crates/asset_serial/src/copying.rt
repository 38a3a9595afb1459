//! Entries that are copied from one history to another.

ghost use Rattle.std.specs.Prelude.{◌≡◌};
ghost use Rattle.asset_serial.specs.Following.{entry_listed_at, entries_at, entries_in, followed_by, CanFollow};

use asset_buckets::Buckets;
use asset_history::History;

/// Appends the entry at the index, if there is one.
fn copy_entry(history: &History, index: usize, left: &mut History)
    requires { CanFollow left.old (entry_listed_at history.now.entries index) }
    ensures { left.new ≡ followed_by left.old (entry_listed_at history.now.entries index) }
{
    if index < history.len() {
        left.append_from(history, index);
    }
}

/// Appends the entries at the indices, in this order.
fn copy_block(history: &History, block: &[usize], left: &mut History)
    requires { CanFollow left.old (entries_at history.now.entries block.now) }
    ensures { left.new ≡ followed_by left.old (entries_at history.now.entries block.now) }
{
    'indices: for i in 0..block.len() {
        copy_entry(history, block[i], left);
    }
}

/// Appends the entries of one block after another.
pub(crate) fn copy_blocks(history: &History, blocks: &Buckets, left: &mut History)
    requires { CanFollow left.old (entries_in history.now.entries blocks.now) }
    ensures { left.new ≡ followed_by left.old (entries_in history.now.entries blocks.now) }
{
    'numbers: for i in 0..blocks.count() {
        copy_block(history, blocks.bucket(i), left);
    }
}
