//! What becomes of the value over a record that goes.

ghost use Rattle.std.specs.Prelude.{◌≡◌};

/// What becomes of the value over a record that was taken back.
#[derive(Clone, Copy)]
pub enum Mend {
    /// A write went: the value is what the write found, with the adds since.
    Set(i64),
    /// An add of this amount went: the value is that much less.
    Less(i64),
}

impl Mend {
    ghost use Rattle.asset_records.specs.Mended.{mended as as_mended};

    /// Returns what becomes of the value. A difference wraps.
    pub fn mended(self, value: i64) -> i64
        ensures { result ≡ as_mended self value }
    {
        match self {
            Mend::Set(set) => set,
            Mend::Less(amount) => value.wrapping_sub(amount),
        }
    }
}

ghost use Rattle.std.specs.Prelude.{ℕ, Some, None, is_some};
ghost use Rattle.slab.specs.Slab.{get, slab_len};
ghost use Rattle.asset_chains.specs.Chained.{chain_of, home_of, behind};
ghost use Rattle.asset_chains.specs.Crossed.{has_room};
ghost use Rattle.asset_records.specs.Listed.{at_keys, record_at};
ghost use Rattle.asset_records.specs.Mended.{summed, mend_of};
ghost use Rattle.asset_records.specs.Dropped.{first_write, added_at, mended_at, left_to_mend};

use crate::records::Record;
use asset_chains::{Crossed, Side};

/// What stands over a record: the first write, if there is one, and how the value that it found is mended when the record
/// goes.
#[derive(Clone, Copy)]
pub(crate) struct Over {
    pub write: Option<usize>,
    pub mend: Mend,
}

/// Returns what the record at the key added; `None` for a write, and if there is no record.
pub(crate) fn added_at(records: &Crossed<Record>, key: usize) -> Option<i64>
    ensures { result ≡ added_at records.now.items key }
{
    match records.get(key) {
        Some(one) => one.added(),
        None => None,
    }
}

/// Returns the first write over the record at the key, and the value with the adds before it. It looks at each of them.
fn climb(records: &Crossed<Record>, object: usize, key: usize, value: i64) -> (Option<usize>, i64)
    requires home { home_of records.now.rows key ≡ Some object }
    ensures write { result.0 ≡ first_write records.now.items (behind key (chain_of records.now.rows object)) }
    ensures value { result.1 ≡ summed value (at_keys records.now.items (behind key (chain_of records.now.rows object))) }
{
    records.laws();
    let mut value = value;
    let mut next = records.next(Side::Row, key);
    'adds: while let Some(at) = next {
        let Some(amount) = added_at(records, at) else {
            return (Some(at), value);
        };
        value = value.wrapping_add(amount);
        next = records.next(Side::Row, at);
    }
    (None, value)
}

/// Returns what stands over the record at the key.
pub(crate) fn stands_over(records: &Crossed<Record>, object: usize, key: usize) -> Over
    requires home { home_of records.now.rows key ≡ Some object }
    ensures write { result.write ≡ first_write records.now.items (behind key (chain_of records.now.rows object)) }
    ensures mend { result.mend ≡ mend_of (record_at records.now.items key) (at_keys records.now.items (behind key (chain_of records.now.rows object))) }
{
    records.laws();
    let Some(one) = records.get(key).copied() else {
        unreachable!();
    };
    let (write, value) = climb(records, object, key, one.content());
    Over {
        write,
        mend: one.mend(value),
    }
}

/// Mends the value that the write at `next` found. If there is no write, returns what is left to mend.
pub(crate) fn mend_write(
    records: &mut Crossed<Record>,
    next: Option<usize>,
    mend: Mend,
) -> Option<Mend>
    ensures records { (k : ℕ) → get records.new.items k ≡ mended_at records.old.items next mend k }
    ensures left { result ≡ left_to_mend next mend }
    ensures lines { (records.new.rows ≡ records.old.rows) × (records.new.columns ≡ records.old.columns) }
    ensures len { slab_len records.new.items ≡ slab_len records.old.items }
    ensures room { has_room records.new ≡ has_room records.old }
{
    let Some(next) = next else {
        return Some(mend);
    };
    if let Some(one) = records.get(next).copied() {
        records.replace(next, one.mended(mend));
    }
    None
}
