//! Finds and adds names, by buckets of them.

ghost use Rattle.std.specs.Prelude.{◌≡◌, ◌≢◌, ℕ, ◌<◌, ◌≤◌, ◌^◌, ◌+◌, [], ◌∷◌, ◌++◌, length, slice_index, vec_capacity, IfSome, IfNone};
ghost use Rattle.asset_name_groups.specs.Index.{bucket_in, IsIndexed};

/// How many names that follow each other are in buckets that do.
const NAMES_A_BLOCK: u64 = 64;

/// Returns the bucket of a name among `buckets` buckets. Names are mostly given in order, and those of one block are near each other,
/// so that a new name seldom misses the processor's caches.
#[inline(always)]
fn bucket_of(t: u64, buckets: usize) -> usize
    requires { 0 < buckets }
    ensures bucket { result ≡ bucket_in t buckets }
    ensures within { result < buckets }
{
    let block = t / NAMES_A_BLOCK;
    let mixed = block.wrapping_mul(0x9E37_79B9_7F4A_7C15) / 0x1_0000_0000;
    (mixed + t % NAMES_A_BLOCK) as usize % buckets
}

/// Returns the node of the name, if it is there. It looks at the names of one bucket, from the last one to the first.
#[inline(always)]
pub(crate) fn find_name(names: &[u64], before: &[u32], last: &[u32], t: u64) -> Option<usize>
    requires { IsIndexed names.now before.now last.now }
    ensures found { IfSome result (λ k. (k < length names.now) × (slice_index names.now k ≡ t)) }
    ensures absent { IfNone result ((k : ℕ) → k < length names.now → slice_index names.now k ≢ t) }
{
    let mut at = last[bucket_of(t, last.len())];
    'bucket: while at > 0 {
        let k = at as usize - 1;
        if names[k] == t {
            return Some(k);
        }
        at = before[k];
    }
    None
}

/// Adds a name. There is room for it, so it does not allocate.
pub(crate) fn add_name(names: &mut Vec<u64>, before: &mut Vec<u32>, last: &mut Vec<u32>, t: u64)
    requires indexed { IsIndexed names.old.items before.old.items last.old.items }
    requires names_room { length names.old.items < vec_capacity names.old }
    requires before_room { length names.old.items < vec_capacity before.old }
    requires small { length names.old.items + 1 < 2 ^ 32 }
    ensures indexed { IsIndexed names.new.items before.new.items last.new.items }
    ensures added { names.new.items ≡ names.old.items ++ t ∷ [] }
    ensures capacity { (vec_capacity names.old ≤ vec_capacity names.new) × (vec_capacity before.old ≤ vec_capacity before.new) }
{
    let bucket = bucket_of(t, last.len());
    before.push_reserved(last[bucket]);
    names.push_reserved(t);
    last[bucket] = names.len() as u32;
}
