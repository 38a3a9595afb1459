//! Seats in the buckets of their names: chain 0 lists the seats that are free, and each chain after it those of a bucket.

ghost use Rattle.std.specs.Prelude.{◌≡◌, ◌≢◌, ℕ, ◌+◌, ◌<◌, ◌≤◌, suc, length, List, [], ◌∷◌, ◌++◌, Some, IfSome, IfNone, OnOk};
ghost use Rattle.asset_chains.specs.Chained.{chain_of, home_of};
ghost use Rattle.asset_names.specs.declared.names.Txn.{Txn};
ghost use Rattle.asset_seats.specs.Bucketed.{bucket_in, name_in, taken, rebucketed, AreBucketed};

use crate::room::add_chains;
use asset_chains::Chains;
use asset_names::{NoMemory, Txn};

/// Returns the bucket of a transaction among `buckets` buckets.
pub(crate) fn bucket_of(t: Txn, buckets: usize) -> usize
    requires { 0 < buckets }
    ensures bucket { result ≡ bucket_in t.0 buckets }
    ensures within { result < buckets }
{
    let mixed = t.0.wrapping_mul(0x9E37_79B9_7F4A_7C15) / 0x1_0000_0000;
    mixed as usize % buckets
}

/// Returns the seat in the chain for which this name is stored, if there is one. The cost is that of the seats in the
/// chain.
pub(crate) fn find(names: &[Txn], chains: &Chains, chain: usize, t: Txn) -> Option<usize>
    requires { length chains.now.homes ≤ length names.now }
    ensures found { IfSome result (λ c. (home_of chains.now c ≡ Some chain) × (name_in names.now c ≡ t)) }
    ensures absent { IfNone result ((c : ℕ) → home_of chains.now c ≡ Some chain → name_in names.now c ≢ t) }
{
    chains.laws();
    let mut next = chains.first(chain);
    'keys: while let Some(key) = next {
        if names[key].0 == t.0 {
            return Some(key);
        }
        next = chains.next(key);
    }
    None
}

/// Moves a key to the end of another chain.
pub(crate) fn move_to(chains: &mut Chains, key: usize, chain: usize)
    requires key { key < length chains.old.homes }
    requires chain { chain < length chains.old.chains }
    ensures home { home_of chains.new key ≡ Some chain }
    ensures homes { (k : ℕ) → k ≢ key → home_of chains.new k ≡ home_of chains.old k }
    ensures last { home_of chains.old key ≢ Some chain → chain_of chains.new chain ≡ chain_of chains.old chain ++ key ∷ [] }
    ensures others { (c : ℕ) → c ≢ chain → home_of chains.old key ≢ Some c → chain_of chains.new c ≡ chain_of chains.old c }
    ensures sizes { (length chains.new.homes ≡ length chains.old.homes) × (length chains.new.chains ≡ length chains.old.chains) }
{
    chains.unlink(key);
    chains.push(chain, key);
}

/// Moves a seat that somebody has to the bucket of the name.
fn rebucket(name: Txn, chains: &mut Chains, buckets: usize, key: usize)
    requires ready { 0 < buckets }
    requires within { buckets < length chains.old.chains }
    requires key { key < length chains.old.homes }
    ensures home { home_of chains.new key ≡ rebucketed (bucket_in name.0 buckets) (home_of chains.old key) }
    ensures homes { (k : ℕ) → k ≢ key → home_of chains.new k ≡ home_of chains.old k }
    ensures free { chain_of chains.new 0 ≡ chain_of chains.old 0 }
    ensures sizes { (length chains.new.homes ≡ length chains.old.homes) × (length chains.new.chains ≡ length chains.old.chains) }
{
    if let Some(chain) = chains.home(key) {
        if chain > 0 {
            move_to(chains, key, 1 + bucket_of(name, buckets));
        }
    }
}

/// Moves each seat that somebody has to the bucket of its name among `buckets` buckets.
fn spread(names: &[Txn], chains: &mut Chains, buckets: usize)
    requires named { length chains.old.homes ≤ length names.now }
    requires ready { 0 < buckets }
    requires within { buckets < length chains.old.chains }
    ensures homes { (k : ℕ) → home_of chains.new k ≡ rebucketed (bucket_in (name_in names.now k).0 buckets) (home_of chains.old k) }
    ensures free { chain_of chains.new 0 ≡ chain_of chains.old 0 }
    ensures sizes { (length chains.new.homes ≡ length chains.old.homes) × (length chains.new.chains ≡ length chains.old.chains) }
{
    let keys = chains.keys();
    let mut key: usize = 0;
    'keys: while key < keys {
        rebucket(names[key], chains, buckets, key);
        key += 1;
    }
}

/// Makes sure that there are more buckets than seats: if there are not, there are twice as many and one, and each seat
/// moves to its bucket. If memory runs out, nobody's seat changes.
///
/// Each seat moves once in about as many calls as there are seats.
pub(crate) fn widen(names: &[Txn], chains: &mut Chains, buckets: &mut usize) -> Result<(), NoMemory>
    requires { AreBucketed names.now chains.old buckets.old }
    ensures seated { AreBucketed names.now chains.new buckets.new }
    ensures ready { OnOk result (0 < buckets.new) }
    ensures seats { (k : ℕ) (t : Txn) → taken (home_of chains.new k) t ≡ taken (home_of chains.old k) t }
    ensures free { chain_of chains.new 0 ≡ chain_of chains.old 0 }
    ensures keys { length chains.new.homes ≡ length chains.old.homes }
{
    chains.laws();
    if chains.keys() < *buckets {
        return Ok(());
    }
    let more = 2 * *buckets + 1;
    add_chains(chains, more)?;
    spread(names, chains, more);
    *buckets = more;
    Ok(())
}

/// Makes a place for one more name than `count`. If memory runs out, the names stay.
pub(crate) fn add_name(names: &mut Vec<Txn>, count: usize) -> Result<(), NoMemory>
    requires { count ≤ length names.old.items }
    ensures there { OnOk result (count < length names.new.items) }
    ensures more { length names.old.items ≤ length names.new.items }
    ensures names { (k : ℕ) → name_in names.new.items k ≡ name_in names.old.items k }
{
    if names.len() > count {
        return Ok(());
    }
    match names.push(Txn(0)) {
        Ok(()) => Ok(()),
        Err(_) => Err(NoMemory),
    }
}
