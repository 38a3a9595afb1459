//! The five tables and the seats as one value.

use asset_deps::SeatedDeps;
use asset_locks::SeatedLocks;
use asset_objects::SeatedObjects;
use asset_permits::SeatedPermits;
use asset_seats::Seats;
use asset_trans::Trans;

/// The five tables, and the seats of the live transactions, by which objects, locks, permits and dependencies are asked. An ending
/// changes all of them, and takes them in one borrow.
#[derive(Drop)]
pub(crate) struct Parts {
    pub(crate) seats: Seats,
    pub(crate) trans: Trans,
    pub(crate) objects: SeatedObjects,
    pub(crate) locks: SeatedLocks,
    pub(crate) permits: SeatedPermits,
    pub(crate) deps: SeatedDeps,
}
