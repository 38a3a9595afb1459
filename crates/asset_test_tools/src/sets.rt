//! Sets of objects for tests.

use asset_names::{Ob, ObList, ObSet};

/// Returns the set of these objects.
pub fn listed(objects: &[Ob]) -> ObSet {
    match ObList::of(objects) {
        Ok(list) => ObSet::Listed(list),
        Err(_) => ObSet::All,
    }
}
