//! Parts of models for the tests.

use asset_models::{Act, Part};
use asset_names::Txn;
use std::alloc::{AllocError, Global};

/// Returns a list of these acts.
fn listed(alloc: Global, acts: &[Act]) -> Result<Vec<Act>, AllocError> {
    let mut list = Vec::new(alloc);
    list.extend_from_slice(acts)?;
    Ok(list)
}

/// Returns a part with these acts. If memory runs out once, its list is made again; if it runs out twice, the part has no
/// acts.
pub fn part(alloc: Global, name: u64, acts: &[Act]) -> Part {
    let made = match listed(alloc, acts) {
        Ok(list) => Ok(list),
        Err(AllocError) => listed(alloc, acts),
    };
    let acts = match made {
        Ok(list) => list,
        Err(AllocError) => Vec::new(alloc),
    };
    Part {
        name: Txn(name),
        acts,
    }
}
