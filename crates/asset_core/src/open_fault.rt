//! Why nothing was opened.

use asset_names::Ob;
use thiserror::Error;

/// Why the facility was not opened.
#[derive(Clone, Copy, Debug, PartialEq, Eq, Error)]
pub enum OpenFault {
    /// The capacity is not from 1 to 1,000,000.
    #[error("the capacity has to be from 1 to 1,000,000")]
    BadCapacity,
    /// An object was given twice; this is the least such object.
    #[error("object {} was given twice", .0.0)]
    DoubleObject(Ob),
    /// Memory ran out.
    #[error("no memory")]
    NoMemory,
}
