//! Why a script was not run to its end.
ghost use Rattle.std.specs.Prelude.{◌≡◌};
ghost use Rattle.asset_scripts.specs.declared.faults.ScriptFault.TheVariants.{NoMemory};

use std::alloc::AllocError;
use thiserror::Error;

/// Why a script was not run to its end.
#[derive(Clone, Copy, Debug, PartialEq, Eq, Error)]
pub enum ScriptFault {
    /// The reader failed, or came to no end: read whole, it gave more than 67,108,864 bytes or was asked 134,217,728
    /// times; in a conversation it was asked 70,368,744,177,664 times.
    #[error("read fault")]
    Read,
    /// The writer failed.
    #[error("write fault")]
    Write,
    /// Memory ran out.
    #[error("no memory")]
    NoMemory,
}

impl From<AllocError> for ScriptFault {
    ghost from_gives = { λ _ fault. fault ≡ NoMemory };

    fn from(_error: AllocError) -> ScriptFault {
        ScriptFault::NoMemory
    }
}
