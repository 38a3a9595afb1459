//! Why a job script was not read.

ghost use Rattle.std.specs.Prelude.{◌≡◌};
ghost use Rattle.asset_jobs.specs.declared.faults.JobsFault.TheVariants.{NoMemory};

use std::alloc::AllocError;
use thiserror::Error;

/// Why a job script was not read.
#[derive(Clone, Copy, Debug, PartialEq, Eq, Error)]
pub enum JobsFault {
    /// The line of this number is bad, and those after it were not looked at. Lines count from 1.
    #[error("line {0}: bad command")]
    BadLine(u64),
    /// The reader failed, gave more than 67,108,864 bytes, or was asked 134,217,728 times.
    #[error("read fault")]
    Read,
    /// Memory ran out.
    #[error("no memory")]
    NoMemory,
}

impl From<AllocError> for JobsFault {
    ghost from_gives = { λ _ fault. fault ≡ NoMemory };

    fn from(_error: AllocError) -> JobsFault {
        JobsFault::NoMemory
    }
}
