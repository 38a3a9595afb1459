//! Within which limits the program works: those that are asked for, or the defaults.

ghost use Rattle.std.specs.Prelude.{◌≡◌, ◌≤◌, IfSome};
ghost use Rattle.asset_core.specs.OpenFaults.{IsCapacity};
ghost use Rattle.asset_requests.specs.Limits.{AreLimits, capacity_of, limits_by, turns_of, workers_of};

/// What the arguments ask of a job script.
#[derive(Clone, Copy, Debug, PartialEq, Eq)]
pub struct JobsRequest {
    /// The capacity of the history, if an argument gives one.
    pub capacity: Option<u32>,
    /// The number of threads, if an argument gives one.
    pub workers: Option<u32>,
    /// How often a step that waits is asked again, if an argument says it.
    pub turns: Option<u32>,
}

/// Within which limits jobs are run.
#[derive(Clone, Copy, Debug, PartialEq, Eq)]
pub struct Limits {
    /// The capacity of the history.
    pub capacity: usize,
    /// The number of threads.
    pub workers: usize,
    /// How often a step that waits is asked again.
    pub turns: u32,
}

/// The capacity of a history if no argument gives one.
const DEFAULT_CAPACITY: usize = 10_000;

/// The number of threads if no argument gives one.
const DEFAULT_WORKERS: usize = 2;

/// How often a step that waits is asked again if no argument says it.
const DEFAULT_TURNS: u32 = 1_000;

/// Returns the capacity that is requested, or the default one if none is. `None` if the number that is
/// requested is not from 1 to 1,000,000.
#[tactic(auto, unfolding(crate::specs::Limits::capacity_of))]
pub fn capacity_or_default(requested: Option<u32>) -> Option<usize>
    ensures value { result ≡ capacity_of requested }
    ensures in_range { IfSome result (λ capacity. IsCapacity capacity) }
{
    match requested {
        None => Some(DEFAULT_CAPACITY),
        Some(n) if n >= 1 && n <= 1_000_000 => Some(n as usize),
        Some(_) => None,
    }
}

/// Returns the number of threads that is requested, or the default one if none is. `None` if it is not from 1 to 64.
#[tactic(auto, unfolding(crate::specs::Limits::workers_of))]
fn workers_or_default(requested: Option<u32>) -> Option<usize>
    ensures value { result ≡ workers_of requested }
    ensures in_range { IfSome result (λ workers. (1 ≤ workers) × (workers ≤ 64)) }
{
    match requested {
        None => Some(DEFAULT_WORKERS),
        Some(n) if n >= 1 && n <= 64 => Some(n as usize),
        Some(_) => None,
    }
}

/// Returns the turns that are requested, or the default ones if none are. `None` if they are more than 1,000,000.
#[tactic(auto, unfolding(crate::specs::Limits::turns_of))]
fn turns_or_default(requested: Option<u32>) -> Option<u32>
    ensures value { result ≡ turns_of requested }
    ensures in_range { IfSome result (λ turns. turns ≤ 1000000) }
{
    match requested {
        None => Some(DEFAULT_TURNS),
        Some(n) if n <= 1_000_000 => Some(n),
        Some(_) => None,
    }
}

/// Returns the limits that are requested, with the defaults for those that no argument gives. `None` if one of them is out
/// of range.
#[tactic(auto, unfolding(crate::specs::Limits::limits_by))]
pub fn limits_of(request: JobsRequest) -> Option<Limits>
    ensures value { result ≡ limits_by request }
    ensures in_range { IfSome result AreLimits }
{
    let capacity = capacity_or_default(request.capacity)?;
    let workers = workers_or_default(request.workers)?;
    let turns = turns_or_default(request.turns)?;
    Some(Limits {
        capacity,
        workers,
        turns,
    })
}
