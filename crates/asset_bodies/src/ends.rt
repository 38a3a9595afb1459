//! How a list of calls says that a transaction ended.

ghost use Rattle.std.specs.Prelude.{◌≡◌};
ghost use Rattle.asset_bodies.specs.Ends.{end_after, job_end};

use asset_names::{Refusal, Reply, Step, Txn};

/// How a transaction ended, as its last commit or abort was answered.
#[derive(Clone, Copy, PartialEq, Eq, Debug)]
pub enum JobEnd {
    /// It has committed.
    Committed,
    /// It has aborted.
    Aborted,
    /// Neither was answered so: it was not asked, or waits, or met a fault, or a refusal other than that it is too late.
    Unsettled,
}

/// Returns what is known of the transaction after one call more.
fn end_after(t: Txn, end: JobEnd, call: &(usize, Step, Reply)) -> JobEnd
    ensures { result ≡ end_after t.0 end call.now }
{
    let about = match call.1 {
        Step::Commit { t: u } => u,
        Step::Abort { t: u } => u,
        _ => return end,
    };
    if about.0 != t.0 {
        return end;
    }
    match call.2 {
        Reply::Committed => JobEnd::Committed,
        Reply::Aborted => JobEnd::Aborted,
        Reply::Refused(Refusal::TooLate(u)) => {
            if u.0 == t.0 {
                JobEnd::Committed
            } else {
                JobEnd::Unsettled
            }
        }
        _ => JobEnd::Unsettled,
    }
}

/// Returns how the transaction ended, by the last of its commits and aborts among these calls: `Committed` if it was
/// answered so or that it is too late, `Aborted` if it was answered so, and else `Unsettled`.
pub fn job_end(t: Txn, calls: &[(usize, Step, Reply)]) -> JobEnd
    ensures { result ≡ job_end t.0 calls.now }
{
    let mut end = JobEnd::Unsettled;
    'calls: for call in calls {
        end = end_after(t, end, call);
    }
    end
}
