//! The transactions that a step acts on.

ghost use Rattle.std.specs.Prelude.{◌≡◌};
ghost use Rattle.asset_names.specs.Groups.{actor, partner};

use crate::{Step, Txn};

/// Returns the transaction that the step acts on, the first of two. A parent is not acted on.
#[inline(always)]
#[tactic(auto, unfolding(crate::specs::Groups::actor))]
pub fn actor(step: &Step) -> Txn
    ensures { result ≡ actor step.now }
{
    match step {
        Step::Initiate { t, .. } => *t,
        Step::Begin { t } => *t,
        Step::Read { t, .. } => *t,
        Step::Write { t, .. } => *t,
        Step::Add { t, .. } => *t,
        Step::Complete { t } => *t,
        Step::Permit { giver, .. } => *giver,
        Step::PermitAny { giver, .. } => *giver,
        Step::Delegate { giver, .. } => *giver,
        Step::Depend { a, .. } => *a,
        Step::Commit { t } => *t,
        Step::Abort { t } => *t,
        Step::WaitFor { t } => *t,
    }
}

/// Returns the second transaction that the step acts on. Of a step on one transaction, this is that one.
#[inline(always)]
#[tactic(auto, unfolding(crate::specs::Groups::actor, crate::specs::Groups::partner))]
pub fn partner(step: &Step) -> Txn
    ensures { result ≡ partner step.now }
{
    match step {
        Step::Permit { taker, .. } => *taker,
        Step::Delegate { taker, .. } => *taker,
        Step::Depend { b, .. } => *b,
        _ => actor(step),
    }
}
