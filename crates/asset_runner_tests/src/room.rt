//! A job with room for more operations than any machine has.

ghost use Rattle.std.specs.Prelude.{◌≡◌, Some};
ghost use Rattle.asset_bodies.specs.Working.{Working, Worked};

use crate::bodies::{Work, does};
use crate::running::{initiated, open_plan};
use asset_names::Txn;
use asset_runner::{Body, Cause, Finished, InitFault, Plan, Tx};
use std::sync::Wait;
use std::test::Fail;

/// Initiates a job with room for more operations than can be counted, and then for more than any machine has; both are refused, and
/// its body comes back. Returns the causes, and why it is then not initiated with room for a few; if it is, that is `None`.
fn causes_of<R: Wait>(rt: &R, plan: &mut Plan, body: Body) -> Option<(Cause, Cause, Option<Cause>)>
    requires ready { (tx : Working) → pre body tx }
    requires same { (tx : Working) (f : Worked) → post body tx f → f.of ≡ Some tx.manager }
{
    let Err(InitFault { body, cause: first }) = plan.initiate_with_room(
        rt,
        Txn(7),
        None,
        body,
        usize::MAX,
    ) else {
        return None;
    };
    let Err(
        InitFault {
            body,
            cause: second,
        },
    ) = plan.initiate_with_room(rt, Txn(7), None, body, usize::MAX / 64)
    else {
        return None;
    };
    Some((first, second, initiated(rt, plan, 7, body)))
}

#[test]
fn room_that_no_machine_has_is_refused_to_a_job(rt: HostRuntime) -> Result<(), Fail> {
    let alloc = rt.alloc();
    let mut plan = open_plan(alloc)?;
    let made: Result<Box<_>, _> = Box::new(alloc, move |tx: Tx| does(&rt, tx, Work::Nothing));
    let body: Body = made?;
    let causes = causes_of(&rt, &mut plan, body);
    drop(plan);
    let wanted = Some((Cause::NoMemory, Cause::NoMemory, None));
    assert_eq!(rt; causes, wanted);
    Ok(())
}
