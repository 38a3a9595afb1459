//! Runs the plan of each worked case. Only a test can box a body, and each place with a box is proved anew, so one test runs
//! all cases.

ghost use Rattle.std.specs.Prelude.{◌≡◌, Some};

use crate::bodies::{acts, does};
use crate::cases::{begin, other_end};
use crate::children::CHILDREN;
use crate::hostile::HOSTILE;
use crate::rows::ROWS;
use crate::running::initiated;
use asset_runner::{Body, Cause, Finished, Tx};
use std::test::Fail;

#[test]
fn plans_come_as_they_should(rt: HostRuntime) -> Result<(), Fail> {
    let alloc = rt.alloc();
    for case in ROWS.iter().chain(HOSTILE).chain(CHILDREN) {
        let (mut plan, beside) = begin(&rt, alloc, case)?;
        let mut refused = None;
        for (t, task) in case.jobs {
            let task = *task;
            let notes = beside.notes();
            let made: Result<Box<_>, _> = Box::new(
                alloc,
                move |tx: Tx| -> Finished
                    ensures { result.of ≡ Some tx.manager }
                {
                    let work = task.of_child();
                    let child: Body = match Box::new(alloc, move |tx: Tx| does(&rt, tx, work)) {
                        Ok(child) => child,
                        Err(_) => return tx.done(&rt),
                    };
                    acts(&rt, tx, task, child, notes)
                },
            );
            refused = match made {
                Ok(body) => initiated(&rt, &mut plan, *t, body).or(refused),
                Err(_) => Some(Cause::NoMemory),
            };
        }
        let other = other_end(&rt, alloc, plan, beside, case, refused);
        assert_eq!(rt; other, None);
    }
    Ok(())
}
