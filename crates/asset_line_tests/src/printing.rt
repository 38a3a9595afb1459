//! Steps and objects as the lines of a script.

use asset_names::{Kind, Ob, ObList, ObSet, Op, Ops, Step, Txn};
use asset_printing::{push_object, push_step};
use asset_test_tools::{abort, begin, commit, complete, depend, initiate, permit_any, read, write};
use std::alloc::Global;
use std::test::Fail;

/// Returns whether the step is printed as this line.
fn prints_once(alloc: Global, step: &Step, line: &str) -> bool {
    let mut text = String::new(alloc);
    push_step(&mut text, step).is_ok() && text.as_str() == line
}

/// Returns whether the step is printed as this line. If memory runs out once, it is printed again.
fn prints(alloc: Global, step: &Step, line: &str) -> bool {
    prints_once(alloc, step, line) || prints_once(alloc, step, line)
}

/// Returns whether the object with its value is printed as this line.
fn object_prints(alloc: Global, x: Ob, v: i64, line: &str) -> bool {
    let mut text = String::new(alloc);
    push_object(&mut text, x, v).is_ok() && text.as_str() == line
}

#[test]
fn steps_of_one_transaction_are_printed(rt: HostRuntime) {
    let child = Step::Initiate {
        t: Txn(8),
        parent: Some(Txn(7)),
    };
    assert!(rt; prints(rt.alloc(), &initiate(7), "initiate 7"));
    assert!(rt; prints(rt.alloc(), &child, "initiate 8 7"));
    assert!(rt; prints(rt.alloc(), &begin(u64::MAX), "begin 18446744073709551615"));
    assert!(rt; prints(rt.alloc(), &complete(0), "complete 0"));
    assert!(rt; prints(rt.alloc(), &commit(7), "commit 7"));
    assert!(rt; prints(rt.alloc(), &abort(10), "abort 10"));
    assert!(rt; prints(rt.alloc(), &Step::WaitFor { t: Txn(7) }, "wait 7"));
}

#[test]
fn reads_and_writes_are_printed(rt: HostRuntime) {
    assert!(rt; prints(rt.alloc(), &read(7, 1), "read 7 1"));
    assert!(rt; prints(rt.alloc(), &write(7, 1, 50), "write 7 1 50"));
    assert!(rt;
        prints(
            rt.alloc(),
            &write(7, 1, i64::MIN),
            "write 7 1 -9223372036854775808"
        )
    );
}

#[test]
fn steps_of_two_transactions_are_printed(rt: HostRuntime) -> Result<(), Fail> {
    let delegation = Step::Delegate {
        giver: Txn(7),
        taker: Txn(8),
        obs: ObSet::All,
    };
    let permit = Step::Permit {
        giver: Txn(7),
        taker: Txn(8),
        obs: ObSet::Listed(ObList::of(&[Ob(3), Ob(1), Ob(20)])?),
        ops: Ops::only(Op::Read).with(Op::Write),
    };
    assert!(rt; prints(rt.alloc(), &delegation, "delegate 7 8 all"));
    assert!(rt; prints(rt.alloc(), &permit, "permit 7 8 rw 1,3,20"));
    let open = permit_any(7, &[Ob(3), Ob(1)], Ops::with_add(true, false));
    assert!(rt; prints(rt.alloc(), &open, "permit 7 any ra 1,3"));
    assert!(rt; prints(rt.alloc(), &depend(Kind::Ad, 7, 8), "depend ad 7 8"));
    Ok(())
}

#[test]
fn objects_are_printed(rt: HostRuntime) {
    let line = "object 1 -5";
    let alloc = rt.alloc();
    let printed = object_prints(alloc, Ob(1), -5, line) || object_prints(alloc, Ob(1), -5, line);
    assert!(rt; printed);
}
