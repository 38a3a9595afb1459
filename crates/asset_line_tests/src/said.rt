//! Lines of each form, with what they say by hand.

use crate::same::{adds, asks, is_bad, is_blank};
use arrayvec::ArrayVec;
use asset_names::{Kind, Ob, ObSet, Ops, Step, Txn};
use asset_test_tools::listed;

/// The greatest number.
const GREATEST: u64 = u64::MAX;

/// Returns the set of the objects with these numbers.
fn set_of(numbers: &[u64]) -> ObSet {
    let mut objects: ArrayVec<Ob, 16> = ArrayVec::new();
    for number in numbers {
        let _ = objects.try_push(Ob(*number));
    }
    listed(objects.as_slice())
}

#[test]
fn object_lines(rt: HostRuntime) {
    assert!(rt; adds(b"object 1 100", 1, 100));
    assert!(rt; adds(b"object 0 0", 0, 0));
    assert!(rt; adds(b"object 18446744073709551615 -1", GREATEST, -1));
    assert!(rt; adds(b"object 7 9223372036854775807", 7, i64::MAX));
    assert!(rt; adds(b"object 7 -9223372036854775808", 7, i64::MIN));
}

#[test]
fn initiations(rt: HostRuntime) {
    assert!(rt;
        asks(
            b"initiate 7",
            &Step::Initiate {
                t: Txn(7),
                parent: None
            }
        )
    );
    assert!(rt;
        asks(
            b"initiate 8 7",
            &Step::Initiate {
                t: Txn(8),
                parent: Some(Txn(7))
            }
        )
    );
    assert!(rt;
        asks(
            b"initiate 0 18446744073709551615",
            &Step::Initiate {
                t: Txn(0),
                parent: Some(Txn(GREATEST))
            }
        )
    );
}

#[test]
fn steps_of_one_transaction(rt: HostRuntime) {
    let t = Txn(18);
    assert!(rt; asks(b"begin 18", &Step::Begin { t }));
    assert!(rt; asks(b"complete 18", &Step::Complete { t }));
    assert!(rt; asks(b"commit 18", &Step::Commit { t }));
    assert!(rt; asks(b"abort 18", &Step::Abort { t }));
    assert!(rt; asks(b"wait 18", &Step::WaitFor { t }));
}

#[test]
fn reads_and_writes(rt: HostRuntime) {
    let t = Txn(7);
    assert!(rt;
        asks(
            b"read 7 18446744073709551615",
            &Step::Read { t, x: Ob(GREATEST) }
        )
    );
    assert!(rt; asks(b"write 7 1 50", &Step::Write { t, x: Ob(1), v: 50 }));
    assert!(rt;
        asks(
            b"write 7 0 -9223372036854775808",
            &Step::Write {
                t,
                x: Ob(0),
                v: i64::MIN
            }
        )
    );
    assert!(rt;
        asks(
            b"write 7 0 9223372036854775807",
            &Step::Write {
                t,
                x: Ob(0),
                v: i64::MAX
            }
        )
    );
}

#[test]
fn adds_are_read(rt: HostRuntime) {
    let t = Txn(7);
    assert!(rt; asks(b"add 7 1 50", &Step::Add { t, x: Ob(1), d: 50 }));
    assert!(rt; asks(b"add 7 1 -2", &Step::Add { t, x: Ob(1), d: -2 }));
    assert!(rt;
        asks(
            b"add 7 18446744073709551615 -9223372036854775808",
            &Step::Add {
                t,
                x: Ob(GREATEST),
                d: i64::MIN
            }
        )
    );
    assert!(rt;
        asks(
            b"add 0 0 9223372036854775807",
            &Step::Add {
                t: Txn(0),
                x: Ob(0),
                d: i64::MAX
            }
        )
    );
}

#[test]
fn dependencies(rt: HostRuntime) {
    let (a, b) = (Txn(7), Txn(8));
    assert!(rt;
        asks(
            b"depend cd 7 8",
            &Step::Depend {
                kind: Kind::Cd,
                a,
                b
            }
        )
    );
    assert!(rt;
        asks(
            b"depend ad 7 8",
            &Step::Depend {
                kind: Kind::Ad,
                a,
                b
            }
        )
    );
    assert!(rt;
        asks(
            b"depend gc 7 8",
            &Step::Depend {
                kind: Kind::Gc,
                a,
                b
            }
        )
    );
}

/// Returns whether the line is a permit of 7 for 8, of the operations on the set.
fn permits(line: &[u8], ops: Option<Ops>, obs: ObSet) -> bool {
    match ops {
        Some(ops) => asks(
            line,
            &Step::Permit {
                giver: Txn(7),
                taker: Txn(8),
                obs,
                ops,
            },
        ),
        None => false,
    }
}

#[test]
fn permits_are_read(rt: HostRuntime) {
    assert!(rt; permits(b"permit 7 8 r all", Ops::new(true, false), ObSet::All));
    assert!(rt; permits(b"permit 7 8 w 5", Ops::new(false, true), set_of(&[5])));
    assert!(rt;
        permits(
            b"permit 7 8 rw 3,1,2",
            Ops::new(true, true),
            set_of(&[1, 2, 3])
        )
    );
    assert!(rt;
        permits(
            b"permit 7 8 rw 2,1,0",
            Ops::new(true, true),
            set_of(&[0, 1, 2])
        )
    );
}

/// Returns operations that have Add.
fn adding(read: bool, write: bool) -> Option<Ops> {
    Some(Ops::with_add(read, write))
}

#[test]
fn permits_to_add_are_read(rt: HostRuntime) {
    assert!(rt; permits(b"permit 7 8 a 5", adding(false, false), set_of(&[5])));
    assert!(rt; permits(b"permit 7 8 ra 2,1", adding(true, false), set_of(&[1, 2])));
    assert!(rt; permits(b"permit 7 8 wa all", adding(false, true), ObSet::All));
    assert!(rt;
        permits(
            b"permit 7 8 rwa 3,1,2",
            adding(true, true),
            set_of(&[1, 2, 3])
        )
    );
}

/// Returns whether the line is an open permit of 7, of the operations on the objects with these numbers.
fn opens(line: &[u8], ops: Option<Ops>, numbers: &[u64]) -> bool {
    match (ops, set_of(numbers)) {
        (Some(ops), ObSet::Listed(obs)) => asks(
            line,
            &Step::PermitAny {
                giver: Txn(7),
                obs,
                ops,
            },
        ),
        _ => false,
    }
}

#[test]
fn permits_to_anybody_are_read(rt: HostRuntime) {
    assert!(rt; opens(b"permit 7 any r 1", Ops::new(true, false), &[1]));
    assert!(rt;
        opens(
            b"permit 7 any w 18446744073709551615",
            Ops::new(false, true),
            &[GREATEST]
        )
    );
    assert!(rt; opens(b"permit 7 any rw 3,1,2", Ops::new(true, true), &[1, 2, 3]));
    assert!(rt; opens(b"permit 7 any rwa 2,0", adding(true, true), &[0, 2]));
    assert!(rt;
        opens(
            b"permit 7 any a 16,15,14,13,12,11,10,9,8,7,6,5,4,3,2,1",
            adding(false, false),
            &SIXTEEN
        )
    );
}

/// Returns whether the line hands the set of 7 over to 8.
fn delegates(line: &[u8], obs: ObSet) -> bool {
    asks(
        line,
        &Step::Delegate {
            giver: Txn(7),
            taker: Txn(8),
            obs,
        },
    )
}

#[test]
fn delegations_are_read(rt: HostRuntime) {
    assert!(rt; delegates(b"delegate 7 8 all", ObSet::All));
    assert!(rt; delegates(b"delegate 7 8 18446744073709551615", set_of(&[GREATEST])));
    assert!(rt; delegates(b"delegate 7 8 9,8", set_of(&[8, 9])));
}

/// As many objects as a set may list.
const SIXTEEN: [u64; 16] = [1, 2, 3, 4, 5, 6, 7, 8, 9, 10, 11, 12, 13, 14, 15, 16];

#[test]
fn sets_of_sixteen(rt: HostRuntime) {
    assert!(rt;
        delegates(
            b"delegate 7 8 1,2,3,4,5,6,7,8,9,10,11,12,13,14,15,16",
            set_of(&SIXTEEN)
        )
    );
    assert!(rt;
        delegates(
            b"delegate 7 8 16,15,14,13,12,11,10,9,8,7,6,5,4,3,2,1",
            set_of(&SIXTEEN)
        )
    );
}

#[test]
fn sets_of_seventeen(rt: HostRuntime) {
    assert!(rt; is_bad(b"delegate 7 8 1,2,3,4,5,6,7,8,9,10,11,12,13,14,15,16,17"));
    assert!(rt; is_bad(b"delegate 7 8 1,2,3,4,5,6,7,8,9,10,11,12,13,14,15,1"));
    assert!(rt; is_bad(b"delegate 7 8 1,2,3,4,5,6,7,8,9,10,11,12,13,14,15,16,"));
}

#[test]
fn lines_that_say_nothing(rt: HostRuntime) {
    for line in [&b""[..], b"#", b"# begin 7", b"##", b"#\xff\x00", b"#begin"] {
        assert!(rt; is_blank(line));
    }
}

#[test]
fn longest_lines(rt: HostRuntime) {
    let remark = [b'#'; 4097];
    assert!(rt; is_blank(&remark[..4095]));
    assert!(rt; is_blank(&remark[..4096]));
    assert!(rt; is_bad(&remark[..4097]));
    let digits = [b'1'; 4097];
    assert!(rt; is_bad(&digits[..4096]));
    assert!(rt; is_bad(&digits[..4097]));
}
