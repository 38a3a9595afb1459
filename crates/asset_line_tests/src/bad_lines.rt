//! Lines that docs/SCRIPTS.md calls bad, form by form.

use crate::same::is_bad;
use std::process::Abort;

/// Asserts that each of the lines is bad.
fn expect_bad(rt: &impl Abort, lines: &[&[u8]]) {
    for line in lines {
        assert!(rt; is_bad(line));
    }
}

#[test]
fn other_first_words(rt: HostRuntime) {
    expect_bad(
        &rt,
        &[
            b"Begin 7",
            b"BEGIN 7",
            b"begi 7",
            b"beginn 7",
            b"began 7",
            b"7",
            b"x",
            b"end 7",
            b"obj 1 2",
            b"objects 1 2",
            b"reads 7 1",
            b"wrote 7 1 2",
            b"adds 7 1 2",
            b"ad 7 1 2",
            b"waits 7",
            b"commits 7",
            b"completed 7",
            b"depends cd 7 8",
            b"delegat 7 8 1",
            b"ccommit 7",
            b"\xffbegin 7",
            b"begin\x00 7",
            b"job 7",
            b"give up",
        ],
    );
}

#[test]
fn too_few_operands(rt: HostRuntime) {
    expect_bad(
        &rt,
        &[
            b"object",
            b"object 1",
            b"initiate",
            b"begin",
            b"read",
            b"read 7",
            b"write",
            b"write 7",
            b"write 7 1",
            b"add",
            b"add 7",
            b"add 7 1",
            b"complete",
            b"permit",
            b"permit 7",
            b"permit 7 8",
            b"permit 7 8 r",
            b"delegate",
            b"delegate 7",
            b"delegate 7 8",
            b"depend",
            b"depend cd",
            b"depend cd 7",
            b"commit",
            b"abort",
            b"wait",
        ],
    );
}

#[test]
fn too_many_operands(rt: HostRuntime) {
    expect_bad(
        &rt,
        &[
            b"object 1 2 3",
            b"initiate 7 8 9",
            b"begin 7 8",
            b"read 7 1 2",
            b"write 7 1 2 3",
            b"add 7 1 2 3",
            b"complete 7 8",
            b"permit 7 8 r 1 2",
            b"permit 7 8 r all all",
            b"delegate 7 8 1 2",
            b"delegate 7 8 rw all",
            b"depend cd 7 8 9",
            b"commit 7 8",
            b"abort 7 8",
            b"wait 7 8",
            b"begin 7 #",
            b"begin 7 # a remark",
        ],
    );
}

#[test]
fn permits_to_anybody_that_are_none(rt: HostRuntime) {
    expect_bad(
        &rt,
        &[
            b"permit 7 any r all",
            b"permit 7 any rwa all",
            b"permit any 7 r 1",
            b"permit any any r 1",
            b"permit 7 any",
            b"permit 7 any r",
            b"permit 7 any r 1 2",
            b"permit 7 any 8 r 1",
            b"permit 7 any r 1,",
            b"permit 7 any wr 1",
            b"permit 7 any r 1,2,1",
            b"permit 7 any r 1,2,3,4,5,6,7,8,9,10,11,12,13,14,15,16,17",
            b"permit 7 an r 1",
            b"permit 7 anyone r 1",
            b"permit 7 ANY r 1",
            b"permit 7 all r 1",
            b"permit 7 any  r 1",
            b"permit 07 any r 1",
            b"delegate 7 any 1",
            b"depend cd any 7",
            b"depend cd 7 any",
            b"begin any",
            b"read any 1",
        ],
    );
}

#[test]
fn spaces_elsewhere(rt: HostRuntime) {
    expect_bad(
        &rt,
        &[
            b" ",
            b"  ",
            b" begin 7",
            b"begin 7 ",
            b"begin  7",
            b"begin ",
            b"begin\t7",
            b"begin 7\t",
            b"begin 7\r",
            b"read 7  1",
            b"read  7 1",
            b"read 7 1 ",
            b"write 7 1  2",
            b"add 7 1  2",
            b"object  1 2",
            b"object 1  2",
            b"object 1 2 ",
            b"permit 7 8  r 1",
            b"permit 7 8 r  1",
            b"permit 7 8 r 1 ",
            b"delegate 7 8 1 ",
            b"depend  cd 7 8",
            b"depend cd 7 8 ",
            b"initiate 7 ",
            b" #",
            b" object 1 2",
            b"wait 7\x0b",
        ],
    );
}

#[test]
fn numbers_that_are_none(rt: HostRuntime) {
    expect_bad(
        &rt,
        &[
            b"begin 07",
            b"begin 00",
            b"begin +7",
            b"begin -7",
            b"begin -0",
            b"begin 7a",
            b"begin a7",
            b"begin 7.",
            b"begin 0x7",
            b"begin 1e3",
            b"begin 7,8",
            b"begin ,",
            b"begin 1_000",
            b"begin 18446744073709551616",
            b"begin 18446744073709551620",
            b"begin 99999999999999999999",
            b"begin 184467440737095516150",
            b"begin 018446744073709551615",
            b"begin \xd9\xa7",
            b"read 07 1",
            b"read 7 01",
            b"read 7 18446744073709551616",
            b"read 7 x",
            b"initiate 7 07",
            b"initiate 7 -8",
            b"depend cd 07 8",
            b"depend cd 7 -8",
            b"commit seven",
            b"object 01 2",
            b"object -1 2",
        ],
    );
}

#[test]
fn values_that_are_none(rt: HostRuntime) {
    expect_bad(
        &rt,
        &[
            b"write 7 1 -0",
            b"add 7 1 -0",
            b"add 7 1 +1",
            b"add 7 1 01",
            b"add 7 1 9223372036854775808",
            b"add 7 1 -9223372036854775809",
            b"write 7 1 -",
            b"write 7 1 --1",
            b"write 7 1 +1",
            b"write 7 1 01",
            b"write 7 1 -01",
            b"write 7 1 1-",
            b"write 7 1 1.0",
            b"write 7 1 9223372036854775808",
            b"write 7 1 -9223372036854775809",
            b"write 7 1 18446744073709551616",
            b"write 7 1 -18446744073709551616",
            b"object 1 -0",
            b"object 1 9223372036854775808",
            b"object 1 -9223372036854775809",
            b"object 1 - 1",
            b"object 1 x",
        ],
    );
}

#[test]
fn operations_and_kinds_that_are_none(rt: HostRuntime) {
    expect_bad(
        &rt,
        &[
            b"permit 7 8 wr 1",
            b"permit 7 8 R 1",
            b"permit 7 8 rr 1",
            b"permit 7 8 x 1",
            b"permit 7 8 rwr 1",
            b"permit 7 8 ar 1",
            b"permit 7 8 aw 1",
            b"permit 7 8 raw 1",
            b"permit 7 8 wra 1",
            b"permit 7 8 aa 1",
            b"permit 7 8 rwaa 1",
            b"permit 7 8 A 1",
            b"permit 7 8 r,w 1",
            b"permit 7 8 1 r",
            b"permit r 7 8 1",
            b"depend xd 7 8",
            b"depend CD 7 8",
            b"depend c 7 8",
            b"depend cdd 7 8",
            b"depend cd,ad 7 8",
            b"depend 7 8 cd",
            b"depend 7 cd 8",
        ],
    );
}

#[test]
fn sets_that_are_none(rt: HostRuntime) {
    expect_bad(
        &rt,
        &[
            b"delegate 7 8 ,",
            b"delegate 7 8 1,",
            b"delegate 7 8 ,1",
            b"delegate 7 8 1,,2",
            b"delegate 7 8 1,2,1",
            b"delegate 7 8 1,1",
            b"delegate 7 8 1;2",
            b"delegate 7 8 all,1",
            b"delegate 7 8 1,all",
            b"delegate 7 8 al",
            b"delegate 7 8 alle",
            b"delegate 7 8 ALL",
            b"delegate 7 8 a",
            b"delegate 7 8 01",
            b"delegate 7 8 1,02",
            b"delegate 7 8 -1",
            b"delegate 7 8 1,-2",
            b"delegate 7 8 1,18446744073709551616",
            b"delegate 7 8 1, 2",
            b"delegate 7 8 2,1,2",
            b"delegate 7 8 3-5",
            b"delegate 7 8 1.2",
            b"permit 7 8 r 1,",
            b"permit 7 8 r 1,,2",
            b"permit 7 8 r 1,2,1",
            b"permit 7 8 rw all,all",
            b"permit 7 8 w *",
        ],
    );
}
