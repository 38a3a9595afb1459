//! What the runs of small scripts write, and how they end.
use crate::memory::expect;
use asset_scripts::RunEnd;
use std::alloc::{AllocError, Global};
use std::process::Abort;
use std::test::Fail;

/// Asserts that a script is answered with nothing but which of its lines is bad.
pub(crate) fn expect_bad(
    rt: &(impl Abort + AllocGlobal),
    script: &str,
    number: u64,
) -> Result<(), Fail> {
    let text = format!(in rt.alloc(); "line {number}: bad command\n")?;
    expect(
        rt,
        script.as_bytes(),
        text.as_str(),
        RunEnd::BadLine(number),
    )
}

#[test]
fn object_added_twice(rt: HostRuntime) -> Result<(), Fail> {
    for (script, number) in [
        ("object 1 100\nobject 1 100\n", 2),
        ("object 1 100\nobject 2 100\nobject 1 5\ninitiate 7\n", 3),
        ("object 0 1\nobject 0 2", 2),
        ("object 1 5\n\n# again\nobject 1 5\ninitiate 7\n", 4),
    ] {
        expect_bad(&rt, script, number)?;
    }
    Ok(())
}

#[test]
fn lines_that_say_nothing_count(rt: HostRuntime) -> Result<(), Fail> {
    for (script, number) in [
        ("\nbegin\n", 2),
        ("\n\n\nbegin", 4),
        ("#\n\n# begin 7\nbegin\ninitiate 7\n", 4),
        ("object 1 5\n\n#\nobject 1\n", 4),
    ] {
        expect_bad(&rt, script, number)?;
    }
    let script = b"# a\n\nobject 1 5\n#\ninitiate 7\n\n#begin 7\nbegin 7\n\nbegin\nbegin 7\n";
    let text = "ok\nok\nline 10: bad command\n";
    expect(&rt, script, text, RunEnd::BadLine(10))
}

#[test]
fn scripts_without_steps_print_nothing(rt: HostRuntime) -> Result<(), Fail> {
    for script in [
        &b"\n"[..],
        b"#",
        b"\n#\n\n",
        b"object 1 5\n",
        b"\nobject 1 5",
    ] {
        expect(&rt, script, "", RunEnd::Finished)?;
    }
    Ok(())
}

#[test]
fn words_have_one_space_between_them(rt: HostRuntime) -> Result<(), Fail> {
    for script in [
        "initiate  7\n",
        " initiate 7\n",
        "initiate 7 \n",
        "initiate 7  8\n",
        "initiate\t7\n",
        "initiate 7\t\n",
        "object 1  5\n",
        "object 1 5 \n",
        " object 1 5\n",
        " # a comment\n",
        " \n",
    ] {
        expect_bad(&rt, script, 1)?;
    }
    Ok(())
}

#[test]
fn parent_of_a_transaction(rt: HostRuntime) -> Result<(), Fail> {
    for script in [
        "initiate 8 7 6\n",
        "initiate 8 \n",
        "initiate 8 07\n",
        "initiate 8 -7\n",
        "initiate 8 all\n",
        "begin 8 7\n",
    ] {
        expect_bad(&rt, script, 1)?;
    }
    let script = b"initiate 8 7\ninitiate 7 7\ninitiate 8 6\ninitiate 0 18446744073709551615\n";
    let text = "ok\nok\nrefused taken 8\nok\n";
    expect(&rt, script, text, RunEnd::Finished)
}

/// Returns a read of an object whose name fills a line of `length` bytes, and then a step.
fn after_long_read(alloc: Global, length: usize) -> Result<Vec<u8>, AllocError> {
    let mut script = b"read 7 ".to_vec(alloc)?;
    script.resize(length, b'1')?;
    script.extend_from_slice(b"\ninitiate 7\n")?;
    Ok(script)
}

#[test]
fn long_lines(rt: HostRuntime) -> Result<(), Fail> {
    for length in [4095usize, 4096, 4097, 9000] {
        let script = after_long_read(rt.alloc(), length)?;
        expect(&rt, &script, "line 1: bad command\n", RunEnd::BadLine(1))?;
    }
    Ok(())
}

#[test]
fn numbers_that_are_bad(rt: HostRuntime) -> Result<(), Fail> {
    for script in [
        "initiate 07\n",
        "initiate 00\n",
        "initiate +5\n",
        "initiate -5\n",
        "initiate -0\n",
        "initiate 5.\n",
        "initiate 0x5\n",
        "initiate 18446744073709551616\n",
        "initiate 7 18446744073709551616\n",
        "object 01 5\n",
        "object +1 5\n",
        "object -1 5\n",
        "object 18446744073709551616 5\n",
        "object 1 05\n",
        "object 1 00\n",
        "object 1 +5\n",
        "object 1 -\n",
        "object 1 -0\n",
        "object 1 -05\n",
        "object 1 --5\n",
        "object 1 9223372036854775808\n",
        "object 1 18446744073709551615\n",
        "object 1 -9223372036854775809\n",
        "write 7 1 05\n",
        "write 7 1 -0\n",
        "write 7 1 9223372036854775808\n",
        "write 7 1 -9223372036854775809\n",
    ] {
        expect_bad(&rt, script, 1)?;
    }
    Ok(())
}

#[test]
fn least_and_greatest_numbers(rt: HostRuntime) -> Result<(), Fail> {
    let script = b"object 0 9223372036854775807\n\
        object 18446744073709551615 -9223372036854775808\n\
        initiate 0\nbegin 0\nread 0 0\nread 0 18446744073709551615\n\
        write 0 0 -9223372036854775808\nread 0 0\n\
        write 0 18446744073709551615 9223372036854775807\nread 0 18446744073709551615\n\
        write 0 0 0\nread 0 0\nwrite 0 0 -1\nread 0 0\n\
        initiate 18446744073709551615\nbegin 18446744073709551615\n\
        begin 18446744073709551614\n";
    let text = "ok\nok\n9223372036854775807\n-9223372036854775808\n\
        ok\n-9223372036854775808\nok\n9223372036854775807\nok\n0\nok\n-1\n\
        ok\nok\nrefused unknown 18446744073709551614\n";
    expect(&rt, script, text, RunEnd::Finished)
}
