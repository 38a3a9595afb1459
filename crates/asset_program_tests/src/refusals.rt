//! Help, the version, and arguments that are refused.

use crate::running::expect;
use crate::texts::{HELP, VERSION};
use std::process::Abort;
use std::test::Fail;

/// A script of one step.
const SCRIPT: &[u8] = b"initiate 7\n";

/// Asserts that the arguments are refused with this text, and that the script is not run.
fn expect_refused(rt: &(impl Abort + AllocGlobal), texts: &[&str], errors: &str) {
    expect(rt, texts, SCRIPT, ("", errors, 2));
}

/// What help says of the word `run`.
const RUN_HELP: &str = "\
Runs the script on standard input and writes its transcript (the default)

Usage: asset [<word> [--cap <n>]] < SCRIPT

Options:
      --cap <n>  How many entries the history has room for, from 1 to 1000000 [default: 10000]
  -h, --help     Print help

The output is written once the input has ended.

Exit status:
  0  every line was looked at, or help or the version was asked for
  1  the input or the output failed, memory ran out, or serial found something shared
  2  a line is bad, or an argument is refused
";

#[test]
fn help_goes_to_the_output(rt: HostRuntime) {
    expect(&rt, &["--help"], SCRIPT, (HELP, "", 0));
    expect(&rt, &["-h"], SCRIPT, (HELP, "", 0));
    expect(&rt, &["help"], SCRIPT, (HELP, "", 0));
    expect(&rt, &["run", "--help"], SCRIPT, (RUN_HELP, "", 0));
}

/// What help says of the word `jobs`.
const JOBS_HELP: &str = "\
Runs the jobs of the job script on standard input by threads, and writes how each ended

Usage: asset jobs [--cap <n>] [--workers <n>] [--turns <n>] < SCRIPT

Options:
      --cap <n>      How many entries the history has room for, from 1 to 1000000 [default: 10000]
      --workers <n>  How many threads run the jobs, from 1 to 64 [default: 2]
      --turns <n>    How often a step that waits is asked again, from 0 to 1000000 [default: 1000]
  -h, --help         Print help

The output is written once all jobs have ended.

Exit status:
  0  the jobs were run, or help was asked for
  1  the input, the output or the audit failed, or memory ran out
  2  a line is bad, and no job was run, or an argument is refused
";

#[test]
fn help_of_jobs_goes_to_the_output(rt: HostRuntime) {
    expect(&rt, &["jobs", "--help"], SCRIPT, (JOBS_HELP, "", 0));
}

#[test]
fn version_goes_to_the_output(rt: HostRuntime) {
    expect(&rt, &["--version"], SCRIPT, (VERSION, "", 0));
    expect(&rt, &["-V"], SCRIPT, (VERSION, "", 0));
}

#[test]
fn capacity_out_of_range_is_refused(rt: HostRuntime) {
    let low =
        "error: invalid value '0' for '--cap <n>': 0 is not in 1..=1000000\n\nFor more information, try '--help'.\n";
    expect_refused(&rt, &["run", "--cap", "0"], low);
    let high =
        "error: invalid value '1000001' for '--cap <n>': 1000001 is not in 1..=1000000\n\nFor more information, try '--help'.\n";
    expect_refused(&rt, &["run", "--cap", "1000001"], high);
}

#[test]
fn other_arguments_are_refused(rt: HostRuntime) -> Result<(), Fail> {
    for (texts, argument) in [
        (&["--cap", "5"][..], "--cap"),
        (&["run", "--cpa", "5"][..], "--cpa"),
        (&["run", "x", "y"][..], "x"),
    ] {
        let expected = format!(in rt.alloc();
            "error: unexpected argument '{argument}' found\n\nUsage: asset [<word> [--cap <n>]] < SCRIPT\n\nFor more information, try '--help'.\n"
        )?;
        expect_refused(&rt, texts, expected.as_str());
    }
    Ok(())
}

/// Asserts that the arguments are refused with this call.
fn expect_call(rt: &(impl Abort + AllocGlobal), texts: &[&str], call: &str) -> Result<(), Fail> {
    let errors = format!(in rt.alloc(); "asset: a script comes on standard input: {call}\n")?;
    expect_refused(rt, texts, errors.as_str());
    Ok(())
}

#[test]
fn path_is_refused_with_the_right_call(rt: HostRuntime) -> Result<(), Fail> {
    for (texts, call) in [
        (&["my.asset"][..], "asset < my.asset"),
        (&["examples/waiting"][..], "asset < examples/waiting"),
        (&["run", "my"][..], "asset run < my"),
        (
            &["prune", "--cap", "4", "my.asset"][..],
            "asset prune --cap 4 < my.asset",
        ),
        (&["prune", "my", "--cap=4"][..], "asset prune --cap=4 < my"),
        (&["groups", "groups"][..], "asset groups < groups"),
        (
            &["my.asset", "--cap", "4"][..],
            "asset run --cap 4 < my.asset",
        ),
        (&["--cap", "4", "my"][..], "asset run --cap 4 < my"),
        (
            &["jobs", "--workers", "4", "my.jobs"][..],
            "asset jobs --workers 4 < my.jobs",
        ),
        (
            &["jobs", "jobs", "--turns=5"][..],
            "asset jobs --turns=5 < jobs",
        ),
    ] {
        expect_call(&rt, texts, call)?;
    }
    Ok(())
}

#[test]
fn unknown_word_is_named(rt: HostRuntime) {
    let errors =
        "asset: there is no word job (see asset --help); a script comes on standard input: asset < job\n";
    expect_refused(&rt, &["job"], errors);
}
