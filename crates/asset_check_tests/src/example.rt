//! The example script with mistakes, and what a check of it prints, as the folder `examples` has them. The one with a deadlock
//! follows, with its transcript.

use crate::checks::gives;
use asset_cli::run_script;
use asset_scripts::{Device, RunEnd};
use asset_test_tools::{DEADLOCK, taking, whole};
use std::alloc::Global;

/// The script `mistakes.asset`.
const MISTAKES: &str = "\
# A script with mistakes: `asset check < examples/mistakes.asset` names each of them with its reason.
# A run would stop at the first one.
object 1 100
object 2 200
object 1 300
object 3 1e3

Begin 7
initiate 7
begin 7 # it starts
read 7
write 7 1 050
write 7 2 -0
object 4 5
permit 7 8 wr 1
permit 7 8 r 1, 2
depend 7 8
delegate 7 8 1,2,1
comit 7
complete 7
";

/// What is printed of it.
const MISTAKES_OUT: &str = "\
line 5: object 1 given twice
line 6: not a value: 1e3
line 8: capital letter in Begin
line 10: comment after a step
line 11: read wants t x
line 12: leading zero in 050
line 13: zero with a minus sign
line 14: object after a step
line 15: wr is written rw
line 16: space beside a comma
line 17: depend wants kind t u
line 18: object twice in a set
line 19: unknown word comit
";

#[test]
fn mistakes_are_named(rt: HostRuntime) {
    assert!(rt;
        gives(
            rt.alloc(),
            MISTAKES.as_bytes(),
            MISTAKES_OUT,
            RunEnd::BadLine(5)
        )
    );
}

/// The transcript of `DEADLOCK`.
const DEADLOCK_OUT: &str =
    "ok\nok\nok\nok\nok\nok\nok\nok\nok\nok\nwait\nwait\nwait\nok\nok\nwait\n";

/// Returns whether a script runs to its end and has this transcript.
fn runs(alloc: Global, script: &str, transcript: &str) -> bool {
    let mut writer = taking(transcript);
    let mut input = Device::new(whole(script.as_bytes()));
    let mut output = Device::new(&mut writer);
    let ended = run_script(alloc, &mut input, &mut output, 10_000);
    drop(output);
    ended == Ok(RunEnd::Finished) && writer.wanted.is_empty() && writer.same
}

#[test]
fn deadlock_has_its_transcript(rt: HostRuntime) {
    assert!(rt; runs(rt.alloc(), DEADLOCK, DEADLOCK_OUT));
}
