//! The example of a design session, with all its reports, as the folder `examples` has it.
use crate::memory::{Call, expect_report};
use asset_scripts::RunEnd;
use std::test::Fail;

/// The script `design.asset`.
const DESIGN: &str = "\
# A design session in which one branch is abandoned.
# Object 1 is the plan of a house, 2 its roof and 3 its stairs. 7 and 8 try another roof together; 9 changes the plan, and
# 10 follows with the stairs.
object 1 100
object 2 200
object 3 300
initiate 7
begin 7
initiate 8
begin 8
initiate 9
begin 9
initiate 10
begin 10

# 7 lets 8 work on its unfinished roof.
write 7 2 210
permit 7 8 rw 2
read 8 2
read 9 1
write 8 2 220
write 9 1 110

# 10 may read the unfinished plan of 9, and falls if 9 does.
permit 9 10 r 1
depend ad 9 10
read 10 1

# 7 gives up. 8 goes on for a while.
abort 7
read 8 2
write 10 3 310
complete 9
commit 9
complete 10
commit 10
abort 8
";

/// Its transcript.
const DESIGN_OUT: &str = "\
    ok\nok\nok\nok\nok\nok\nok\nok\nok\nok\n210\n100\nok\nok\nok\nok\n110\naborted\n220\n\
    ok\nok\ncommitted\nok\ncommitted\naborted\n";

/// What is left of it without its dead group, as `design.pruned` has it.
const DESIGN_PRUNED: &str = "\
object 1 100
object 2 200
object 3 300
initiate 9
begin 9
initiate 10
begin 10
read 9 1
write 9 1 110
permit 9 10 r 1
depend ad 9 10
read 10 1
write 10 3 310
complete 9
commit 9
complete 10
commit 10
";

#[test]
fn design_example_has_its_transcript(rt: HostRuntime) -> Result<(), Fail> {
    expect_report(
        &rt,
        Call::Run,
        DESIGN.as_bytes(),
        DESIGN_OUT,
        RunEnd::Finished,
    )
}

#[test]
fn abandoned_branch_is_deleted(rt: HostRuntime) -> Result<(), Fail> {
    let groups = "0 dead 7 8\n1 committed 9 10\n";
    expect_report(
        &rt,
        Call::Groups,
        DESIGN.as_bytes(),
        groups,
        RunEnd::Finished,
    )?;
    expect_report(
        &rt,
        Call::Prune,
        DESIGN.as_bytes(),
        DESIGN_PRUNED,
        RunEnd::Finished,
    )?;
    let replies = "ok\nok\nok\nok\n100\nok\nok\nok\n110\nok\nok\ncommitted\nok\ncommitted\n";
    expect_report(
        &rt,
        Call::Run,
        DESIGN_PRUNED.as_bytes(),
        replies,
        RunEnd::Finished,
    )
}

#[test]
fn design_example_has_its_other_reports(rt: HostRuntime) -> Result<(), Fail> {
    let sources =
        "10 read 8 2 210 entry 8\n11 read 9 1 100 opening\n16 read 10 1 110 entry 13\n18 read 8 2 220 entry 12\n";
    expect_report(
        &rt,
        Call::Sources,
        DESIGN.as_bytes(),
        sources,
        RunEnd::Finished,
    )?;
    expect_report(
        &rt,
        Call::Serial,
        DESIGN.as_bytes(),
        "shared\n",
        RunEnd::Shared,
    )
}
