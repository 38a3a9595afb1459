//! Six of the example scripts, each with its transcript, as the folder `examples` has them.
use crate::memory::run_once;
use asset_scripts::RunEnd;
use std::process::Abort;
use std::test::Fail;

/// Asserts that a script runs to its end and has this transcript. It is run once, and not again if memory runs out.
fn expect(rt: &(impl Abort + AllocGlobal), script: &str, transcript: &str) -> Result<(), Fail> {
    let mut written = Vec::new(rt.alloc());
    let ended = run_once(rt.alloc(), script.as_bytes(), &mut written);
    let came = (ended, str::from_utf8(&written).ok());
    assert_eq!(rt; came, (Ok(RunEnd::Finished), Some(transcript)));
    Ok(())
}

/// The script `first.asset`.
const FIRST: &str = "\
# A first script. Empty lines and lines that begin with # are skipped.

# Objects come first, each with its number and its opening value.
object 1 100
object 2 200

# Transaction 7 is registered, and then started.
initiate 7
begin 7

# It reads 100 from object 1, writes 50 over it, and reads its own 50.
read 7 1
write 7 1 50
read 7 1

# It has done its work, and commits.
complete 7
commit 7
";

/// Its transcript.
const FIRST_OUT: &str = "ok\nok\n100\nok\n50\nok\ncommitted\n";

/// The script `delegation.asset`.
const DELEGATION: &str = "\
# A design task is handed from one worker to another, and the first then gives up.
# Objects 1 and 2 are two parts of a design. Transaction 7 is the first worker, 8 the second, and 9 reviews.
object 1 100
object 2 200
initiate 7
begin 7
initiate 8
begin 8
initiate 9
begin 9

# 7 works on both parts, and lets the reviewer read part 1.
write 7 1 50
write 7 2 60
permit 7 9 r 1

# 7 hands part 1 over to 8, which is responsible for it from then on: 7 itself has to wait for it now. The reviewer may
# still read it, because 8 gets a copy of the permit on what it takes over.
delegate 7 8 1
read 7 1
read 9 1
complete 9
commit 9

# 7 gives up. Its abort takes back its write of part 2, and leaves part 1 alone.
abort 7
read 8 1
read 8 2

# 8 finishes part 1, and its commit makes that stand.
write 8 1 55
complete 8
commit 8
initiate 10
begin 10
read 10 1
";

/// Its transcript.
const DELEGATION_OUT: &str = "\
    ok\nok\nok\nok\nok\nok\nok\nok\nok\nok\nwait\n50\nok\ncommitted\naborted\n50\n200\nok\n\
    ok\ncommitted\nok\nok\n55\n";

/// The script `permits.asset`.
const PERMITS: &str = "\
# Two transactions work on one object. Transaction 7 lets 8 read and write it.
object 1 100
initiate 7
begin 7
initiate 8
begin 8
write 7 1 50
permit 7 8 rw 1

# 8 reads the unfinished 50 and writes over it. From then on 8 blocks 7, because 8 permits nothing.
read 8 1
write 8 1 60
read 7 1

# The abort of 7 takes back the write of 7 alone: the write of 8 stands.
abort 7
read 8 1
complete 8
commit 8
";

/// Its transcript.
const PERMITS_OUT: &str = "ok\nok\nok\nok\nok\nok\n50\nok\nwait\naborted\n60\nok\ncommitted\n";

/// The script `refusals.asset`.
const REFUSALS: &str = "\
# A refusal is an answer: the history records it, and nothing else changes.
object 1 100
begin 5
initiate 7
read 7 1
begin 7
begin 7
initiate 7
read 7 9
permit 7 7 rw all
complete 7
write 7 1 5
commit 7
abort 7
begin 7
";

/// Its transcript.
const REFUSALS_OUT: &str = "\
    refused unknown 5\nok\nrefused not running 7\nok\nrefused begun 7\nrefused taken 7\n\
    refused no object 9\nrefused same\nok\nrefused not running 7\ncommitted\n\
    refused too late 7\nrefused ended 7\n";

/// The script `waiting.asset`.
const WAITING: &str = "\
# Transaction 8 may not see what 7 wrote until 7 has ended.
object 1 100
initiate 7
begin 7
initiate 8
begin 8
write 7 1 50
# This prints wait: nothing is recorded, and the client asks again later.
read 8 1
# 7 aborts, and its write is undone.
abort 7
# Now 8 reads the opening value.
read 8 1
complete 8
commit 8
";

/// Its transcript.
const WAITING_OUT: &str = "ok\nok\nok\nok\nok\nwait\naborted\n100\nok\ncommitted\n";

/// The script `workflow.asset`.
const WORKFLOW: &str = "\
# A trip is booked in three parts that commit together. A tour waits for the trip, and a bus falls with the tour.
# Objects 1 to 5 count what is free: seats, rooms, cars, places in the tour and places in the bus.
object 1 20
object 2 10
object 3 5
object 4 8
object 5 30

# Transaction 7 books a seat, 8 a room and 9 a car. 10 books the tour, and 11 the bus.
initiate 7
begin 7
initiate 8
begin 8
initiate 9
begin 9
initiate 10
begin 10
initiate 11
begin 11

# Group commits: seat, room and car are booked together, or none of them is.
depend gc 7 8
depend gc 8 9

# Commit dependency: the tour is settled only when the trip has ended.
depend cd 9 10

# Abort dependency: the bus is of no use without the tour, so 11 aborts if 10 does.
depend ad 10 11

# Each takes one from its object.
write 7 1 19
write 8 2 9
write 9 3 4
write 10 4 7
write 11 5 29

# The seat and the room are done, but the car is not: a commit of any of the three has to wait.
complete 7
complete 8
commit 7

# The tour is done too, and has to wait for the trip.
complete 10
commit 10

# The tour is called off. The bus falls with it, and both writes are undone. The trip goes on.
abort 10
wait 11

# The car is done, and one commit ends all three. Now it is too late to give back one of them.
complete 9
commit 8
wait 7
wait 9
abort 9

# The next guest finds one seat, room and car less, and all places in the tour and the bus.
initiate 12
begin 12
read 12 1
read 12 2
read 12 3
read 12 4
read 12 5
";

/// Its transcript.
const WORKFLOW_OUT: &str = "\
    ok\nok\nok\nok\nok\nok\nok\nok\nok\nok\nok\nok\nok\nok\nok\nok\nok\nok\nok\nok\nok\n\
    wait\nok\nwait\naborted\naborted\nok\ncommitted\ncommitted\ncommitted\n\
    refused too late 9\nok\nok\n19\n9\n4\n8\n30\n";

#[test]
fn first_example_has_its_transcript(rt: HostRuntime) -> Result<(), Fail> {
    expect(&rt, FIRST, FIRST_OUT)
}

#[test]
fn delegation_example_has_its_transcript(rt: HostRuntime) -> Result<(), Fail> {
    expect(&rt, DELEGATION, DELEGATION_OUT)
}

#[test]
fn permits_example_has_its_transcript(rt: HostRuntime) -> Result<(), Fail> {
    expect(&rt, PERMITS, PERMITS_OUT)
}

#[test]
fn refusals_example_has_its_transcript(rt: HostRuntime) -> Result<(), Fail> {
    expect(&rt, REFUSALS, REFUSALS_OUT)
}

#[test]
fn waiting_example_has_its_transcript(rt: HostRuntime) -> Result<(), Fail> {
    expect(&rt, WAITING, WAITING_OUT)
}

#[test]
fn workflow_example_has_its_transcript(rt: HostRuntime) -> Result<(), Fail> {
    expect(&rt, WORKFLOW, WORKFLOW_OUT)
}
