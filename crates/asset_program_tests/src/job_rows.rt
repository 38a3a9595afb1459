//! Job scripts, from their bytes to what is written.

use crate::job_running::run_jobs;
use asset_bodies::Tx;
use asset_job_runs::{JobsStop, add_job, begin_jobs, end_jobs, finish_jobs};
use asset_jobs::do_acts;
use asset_requests::JobsRequest;
use asset_runner::Plan;
use asset_scripts::Device;
use std::alloc::Global;
use std::test::Fail;

/// A job script, the capacity of the history, the number of workers, and what should be written with which status.
#[derive(Clone, Copy)]
struct Row<'a> {
    script: &'a str,
    capacity: u32,
    workers: u32,
    text: &'a str,
    status: u8,
}

/// Three travellers who book at the same time: the script `booking.jobs` of the folder `examples`.
const BOOKING: &str = "\
# Three travellers book at the same time. Object 1 is the price list, which all of them read. Objects 2 and 3 are
# the seats left on two flights, 4 and 5 the rooms left in two hotels, and 6 to 8 what each traveller has booked.
object 1 250
object 2 40
object 3 1
object 4 7
object 5 3
object 6 0
object 7 0
object 8 0

# The first takes a seat on the first flight and a room in the first hotel.
job 101
read 1
read 2
write 2 39
read 4
write 4 6
write 6 1

# The second takes the last seat on the second flight, likes no room, and gives the seat back.
job 102
read 1
read 3
write 3 0
read 5
give up
write 7 1

# The third asks for a hotel that is not there, and so gives up without a word.
job 103
read 1
read 9
write 8 1
";

/// What is written of it: the file `booking.jobs.out`.
const BOOKED: &str = "\
job 101 committed
job 102 aborted
job 103 aborted
audit ok entries 22 committed 1 aborted 2
";

const ROWS: [Row<'static>; 10] = [
    // Two jobs that share nothing.
    Row {
        script: "object 1 100\nobject 2 200\njob 7\nwrite 1 150\njob 8\nwrite 2 250\n",
        capacity: 10_000,
        workers: 2,
        text: "job 7 committed\njob 8 committed\naudit ok entries 10 committed 2 aborted 0\n",
        status: 0,
    },
    // Two jobs that add to one object at once.
    Row {
        script: "object 1 100\njob 7\nadd 1 5\njob 8\nadd 1 -7\n",
        capacity: 10_000,
        workers: 2,
        text: "job 7 committed\njob 8 committed\naudit ok entries 10 committed 2 aborted 0\n",
        status: 0,
    },
    // A job that gives up.
    Row {
        script: "object 1 100\njob 7\nwrite 1 5\ngive up\n",
        capacity: 10_000,
        workers: 2,
        text: "job 7 aborted\naudit ok entries 4 committed 0 aborted 1\n",
        status: 0,
    },
    // No line at all.
    Row {
        script: "",
        capacity: 10_000,
        workers: 2,
        text: "audit ok entries 0 committed 0 aborted 0\n",
        status: 0,
    },
    // There is room for one job: the second is not begun, and the third finds no room either.
    Row {
        script: "object 1 100\njob 9\njob 7\nwrite 1 5\njob 8\n",
        capacity: 4,
        workers: 64,
        text: "job 9 committed\njob 7 not begun\njob 8 not begun\naudit ok entries 4 committed 1 aborted 0\n",
        status: 0,
    },
    // There is no room for the act of the first job, which so gives up; the second is not begun.
    Row {
        script: "object 1 100\njob 7\nwrite 1 5\njob 8\n",
        capacity: 4,
        workers: 2,
        text: "job 7 aborted\njob 8 not begun\naudit ok entries 3 committed 0 aborted 1\n",
        status: 0,
    },
    // A bad line: no job is run.
    Row {
        script: "object 1 100\njob 7\nwrite 1 5\nobject 2 200\njob 8\n",
        capacity: 10_000,
        workers: 1,
        text: "line 4: bad command\n",
        status: 2,
    },
    // A number that is out of range: nothing is written to the output.
    Row {
        script: "job 7\n",
        capacity: 10_000,
        workers: 65,
        text: "",
        status: 2,
    },
    // An object that does not exist: the act is refused, and the job gives up. The next one reads what stood.
    Row {
        script: "object 1 100\njob 7\nwrite 1 5\nread 3\nwrite 1 6\njob 8\nread 1\nwrite 1 7\n",
        capacity: 10_000,
        workers: 1,
        text: "job 7 aborted\njob 8 committed\naudit ok entries 11 committed 1 aborted 1\n",
        status: 0,
    },
    Row {
        script: BOOKING,
        capacity: 10_000,
        workers: 3,
        text: BOOKED,
        status: 0,
    },
];

/// How many jobs a long script has.
const MANY: u64 = 3_000;

/// Appends a script of many jobs, each of which reads one of ten objects and writes an object of its own.
fn push_many(script: &mut String) -> Result<(), Fail> {
    for x in 0..MANY + 10 {
        writeln!(script, "object {x} 0")?;
    }
    for t in 0..MANY {
        writeln!(script, "job {t}\nread {}\nwrite {} {t}", t % 10, t + 10)?;
    }
    Ok(())
}

/// Appends what is written of them.
fn push_ends(text: &mut String) -> Result<(), Fail> {
    for t in 0..MANY {
        writeln!(text, "job {t} committed")?;
    }
    writeln!(
        text,
        "audit ok entries {} committed {MANY} aborted 0",
        6 * MANY
    )?;
    Ok(())
}

/// Returns a script of many jobs, and what is written of them.
fn many_jobs(alloc: Global) -> Result<(String, String), Fail> {
    let mut script = String::new(alloc);
    push_many(&mut script)?;
    let mut text = String::new(alloc);
    push_ends(&mut text)?;
    Ok((script, text))
}

#[test]
fn scripts_end_as_they_should(rt: HostRuntime) -> Result<(), Fail> {
    let (script, text) = many_jobs(rt.alloc())?;
    let many = Row {
        script: script.as_str(),
        capacity: 100_000,
        workers: 8,
        text: text.as_str(),
        status: 0,
    };
    for index in 0..=ROWS.len() {
        let row = if index < ROWS.len() {
            ROWS[index]
        } else {
            many
        };
        let mut written = Vec::new(rt.alloc());
        let status = run_jobs!(
            rt,
            row.script.as_bytes(),
            &mut written,
            row.capacity,
            row.workers
        );
        let came = (str::from_utf8(&written).ok(), status);
        assert_eq!(rt; came, (Some(row.text), row.status), "in {}", row.script);
    }
    Ok(())
}
