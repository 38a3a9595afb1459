//! The command line that the program takes: its words, its options, and the texts of its help.

use asset_cli::{Report, Work};
use asset_requests::{Asked, JobsRequest, Request, Task};
use clap::{Arg, ArgMatches, Command, value_parser};
use std::alloc::{AllocError, Global};

/// How the program is called.
const USAGE: &str = "asset [<word> [--cap <n>]] < SCRIPT";

/// How the program is called for jobs.
const JOBS_USAGE: &str = "asset jobs [--cap <n>] [--workers <n>] [--turns <n>] < SCRIPT";

/// How the program is called for a check.
const CHECK_USAGE: &str = "asset check < SCRIPT";

/// How the program is called for a conversation.
const SHELL_USAGE: &str = "asset shell [--cap <n>]";

/// The word for jobs.
pub(crate) const JOBS: &str = "jobs";

/// The word for a check.
pub(crate) const CHECK: &str = "check";

/// The word for a conversation.
pub(crate) const SHELL: &str = "shell";

/// What help says after the arguments.
const NOTES: &str =
    "The output is written once the input has ended.\n\nExit status:\n  0  every line was looked at, or help or the version was asked for\n  1  the input or the output failed, memory ran out, or serial found something shared\n  2  a line is bad, or an argument is refused";

/// What help says after the arguments of jobs.
const JOBS_NOTES: &str =
    "The output is written once all jobs have ended.\n\nExit status:\n  0  the jobs were run, or help was asked for\n  1  the input, the output or the audit failed, or memory ran out\n  2  a line is bad, and no job was run, or an argument is refused";

/// What help says after the arguments of a check.
const CHECK_NOTES: &str =
    "The output is written once the input has ended.\n\nExit status:\n  0  no line is bad, and nothing is written, or help was asked for\n  1  the input or the output failed, or memory ran out\n  2  a line is bad, or an argument is refused";

/// What help says after the arguments of a conversation.
const SHELL_NOTES: &str =
    "Each line that has come is answered before more is read. Why a line is bad is said on standard error, and the conversation goes on.\n\nExit status:\n  0  no line was bad, or help was asked for\n  1  the input or an output failed, or memory ran out\n  2  a line was bad, or an argument is refused";

/// Returns what a script is read for by this word. `None` if the program has no such word for scripts.
pub(crate) fn task_named(word: &str) -> Option<Task> {
    match word {
        "run" => Some(Task::Run(Work::Run)),
        "steps" => Some(Task::Run(Work::Steps)),
        "prune" => Some(Task::Run(Work::Report(Report::Pruned))),
        "groups" => Some(Task::Run(Work::Report(Report::Groups))),
        "sources" => Some(Task::Run(Work::Sources)),
        "serial" => Some(Task::Run(Work::Report(Report::Serial))),
        "waits" => Some(Task::Waits),
        "picture" => Some(Task::Run(Work::Report(Report::Picture))),
        _ => None,
    }
}

/// Returns the argument that gives the capacity.
fn capacity_argument<'a>(alloc: Global) -> Arg<'a> {
    Arg::new(alloc, "cap")
        .long("cap")
        .value_name("n")
        .help("How many entries the history has room for, from 1 to 1000000")
        .value_parser(value_parser!(u32).range(1..=1_000_000))
        .default_value("10000")
}

/// Returns the argument that gives the number of threads.
fn workers_argument<'a>(alloc: Global) -> Arg<'a> {
    Arg::new(alloc, "workers")
        .long("workers")
        .value_name("n")
        .help("How many threads run the jobs, from 1 to 64")
        .value_parser(value_parser!(u32).range(1..=64))
        .default_value("2")
}

/// Returns the argument that says how often a step is asked again.
fn turns_argument<'a>(alloc: Global) -> Arg<'a> {
    Arg::new(alloc, "turns")
        .long("turns")
        .value_name("n")
        .help("How often a step that waits is asked again, from 0 to 1000000")
        .value_parser(value_parser!(u32).range(0..=1_000_000))
        .default_value("1000")
}

/// Returns the command of one word.
fn word_command<'a>(
    alloc: Global,
    name: &'a str,
    about: &'a str,
) -> Result<Command<'a>, AllocError> {
    Command::new(alloc, name)
        .about(about)
        .override_usage(USAGE)
        .after_help(NOTES)
        .arg(capacity_argument(alloc))
}

/// Returns a command line with one more word. One at a time, because an early return drops each command that is there.
fn with_word<'a>(
    line: Command<'a>,
    alloc: Global,
    name: &'a str,
    about: &'a str,
) -> Result<Command<'a>, AllocError> {
    line.subcommand(word_command(alloc, name, about)?)
}

/// Returns a command line with the word for a check.
fn with_check<'a>(line: Command<'a>, alloc: Global) -> Result<Command<'a>, AllocError> {
    line.subcommand(
        Command::new(alloc, CHECK)
            .about("Names each bad line of the script on standard input, and why it is bad")
            .override_usage(CHECK_USAGE)
            .after_help(CHECK_NOTES),
    )
}

/// Returns the command of a conversation.
fn shell_command<'a>(alloc: Global) -> Result<Command<'a>, AllocError> {
    Command::new(alloc, SHELL)
        .about("Answers each line as it comes")
        .override_usage(SHELL_USAGE)
        .after_help(SHELL_NOTES)
        .arg(capacity_argument(alloc))
}

/// Returns a command line with the word for a conversation.
fn with_shell<'a>(line: Command<'a>, alloc: Global) -> Result<Command<'a>, AllocError> {
    line.subcommand(shell_command(alloc)?)
}

/// Returns the command of jobs without its arguments.
fn bare_jobs<'a>(alloc: Global) -> Command<'a> {
    Command::new(alloc, JOBS)
        .about(
            "Runs the jobs of the job script on standard input by threads, and writes how each ended",
        )
        .override_usage(JOBS_USAGE)
        .after_help(JOBS_NOTES)
}

/// Returns the command of jobs. One argument at a time, because an early return drops what is there.
fn jobs_command<'a>(alloc: Global) -> Result<Command<'a>, AllocError> {
    let jobs = bare_jobs(alloc).arg(capacity_argument(alloc))?;
    let jobs = jobs.arg(workers_argument(alloc))?;
    jobs.arg(turns_argument(alloc))
}

/// Returns a command line with the word for jobs.
fn with_jobs<'a>(line: Command<'a>, alloc: Global) -> Result<Command<'a>, AllocError> {
    line.subcommand(jobs_command(alloc)?)
}

/// Returns the command line without its words.
fn bare_line<'a>(alloc: Global) -> Command<'a> {
    Command::new(alloc, "asset")
        .version("0.1.0")
        .about("ASSET, a facility of transactions that can share their work")
        .override_usage(USAGE)
        .after_help(NOTES)
}

/// The words that read a script, and what each writes.
const SCRIPT_WORDS: [(&str, &str); 8] = [
    (
        "run",
        "Runs the script on standard input and writes its transcript (the default)",
    ),
    (
        "steps",
        "Writes each step with its reply, numbered by line and by entry",
    ),
    (
        "prune",
        "Writes the script that is left without dead groups",
    ),
    (
        "groups",
        "Writes the groups: who shared something with whom, and who with nobody",
    ),
    (
        "sources",
        "Writes where each value that was read comes from",
    ),
    (
        "serial",
        "Writes the script of those who committed, one after another",
    ),
    (
        "waits",
        "Writes who waits for whom when the script has ended",
    ),
    ("picture", "Draws the history as a picture, an SVG"),
];

/// Returns the command line that the program takes.
pub(crate) fn command_line<'a>(alloc: Global) -> Result<Command<'a>, AllocError> {
    let mut line = bare_line(alloc);
    for (name, about) in SCRIPT_WORDS {
        line = with_word(line, alloc, name, about)?;
    }
    let line = with_check(line, alloc)?;
    let line = with_shell(line, alloc)?;
    with_jobs(line, alloc)
}

/// Returns what the matched arguments of the word for jobs ask for.
fn jobs_request(given: &ArgMatches<'_>) -> JobsRequest {
    JobsRequest {
        capacity: given.get_one::<u32>("cap"),
        workers: given.get_one::<u32>("workers"),
        turns: given.get_one::<u32>("turns"),
    }
}

/// Returns what the matched arguments of another word ask for.
fn script_request(word: &str, given: &ArgMatches<'_>) -> Request {
    Request {
        task: task_named(word).unwrap_or(Task::Run(Work::Run)),
        capacity: given.get_one::<u32>("cap"),
    }
}

/// Returns what the matched arguments ask for: the transcript of a script if they name nothing.
pub(crate) fn asked_by(matches: &ArgMatches<'_>) -> Asked {
    match matches.subcommand() {
        Some((JOBS, given)) => Asked::Jobs(jobs_request(given)),
        Some((CHECK, _)) => Asked::Check,
        Some((SHELL, given)) => Asked::Shell(given.get_one::<u32>("cap")),
        Some((word, given)) => Asked::Script(script_request(word, given)),
        None => Asked::Script(Request {
            task: Task::Run(Work::Run),
            capacity: None,
        }),
    }
}
