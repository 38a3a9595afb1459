//! What the lines of a job script say.
ghost use Rattle.std.specs.Prelude.{◌≡◌};
ghost use Rattle.asset_grammar.specs.JobLines.{any_job_line_of, give_up, job_line_of};
ghost use Rattle.asset_grammar.specs.Lines.{first_line, line_tail};
ghost use Rattle.asset_grammar.specs.Words.{Reads};

use crate::grammar::{LONGEST_LINE, OBJECT, is_blank};
use crate::lines::line_end;
use crate::words::Words;
use asset_names::{Ob, Txn};

/// The first word of a line that begins a job.
const JOB: &[u8] = b"job";

/// The first word of an act that reads.
const READ: &[u8] = b"read";

/// The first word of an act that writes.
const WRITE: &[u8] = b"write";

/// The first word of an act that adds.
const ADD: &[u8] = b"add";

/// The first word of the act that gives up.
const GIVE: &[u8] = b"give";

/// The last word of the act that gives up.
const UP: &[u8] = b"up";

/// What a job does.
#[derive(Clone, Copy, Debug, PartialEq, Eq)]
pub enum JobAct {
    /// It reads the object.
    Read(Ob),
    /// It writes the value to the object.
    Write(Ob, i64),
    /// It adds the amount to the object.
    Add(Ob, i64),
    /// It gives up.
    GiveUp,
}

/// Returns the act that gives up, if the one operand is the word `up`.
#[tactic(auto, unfolding(crate::specs::JobLines::give_up))]
fn give_up(operands: &mut Words<'_>) -> Option<JobAct>
    ensures { Reads give_up operands.old result operands.new }
{
    let word = operands.next_word()?;
    if word != UP {
        return None;
    }
    if operands.is_over() {
        Some(JobAct::GiveUp)
    } else {
        None
    }
}

impl JobAct {
    ghost use Rattle.asset_grammar.specs.JobLines.{act_by};

    /// Returns the act that a first word and the operands say.
    #[tactic(auto, unfolding(crate::specs::JobLines::act_by))]
    fn read(word: &[u8], operands: &mut Words<'_>) -> Option<JobAct>
        ensures { Reads (act_by word.now) operands.old result operands.new }
    {
        if word == READ {
            let x = operands.one_object()?;
            Some(JobAct::Read(x))
        } else if word == WRITE {
            let (x, v) = operands.object_and_value()?;
            Some(JobAct::Write(x, v))
        } else if word == ADD {
            let (x, d) = operands.object_and_value()?;
            Some(JobAct::Add(x, d))
        } else if word == GIVE {
            give_up(operands)
        } else {
            None
        }
    }
}

/// What a line of a job script is.
#[derive(Clone, Copy)]
pub enum JobLine {
    /// It says nothing.
    Blank,
    /// It adds an object with this value to the opening.
    Object((Ob, i64)),
    /// It begins a job.
    Job(Txn),
    /// It is an act of a job.
    Act(JobAct),
    /// It is no line of a job script.
    Bad,
}

impl JobLine {
    ghost use Rattle.asset_grammar.specs.JobLines.{job_line_from};

    /// Reads the words of a line to its end, and returns what they say.
    #[tactic(auto, unfolding(crate::specs::JobLines::job_line_from))]
    fn of(words: &mut Words<'_>) -> Option<JobLine>
        ensures { Reads job_line_from words.old result words.new }
    {
        let first = words.next_word()?;
        if first == OBJECT {
            let object = words.object_and_value()?;
            Some(JobLine::Object(object))
        } else if first == JOB {
            let t = words.one_txn()?;
            Some(JobLine::Job(t))
        } else {
            let act = JobAct::read(first, words)?;
            Some(JobLine::Act(act))
        }
    }
}

/// Reads the first line of a text as if it were short enough. Returns what it says, and the text from its end on.
fn read_any_line(text: &[u8]) -> (JobLine, &[u8])
    ensures says { any_job_line_of (first_line text.now) ≡ result.0 }
    ensures tail { result.1.now ≡ line_tail text.now }
{
    if is_blank(text) {
        return (JobLine::Blank, line_end(text));
    }
    let mut words = Words::new(text);
    match JobLine::of(&mut words) {
        Some(line) => (line, words.tail()),
        None => (JobLine::Bad, line_end(text)),
    }
}

/// Reads the first line of a text. Returns what it says, and the text from its end on.
pub(crate) fn read_job_line(text: &[u8]) -> (JobLine, &[u8])
    ensures says { job_line_of (first_line text.now) ≡ result.0 }
    ensures tail { result.1.now ≡ line_tail text.now }
{
    let (line, tail) = read_any_line(text);
    if text.len() - tail.len() > LONGEST_LINE {
        return (JobLine::Bad, tail);
    }
    (line, tail)
}
