//! The lines that a run prints in answer to the lines of a script. If memory runs out, a part of a line may have been appended to
//! the text.
ghost use Rattle.std.specs.Prelude.{◌≡◌, ◌++◌, OnOk, string_bytes};
ghost use Rattle.asset_printing.specs.Texts.{bad_line, full_line, outcome_line, refusal_line, refused_by, reply_line};

use crate::numbers::push_value;
use asset_names::{Outcome, Refusal, Reply};
use std::alloc::AllocError;

/// Returns the rule of a refusal, in words, and the name that it is about.
#[tactic(auto, unfolding(crate::specs::Texts::refusal_line, crate::specs::Texts::refused_by))]
fn rule_and_name(refusal: Refusal) -> (&'static str, Option<u64>)
    ensures { refusal_line refusal ≡ refused_by result.0.now result.1 }
{
    match refusal {
        Refusal::Unknown(t) => ("unknown", Some(t.0)),
        Refusal::Ended(t) => ("ended", Some(t.0)),
        Refusal::NotRunning(t) => ("not running", Some(t.0)),
        Refusal::Taken(t) => ("taken", Some(t.0)),
        Refusal::Begun(t) => ("begun", Some(t.0)),
        Refusal::NoObject(x) => ("no object", Some(x.0)),
        Refusal::Same => ("same", None),
        Refusal::Cycle => ("cycle", None),
        Refusal::TooLate(t) => ("too late", Some(t.0)),
    }
}

/// Appends the line of a refusal.
#[tactic(auto, unfolding(crate::specs::Texts::refused_by, crate::specs::Texts::line_end))]
fn push_refusal(text: &mut String, refusal: Refusal) -> Result<(), AllocError>
    ensures { OnOk result (string_bytes text.new ≡ string_bytes text.old ++ refusal_line refusal) }
{
    match rule_and_name(refusal) {
        (rule, Some(name)) => writeln!(text, "refused {rule} {name}"),
        (rule, None) => writeln!(text, "refused {rule}"),
    }
}

/// Appends the line of a reply.
#[tactic(auto, unfolding(crate::specs::Texts::reply_line, crate::specs::Texts::line_end))]
fn push_reply(text: &mut String, reply: Reply) -> Result<(), AllocError>
    ensures { OnOk result (string_bytes text.new ≡ string_bytes text.old ++ reply_line reply) }
{
    match reply {
        Reply::Done => text.push_str("ok\n"),
        Reply::Value(v) => {
            push_value(text, v)?;
            text.push_str("\n")
        }
        Reply::Committed => text.push_str("committed\n"),
        Reply::Aborted => text.push_str("aborted\n"),
        Reply::Refused(refusal) => push_refusal(text, refusal),
    }
}

/// Appends the line of a step's outcome.
#[tactic(auto, unfolding(crate::specs::Texts::outcome_line, crate::specs::Texts::line_end))]
pub fn push_outcome(text: &mut String, outcome: Outcome) -> Result<(), AllocError>
    ensures { OnOk result (string_bytes text.new ≡ string_bytes text.old ++ outcome_line outcome) }
{
    match outcome {
        Outcome::Answer(reply) => push_reply(text, reply),
        Outcome::Wait => text.push_str("wait\n"),
    }
}

/// Appends the line of a step for which the history has no room.
#[tactic(auto, unfolding(crate::specs::Texts::full_line, crate::specs::Texts::line_end))]
pub fn push_full(text: &mut String) -> Result<(), AllocError>
    ensures { OnOk result (string_bytes text.new ≡ string_bytes text.old ++ full_line) }
{
    text.push_str("full\n")
}

/// Appends the line that answers a bad line, with its number.
#[tactic(auto, unfolding(crate::specs::Texts::bad_line, crate::specs::Texts::line_end))]
pub fn push_bad_line(text: &mut String, number: u64) -> Result<(), AllocError>
    ensures { OnOk result (string_bytes text.new ≡ string_bytes text.old ++ bad_line number) }
{
    writeln!(text, "line {number}: bad command")
}
