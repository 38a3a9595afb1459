//! The object lines, which stand before the first step.
ghost use Rattle.std.specs.Prelude.{◌≡◌, ℕ, List, Bool, ◌+◌, ◌^◌, ◌<◌, ◌≤◌, [], length, IfOk, OnOk, IfErr};
ghost use Rattle.asset_names.specs.Sets.{HasNoDouble};
ghost use Rattle.asset_names.specs.Steps.{objects_of};
ghost use Rattle.asset_grammar.specs.Grammar.{line_of, said_as};
ghost use Rattle.asset_grammar.specs.Lines.{lines};
ghost use Rattle.asset_scripts.specs.Preamble.{beginning, begun_at, TakesLine};

use crate::faults::ScriptFault;
use crate::opening_objects::OpeningObjects;
use asset_grammar::{Said, ScriptLines};
use asset_names::{Step, Txn};

/// What a line is before the first step.
#[derive(Clone, Copy)]
pub enum ObjectLine {
    /// It adds an object or says nothing, and further objects may follow.
    More,
    /// It asks for the first step, which is in the slot.
    First,
    /// It is bad.
    Bad,
}

/// Where the object lines end.
#[derive(Drop)]
pub struct Preamble<'a> {
    /// The line at which they end: the first step or a bad line, or `More` at the end of the script.
    pub line: ObjectLine,
    /// The number of that line, if there is one.
    pub number: u64,
    /// The lines after it, if it is the first step.
    pub rest: ScriptLines<'a>,
    /// The slot for steps, with the first step if that line asks for it.
    pub step: Step,
}

/// Takes one line before the first step into the opening.
fn take_line(opening: &mut OpeningObjects, said: Said) -> Result<ObjectLine, ScriptFault>
    ensures takes { IfOk result (λ taken. (line : List ℕ) (step : Step) → line_of line ≡ said_as said step → TakesLine taken step line opening.old opening.new) }
    ensures different { OnOk result (HasNoDouble (objects_of opening.old) → HasNoDouble (objects_of opening.new)) }
    ensures memory { IfErr result (λ fault. fault ≡ ScriptFault.NoMemory) }
{
    match said {
        Said::Blank => Ok(ObjectLine::More),
        Said::Object(object) => {
            if opening.add(object)? {
                Ok(ObjectLine::More)
            } else {
                Ok(ObjectLine::Bad)
            }
        }
        Said::Ask => Ok(ObjectLine::First),
        Said::Bad => Ok(ObjectLine::Bad),
    }
}

/// Takes the object lines at the start of a script into the opening, which is empty before. Returns where they end. Answers
/// `NoMemory` if memory runs out; a part of the objects may have been taken then. Requires fewer than 2^64 - 1 lines.
pub fn take_objects<'a>(
    opening: &mut OpeningObjects,
    bytes: &'a [u8],
) -> Result<Preamble<'a>, ScriptFault>
    requires empty { opening.old ≡ [] }
    requires few { length (lines bytes.now) + 1 < 2 ^ 64 }
    ensures begun { IfOk result (λ preamble. beginning (lines bytes.now) 1 [] ≡ begun_at preamble.line preamble.step preamble.rest preamble.number opening.new) }
    ensures few { IfOk result (λ preamble. preamble.number + length preamble.rest ≤ 1 + length (lines bytes.now)) }
    ensures different { OnOk result (HasNoDouble (objects_of opening.new)) }
    ensures memory { IfErr result (λ fault. fault ≡ ScriptFault.NoMemory) }
{
    let mut rest = ScriptLines::new(bytes);
    let mut step = Step::Commit { t: Txn(0) };
    let mut number = 1;
    'lines: while let Some(said) = rest.next_line(&mut step) {
        match take_line(opening, said)? {
            ObjectLine::More => {}
            ObjectLine::First => return Ok(Preamble {
                line: ObjectLine::First,
                number,
                rest,
                step,
            }),
            ObjectLine::Bad => return Ok(Preamble {
                line: ObjectLine::Bad,
                number,
                rest,
                step,
            }),
        }
        number += 1;
    }
    Ok(Preamble {
        line: ObjectLine::More,
        number,
        rest,
        step,
    })
}
