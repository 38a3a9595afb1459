//! Asks for the steps of a script, and prints nothing.
ghost use Rattle.std.specs.Bool.{OnTrue, OnFalse};
ghost use Rattle.std.specs.Prelude.{◌≡◌, ℕ, ◌+◌, ◌^◌, ◌<◌, List, ◌∷◌, None, Some, length, IfOk, OnOk, IfErr};
ghost use Rattle.asset_grammar.specs.Grammar.{line_of, said_as};
ghost use Rattle.asset_standing.specs.Standing.{stepped, steps_left, stands};

use asset_core::Core;
use asset_grammar::{Said, ScriptLines};
use asset_names::{Fault, Step};
use asset_scripts::ScriptFault;

/// Asks for one step. A step for which there is no room changes nothing.
#[tactic(auto, unfolding(crate::specs::Standing::stepped))]
pub(crate) fn ask(core: &mut Core, step: &Step) -> Result<(), ScriptFault>
    ensures stepped { OnOk result (core.new ≡ stepped core.old step.now) }
    ensures memory { IfErr result (λ fault. fault ≡ ScriptFault.NoMemory) }
{
    match core.step_lent(step) {
        Ok(_) => Ok(()),
        Err(Fault::Full) => Ok(()),
        Err(Fault::NoMemory) => Err(ScriptFault::NoMemory),
    }
}

/// Takes one line among the steps, whose step is in the slot if it asks for one. Returns whether the line is good.
fn take_line(core: &mut Core, said: Said, step: &Step) -> Result<bool, ScriptFault>
    ensures good { IfOk result (λ good. OnTrue good ((line : List ℕ) (more : List (List ℕ)) (n : ℕ) → line_of line ≡ said_as said step.now →
        steps_left (line ∷ more) n core.old ≡ steps_left more (n + 1) core.new)) }
    ensures bad { IfOk result (λ good. OnFalse good ((line : List ℕ) (more : List (List ℕ)) (n : ℕ) → line_of line ≡ said_as said step.now →
        steps_left (line ∷ more) n core.old ≡ stands core.new (Some n))) }
    ensures memory { IfErr result (λ fault. fault ≡ ScriptFault.NoMemory) }
{
    match said {
        Said::Blank => Ok(true),
        Said::Ask => {
            ask(core, step)?;
            Ok(true)
        }
        Said::Object(_) => Ok(false),
        Said::Bad => Ok(false),
    }
}

/// Takes the lines among the steps, of which the first has this number. Returns the number of the bad line at which they end,
/// if there is one.
pub(crate) fn take_lines(
    core: &mut Core,
    step: &mut Step,
    number: u64,
    rest: &mut ScriptLines<'_>,
) -> Result<Option<u64>, ScriptFault>
    requires few { number + length rest.old < 2 ^ 64 }
    ensures left { IfOk result (λ bad. steps_left rest.old number core.old ≡ stands core.new bad) }
    ensures memory { IfErr result (λ fault. fault ≡ ScriptFault.NoMemory) }
{
    let mut line_number = number;
    'lines: while let Some(said) = rest.next_line(step) {
        if !take_line(core, said, step)? {
            return Ok(Some(line_number));
        }
        line_number += 1;
    }
    Ok(None)
}
