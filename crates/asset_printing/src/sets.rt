//! Sets of objects as words.
ghost use Rattle.std.specs.Prelude.{◌≡◌, ◌++◌, ◌<◌, ◌≤◌, ◌^◌, ◌∷◌, OnOk, Some, length, string_bytes};
ghost use Rattle.std.specs.Fmt.{decimal};
ghost use Rattle.asset_names.specs.declared.sets.ObSet.TheVariants.{Listed};
ghost use Rattle.asset_grammar.specs.Lines.{Lacks};
ghost use Rattle.asset_grammar.specs.Sets.{set_of};
ghost use Rattle.asset_printing.specs.Printed.{AreNumbers, list_text, more_text, set_text};

use crate::numbers::push_number;
use asset_names::{Ob, ObList, ObSet};
use std::alloc::AllocError;

/// Appends a comma and a number.
fn push_further(text: &mut String, number: u64) -> Result<(), AllocError>
    ensures text { OnOk result (string_bytes text.new ≡ string_bytes text.old ++ 44 ∷ decimal number) }
    ensures small { number < 2 ^ 64 }
{
    text.push_str(",")?;
    push_number(text, number)
}

/// Appends the numbers of the objects, each after a comma.
fn push_more(text: &mut String, objects: &[Ob]) -> Result<(), AllocError>
    ensures text { OnOk result (string_bytes text.new ≡ string_bytes text.old ++ more_text objects.now) }
    ensures small { OnOk result (AreNumbers objects.now) }
{
    'objects: for x in objects {
        push_further(text, x.0)?;
    }
    Ok(())
}

/// Appends the numbers of the objects, with commas between them.
#[tactic(auto, unfolding(crate::specs::Printed::list_text))]
fn push_list(text: &mut String, objects: &[Ob]) -> Result<(), AllocError>
    ensures text { OnOk result (string_bytes text.new ≡ string_bytes text.old ++ list_text objects.now) }
    ensures small { OnOk result (AreNumbers objects.now) }
{
    match objects.split_first() {
        None => Ok(()),
        Some((first, rest)) => {
            push_number(text, first.0)?;
            push_more(text, rest)
        }
    }
}

/// Appends a list of objects as a word.
#[tactic(auto, unfolding(crate::specs::Printed::set_text))]
pub(crate) fn push_objects(text: &mut String, list: &ObList) -> Result<(), AllocError>
    ensures text { OnOk result (string_bytes text.new ≡ string_bytes text.old ++ set_text (Listed list.now)) }
    ensures reads { OnOk result (set_of (set_text (Listed list.now)) ≡ Some (Listed list.now)) }
    ensures word { OnOk result (Lacks 32 (set_text (Listed list.now))) }
{
    push_list(text, list.objects())
}

/// Appends a set of objects as a word.
#[tactic(auto, unfolding(crate::specs::Printed::set_text))]
pub(crate) fn push_set(text: &mut String, obs: &ObSet) -> Result<(), AllocError>
    ensures text { OnOk result (string_bytes text.new ≡ string_bytes text.old ++ set_text obs.now) }
    ensures reads { OnOk result (set_of (set_text obs.now) ≡ Some obs.now) }
    ensures word { OnOk result (Lacks 32 (set_text obs.now)) }
{
    match obs {
        ObSet::All => text.push_str("all"),
        ObSet::Listed(list) => push_objects(text, list),
    }
}
