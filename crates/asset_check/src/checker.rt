//! What a script has said before a line, as far as later lines depend on it.
ghost use Rattle.std.specs.Prelude.{cond, Some, None};
ghost use Rattle.asset_grammar.specs.Words.{words};
ghost use Rattle.asset_reasons.specs.Mistakes.{Finds, second_word};
ghost use Rattle.asset_reasons.specs.declared.reasons.Reason.TheVariants.{GivenTwice};

use asset_grammar::Said;
use asset_names::Ob;
use asset_reasons::{Mistake, Reason, reason_of, second_word};
use asset_scripts::{OpeningObjects, ScriptFault};
use std::alloc::Global;
use std::marker::Model;

/// Returns what is wrong with an object line whose object was added, or was there already.
fn twice_unless(added: bool, line: &[u8]) -> Option<Mistake<'_>>
    ensures { Finds result (cond added None (Some (GivenTwice, second_word (words line.now)))) }
{
    if added {
        None
    } else {
        Some(Mistake {
            reason: Reason::GivenTwice,
            word: second_word(line),
        })
    }
}

/// What the lines before a line have said, as far as it matters to whether that line is bad. Contracts see the objects that
/// good object lines have added, or `None` once a step was asked for.
#[derive(Drop)]
pub struct Checker {
    opening: OpeningObjects,
    stepped: bool,
}

impl Model for Checker {
    ghost use Rattle.asset_names.specs.Steps.{objects_of};
    ghost use Rattle.asset_names.specs.Sets.{HasNoDouble};
    ghost use Rattle.asset_check.specs.Checked.{Seen};
    ghost use Rattle.asset_check.specs.Checking.{seen_in};

    ghost Value = { Seen };

    ghost view = { λ c. seen_in c.stepped c.opening };

    ghost invariant = { λ c. HasNoDouble (objects_of c.opening) };
}

impl Checker {
    ghost use Rattle.std.specs.Prelude.{◌≡◌, ℕ, List, [], Some, None, IfOk, OnOk, IfErr, OnErr};
    ghost use Rattle.asset_names.specs.declared.steps.Step.{Step as StepAsked};
    ghost use Rattle.asset_names.specs.Steps.{Opening, objects_of};
    ghost use Rattle.asset_names.specs.Sets.{HasNoDouble};
    ghost use Rattle.asset_grammar.specs.Grammar.{line_of, said_as};
    ghost use Rattle.asset_check.specs.Checked.{mistake_at, object_mistake, seen_by, seen_object};
    ghost use Rattle.asset_reasons.specs.Mistakes.{Finds};

    /// Returns a checker of the first line. Takes no memory.
    pub fn new(alloc: Global) -> Checker
        ensures { result ≡ Some [] }
    {
        let opening = OpeningObjects::new(alloc);
        Checker {
            opening,
            stepped: false,
        }
    }

    /// Returns the objects that were added, and takes no further ones, as from the first step on. Requires that no step
    /// was asked for yet, and that the objects were not returned before.
    pub fn end_objects(&mut self, alloc: Global) -> OpeningObjects
        requires { (opening : Opening) × (self.old ≡ Some opening) }
        ensures objects { self.old ≡ Some result }
        ensures different { HasNoDouble (objects_of result) }
        ensures ended { self.new ≡ None }
    {
        let none = OpeningObjects::new(alloc);
        self.stepped = true;
        std::mem::replace(&mut self.opening, none)
    }

    /// Adds the object of an object line. Returns what is wrong with the line.
    fn add<'a>(
        &mut self,
        object: (Ob, i64),
        line: &'a [u8],
    ) -> Result<Option<Mistake<'a>>, ScriptFault>
        ensures mistake { IfOk result (λ found. Finds found (object_mistake self.old object.0 line.now)) }
        ensures seen { OnOk result (self.new ≡ seen_object self.old object) }
        ensures unchanged { OnErr result (self.new ≡ self.old) }
        ensures memory { IfErr result (λ fault. fault ≡ ScriptFault.NoMemory) }
    {
        if self.stepped {
            return Ok(Some(Mistake::bare(Reason::ObjectAfterStep)));
        }
        let added = self.opening.add(object)?;
        Ok(twice_unless(added, line))
    }

    /// Takes the next line, which says this. Returns why it is bad, if it is. If memory runs out,
    /// nothing changes.
    pub fn take<'a>(
        &mut self,
        line: &'a [u8],
        said: Said,
    ) -> Result<Option<Mistake<'a>>, ScriptFault>
        ensures mistake { IfOk result (λ found. (step : StepAsked) → line_of line.now ≡ said_as said step → Finds found (mistake_at self.old line.now)) }
        ensures seen { OnOk result ((step : StepAsked) → line_of line.now ≡ said_as said step → self.new ≡ seen_by self.old (line_of line.now)) }
        ensures unchanged { OnErr result (self.new ≡ self.old) }
        ensures memory { IfErr result (λ fault. fault ≡ ScriptFault.NoMemory) }
    {
        match said {
            Said::Blank => Ok(None),
            Said::Ask => {
                self.stepped = true;
                Ok(None)
            }
            Said::Object(object) => {
                let found = self.add(object, line)?;
                Ok(found)
            }
            Said::Bad => Ok(reason_of(line)),
        }
    }
}
