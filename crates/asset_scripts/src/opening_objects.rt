//! The objects that a script adds before its first step.

use crate::faults::ScriptFault;
use asset_names::Ob;
use indexmap::IndexSet;
use std::alloc::Global;
use std::marker::Model;

/// Objects with their values, in the order in which they were added; none comes twice. Contracts see this
/// list. Whether an object is among them is found without going over them.
#[derive(Drop)]
pub struct OpeningObjects {
    pairs: Vec<(Ob, i64)>,
    objects: IndexSet<Ob>,
}

impl Model for OpeningObjects {
    ghost use Rattle.std.specs.Prelude.{◌≡◌, ℤ, map};
    ghost use Rattle.asset_names.specs.declared.names.Ob.{Ob};
    ghost use Rattle.asset_names.specs.Steps.{Opening};

    ghost Value = { Opening };

    ghost view = { λ opening. opening.pairs.items };

    ghost invariant = { λ opening. opening.objects.keys ≡ map (λ (pair : Ob × ℤ). pair.0) opening.pairs.items };
}

impl OpeningObjects {
    ghost use Rattle.std.specs.Prelude.{◌≡◌, [], ◌∷◌, ◌++◌, not, IfOk, OnOk, IfErr, OnErr};
    ghost use Rattle.std.specs.Bool.{OnTrue, OnFalse};
    ghost use Rattle.asset_names.specs.Sets.{HasNoDouble};
    ghost use Rattle.asset_names.specs.Operations.{exists};
    ghost use Rattle.asset_names.specs.Steps.{objects_of};

    /// Returns an opening without objects. Takes no memory.
    pub fn new(alloc: Global) -> OpeningObjects
        ensures { result ≡ [] }
    {
        OpeningObjects {
            pairs: Vec::new(alloc),
            objects: IndexSet::new(alloc),
        }
    }

    /// Adds an object with its value, unless it is there already. Returns whether it was added. If memory
    /// runs out, nothing changes.
    pub fn add(&mut self, object: (Ob, i64)) -> Result<bool, ScriptFault>
        ensures added { IfOk result (λ added. added ≡ not (exists self.old object.0.0)) }
        ensures grown { IfOk result (λ added. OnTrue added (self.new ≡ self.old ++ object ∷ [])) }
        ensures kept { IfOk result (λ added. OnFalse added (self.new ≡ self.old)) }
        ensures different { OnOk result (HasNoDouble (objects_of self.old) → HasNoDouble (objects_of self.new)) }
        ensures unchanged { OnErr result (self.new ≡ self.old) }
        ensures memory { IfErr result (λ fault. fault ≡ ScriptFault.NoMemory) }
    {
        match self.pairs.reserve(1) {
            Ok(()) => match self.objects.insert(object.0) {
                Ok(true) => {
                    self.pairs.push_reserved(object);
                    Ok(true)
                }
                Ok(false) => Ok(false),
                Err(_) => Err(ScriptFault::NoMemory),
            },
            Err(_) => Err(ScriptFault::NoMemory),
        }
    }

    /// Returns the objects with their values.
    pub fn into_pairs(self) -> Vec<(Ob, i64)>
        ensures { result.items ≡ self }
    {
        self.pairs
    }
}
