//! Sets of objects.

ghost use Rattle.std.specs.Prelude.{◌≡◌, ◌≤◌, ◌-◌, ◌==◌, length, take, drop, replicate, IsPermutation, MatchBool};
ghost use Rattle.std.specs.List.{list_any};
ghost use Rattle.std.specs.List.Sorted.{IsNonDecreasingBy, IsStrictlyIncreasing};
ghost use Rattle.asset_names.specs.Sets.{no_object_name, numbers};

use crate::doubles::least_double;
use crate::names::Ob;
use std::marker::Model;
use thiserror::Error;

/// The greatest number of objects in a list.
pub const MOST_OBJECTS: usize = 16;

/// A list of 1 to 16 different objects in rising order. Contracts see the list.
#[derive(Clone, Copy, Debug, PartialEq, Eq)]
pub struct ObList {
    objects: [Ob; MOST_OBJECTS],
    count: usize,
}

impl Model for ObList {
    ghost use Rattle.std.specs.Prelude.{List, ◌-◌, ◌++◌, length, take, replicate};
    ghost use Rattle.asset_names.specs.declared.names.Ob.{Ob};

    ghost Value = { List Ob };

    ghost use Rattle.asset_names.specs.Sets.{no_object_name};
    ghost use Rattle.asset_names.specs.Valid.{IsValid};

    ghost view = { λ list. take list.count list.objects };

    ghost invariant = { λ list. IsValid list.objects list.count };

    ghost inverse = { λ list. record { objects = list ++ replicate (16 - length list) no_object_name; count = length list } };

    ghost use Rattle.asset_names.specs.Valid.{objects_back, count_back};

    ghost inverse_ok = { λ list kept. λ i. record { objects = objects_back list.objects list.count kept i; count = count_back list.objects list.count kept i } };
}

/// A set of objects.
#[derive(Clone, Copy, Debug, PartialEq, Eq)]
pub enum ObSet {
    /// Every object.
    All,
    /// The objects of the list.
    Listed(ObList),
}

/// Why objects cannot be made into an [`ObList`].
#[derive(Clone, Copy, Debug, PartialEq, Eq, Error)]
pub enum SetFault {
    /// There is no object.
    #[error("a list of objects may not be empty")]
    Empty,
    /// There are more than 16 objects.
    #[error("a list has at most 16 objects")]
    TooMany,
    /// An object is given twice; this is the least such object.
    #[error("object {} is listed twice", .0.0)]
    Double(Ob),
}

/// Sorts the objects into rising order.
fn sort(objects: &mut [Ob])
    ensures permutation { IsPermutation objects.old objects.new }
    ensures len { length objects.new ≡ length objects.old }
    ensures sorted { IsNonDecreasingBy (λ x. x.0) objects.new }
{
    objects.sort_unstable_by_key(|x| x.0);
}

/// Returns the objects as they come, followed by empty slots.
fn as_given(objects: &[Ob]) -> [Ob; MOST_OBJECTS]
    requires { length objects.now ≤ 16 }
    ensures front { take (length objects.now) result ≡ objects.now }
    ensures rest { drop (length objects.now) result ≡ replicate (16 - length objects.now) no_object_name }
{
    let mut all = [Ob(0); MOST_OBJECTS];
    all[..objects.len()].copy_from_slice(objects);
    all
}

/// Returns the objects in rising order, followed by empty slots.
fn sorted(objects: &[Ob]) -> [Ob; MOST_OBJECTS]
    requires { length objects.now ≤ 16 }
    ensures permutation { IsPermutation objects.now (take (length objects.now) result) }
    ensures sorted { IsNonDecreasingBy (λ x. x.0) (take (length objects.now) result) }
    ensures rest { drop (length objects.now) result ≡ replicate (16 - length objects.now) no_object_name }
{
    let mut all = as_given(objects);
    sort(&mut all[..objects.len()]);
    all
}

/// Returns whether each object is below the next.
fn is_rising(objects: &[Ob]) -> bool
    ensures { MatchBool result (IsStrictlyIncreasing (numbers objects.now)) (IsStrictlyIncreasing (numbers objects.now) → ⊥) }
{
    'pairs: for i in 1..objects.len() {
        if objects[i].0 <= objects[i - 1].0 {
            return false;
        }
    }
    true
}

/// Returns whether the object is listed.
fn is_listed(objects: &[Ob], x: Ob) -> bool
    ensures { result ≡ list_any (λ o. o.0 == x.0) objects.now }
{
    objects.iter().any(|o| o.0 == x.0)
}

impl ObList {
    ghost use Rattle.std.specs.Prelude.{◌≡◌, ◌<◌, ◌≤◌, [], ◌∷◌, length, IfOk, OnOk, IfErr, IsPermutation};
    ghost use Rattle.std.specs.List.Sorted.{IsStrictlyIncreasing};
    ghost use Rattle.asset_names.specs.Arrows.{lists};
    ghost use Rattle.asset_names.specs.Sets.{numbers, rising, HasNoDouble};
    ghost use Rattle.asset_names.specs.SetFaults.{IsSetFault};

    /// Returns the list of these objects.
    ///
    /// It answers `Empty` if there is no object; otherwise `TooMany` if there are more than 16; otherwise
    /// `Double` with the least object that occurs twice, if one does. Objects that come rising are kept as they come, in one
    /// pass; of others each pair is compared, and they are sorted.
    #[inline(always)]
    #[tactic(auto, unfolding(crate::specs::Sets::numbers))]
    pub fn of(objects: &[Ob]) -> Result<ObList, SetFault>
        ensures kept { IfOk result (λ list. IsPermutation objects.now list) }
        ensures rising { IfOk result (λ list. list ≡ rising objects.now) }
        ensures some { OnOk result (0 < length objects.now) }
        ensures few { OnOk result (length objects.now ≤ 16) }
        ensures different { OnOk result (HasNoDouble (numbers objects.now)) }
        ensures fault { IfErr result (IsSetFault objects.now) }
    {
        if objects.is_empty() {
            return Err(SetFault::Empty);
        }
        if objects.len() > MOST_OBJECTS {
            return Err(SetFault::TooMany);
        }
        if is_rising(objects) {
            return Ok(ObList {
                objects: as_given(objects),
                count: objects.len(),
            });
        }
        if let Some(x) = least_double(objects) {
            return Err(SetFault::Double(x));
        }
        Ok(ObList {
            objects: sorted(objects),
            count: objects.len(),
        })
    }

    /// Returns the list of one object.
    #[inline(always)]
    pub fn one(x: Ob) -> ObList
        ensures { result ≡ x ∷ [] }
    {
        let mut objects = [Ob(0); MOST_OBJECTS];
        objects[0] = x;
        ObList { objects, count: 1 }
    }

    /// Returns the 1 to 16 objects of the list in rising order.
    pub fn objects(&self) -> &[Ob]
        ensures listed { result.now ≡ self.now }
        ensures some { 0 < length self.now }
        ensures few { length self.now ≤ 16 }
        ensures rising { IsStrictlyIncreasing (numbers self.now) }
    {
        &self.objects[..self.count]
    }

    /// Returns whether the object is in the list.
    #[tactic(auto, using(crate::proofs::DoubleLemmas::lists_numbers))]
    pub fn has(&self, x: Ob) -> bool
        ensures { result ≡ lists (numbers self.now) x.0 }
    {
        is_listed(self.objects(), x)
    }
}

impl ObSet {
    ghost use Rattle.std.specs.Prelude.{◌≡◌};
    ghost use Rattle.asset_names.specs.InSet.{in_set, only_in};

    /// Returns whether the object is in the set.
    #[tactic(auto, unfolding(crate::specs::InSet::in_set))]
    pub fn has(&self, x: Ob) -> bool
        ensures { result ≡ in_set self.now x.0 }
    {
        match self {
            ObSet::All => true,
            ObSet::Listed(list) => list.has(x),
        }
    }

    /// Returns the object of a set that lists one alone, and `None` of any other set.
    #[tactic(auto, unfolding(crate::specs::InSet::only_in))]
    pub fn only(&self) -> Option<Ob>
        ensures { result ≡ only_in self.now }
    {
        let ObSet::Listed(list) = self else {
            return None;
        };
        let objects = list.objects();
        if objects.len() == 1 {
            Some(objects[0])
        } else {
            None
        }
    }
}
