//! The objects that exist, and their opening values.

ghost use Rattle.std.specs.Prelude.{◌≡◌, not, find};
ghost use Rattle.asset_names.specs.declared.sets.ObSet.TheVariants as ObSet';
ghost use Rattle.asset_names.specs.Operations.{opening_at, exists};
ghost use Rattle.asset_names.specs.Answers.{missing_in};

use asset_names::{Ob, ObList, ObSet};

/// Returns the opening value of an object, and `None` if there is no such object.
#[tactic(auto, unfolding(asset_names::specs::Operations::opening_at))]
pub fn opening_at(opening: &[(Ob, i64)], x: Ob) -> Option<i64>
    ensures { result ≡ opening_at opening.now x.0 }
{
    opening
        .iter()
        .find(|pair| pair.0.0 == x.0)
        .map(|pair| pair.1)
}

/// Returns whether there is no such object.
#[tactic(auto, unfolding(asset_names::specs::Operations::exists))]
fn is_missing(opening: &[(Ob, i64)], x: Ob) -> bool
    ensures { result ≡ not (exists opening.now x.0) }
{
    match opening_at(opening, x) {
        Some(_) => false,
        None => true,
    }
}

/// Returns the first of the objects that does not exist, if there is one.
fn first_missing(opening: &[(Ob, i64)], objects: &[Ob]) -> Option<Ob>
    ensures { result ≡ find (λ x. not (exists opening.now x.0)) objects.now }
{
    objects.iter().copied().find(|x| is_missing(opening, *x))
}

/// Returns the least object of the list that does not exist, if there is one.
#[tactic(auto, unfolding(asset_names::specs::Answers::missing_in))]
pub fn missing_among(opening: &[(Ob, i64)], list: &ObList) -> Option<Ob>
    ensures { result ≡ missing_in opening.now (ObSet'.Listed list.now) }
{
    first_missing(opening, list.objects())
}

/// Returns the least object of the set that does not exist, if there is one.
#[tactic(auto, unfolding(asset_names::specs::Answers::missing_in))]
pub fn missing_in(opening: &[(Ob, i64)], obs: &ObSet) -> Option<Ob>
    ensures { result ≡ missing_in opening.now obs.now }
{
    match obs {
        ObSet::All => None,
        ObSet::Listed(list) => missing_among(opening, list),
    }
}
