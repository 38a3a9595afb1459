//! The step that a plain step asks for.

ghost use Rattle.std.specs.Prelude.{◌≡◌, ◌≤◌, true, false, length, take, Some, None};
ghost use Rattle.asset_handle.specs.Asked.{delegate_in, depend_in, initiate_in, kind_in, ops_in, permit_any_in, permit_in, step_in};
ghost use Rattle.asset_handle.specs.Listed.{objects_named, set_in, set_of_listed};

use crate::plain::{ALL, PlainStep, SLOTS};
use asset_names::{Kind, Ob, ObList, ObSet, Op, Ops, Step, Txn};

/// Returns the operations of this number.
#[tactic(auto, unfolding(crate::specs::Asked::ops_in, asset_names::specs::OpSets::only_op))]
fn ops_of(number: u32) -> Option<Ops>
    ensures { result ≡ ops_in number }
{
    match number {
        1 => Ops::new(true, false),
        2 => Ops::new(false, true),
        3 => Ops::new(true, true),
        4 => Some(Ops::only(Op::Add)),
        5 => Some(Ops::with_add(true, false)),
        6 => Some(Ops::with_add(false, true)),
        7 => Some(Ops::with_add(true, true)),
        _ => None,
    }
}

/// Returns the kind of dependency of this number.
#[tactic(auto, unfolding(crate::specs::Asked::kind_in))]
fn kind_of(number: u32) -> Option<Kind>
    ensures { result ≡ kind_in number }
{
    match number {
        1 => Some(Kind::Cd),
        2 => Some(Kind::Ad),
        3 => Some(Kind::Gc),
        _ => None,
    }
}

/// Returns slots of which the first ones have the objects that the first numbers name.
fn named_first(count: usize, names: &[u64; SLOTS]) -> [Ob; SLOTS]
    requires { count ≤ 16 }
    ensures { take count result ≡ objects_named (take count names.now) }
{
    let mut objects = [Ob(0); SLOTS];
    'names: for i in 0..count {
        objects[i] = Ob(names[i]);
    }
    objects
}

/// Returns the set of these objects, if they make a list.
#[tactic(auto, unfolding(crate::specs::Listed::set_of_listed), using(crate::proofs::ListedLemmas::list_is_made, crate::proofs::ListedLemmas::no_list_is_made))]
fn listed(objects: &[Ob]) -> Option<ObSet>
    ensures { result ≡ set_of_listed objects.now }
{
    match ObList::of(objects) {
        Ok(list) => Some(ObSet::Listed(list)),
        Err(_) => None,
    }
}

/// Returns the set of the objects that the first numbers name, if they make a list.
fn listed_first(count: usize, names: &[u64; SLOTS]) -> Option<ObSet>
    requires { count ≤ 16 }
    ensures { result ≡ set_of_listed (objects_named (take count names.now)) }
{
    let objects = named_first(count, names);
    listed(&objects[..count])
}

/// Returns the set that a plain step lists, if it lists one.
#[tactic(auto, unfolding(crate::specs::Listed::set_in))]
fn set_of(asked: &PlainStep) -> Option<ObSet>
    ensures { result ≡ set_in asked.now.count asked.now.objects }
{
    if asked.count == ALL {
        return Some(ObSet::All);
    }
    if asked.count > SLOTS as u64 {
        return None;
    }
    listed_first(asked.count as usize, &asked.objects)
}

/// Returns the initiate that is asked for.
#[tactic(auto, unfolding(crate::specs::Asked::initiate_in))]
fn initiate_of(asked: &PlainStep) -> Option<Step>
    ensures { result ≡ initiate_in asked.now }
{
    let t = Txn(asked.first);
    match asked.detail {
        0 => Some(Step::Initiate { t, parent: None }),
        1 => Some(Step::Initiate {
            t,
            parent: Some(Txn(asked.second)),
        }),
        _ => None,
    }
}

/// Returns the permit that is asked for.
#[tactic(auto, unfolding(crate::specs::Asked::permit_in, crate::specs::Asked::permit_of))]
fn permit_of(asked: &PlainStep) -> Option<Step>
    ensures { result ≡ permit_in asked.now }
{
    let ops = ops_of(asked.detail)?;
    let obs = set_of(asked)?;
    Some(Step::Permit {
        giver: Txn(asked.first),
        taker: Txn(asked.second),
        obs,
        ops,
    })
}

/// Returns the open permit that is asked for. `None` also if it is on all objects.
#[tactic(auto, unfolding(crate::specs::Asked::permit_any_in, crate::specs::Asked::permit_any_of))]
fn permit_any_of(asked: &PlainStep) -> Option<Step>
    ensures { result ≡ permit_any_in asked.now }
{
    let ops = ops_of(asked.detail)?;
    match set_of(asked)? {
        ObSet::Listed(obs) => Some(Step::PermitAny {
            giver: Txn(asked.first),
            obs,
            ops,
        }),
        ObSet::All => None,
    }
}

/// Returns the delegation that is asked for.
#[tactic(auto, unfolding(crate::specs::Asked::delegate_in))]
fn delegate_of(asked: &PlainStep) -> Option<Step>
    ensures { result ≡ delegate_in asked.now }
{
    let obs = set_of(asked)?;
    Some(Step::Delegate {
        giver: Txn(asked.first),
        taker: Txn(asked.second),
        obs,
    })
}

/// Returns the dependency that is asked for.
#[tactic(auto, unfolding(crate::specs::Asked::depend_in))]
fn depend_of(asked: &PlainStep) -> Option<Step>
    ensures { result ≡ depend_in asked.now }
{
    let kind = kind_of(asked.detail)?;
    Some(Step::Depend {
        kind,
        a: Txn(asked.first),
        b: Txn(asked.second),
    })
}

/// Puts a step that may be there into the slot. Returns whether it was there.
fn put_found(found: Option<Step>, slot: &mut Step) -> bool
    ensures there { result ≡ true → found ≡ Some slot.new }
    ensures none { result ≡ false → found ≡ None }
{
    match found {
        Some(step) => {
            *slot = step;
            true
        }
        None => false,
    }
}

/// Puts the step that is asked for into the slot. Returns whether there is one: not if the kind or the detail is unknown, the
/// objects make no list, or they are all objects of a permit to anybody. Only what the step names is written, since to move a
/// step copies its sixteen objects.
#[inline(always)]
#[tactic(auto, unfolding(crate::specs::Asked::step_in))]
pub(crate) fn put_step(asked: &PlainStep, slot: &mut Step) -> bool
    ensures there { result ≡ true → step_in asked.now ≡ Some slot.new }
    ensures none { result ≡ false → step_in asked.now ≡ None }
{
    let t = Txn(asked.first);
    let x = Ob(asked.second);
    match asked.kind {
        1 => put_found(initiate_of(asked), slot),
        2 => {
            *slot = Step::Begin { t };
            true
        }
        3 => {
            *slot = Step::Read { t, x };
            true
        }
        4 => {
            *slot = Step::Write {
                t,
                x,
                v: asked.value,
            };
            true
        }
        5 => {
            *slot = Step::Complete { t };
            true
        }
        6 => put_found(permit_of(asked), slot),
        7 => put_found(delegate_of(asked), slot),
        8 => put_found(depend_of(asked), slot),
        9 => {
            *slot = Step::Commit { t };
            true
        }
        10 => {
            *slot = Step::Abort { t };
            true
        }
        11 => {
            *slot = Step::WaitFor { t };
            true
        }
        12 => {
            *slot = Step::Add {
                t,
                x,
                d: asked.value,
            };
            true
        }
        13 => put_found(permit_any_of(asked), slot),
        _ => false,
    }
}
