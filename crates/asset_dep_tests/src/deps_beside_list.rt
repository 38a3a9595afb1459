//! Dependencies beside a plain list that does the same by scanning: all that shows is compared after each drawn call.

use crate::deps::{add_between, doom, enrol};
use asset_deps::Deps;
use asset_names::{Kind, NoMemory, Txn};
use asset_test_tools::{kind_of, next};
use std::test::Fail;

/// How many transactions there are beside the plain list, and how many calls are drawn.
const NAMES: u64 = 5;

const CALLS: usize = 1_500;

/// A dependency of a plain list.
#[derive(Clone, Copy)]
struct Plain {
    kind: Kind,
    source: u64,
    dependent: u64,
}

/// How far a search goes: within a class, along abort dependencies too, or along all.
#[derive(Clone, Copy)]
enum Way {
    Class,
    Doom,
    Path,
}

/// Returns whether the search goes from source to dependent along this kind.
fn goes(way: Way, kind: Kind) -> bool {
    match way {
        Way::Class => kind == Kind::Gc,
        Way::Doom => kind != Kind::Cd,
        Way::Path => true,
    }
}

/// Returns whom the search meets from a transaction, a bit for each.
fn reached(list: &[Plain], from: u64, way: Way) -> u64 {
    let mut met = 1 << (from % NAMES);
    for _ in 0..NAMES {
        for one in list {
            let (source, dependent) = (1 << (one.source % NAMES), 1 << (one.dependent % NAMES));
            if goes(way, one.kind) && met & source != 0 {
                met |= dependent;
            }
            if one.kind == Kind::Gc && met & dependent != 0 {
                met |= source;
            }
        }
    }
    met
}

/// Returns whether the search meets the second transaction from the first.
fn is_reached(list: &[Plain], from: u64, to: u64, way: Way) -> bool {
    reached(list, from, way) >> (to % NAMES) & 1 == 1
}

/// Returns whether a dependency would close a cycle.
fn would_cycle(list: &[Plain], kind: Kind, a: u64, b: u64) -> bool {
    match kind {
        Kind::Gc => {
            !is_reached(list, a, b, Way::Class)
                && (is_reached(list, a, b, Way::Path) || is_reached(list, b, a, Way::Path))
        }
        _ => is_reached(list, b, a, Way::Path),
    }
}

/// Returns whether the class has a source outside it.
fn has_outside(list: &[Plain], t: u64) -> bool {
    let met = reached(list, t, Way::Class);
    list.iter().any(|one| {
        one.kind != Kind::Gc
            && met >> (one.dependent % NAMES) & 1 == 1
            && met >> (one.source % NAMES) & 1 == 0
    })
}

/// Returns what the list shows of two transactions, a bit for each answer.
fn plain_between(list: &[Plain], a: u64, b: u64) -> u64 {
    let mut bits = u64::from(is_reached(list, a, b, Way::Class));
    bits = bits << 1 | u64::from(is_reached(list, a, b, Way::Doom));
    bits = bits << 1 | u64::from(would_cycle(list, Kind::Cd, a, b));
    bits = bits << 1 | u64::from(would_cycle(list, Kind::Ad, a, b));
    bits << 1 | u64::from(would_cycle(list, Kind::Gc, a, b))
}

/// Returns what the table shows of two transactions, the first of which has its doomed marked.
fn shown_between(deps: &mut Deps, a: u64, b: u64) -> u64 {
    let (first, second) = (Txn(a), Txn(b));
    let doomed = a == b || deps.is_doomed(second);
    let mut bits = u64::from(deps.same_class(first, second));
    bits = bits << 1 | u64::from(doomed);
    bits = bits << 1 | u64::from(deps.would_cycle(Kind::Cd, first, second));
    bits = bits << 1 | u64::from(deps.would_cycle(Kind::Ad, first, second));
    bits << 1 | u64::from(deps.would_cycle(Kind::Gc, first, second))
}

/// Takes the marks away one by one. Returns whether nobody whose mark was taken is marked any more, and none is left.
fn take_marks(deps: &mut Deps) -> bool {
    let mut marked = true;
    for _ in 0..NAMES {
        if let Some(t) = deps.next_marked() {
            marked = marked && !deps.is_doomed(t);
        }
    }
    marked && deps.marked(0) == None
}

/// Returns whether the table shows of a transaction what the list shows.
fn agrees_at(deps: &mut Deps, list: &[Plain], enrolled: u64, a: u64) -> bool {
    doom(deps, a);
    let mut agrees = deps.is_enrolled(Txn(a)) == (enrolled >> (a % NAMES) & 1 == 1)
        && deps.has_outside_source(Txn(a)) == has_outside(list, a);
    for b in 0..NAMES {
        agrees = agrees && shown_between(deps, a, b) == plain_between(list, a, b);
    }
    take_marks(deps) && agrees
}

/// Returns whether the table shows what the list shows.
fn agrees(deps: &mut Deps, list: &[Plain], enrolled: u64) -> bool {
    let mut agrees = true;
    for a in 0..NAMES {
        agrees = agrees && agrees_at(deps, list, enrolled, a);
    }
    agrees
}

/// Makes the call that a number stands for, on the table and the list, and returns who is enrolled from then on.
fn call(deps: &mut Deps, list: &mut Vec<Plain>, enrolled: u64, number: u64) -> Result<u64, Fail> {
    let (source, dependent) = ((number >> 40) % NAMES, (number >> 30) % NAMES);
    match (number >> 50) % 10 {
        0 => {
            deps.end(Txn(source));
            list.retain(|one| one.source != source && one.dependent != source);
            Ok(enrolled & !(1 << (source % NAMES)))
        }
        1 | 2 => {
            enrol(deps, source)?;
            Ok(enrolled | 1 << (source % NAMES))
        }
        _ => {
            let kind = kind_of(number >> 36);
            if add_between(deps, kind, Txn(source), Txn(dependent))? {
                list.push(Plain {
                    kind,
                    source,
                    dependent,
                })?;
            }
            Ok(enrolled)
        }
    }
}

/// Draws calls, and returns the first after which table and list differ.
fn first_difference(deps: &mut Deps, list: &mut Vec<Plain>) -> Result<Option<usize>, Fail> {
    let mut number = 1;
    let mut enrolled = 0;
    for i in 0..CALLS {
        number = next(number);
        enrolled = call(deps, list, enrolled, number)?;
        if !agrees(deps, list, enrolled) {
            return Ok(Some(i));
        }
    }
    Ok(None)
}

#[test]
fn deps_agree_with_a_plain_list(rt: HostRuntime) -> Result<(), Fail> {
    let mut deps = Deps::new(rt.alloc());
    let mut list = Vec::new(rt.alloc());
    let difference = first_difference(&mut deps, &mut list);
    drop(deps);
    drop(list);
    assert_eq!(rt; difference?, None);
    Ok(())
}
