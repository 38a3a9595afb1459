//! The facility and the reference agree on dependencies of each kind, with operations, permits and delegations between
//! them.

ghost use Rattle.std.specs.Prelude.{◌<◌};

use crate::delegations::FIVE;
use crate::opening::ROOM;
use crate::reference::first_difference;
use asset_names::{Kind, Ob, Step};
use asset_test_tools::{
    abort, add, begin, commit, complete, delegate, depend, kind_of, next, ops_of, permit,
    permit_any, read, wait, write,
};
use std::test::Fail;

/// How many scripts are generated, and how many steps each has after its first ten. Each third of these is a dependency.
const SCRIPTS: u64 = 300;

const STEPS: usize = 24;

/// Room for fewer entries than a generated script has.
const LITTLE_ROOM: usize = 28;

/// After five have begun, a class stands behind 7, and falls with it.
const CLASS_FALLS: &str = "\
    initiate 5\nbegin 5\ninitiate 6\nbegin 6\ninitiate 7\nbegin 7\ninitiate 8\nbegin 8\n\
    initiate 9\nbegin 9\n\
    depend gc 8 9\ndepend cd 8 9\ndepend ad 7 8\ndepend cd 9 7\ndepend gc 7 9\n\
    depend gc 9 8\ndepend cd 9 6\nwrite 7 1 11\nwrite 8 2 22\nwrite 9 3 33\nabort 7\n\
    wait 9\nread 6 2\ncomplete 6\ncommit 6\ndepend ad 7 5\n";

/// After five have begun, a class waits for a source of one member, and commits by another.
const CLASS_WAITS: &str = "\
    initiate 5\nbegin 5\ninitiate 6\nbegin 6\ninitiate 7\nbegin 7\ninitiate 8\nbegin 8\n\
    initiate 9\nbegin 9\n\
    depend gc 7 8\ndepend gc 8 9\ndepend cd 6 9\nwrite 7 1 11\ncomplete 7\ncomplete 8\n\
    commit 7\ncomplete 9\ncommit 7\ncomplete 6\ncommit 6\nread 5 1\ncommit 8\nread 5 1\n\
    wait 9\nabort 7\n";

/// After five have begun, commits take the first two off a chain, and the rest stands until an abort.
const CHAIN_IS_CUT: &str = "\
    initiate 5\nbegin 5\ninitiate 6\nbegin 6\ninitiate 7\nbegin 7\ninitiate 8\nbegin 8\n\
    initiate 9\nbegin 9\n\
    depend ad 5 6\ndepend cd 6 7\ndepend ad 7 8\ndepend cd 8 5\ncomplete 5\ncommit 5\n\
    depend cd 8 6\ncomplete 6\ncommit 6\ndepend cd 8 7\ndepend gc 8 7\nabort 7\nwait 8\n\
    wait 6\n";

#[test]
fn facility_agrees_on_dependencies(rt: HostRuntime) -> Result<(), Fail> {
    for script in [CLASS_FALLS, CLASS_WAITS, CHAIN_IS_CUT] {
        let difference = first_difference(rt.alloc(), script, &[], ROOM)?;
        assert_eq!(rt; difference, None, "in {script:?}");
    }
    Ok(())
}

/// Returns the dependency between two of the transactions from `first` on that a number stands for.
fn tied(number: u64, first: u64, count: u64) -> Step
    requires { 0 < count }
{
    let a = first.saturating_add((number >> 40) % count);
    let b = first.saturating_add((number >> 30) % count);
    depend(kind_of(number >> 20), a, b)
}

/// Returns the other step that a number stands for: work, permits, delegations and ends of `count` transactions from
/// `first` on.
fn worked(number: u64, first: u64, count: u64) -> Step
    requires { 0 < count }
{
    let t = first.saturating_add((number >> 40) % count);
    let other = first.saturating_add((number >> 30) % count);
    let x = ((number >> 20) % 2).saturating_add(1);
    match (number >> 50) % 19 {
        0 | 1 => read(t, x),
        2..=4 => write(t, x, (number % 1000) as i64),
        15 | 16 => add(t, x, (number % 1000) as i64),
        5 => permit(t, other, &[], (true, true)),
        18 => permit_any(t, &[Ob(x)], ops_of(number)),
        6 => delegate(t, other, &[Ob(x)]),
        7..=10 => complete(t),
        11..=13 => commit(t),
        14 => wait(t),
        _ => abort(t),
    }
}

/// Draws the steps of a script from a seed on, and leaves the seed of the next script.
fn generated(seed: &mut u64) -> [Step; STEPS] {
    let mut steps = [begin(5); STEPS];
    for (i, step) in steps.iter_mut().enumerate() {
        *seed = next(*seed);
        *step = if i % 3 == 0 {
            tied(*seed, 5, 5)
        } else {
            worked(*seed, 5, 5)
        };
    }
    steps
}

#[test]
fn facility_agrees_on_generated_dependencies(rt: HostRuntime) -> Result<(), Fail> {
    let mut seed = 11;
    for script in 0..SCRIPTS {
        let steps = generated(&mut seed);
        let capacity = if script % 3 == 0 { LITTLE_ROOM } else { ROOM };
        let difference = first_difference(rt.alloc(), FIVE, &steps, capacity)?;
        assert_eq!(rt; difference, None, "script {script}");
    }
    Ok(())
}
