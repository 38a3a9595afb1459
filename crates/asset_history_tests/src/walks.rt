//! A walk that finds the sources of what was read, beside a trace of the same history.

use crate::tracing::{drawn_history, drawn_trace};
use asset_names::{NoMemory, Step};
use asset_sources::{Source, SourceWalk, Trace};
use asset_test_tools::commit;
use std::alloc::Global;
use std::test::Fail;

/// Returns a walk over the drawn steps. If memory runs out once, they are asked again.
fn drawn_walk(alloc: Global) -> Result<SourceWalk, Fail> {
    match SourceWalk::of(alloc, drawn_history(alloc)?) {
        Ok(walk) => Ok(walk),
        Err(NoMemory) => Ok(SourceWalk::of(alloc, drawn_history(alloc)?)?),
    }
}

/// Returns whether what was found is what is told of a read. The step is that of what was found.
fn agrees(found: Option<(i64, Source)>, step: &Step, told: &Option<(Step, i64, Source)>) -> bool {
    match told {
        Some((read, v, source)) => read == step && found == Some((*v, *source)),
        None => found.is_none(),
    }
}

/// Returns the first entry of which the walk finds something else than the trace tells, which may be one past the last, and how
/// many reads it finds before that.
fn first_other_found(
    walk: &mut SourceWalk,
    trace: &Trace,
) -> Result<(Option<usize>, usize), NoMemory> {
    let mut step = commit(0);
    let mut reads: usize = 0;
    for index in 0..=trace.len() {
        let found = walk.pass(&mut step)?;
        if !agrees(found, &step, &trace.read(index)) {
            return Ok((Some(index), reads));
        }
        if found.is_some() {
            reads = reads.saturating_add(1);
        }
    }
    Ok((None, reads))
}

/// Walks over the drawn steps beside their trace, and says whether both are as long.
fn walked(alloc: Global, trace: &Trace) -> Result<((Option<usize>, usize), bool), Fail> {
    let mut walk = drawn_walk(alloc)?;
    let found = first_other_found(&mut walk, trace);
    let same = walk.len() == trace.len();
    drop(walk);
    Ok((found?, same))
}

#[test]
fn walk_finds_what_a_trace_tells(rt: HostRuntime) -> Result<(), Fail> {
    let trace = drawn_trace(rt.alloc())?;
    let found = walked(rt.alloc(), &trace);
    drop(trace);
    let ((other, reads), same) = found?;
    assert_eq!(rt; other, None);
    assert!(rt; same && reads > 100);
    Ok(())
}
