//! The pruned script of drawn steps, run again.
use crate::deletion::{DRAWN_ROOM, left_undead, steps_are_drawn};
use crate::histories::played;
use crate::memory::expect;
use asset_history::History;
use asset_names::{NoMemory, Outcome};
use asset_printing::push_outcome;
use asset_reports::push_pruned;
use asset_scripts::RunEnd;
use std::alloc::{AllocError, Global};
use std::test::Fail;

/// Returns the pruned script of a history. If memory runs out once, it is printed again.
fn pruned(alloc: Global, history: &History) -> Result<String, NoMemory> {
    let mut text = String::new(alloc);
    match push_pruned(alloc, history, &mut text) {
        Ok(()) => Ok(text),
        Err(NoMemory) => {
            text.clear();
            match push_pruned(alloc, history, &mut text) {
                Ok(()) => Ok(text),
                Err(NoMemory) => Err(NoMemory),
            }
        }
    }
}

/// Appends the line of the reply of the entry at the index.
fn push_reply(text: &mut String, history: &History, index: usize) -> Result<(), AllocError> {
    match history.entry(index) {
        Some((_, reply)) => push_outcome(text, Outcome::Answer(reply)),
        None => Ok(()),
    }
}

/// Appends the lines of the replies of all entries.
fn push_replies(text: &mut String, history: &History) -> Result<(), AllocError> {
    for i in 0..history.len() {
        push_reply(text, history, i)?;
    }
    Ok(())
}

/// Returns the replies that stay in a history without its dead groups, a line each.
fn replies_that_stay(alloc: Global, history: &History) -> Result<String, NoMemory> {
    let left = left_undead(alloc, history)?;
    let mut text = String::new(alloc);
    let pushed = push_replies(&mut text, &left);
    drop(left);
    match pushed {
        Ok(()) => Ok(text),
        Err(_) => Err(NoMemory),
    }
}

#[test]
fn pruned_script_of_drawn_steps_runs_alike(rt: HostRuntime) -> Result<(), Fail> {
    let (history, fault) = played(rt.alloc(), DRAWN_ROOM, steps_are_drawn)?;
    let script = pruned(rt.alloc(), &history);
    let replies = replies_that_stay(rt.alloc(), &history);
    drop(history);
    let (script, replies) = (script?, replies?);
    assert_eq!(rt; fault, None);
    assert!(rt; replies.len() > 0, "nothing is left");
    expect(&rt, script.as_bytes(), replies.as_str(), RunEnd::Finished)
}
