//! The lines of a transaction that has completed and waits to commit.

ghost use Rattle.std.specs.Prelude.{◌≡◌, ◌++◌, flat_map, OnOk, string_bytes};
ghost use Rattle.asset_names.specs.Steps.{applied};
ghost use Rattle.asset_waits.specs.Texts.{commit_text};
ghost use Rattle.asset_waits.specs.Keepers.{keeper_line};

use crate::waiting::{outside_sources_of, unfinished_of};
use asset_core::Core;
use asset_names::{NoMemory, Txn};
use std::alloc::{AllocError, Global};

/// Why somebody keeps a transaction from a commit.
#[derive(Clone, Copy)]
enum Keeper {
    /// It is a member of the same class, and has not completed.
    Unfinished,
    /// It is a source outside the class, and lives.
    Source,
}

/// Appends the line of `u`, which keeps `t` from a commit.
#[tactic(auto, unfolding(crate::specs::Texts::unfinished_line, crate::specs::Texts::source_line, crate::specs::Words::pieces))]
fn push_keeper(text: &mut String, t: Txn, u: u64, keeper: Keeper) -> Result<(), AllocError>
    ensures { OnOk result (string_bytes text.new ≡ string_bytes text.old ++ keeper_line keeper t.0 u) }
{
    match keeper {
        Keeper::Unfinished => write!(text, "commit {} waits: {u} has not completed\n", t.0),
        Keeper::Source => write!(text, "commit {} waits: {u} is its source and lives\n", t.0),
    }
}

/// Appends the lines of these, who keep `t` from a commit, or answers `NoMemory` if memory runs out.
fn push_keepers(text: &mut String, t: Txn, names: &[u64], keeper: Keeper) -> Result<(), NoMemory>
    ensures { OnOk result (string_bytes text.new ≡ string_bytes text.old ++ flat_map (keeper_line keeper t.0) names.now) }
{
    'names: for u in names {
        match push_keeper(text, t, *u, keeper) {
            Ok(()) => {}
            Err(_) => return Err(NoMemory),
        }
    }
    Ok(())
}

/// Appends the lines of all who keep `t` from a commit, or answers `NoMemory` if memory runs out.
pub(crate) fn push_commit(
    alloc: Global,
    core: &mut Core,
    text: &mut String,
    t: Txn,
) -> Result<(), NoMemory>
    ensures text { OnOk result (string_bytes text.new ≡ string_bytes text.old ++ commit_text (applied core.old.history.entries) t.0) }
    ensures same { core.new ≡ core.old }
{
    let unfinished = unfinished_of(alloc, core, t)?;
    push_keepers(text, t, &unfinished, Keeper::Unfinished)?;
    let sources = outside_sources_of(alloc, core, t)?;
    push_keepers(text, t, &sources, Keeper::Source)
}
