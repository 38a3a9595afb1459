//! The history in which those who committed run alone.

ghost use Rattle.std.specs.Prelude.{◌≡◌, ℕ, IfOk};
ghost use Rattle.asset_names.specs.Steps.{applied};
ghost use Rattle.asset_names.specs.Operations.{value};
ghost use Rattle.asset_names.specs.Answers.{IsLegal};
ghost use Rattle.asset_laws.specs.Serial.{serial, CommittedShareNothing, committed_value};

use crate::blocks::blocks;
use crate::committing::committed_names;
use crate::copying::copy_blocks;
use asset_history::History;
use asset_names::NoMemory;
use std::alloc::Global;

/// Returns the history in which those who committed run one after another in the order of their commits, with nobody
/// else. Each has all its entries, in order and with the same replies, and the history is legal. Each object has the
/// value that they left in it.
///
/// It requires that they shared nothing, as `committed_share_nothing` tells. It answers `NoMemory` if memory runs out,
/// and takes time that is nearly in proportion to the entries.
pub fn serial(alloc: Global, history: &History) -> Result<History, NoMemory>
    requires { CommittedShareNothing history.now.entries }
    ensures exact { IfOk result (λ left. left.entries ≡ serial history.now.entries) }
    ensures opening { IfOk result (λ left. left.opening ≡ history.now.opening) }
    ensures room { IfOk result (λ left. left.capacity ≡ history.now.capacity) }
    ensures legal { IfOk result (λ left. IsLegal left.opening left.entries) }
    ensures values { IfOk result (λ left. (x : ℕ) → value left.opening (applied left.entries) x ≡ committed_value history.now.opening (applied history.now.entries) x) }
{
    let committed = committed_names(alloc, history)?;
    let blocks = blocks(alloc, history, &committed)?;
    let mut left = history.empty_like()?;
    copy_blocks(history, &blocks, &mut left);
    Ok(left)
}
