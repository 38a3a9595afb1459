//! Those who committed, one after another, as a script.

ghost use Rattle.std.specs.Prelude.{◌≡◌, ◌++◌, IfOk, OnOk, string_bytes};
ghost use Rattle.asset_laws.specs.Serial.{shares_nothing};
ghost use Rattle.asset_reports.specs.Reports.{serial_text};

use crate::history_report::push_history;
use asset_history::History;
use asset_names::NoMemory;
use asset_serial::{committed_share_nothing, serial};
use std::alloc::Global;

/// Appends the history of those who committed, one after another in the order of their commits, as a script. Run alone,
/// over a history with room for its entries, it gets the replies that they had (law `printed_scripts_run_again` of
/// `asset_cli`). Returns whether there is one: if those who committed shared something, a line says so. It answers
/// `NoMemory` if memory runs out, and takes time that is nearly in proportion to the entries.
#[tactic(auto, unfolding(crate::specs::Reports::serial_text))]
pub fn push_serial(alloc: Global, history: &History, text: &mut String) -> Result<bool, NoMemory>
    ensures text { OnOk result (string_bytes text.new ≡ string_bytes text.old ++ serial_text history.now) }
    ensures there { IfOk result (λ there. there ≡ shares_nothing history.now.entries) }
{
    if committed_share_nothing(alloc, history)? {
        let left = serial(alloc, history)?;
        let pushed = push_history(text, &left);
        drop(left);
        match pushed {
            Ok(()) => Ok(true),
            Err(_) => Err(NoMemory),
        }
    } else {
        match text.push_str("shared\n") {
            Ok(()) => Ok(false),
            Err(_) => Err(NoMemory),
        }
    }
}
