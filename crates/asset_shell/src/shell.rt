//! A whole conversation.
ghost use Rattle.std.specs.Prelude.{◌≡◌, length, IfOk, IfErr, vec_len};
ghost use Rattle.asset_core.specs.OpenFaults.{IsCapacity};
ghost use Rattle.asset_shell.specs.Talking.{new_talk};
ghost use Rattle.asset_shell.specs.Turns.{HasWrittenAll, StopsFor, StopsWith, streams};

use crate::conversation::Conversation;
use asset_scripts::{Device, RunEnd, ScriptFault};
use std::alloc::{AllocError, Global};
use std::io::{Read, Write};

/// How many bytes are asked for at once.
const PIECE: usize = 65_536;

/// The most requests in which a conversation is read, so that no line number passes the greatest one.
const MOST_REQUESTS: u64 = 70_368_744_177_664;

/// Returns a vector of `PIECE` zeros.
fn zeros(alloc: Global) -> Result<Vec<u8>, AllocError>
    ensures { IfOk result (λ piece. vec_len piece ≡ 65536) }
{
    vec![in alloc; 0u8; PIECE]
}

/// Takes turns until the reader is at its end, and answers the last line.
fn talk<R: Read, W: Write, E: Write>(
    alloc: Global,
    conversation: &mut Conversation,
    input: &mut Device<R>,
    output: &mut Device<W>,
    errors: &mut Device<E>,
    piece: &mut [u8],
    capacity: usize,
) -> Result<RunEnd, ScriptFault>
    requires new { conversation.old ≡ new_talk capacity }
    requires room { length piece.old ≡ 65536 }
    ensures wrote { IfOk result (HasWrittenAll (streams (R.remaining input.old.inner) (W.contents output.old.inner) (E.contents errors.old.inner)) (streams (R.remaining input.new.inner) (W.contents output.new.inner) (E.contents errors.new.inner)) capacity) }
    ensures stopped { IfErr result (StopsWith (streams (R.remaining input.old.inner) (W.contents output.old.inner) (E.contents errors.old.inner)) (streams (R.remaining input.new.inner) (W.contents output.new.inner) (E.contents errors.new.inner)) capacity) }
    ensures cause { IfErr result (StopsFor input.old input.new output.new errors.new) }
{
    'requests: for _ in 0..MOST_REQUESTS {
        if !conversation.turn(alloc, input, output, errors, piece)? {
            let end = conversation.finish(alloc, output, errors)?;
            return Ok(end);
        }
    }
    Err(ScriptFault::Read)
}

/// Holds a conversation: answers each line that the reader gives, over a history with room for `capacity` entries. Whenever the
/// reader is asked, each complete line that it has given was answered, and its answer was written. A bad line is answered that
/// it is bad, its reason is written to `errors`, and the conversation goes on. A last line without a line feed is answered at
/// the end. Returns how the conversation ends: with the number of the first bad line, if there was one.
///
/// Answers `Read` only if the reader failed or was asked 70,368,744,177,664 times, and then each complete line was answered;
/// `Write` only if a writer failed, and `NoMemory` if memory runs out, and then a prefix of the answers was written.
///
/// Requires a capacity from 1 to 1,000,000. Holds no more than 65,536 bytes of the input, 4,097 bytes of a line that has not
/// ended, and the answers to them.
pub fn run_shell<R: Read, W: Write, E: Write>(
    alloc: Global,
    input: &mut Device<R>,
    output: &mut Device<W>,
    errors: &mut Device<E>,
    capacity: usize,
) -> Result<RunEnd, ScriptFault>
    requires capacity { IsCapacity capacity }
    ensures wrote { IfOk result (HasWrittenAll (streams (R.remaining input.old.inner) (W.contents output.old.inner) (E.contents errors.old.inner)) (streams (R.remaining input.new.inner) (W.contents output.new.inner) (E.contents errors.new.inner)) capacity) }
    ensures stopped { IfErr result (StopsWith (streams (R.remaining input.old.inner) (W.contents output.old.inner) (E.contents errors.old.inner)) (streams (R.remaining input.new.inner) (W.contents output.new.inner) (E.contents errors.new.inner)) capacity) }
    ensures cause { IfErr result (StopsFor input.old input.new output.new errors.new) }
{
    let mut piece = zeros(alloc)?;
    let mut conversation = Conversation::new(alloc, capacity);
    talk(
        alloc,
        &mut conversation,
        input,
        output,
        errors,
        piece.as_mut_slice(),
        capacity,
    )
}
