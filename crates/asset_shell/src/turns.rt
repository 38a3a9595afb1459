//! One turn of a conversation: a piece of text is asked for, each line that ends in it is answered, and the answers are written.
ghost use Rattle.std.specs.Prelude.{◌≡◌, ◌≢◌, ◌≤◌, ◌<◌, ◌+◌, ◌^◌, ◌⊎◌, ℕ, Bool, true, false, List, Option, Err, Some, length, take, string_bytes, is_none, ◌||◌, IfSome, IfNone, IfOk, OnOk, IfErr, OnErr};
ghost use Rattle.std.specs.Bool.{OnFalse, OnTrue};
ghost use Rattle.std.specs.Io.KnownBytes.{Appends, Consumes, IsAtEnd, Keeps};
ghost use Rattle.asset_scripts.specs.Device.{counted};
ghost use Rattle.asset_shell.specs.Turns.{HasWrittenAll, IsUpToDate, StopsWith, Streams, TookPart, streams};

use crate::answers::Answers;
use crate::conversation::Conversation;
use asset_scripts::{Device, RunEnd, ScriptFault, write_all};
use std::alloc::Global;
use std::io::{Read, Write};

/// Writes the answers, and then the reasons. After an error a prefix of each was written.
fn write_answers<W: Write, E: Write>(
    answers: &Answers,
    output: &mut Device<W>,
    errors: &mut Device<E>,
) -> Result<(), ScriptFault>
    ensures replies { OnOk result (Appends (W.contents output.old.inner) (W.contents output.new.inner) (string_bytes answers.now.replies)) }
    ensures reasons { OnOk result (Appends (E.contents errors.old.inner) (E.contents errors.new.inner) (string_bytes answers.now.reasons)) }
    ensures part_replies { OnErr result (TookPart (W.contents output.old.inner) (W.contents output.new.inner) (string_bytes answers.now.replies)) }
    ensures part_reasons { OnErr result (TookPart (E.contents errors.old.inner) (E.contents errors.new.inner) (string_bytes answers.now.reasons)) }
    ensures failed { OnErr result ((output.new.failed ≡ true) ⊎ (errors.new.failed ≡ true)) }
    ensures fault { IfErr result (λ fault. fault ≡ ScriptFault.Write) }
{
    write_all(output, answers.replies.as_bytes())?;
    write_all(errors, answers.reasons.as_bytes())?;
    Ok(())
}

/// Asks the reader for a piece of text. Nobody waits for an answer then: each complete line that the reader has given was
/// answered, and its answer was written.
fn ask_reader<R: Read, W: Write, E: Write>(
    conversation: &Conversation,
    input: &mut Device<R>,
    output: &Device<W>,
    errors: &Device<E>,
    piece: &mut [u8],
) -> Option<usize>
    requires up_to_date { (start : Streams) × (capacity : ℕ) × IsUpToDate start (streams (R.remaining input.old.inner) (W.contents output.now.inner) (E.contents errors.now.inner)) capacity conversation.now }
    ensures bound { IfSome result (λ n. n ≤ length piece.new) }
    ensures gave { IfSome result (λ n. Consumes (R.remaining input.old.inner) (R.remaining input.new.inner) (take n piece.new)) }
    ensures end { IfSome result (λ n. n ≡ 0 → 0 < length piece.new → IsAtEnd (R.remaining input.new.inner)) }
    ensures gave_nothing { IfNone result (Keeps (R.remaining input.old.inner) (R.remaining input.new.inner)) }
    ensures failed { input.new.failed ≡ (input.old.failed || is_none result) }
    ensures asked { input.new.asked ≡ counted input.old.asked 1 }
{
    input.read(piece)
}

impl Conversation {
    /// Takes one turn: asks the reader for a piece of text, answers each line that ends in it, and writes the answers, and the
    /// reasons of bad lines, in full. Returns whether there may be more text; if so, the reader gave some.
    ///
    /// Answers `Read` only if the reader failed, `Write` only if a writer failed, and `NoMemory` if memory runs out. After
    /// `Read` each complete line was answered; after another fault a prefix of the answers was written. The conversation does
    /// not go on after a fault.
    ///
    /// Requires that nobody waits for an answer: what was written since some time is the whole answer to the complete lines
    /// that were read since then.
    pub fn turn<R: Read, W: Write, E: Write>(
        &mut self,
        alloc: Global,
        input: &mut Device<R>,
        output: &mut Device<W>,
        errors: &mut Device<E>,
        piece: &mut [u8],
    ) -> Result<bool, ScriptFault>
        requires some { 0 < length piece.old }
        requires few { self.old.number + length piece.old < 2 ^ 64 }
        requires up_to_date { (start : Streams) × (capacity : ℕ) × IsUpToDate start (streams (R.remaining input.old.inner) (W.contents output.old.inner) (E.contents errors.old.inner)) capacity self.old }
        ensures up_to_date { OnOk result ((start : Streams) (capacity : ℕ) → IsUpToDate start (streams (R.remaining input.old.inner) (W.contents output.old.inner) (E.contents errors.old.inner)) capacity self.old
            → IsUpToDate start (streams (R.remaining input.new.inner) (W.contents output.new.inner) (E.contents errors.new.inner)) capacity self.new) }
        ensures end { IfOk result (λ more. OnFalse more (IsAtEnd (R.remaining input.new.inner))) }
        ensures gave { IfOk result (λ more. OnTrue more ((bytes : List ℕ) × (0 < length bytes) × Consumes (R.remaining input.old.inner) (R.remaining input.new.inner) bytes)) }
        ensures few { OnOk result (self.new.number ≤ self.old.number + length piece.old) }
        ensures stopped { IfErr result (λ fault. (start : Streams) (capacity : ℕ) → IsUpToDate start (streams (R.remaining input.old.inner) (W.contents output.old.inner) (E.contents errors.old.inner)) capacity self.old
            → StopsWith start (streams (R.remaining input.new.inner) (W.contents output.new.inner) (E.contents errors.new.inner)) capacity fault) }
        ensures asked { input.new.asked ≡ counted input.old.asked 1 }
        ensures read { result ≡ Err ScriptFault.Read → input.new.failed ≡ true }
        ensures write { result ≡ Err ScriptFault.Write → (output.new.failed ≡ true) ⊎ (errors.new.failed ≡ true) }
    {
        let Some(count) = ask_reader(self, input, output, errors, piece) else {
            return Err(ScriptFault::Read);
        };
        let mut answers = Answers::new(alloc);
        self.hear(&piece[..count], &mut answers)?;
        write_answers(&answers, output, errors)?;
        Ok(count > 0)
    }

    /// Answers the last line, if it has no line feed, once the reader is at its end. Returns how the conversation ends: with
    /// the number of the first bad line, if there was one. What `turn` says of faults holds here too.
    pub fn finish<W: Write, E: Write>(
        &mut self,
        alloc: Global,
        output: &mut Device<W>,
        errors: &mut Device<E>,
    ) -> Result<RunEnd, ScriptFault>
        requires few { self.old.number + 1 < 2 ^ 64 }
        ensures wrote { IfOk result (λ end. (start : Streams) (capacity : ℕ) (left : Option (List ℕ)) → IsUpToDate start (streams left (W.contents output.old.inner) (E.contents errors.old.inner)) capacity self.old
            → IsAtEnd left → HasWrittenAll start (streams left (W.contents output.new.inner) (E.contents errors.new.inner)) capacity end) }
        ensures stopped { IfErr result (λ fault. (start : Streams) (capacity : ℕ) (left : Option (List ℕ)) → IsUpToDate start (streams left (W.contents output.old.inner) (E.contents errors.old.inner)) capacity self.old
            → StopsWith start (streams left (W.contents output.new.inner) (E.contents errors.new.inner)) capacity fault) }
        ensures read { result ≢ Err ScriptFault.Read }
        ensures write { result ≡ Err ScriptFault.Write → (output.new.failed ≡ true) ⊎ (errors.new.failed ≡ true) }
    {
        let mut answers = Answers::new(alloc);
        self.hear_end(&mut answers)?;
        write_answers(&answers, output, errors)?;
        Ok(self.end())
    }
}
