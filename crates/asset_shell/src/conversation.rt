//! A conversation that goes on by pieces of text, whatever lines they have.
ghost use Rattle.std.specs.Prelude.{◌≡◌, ◌==◌, ◌≤◌, ◌++◌, OnOk, OnErr, IfErr, length, position, take};

use crate::answering::Answerer;
use crate::answers::Answers;
use asset_names::{Step, Txn};
use asset_scripts::{RunEnd, ScriptFault};
use std::alloc::Global;
use std::marker::Model;

/// The most bytes of a line that are kept: one more than a line may have.
const MOST_KEPT: usize = 4097;

/// Returns the position of the first line feed.
fn feed_position(text: &[u8]) -> Option<usize>
    ensures { result ≡ position (λ b. b == 10) text.now }
{
    text.iter().position(|b| *b == b'\n')
}

/// Appends bytes to the line that has begun, as far as they are kept.
fn keep(begun: &mut Vec<u8>, bytes: &[u8]) -> Result<(), ScriptFault>
    requires { length begun.old.items ≤ 4097 }
    ensures kept { OnOk result (begun.new.items ≡ take 4097 (begun.old.items ++ bytes.now)) }
    ensures unchanged { OnErr result (begun.new.items ≡ begun.old.items) }
    ensures few { length begun.new.items ≤ 4097 }
    ensures memory { IfErr result (λ fault. fault ≡ ScriptFault.NoMemory) }
{
    let room = MOST_KEPT - begun.len();
    let count = room.min(bytes.len());
    begun.extend_from_slice(&bytes[..count])?;
    Ok(())
}

/// A conversation: the facility, and the line that has begun. Contracts see the session after the lines that have ended, the
/// number of the next line, what has come of that line, and the number of the first bad line.
#[derive(Drop)]
pub struct Conversation {
    answerer: Answerer,
    begun: Vec<u8>,
}

impl Model for Conversation {
    ghost use Rattle.std.specs.Prelude.{◌≤◌, length};
    ghost use Rattle.asset_grammar.specs.Lines.{Lacks};
    ghost use Rattle.asset_shell.specs.Talking.{Talk};

    ghost Value = { Talk };

    ghost view = { λ c. record { session = c.answerer.session; number = c.answerer.number; begun = c.begun.items; bad = c.answerer.bad } };

    ghost invariant = { λ c. (length c.begun.items ≤ 4097) × Lacks 10 c.begun.items };
}

impl Conversation {
    ghost use Rattle.std.specs.Prelude.{◌≡◌, ◌+◌, ◌^◌, ◌<◌, ◌≤◌, ◌++◌, OnOk, IfErr, length, string_bytes};
    ghost use Rattle.asset_core.specs.OpenFaults.{IsCapacity};
    ghost use Rattle.asset_grammar.specs.Lines.{Lacks};
    ghost use Rattle.asset_scripts.specs.Renders.{end_at};
    ghost use Rattle.asset_shell.specs.Sessions.{reason_for, reply_to};
    ghost use Rattle.asset_shell.specs.Talking.{after, ended, ended_last, kept, new_talk, said, said_last, said_now};

    /// Returns a conversation in which nothing was heard yet, over a history with room for `capacity` entries. Takes no memory.
    #[tactic(auto, unfolding(crate::specs::Talking::new_talk))]
    pub fn new(alloc: Global, capacity: usize) -> Conversation
        requires capacity { IsCapacity capacity }
        ensures { result ≡ new_talk capacity }
    {
        Conversation {
            answerer: Answerer::new(alloc, capacity),
            begun: Vec::new(alloc),
        }
    }

    /// Returns the number of the next line.
    pub fn number(&self) -> u64
        ensures { result ≡ self.now.number }
    {
        self.answerer.number()
    }

    /// Returns how the conversation ends if nothing more comes: with the number of the first bad line, if there was one.
    #[tactic(auto, unfolding(asset_scripts::specs::Renders::end_at))]
    pub(crate) fn end(&self) -> RunEnd
        ensures { result ≡ end_at self.now.bad }
    {
        match self.answerer.bad() {
            Some(number) => RunEnd::BadLine(number),
            None => RunEnd::Finished,
        }
    }

    /// Tells that at most 4,097 bytes of a line are kept. Does nothing.
    fn laws(&self)
        ensures { length self.now.begun ≤ 4097 }
    {
        let _ = &self.begun;
    }

    /// Hears more of the line that has begun.
    #[tactic(auto, unfolding(crate::specs::Talking::kept))]
    fn hear_part(&mut self, bytes: &[u8]) -> Result<(), ScriptFault>
        requires one { Lacks 10 bytes.now }
        ensures heard { OnOk result (self.new ≡ kept self.old bytes.now) }
        ensures memory { IfErr result (λ fault. fault ≡ ScriptFault.NoMemory) }
    {
        keep(&mut self.begun, bytes)?;
        Ok(())
    }

    /// Answers the line that has begun, which ends here.
    #[tactic(auto, unfolding(crate::specs::Talking::ended))]
    fn end_begun(&mut self, step: &mut Step, answers: &mut Answers) -> Result<(), ScriptFault>
        requires few { self.old.number + 1 < 2 ^ 64 }
        ensures replies { OnOk result (string_bytes answers.new.replies ≡ string_bytes answers.old.replies ++ said_now reply_to self.old) }
        ensures reasons { OnOk result (string_bytes answers.new.reasons ≡ string_bytes answers.old.reasons ++ said_now reason_for self.old) }
        ensures ended { OnOk result (self.new ≡ ended self.old) }
        ensures memory { IfErr result (λ fault. fault ≡ ScriptFault.NoMemory) }
    {
        self.answerer.answer(&self.begun, step, answers)?;
        self.begun.clear();
        Ok(())
    }

    /// Hears the rest of a line, and answers it. A line that comes whole is answered where it stands.
    fn end_line(
        &mut self,
        bytes: &[u8],
        step: &mut Step,
        answers: &mut Answers,
    ) -> Result<(), ScriptFault>
        requires one { Lacks 10 bytes.now }
        requires few { self.old.number + 1 < 2 ^ 64 }
        ensures replies { OnOk result (string_bytes answers.new.replies ≡ string_bytes answers.old.replies ++ said_now reply_to (kept self.old bytes.now)) }
        ensures reasons { OnOk result (string_bytes answers.new.reasons ≡ string_bytes answers.old.reasons ++ said_now reason_for (kept self.old bytes.now)) }
        ensures ended { OnOk result (self.new ≡ ended (kept self.old bytes.now)) }
        ensures memory { IfErr result (λ fault. fault ≡ ScriptFault.NoMemory) }
    {
        if self.begun.is_empty() {
            self.answerer.answer(bytes, step, answers)?;
            return Ok(());
        }
        self.hear_part(bytes)?;
        self.end_begun(step, answers)?;
        Ok(())
    }

    /// Hears a piece of text. Answers each line that ends in it.
    pub(crate) fn hear(&mut self, piece: &[u8], answers: &mut Answers) -> Result<(), ScriptFault>
        requires few { self.old.number + length piece.now < 2 ^ 64 }
        ensures replies { OnOk result (string_bytes answers.new.replies ≡ string_bytes answers.old.replies ++ said reply_to self.old piece.now) }
        ensures reasons { OnOk result (string_bytes answers.new.reasons ≡ string_bytes answers.old.reasons ++ said reason_for self.old piece.now) }
        ensures heard { OnOk result (self.new ≡ after self.old piece.now) }
        ensures memory { IfErr result (λ fault. fault ≡ ScriptFault.NoMemory) }
    {
        self.laws();
        let mut step = Step::Commit { t: Txn(0) };
        let mut rest = piece;
        'lines: while let Some(at) = feed_position(rest) {
            let (line, _) = rest.split_at(at);
            let (_, more) = rest.split_at(at + 1);
            self.end_line(line, &mut step, answers)?;
            rest = more;
        }
        self.hear_part(rest)?;
        Ok(())
    }

    /// Answers the last line, if it has begun, when nothing more comes.
    #[tactic(auto, unfolding(crate::specs::Talking::said_last, crate::specs::Talking::ended_last))]
    pub(crate) fn hear_end(&mut self, answers: &mut Answers) -> Result<(), ScriptFault>
        requires few { self.old.number + 1 < 2 ^ 64 }
        ensures replies { OnOk result (string_bytes answers.new.replies ≡ string_bytes answers.old.replies ++ said_last reply_to self.old) }
        ensures reasons { OnOk result (string_bytes answers.new.reasons ≡ string_bytes answers.old.reasons ++ said_last reason_for self.old) }
        ensures ended { OnOk result (self.new ≡ ended_last self.old) }
        ensures memory { IfErr result (λ fault. fault ≡ ScriptFault.NoMemory) }
    {
        if self.begun.is_empty() {
            return Ok(());
        }
        let mut step = Step::Commit { t: Txn(0) };
        self.end_begun(&mut step, answers)?;
        Ok(())
    }
}
