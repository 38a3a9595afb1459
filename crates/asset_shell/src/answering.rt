//! Answers one line after another.
ghost use Rattle.std.specs.Prelude.{◌≡◌, ◌++◌, true, Option, None, Some, is_some, OnOk, IfErr, string_bytes};
ghost use Rattle.asset_core.specs.OpenFaults.{IsCapacity};
ghost use Rattle.asset_reasons.specs.Mistakes.{Finds, Found};
ghost use Rattle.asset_entries.specs.Recorded.{answer_to};
ghost use Rattle.asset_printing.specs.Texts.{bad_line};
ghost use Rattle.asset_scripts.specs.Transcript.{joined_by};
ghost use Rattle.asset_shell.specs.Sessions.{outcome_text};
ghost use Rattle.asset_check.specs.Sentences.{mistake_line};
ghost use Rattle.asset_shell.specs.Answering.{asks, bad_if, IsJoint, open_history, session_of};

use crate::answers::Answers;
use asset_check::{Checker, first_of, push_mistake, said_of};
use asset_core::Core;
use asset_grammar::Said;
use asset_names::{Fault, Step};
use asset_printing::{push_bad_line, push_full, push_outcome};
use asset_reasons::Mistake;
use asset_scripts::ScriptFault;
use std::alloc::Global;
use std::marker::Model;

/// Asks one step, and appends the line of its outcome.
#[tactic(auto, unfolding(crate::specs::Sessions::outcome_text, asset_scripts::specs::Transcript::joined_by))]
fn ask(core: &mut Core, replies: &mut String, step: &Step) -> Result<(), ScriptFault>
    ensures text { OnOk result (string_bytes replies.new ≡ string_bytes replies.old ++ outcome_text core.old.history step.now (answer_to core.old.history step.now)) }
    ensures history { OnOk result (core.new.history ≡ joined_by core.old.history step.now (answer_to core.old.history step.now)) }
    ensures memory { IfErr result (λ fault. fault ≡ ScriptFault.NoMemory) }
{
    match core.step_lent(step) {
        Ok(outcome) => {
            push_outcome(replies, outcome)?;
            Ok(())
        }
        Err(Fault::Full) => {
            push_full(replies)?;
            Ok(())
        }
        Err(Fault::NoMemory) => Err(ScriptFault::NoMemory),
    }
}

/// Asks one step of the facility, which is open, and appends the line of its outcome.
#[tactic(auto, unfolding(crate::specs::Answering::open_history))]
fn ask_open(core: &mut Option<Core>, replies: &mut String, step: &Step) -> Result<(), ScriptFault>
    requires { is_some core.old ≡ true }
    ensures text { OnOk result (string_bytes replies.new ≡ string_bytes replies.old ++ outcome_text (open_history core.old) step.now (answer_to (open_history core.old) step.now)) }
    ensures history { OnOk result (open_history core.new ≡ joined_by (open_history core.old) step.now (answer_to (open_history core.old) step.now)) }
    ensures open { is_some core.new ≡ true }
    ensures memory { IfErr result (λ fault. fault ≡ ScriptFault.NoMemory) }
{
    match core {
        Some(core) => ask(core, replies, step),
        None => unreachable!(),
    }
}

/// Appends that line `number` is bad, and why.
fn say_bad(answers: &mut Answers, number: u64, mistake: Mistake<'_>) -> Result<(), ScriptFault>
    ensures replies { OnOk result (string_bytes answers.new.replies ≡ string_bytes answers.old.replies ++ bad_line number) }
    ensures reasons { OnOk result (string_bytes answers.new.reasons ≡ string_bytes answers.old.reasons ++ mistake_line number (Some (mistake.entry.reason, mistake.entry.word.now))) }
    ensures memory { IfErr result (λ fault. fault ≡ ScriptFault.NoMemory) }
{
    push_bad_line(&mut answers.replies, number)?;
    push_mistake(&mut answers.reasons, number, mistake)?;
    Ok(())
}

/// Appends that line `number` is bad, and why, if it is.
#[tactic(auto, unfolding(crate::specs::Answering::bad_if, asset_check::specs::Sentences::mistake_line))]
fn say_if_bad(
    answers: &mut Answers,
    number: u64,
    found: Option<Mistake<'_>>,
) -> Result<(), ScriptFault>
    ensures replies { OnOk result ((told : Option Found) → Finds found.entry told → string_bytes answers.new.replies ≡ string_bytes answers.old.replies ++ bad_if told number) }
    ensures reasons { OnOk result ((told : Option Found) → Finds found.entry told → string_bytes answers.new.reasons ≡ string_bytes answers.old.reasons ++ mistake_line number told) }
    ensures memory { IfErr result (λ fault. fault ≡ ScriptFault.NoMemory) }
{
    match found {
        Some(mistake) => say_bad(answers, number, mistake),
        None => Ok(()),
    }
}

/// Opens the facility over the objects so far, unless it is open. If memory runs out, they are lost.
fn open_if_needed(
    alloc: Global,
    core: &mut Option<Core>,
    checker: &mut Checker,
    capacity: usize,
) -> Result<(), ScriptFault>
    requires joint { IsJoint core.old checker.old }
    requires capacity { IsCapacity capacity }
    ensures joint { IsJoint core.new checker.new }
    ensures open { OnOk result (is_some core.new ≡ true) }
    ensures ended { OnOk result (checker.new ≡ None) }
    ensures history { OnOk result (open_history core.new ≡ (session_of core.old checker.old capacity).history) }
    ensures memory { IfErr result (λ fault. fault ≡ ScriptFault.NoMemory) }
{
    if core.is_some() {
        return Ok(());
    }
    let pairs = checker.end_objects(alloc).into_pairs();
    match Core::open_distinct(alloc, &pairs, capacity) {
        Ok(opened) => {
            *core = Some(opened);
            Ok(())
        }
        Err(_) => {
            let fresh = Checker::new(alloc);
            *checker = fresh;
            Err(ScriptFault::NoMemory)
        }
    }
}

/// Returns whether a line asks for a step.
#[tactic(auto, unfolding(crate::specs::Answering::asks))]
fn is_ask(said: Said) -> bool
    ensures { result ≡ asks said }
{
    matches!(said, Said::Ask)
}

/// Answers lines. Contracts see the session after the lines so far, the number of the next line, and the number of the first
/// bad line so far, if there was one.
#[derive(Drop)]
pub(crate) struct Answerer {
    alloc: Global,
    checker: Checker,
    core: Option<Core>,
    capacity: usize,
    number: u64,
    bad: Option<u64>,
}

impl Model for Answerer {
    ghost use Rattle.asset_core.specs.OpenFaults.{IsCapacity};
    ghost use Rattle.asset_shell.specs.Answering.{Answered, IsJoint, session_of};

    ghost Value = { Answered };

    ghost view = { λ a. record { session = session_of a.core a.checker a.capacity; number = a.number; bad = a.bad } };

    ghost invariant = { λ a. IsJoint a.core a.checker × IsCapacity a.capacity };
}

impl Answerer {
    ghost use Rattle.std.specs.Prelude.{◌≡◌, ◌+◌, ◌^◌, ◌<◌, ◌++◌, true, false, None, is_some, OnOk, IfErr, string_bytes};
    ghost use Rattle.asset_grammar.specs.Lines.{Lacks};
    ghost use Rattle.asset_grammar.specs.declared.grammar.Command.TheVariants.{Ask};
    ghost use Rattle.asset_grammar.specs.declared.grammar.Line.TheVariants.{Command};
    ghost use Rattle.asset_grammar.specs.Grammar.{line_of, said_as};
    ghost use Rattle.asset_shell.specs.Sessions.{mistake_of, new_session, reason_for, reply_to, session_after, session_by};
    ghost use Rattle.asset_check.specs.Checking.{or_this};

    /// Returns an answerer of the first line, with room for `capacity` entries. Takes no memory.
    pub(crate) fn new(alloc: Global, capacity: usize) -> Answerer
        requires capacity { IsCapacity capacity }
        ensures session { result.session ≡ new_session capacity }
        ensures number { result.number ≡ 1 }
        ensures bad { result.bad ≡ None }
    {
        let checker = Checker::new(alloc);
        Answerer {
            alloc,
            checker,
            core: None,
            capacity,
            number: 1,
            bad: None,
        }
    }

    /// Returns the number of the next line.
    pub(crate) fn number(&self) -> u64
        ensures { result ≡ self.now.number }
    {
        self.number
    }

    /// Returns the number of the first bad line, if there was one.
    pub(crate) fn bad(&self) -> Option<u64>
        ensures { result ≡ self.now.bad }
    {
        self.bad
    }

    /// Asks a step, and appends the line of its outcome.
    fn ask_step(&mut self, step: &Step, replies: &mut String) -> Result<(), ScriptFault>
        ensures replies { OnOk result (string_bytes replies.new ≡ string_bytes replies.old ++ outcome_text self.old.session.history step.now (answer_to self.old.session.history step.now)) }
        ensures session { OnOk result (self.new.session ≡ session_by self.old.session (Command (Ask step.now))) }
        ensures number { self.new.number ≡ self.old.number }
        ensures bad { self.new.bad ≡ self.old.bad }
        ensures memory { IfErr result (λ fault. fault ≡ ScriptFault.NoMemory) }
    {
        open_if_needed(self.alloc, &mut self.core, &mut self.checker, self.capacity)?;
        ask_open(&mut self.core, replies, step)?;
        Ok(())
    }

    /// Takes a line that asks for no step, and says why it is bad, if it is.
    fn take(
        &mut self,
        line: &[u8],
        said: Said,
        step: &Step,
        answers: &mut Answers,
    ) -> Result<(), ScriptFault>
        requires no_step { asks said ≡ false }
        requires says { line_of line.now ≡ said_as said step.now }
        ensures replies { OnOk result (string_bytes answers.new.replies ≡ string_bytes answers.old.replies ++ reply_to self.old.session self.old.number line.now) }
        ensures reasons { OnOk result (string_bytes answers.new.reasons ≡ string_bytes answers.old.reasons ++ reason_for self.old.session self.old.number line.now) }
        ensures session { OnOk result (self.new.session ≡ session_after self.old.session line.now) }
        ensures number { self.new.number ≡ self.old.number }
        ensures bad { OnOk result (self.new.bad ≡ or_this self.old.bad (is_some (mistake_of self.old.session line.now)) self.old.number) }
        ensures memory { IfErr result (λ fault. fault ≡ ScriptFault.NoMemory) }
    {
        let found = self.checker.take(line, said)?;
        self.bad = first_of(self.bad, found.is_some(), self.number);
        say_if_bad(answers, self.number, found)?;
        Ok(())
    }

    /// Answers a line that says this.
    fn answer_said(
        &mut self,
        line: &[u8],
        said: Said,
        step: &Step,
        answers: &mut Answers,
    ) -> Result<(), ScriptFault>
        requires says { line_of line.now ≡ said_as said step.now }
        ensures replies { OnOk result (string_bytes answers.new.replies ≡ string_bytes answers.old.replies ++ reply_to self.old.session self.old.number line.now) }
        ensures reasons { OnOk result (string_bytes answers.new.reasons ≡ string_bytes answers.old.reasons ++ reason_for self.old.session self.old.number line.now) }
        ensures session { OnOk result (self.new.session ≡ session_after self.old.session line.now) }
        ensures number { self.new.number ≡ self.old.number }
        ensures bad { OnOk result (self.new.bad ≡ or_this self.old.bad (is_some (mistake_of self.old.session line.now)) self.old.number) }
        ensures memory { IfErr result (λ fault. fault ≡ ScriptFault.NoMemory) }
    {
        if is_ask(said) {
            self.ask_step(step, &mut answers.replies)?;
            Ok(())
        } else {
            self.take(line, said, step, answers)?;
            Ok(())
        }
    }

    /// Answers the next line. Puts the step that it asks for into the slot. After an error a part of the answer may have been
    /// appended, and what the answerer shows means nothing.
    pub(crate) fn answer(
        &mut self,
        line: &[u8],
        step: &mut Step,
        answers: &mut Answers,
    ) -> Result<(), ScriptFault>
        requires one { Lacks 10 line.now }
        requires few { self.old.number + 1 < 2 ^ 64 }
        ensures replies { OnOk result (string_bytes answers.new.replies ≡ string_bytes answers.old.replies ++ reply_to self.old.session self.old.number line.now) }
        ensures reasons { OnOk result (string_bytes answers.new.reasons ≡ string_bytes answers.old.reasons ++ reason_for self.old.session self.old.number line.now) }
        ensures session { OnOk result (self.new.session ≡ session_after self.old.session line.now) }
        ensures number { OnOk result (self.new.number ≡ self.old.number + 1) }
        ensures bad { OnOk result (self.new.bad ≡ or_this self.old.bad (is_some (mistake_of self.old.session line.now)) self.old.number) }
        ensures memory { IfErr result (λ fault. fault ≡ ScriptFault.NoMemory) }
    {
        let said = said_of(line, step);
        self.answer_said(line, said, step, answers)?;
        self.number += 1;
        Ok(())
    }
}
