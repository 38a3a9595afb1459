//! The first words of step lines.
ghost use Rattle.std.specs.Prelude.{◌≡◌, None, option_map};
ghost use Rattle.asset_grammar.specs.Grammar.{step_by};
ghost use Rattle.asset_grammar.specs.Keywords.{likely_keyword, TakesKeyword};
ghost use Rattle.asset_grammar.specs.PermitOperands.{permit_step};
ghost use Rattle.asset_grammar.specs.Words.{Reads};
ghost use Rattle.asset_grammar.specs.declared.keywords.Keyword.TheVariants.{Initiate, Write, Permit, Delegate, Depend};

use crate::words::{Words, has_at, words_after};
use asset_names::{ObSet, Ops, Step, Txn};

/// The first word of a step line.
#[derive(Clone, Copy)]
pub(crate) enum Keyword {
    Initiate,
    Begin,
    Read,
    Write,
    Add,
    Complete,
    Permit,
    Delegate,
    Depend,
    Commit,
    Abort,
    Wait,
}

/// Returns the only keyword that a text can begin with, by some of its first bytes.
#[inline(always)]
#[tactic(auto, unfolding(crate::specs::Keywords::likely_keyword))]
fn likely_keyword(text: &[u8]) -> Option<Keyword>
    ensures { result ≡ likely_keyword text.now }
{
    if has_at(text, 0, b'r') {
        Some(Keyword::Read)
    } else if has_at(text, 0, b'w') {
        Some(if has_at(text, 1, b'a') {
            Keyword::Wait
        } else {
            Keyword::Write
        })
    } else if has_at(text, 0, b'c') {
        Some(if has_at(text, 3, b'm') {
            Keyword::Commit
        } else {
            Keyword::Complete
        })
    } else if has_at(text, 0, b'b') {
        Some(Keyword::Begin)
    } else if has_at(text, 0, b'i') {
        Some(Keyword::Initiate)
    } else if has_at(text, 0, b'a') {
        Some(if has_at(text, 1, b'd') {
            Keyword::Add
        } else {
            Keyword::Abort
        })
    } else if has_at(text, 0, b'p') {
        Some(Keyword::Permit)
    } else if has_at(text, 0, b'd') {
        Some(if has_at(text, 2, b'p') {
            Keyword::Depend
        } else {
            Keyword::Delegate
        })
    } else {
        None
    }
}

impl Words<'_> {
    /// Reads the next word as a keyword, where it stands. If it is none, returns `None` and leaves the words as they are.
    #[inline(always)]
    #[tactic(auto, unfolding(crate::specs::Words::line_left, crate::specs::Words::taken))]
    pub(crate) fn next_keyword(&mut self) -> Option<Keyword>
        ensures { TakesKeyword self.old result self.new }
    {
        if self.ended {
            return None;
        }
        let keyword = likely_keyword(self.rest)?;
        let text = keyword.text();
        if !self.rest.starts_with(text) {
            return None;
        }
        let after = words_after(self.rest, text.len())?;
        self.rest = after.rest;
        self.ended = after.ended;
        Some(keyword)
    }
}

/// Puts the initiation with these operands into the slot.
#[tactic(auto, unfolding(crate::specs::Grammar::step_by))]
fn initiate(operands: &mut Words<'_>, step: &mut Step) -> Option<()>
    ensures { Reads (step_by Initiate) operands.old (option_map (λ done. step.new) result) operands.new }
{
    let (t, parent) = operands.txn_and_parent()?;
    *step = Step::Initiate { t, parent };
    Some(())
}

/// Puts the open permit on the objects into the slot. Returns `None`, and leaves the slot, if they are all objects.
#[tactic(auto, unfolding(crate::specs::PermitOperands::permit_step))]
fn open(giver: Txn, obs: &ObSet, ops: Ops, step: &mut Step) -> Option<()>
    ensures { option_map (λ done. step.new) result ≡ permit_step giver None ops obs.now }
{
    match *obs {
        ObSet::Listed(obs) => {
            *step = Step::PermitAny { giver, obs, ops };
            Some(())
        }
        ObSet::All => None,
    }
}

/// Puts the permit with these operands into the slot.
#[tactic(auto, unfolding(crate::specs::Grammar::step_by, crate::specs::PermitOperands::permit_step))]
fn permit(operands: &mut Words<'_>, step: &mut Step) -> Option<()>
    ensures { Reads (step_by Permit) operands.old (option_map (λ done. step.new) result) operands.new }
{
    let ((giver, taker), (ops, obs)) = operands.txn_taker_ops_and_set()?;
    match taker {
        Some(taker) => {
            *step = Step::Permit {
                giver,
                taker,
                obs,
                ops,
            };
            Some(())
        }
        None => open(giver, &obs, ops, step),
    }
}

/// Puts the delegation with these operands into the slot.
#[tactic(auto, unfolding(crate::specs::Grammar::step_by))]
fn delegate(operands: &mut Words<'_>, step: &mut Step) -> Option<()>
    ensures { Reads (step_by Delegate) operands.old (option_map (λ done. step.new) result) operands.new }
{
    let ((giver, taker), obs) = operands.txns_and_set()?;
    *step = Step::Delegate { giver, taker, obs };
    Some(())
}

/// Puts the dependency with these operands into the slot.
#[tactic(auto, unfolding(crate::specs::Grammar::step_by))]
fn depend(operands: &mut Words<'_>, step: &mut Step) -> Option<()>
    ensures { Reads (step_by Depend) operands.old (option_map (λ done. step.new) result) operands.new }
{
    let (kind, (a, b)) = operands.kind_and_txns()?;
    *step = Step::Depend { kind, a, b };
    Some(())
}

impl Keyword {
    ghost use Rattle.asset_grammar.specs.Grammar.{step_by};
    ghost use Rattle.asset_grammar.specs.Keywords.{keyword_text};

    /// Returns the word that writes the keyword.
    #[tactic(auto, unfolding(crate::specs::Keywords::keyword_text))]
    fn text(self) -> &'static [u8]
        ensures { result.now ≡ keyword_text self }
    {
        match self {
            Keyword::Initiate => b"initiate",
            Keyword::Begin => b"begin",
            Keyword::Read => b"read",
            Keyword::Write => b"write",
            Keyword::Add => b"add",
            Keyword::Complete => b"complete",
            Keyword::Permit => b"permit",
            Keyword::Delegate => b"delegate",
            Keyword::Depend => b"depend",
            Keyword::Commit => b"commit",
            Keyword::Abort => b"abort",
            Keyword::Wait => b"wait",
        }
    }

    /// Puts the step that the keyword asks for with these operands into the slot. Returns `None` if they are not its operands;
    /// the slot may have been written even then.
    #[tactic(auto, unfolding(crate::specs::Grammar::step_by))]
    pub(crate) fn put_step(self, operands: &mut Words<'_>, step: &mut Step) -> Option<()>
        ensures { Reads (step_by self) operands.old (option_map (λ done. step.new) result) operands.new }
    {
        match self {
            Keyword::Initiate => initiate(operands, step),
            Keyword::Begin => {
                let t = operands.one_txn()?;
                *step = Step::Begin { t };
                Some(())
            }
            Keyword::Read => {
                let (t, x) = operands.txn_and_object()?;
                *step = Step::Read { t, x };
                Some(())
            }
            Keyword::Write => {
                let (t, x, v) = operands.txn_object_and_value()?;
                *step = Step::Write { t, x, v };
                Some(())
            }
            Keyword::Add => {
                let (t, x, d) = operands.txn_object_and_value()?;
                *step = Step::Add { t, x, d };
                Some(())
            }
            Keyword::Complete => {
                let t = operands.one_txn()?;
                *step = Step::Complete { t };
                Some(())
            }
            Keyword::Permit => permit(operands, step),
            Keyword::Delegate => delegate(operands, step),
            Keyword::Depend => depend(operands, step),
            Keyword::Commit => {
                let t = operands.one_txn()?;
                *step = Step::Commit { t };
                Some(())
            }
            Keyword::Abort => {
                let t = operands.one_txn()?;
                *step = Step::Abort { t };
                Some(())
            }
            Keyword::Wait => {
                let t = operands.one_txn()?;
                *step = Step::WaitFor { t };
                Some(())
            }
        }
    }
}
