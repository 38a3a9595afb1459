//! The operands of a line: the words after its keyword, all of which are read.
ghost use Rattle.std.specs.Prelude.{◌≡◌, option_map};
ghost use Rattle.asset_grammar.specs.Words.{Reads, Takes};
ghost use Rattle.asset_grammar.specs.Operands.{ob_of, object_and_value, one_object, one_txn, txn_and_object, txn_and_parent, txn_object_and_value, txn_of};
ghost use Rattle.asset_grammar.specs.PermitOperands.{any_of, taker_of, txn_taker_ops_and_set, txns_and_set};
ghost use Rattle.asset_grammar.specs.DependOperands.{kind_of, kind_and_txns};

use crate::words::{Words, has_at};
use asset_names::{Kind, Ob, ObSet, Ops, Txn};

/// The word for a commit dependency.
const COMMIT: &[u8] = b"cd";

/// The word for an abort dependency.
const ABORT: &[u8] = b"ad";

/// The word for a group commit.
const GROUP: &[u8] = b"gc";

/// The word for anybody, in the place of a permit's taker.
const ANY: &[u8] = b"any";

/// Returns the kind of dependency that a word names.
#[tactic(auto, unfolding(crate::specs::DependOperands::kind_of))]
fn parse_kind(word: &[u8]) -> Option<Kind>
    ensures { result ≡ kind_of word.now }
{
    if word == COMMIT {
        Some(Kind::Cd)
    } else if word == ABORT {
        Some(Kind::Ad)
    } else if word == GROUP {
        Some(Kind::Gc)
    } else {
        None
    }
}

impl Words<'_> {
    /// Reads the next word as a transaction.
    #[inline(always)]
    fn next_txn(&mut self) -> Option<Txn>
        ensures { Takes txn_of self.old result self.new }
    {
        let number = self.next_number()?;
        Some(Txn(number))
    }

    /// Reads the next word as an object.
    #[inline(always)]
    fn next_ob(&mut self) -> Option<Ob>
        ensures { Takes ob_of self.old result self.new }
    {
        let number = self.next_number()?;
        Some(Ob(number))
    }

    /// Reads the next word as `any`, which stands for no taker in particular.
    #[tactic(auto, unfolding(crate::specs::Words::taken, crate::specs::PermitOperands::any_of))]
    fn next_any(&mut self) -> Option<Option<Txn>>
        ensures { Takes any_of self.old result self.new }
    {
        if self.next_word()? == ANY {
            Some(None)
        } else {
            None
        }
    }

    /// Reads the next word as the taker of a permit: a transaction, or `None` for anybody.
    #[tactic(auto, unfolding(crate::specs::Words::line_left, crate::specs::Words::taken))]
    fn next_taker(&mut self) -> Option<Option<Txn>>
        ensures { Takes taker_of self.old result self.new }
    {
        if self.ended {
            return None;
        }
        if has_at(self.rest, 0, b'a') {
            return self.next_any();
        }
        let taker = self.next_txn()?;
        Some(Some(taker))
    }

    /// Reads the next word as a kind of dependency.
    #[tactic(auto, unfolding(crate::specs::Words::taken))]
    fn next_kind(&mut self) -> Option<Kind>
        ensures { Takes kind_of self.old result self.new }
    {
        parse_kind(self.next_word()?)
    }

    /// Reads one transaction.
    pub(crate) fn one_txn(&mut self) -> Option<Txn>
        ensures { Reads one_txn self.old result self.new }
    {
        let t = self.next_txn()?;
        if self.is_over() { Some(t) } else { None }
    }

    /// Reads one object.
    pub(crate) fn one_object(&mut self) -> Option<Ob>
        ensures { Reads one_object self.old result self.new }
    {
        let x = self.next_ob()?;
        if self.is_over() { Some(x) } else { None }
    }

    /// Reads a transaction, and perhaps its parent.
    pub(crate) fn txn_and_parent(&mut self) -> Option<(Txn, Option<Txn>)>
        ensures { Reads txn_and_parent self.old result self.new }
    {
        let t = self.next_txn()?;
        if self.is_over() {
            return Some((t, None));
        }
        let parent = self.next_txn()?;
        if self.is_over() {
            Some((t, Some(parent)))
        } else {
            None
        }
    }

    /// Reads a transaction and an object.
    pub(crate) fn txn_and_object(&mut self) -> Option<(Txn, Ob)>
        ensures { Reads txn_and_object self.old result self.new }
    {
        let t = self.next_txn()?;
        let x = self.next_ob()?;
        if self.is_over() { Some((t, x)) } else { None }
    }

    /// Reads an object and a value.
    pub(crate) fn object_and_value(&mut self) -> Option<(Ob, i64)>
        ensures { Reads object_and_value self.old result self.new }
    {
        let x = self.next_ob()?;
        let v = self.next_value()?;
        if self.is_over() { Some((x, v)) } else { None }
    }

    /// Reads a transaction, an object and a value.
    pub(crate) fn txn_object_and_value(&mut self) -> Option<(Txn, Ob, i64)>
        ensures { Reads txn_object_and_value self.old result self.new }
    {
        let t = self.next_txn()?;
        let x = self.next_ob()?;
        let v = self.next_value()?;
        if self.is_over() {
            Some((t, x, v))
        } else {
            None
        }
    }

    /// Reads a transaction, the taker of a permit, operations and a set of objects. The taker `None` is anybody.
    #[inline(always)]
    pub(crate) fn txn_taker_ops_and_set(&mut self) -> Option<((Txn, Option<Txn>), (Ops, ObSet))>
        ensures { Reads txn_taker_ops_and_set self.old result self.new }
    {
        let giver = self.next_txn()?;
        let taker = self.next_taker()?;
        let ops = self.next_ops()?;
        let obs = self.next_set()?;
        if self.is_over() {
            Some(((giver, taker), (ops, obs)))
        } else {
            None
        }
    }

    /// Reads two transactions and a set of objects.
    #[inline(always)]
    pub(crate) fn txns_and_set(&mut self) -> Option<((Txn, Txn), ObSet)>
        ensures { Reads txns_and_set self.old result self.new }
    {
        let giver = self.next_txn()?;
        let taker = self.next_txn()?;
        let obs = self.next_set()?;
        if self.is_over() {
            Some(((giver, taker), obs))
        } else {
            None
        }
    }

    /// Reads a kind of dependency and two transactions.
    pub(crate) fn kind_and_txns(&mut self) -> Option<(Kind, (Txn, Txn))>
        ensures { Reads kind_and_txns self.old result self.new }
    {
        let kind = self.next_kind()?;
        let a = self.next_txn()?;
        let b = self.next_txn()?;
        if self.is_over() {
            Some((kind, (a, b)))
        } else {
            None
        }
    }
}
