//! Sets of operations and of objects, as operands write them.
ghost use Rattle.std.specs.Prelude.{◌≡◌, cond, Some, None, MatchOption};
ghost use Rattle.asset_grammar.specs.Lines.{first_line, line_tail};
ghost use Rattle.asset_grammar.specs.Words.{parts, taken, Takes};
ghost use Rattle.asset_grammar.specs.Sets.{all_of, gathered_of, list_of, listed, one_more_object, ops_of, set_of};

use crate::numbers::number_at;
use crate::words::{Words, has_at, words_after};
use arrayvec::ArrayVec;
use asset_names::{MOST_OBJECTS, Ob, ObList, ObSet, Ops};

/// The word for reading.
const READ: &[u8] = b"r";

/// The word for writing.
const WRITE: &[u8] = b"w";

/// The word for reading and writing.
const BOTH: &[u8] = b"rw";

/// The word for adding.
const ADD: &[u8] = b"a";

/// The word for reading and adding.
const READ_ADD: &[u8] = b"ra";

/// The word for writing and adding.
const WRITE_ADD: &[u8] = b"wa";

/// The word for all three operations.
const THREE: &[u8] = b"rwa";

/// The word for all objects.
const ALL: &[u8] = b"all";

/// Returns the operations that a word writes.
#[tactic(auto, unfolding(crate::specs::Sets::ops_of))]
fn parse_ops(word: &[u8]) -> Option<Ops>
    ensures { result ≡ ops_of word.now }
{
    if word == READ {
        Ops::new(true, false)
    } else if word == WRITE {
        Ops::new(false, true)
    } else if word == BOTH {
        Ops::new(true, true)
    } else if word == ADD {
        Some(Ops::with_add(false, false))
    } else if word == READ_ADD {
        Some(Ops::with_add(true, false))
    } else if word == WRITE_ADD {
        Some(Ops::with_add(false, true))
    } else if word == THREE {
        Some(Ops::with_add(true, true))
    } else {
        None
    }
}

/// Appends an object, if there is room for it. Returns whether there was.
#[inline(always)]
#[tactic(auto, unfolding(crate::specs::Sets::one_more_object))]
fn add(objects: &mut ArrayVec<Ob, MOST_OBJECTS>, x: Ob) -> bool
    ensures { one_more_object objects.old.items (Some x) ≡ cond result (Some objects.new.items) None }
{
    match objects.try_push(x) {
        Ok(()) => true,
        Err(_) => false,
    }
}

/// Reads the objects whose numbers stand between the commas of the first word of a text, and appends each. Returns the words
/// after it; `None` if the word writes something else, or there is no room for its objects.
fn objects_at<'a>(text: &'a [u8], objects: &mut ArrayVec<Ob, MOST_OBJECTS>) -> Option<Words<'a>>
    ensures { MatchOption result (taken (gathered_of objects.old.items) (parts 32 (first_line text.now)) ≡ None)
        (λ after. (taken (gathered_of objects.old.items) (parts 32 (first_line text.now)) ≡ Some (objects.new.items, after.words)) × (after.tail ≡ line_tail text.now)) }
{
    let mut rest = text;
    'numbers: while let Some((number, size)) = number_at(rest) {
        if !add(objects, Ob(number)) {
            return None;
        }
        if !has_at(rest, size, b',') {
            return words_after(rest, size);
        }
        let (_, more) = rest.split_at(size + 1);
        rest = more;
    }
    None
}

/// Returns the set of these objects, if they make a list.
#[inline(always)]
#[tactic(auto, unfolding(crate::specs::Sets::listed), using(crate::proofs::SetLemmas::makes_list, crate::proofs::SetLemmas::makes_none))]
fn set_of_objects(objects: &[Ob]) -> Option<ObSet>
    ensures { result ≡ listed objects.now }
{
    match ObList::of(objects) {
        Ok(list) => Some(ObSet::Listed(list)),
        Err(_) => None,
    }
}

impl Words<'_> {
    /// Reads the next word as operations.
    #[tactic(auto, unfolding(crate::specs::Words::taken))]
    pub(crate) fn next_ops(&mut self) -> Option<Ops>
        ensures { Takes ops_of self.old result self.new }
    {
        parse_ops(self.next_word()?)
    }

    /// Reads the next word as `all`.
    #[tactic(auto, unfolding(crate::specs::Words::taken, crate::specs::Sets::all_of))]
    fn next_all(&mut self) -> Option<ObSet>
        ensures { Takes all_of self.old result self.new }
    {
        if self.next_word()? == ALL {
            Some(ObSet::All)
        } else {
            None
        }
    }

    /// Reads the next word as a list of objects.
    #[inline(always)]
    #[tactic(auto, unfolding(crate::specs::Words::line_left, crate::specs::Words::taken))]
    fn next_list(&mut self) -> Option<ObSet>
        ensures { Takes list_of self.old result self.new }
    {
        if self.ended {
            return None;
        }
        let mut objects: ArrayVec<Ob, MOST_OBJECTS> = ArrayVec::new();
        *self = objects_at(self.rest, &mut objects)?;
        set_of_objects(objects.as_slice())
    }

    /// Reads the next word as a set of objects. A set of one object is made at once, and not by way of a list.
    #[inline(always)]
    #[tactic(auto, unfolding(crate::specs::Words::line_left, crate::specs::Words::taken))]
    pub(crate) fn next_set(&mut self) -> Option<ObSet>
        ensures { Takes set_of self.old result self.new }
    {
        if self.ended {
            return None;
        }
        if has_at(self.rest, 0, b'a') {
            return self.next_all();
        }
        let (number, size) = number_at(self.rest)?;
        if has_at(self.rest, size, b',') {
            return self.next_list();
        }
        let after = words_after(self.rest, size)?;
        self.rest = after.rest;
        self.ended = after.ended;
        Some(ObSet::Listed(ObList::one(Ob(number))))
    }
}
