//! Words that are to be operands, and why they are none.
ghost use Rattle.std.specs.Prelude.{◌≡◌, ◌||◌, [], codes, cond, nat_lt, length, is_some, option_map, MatchOption, None, Some};
ghost use Rattle.std.specs.Str.{bytes_eq};
ghost use Rattle.asset_grammar.specs.Sets.{gathered, is_list, one_more_object, ops_of, set_of};
ghost use Rattle.asset_grammar.specs.Words.{parts};
ghost use Rattle.asset_reasons.specs.Mistakes.{Finds, about, has_empty, kind_mistake, list_mistake, operand_mistake, ops_mistake, part_mistake, set_mistake, taker_mistake, why_no_set};

use crate::numbers::{number_mistake, number_of, value_mistake, why_no_number};
use crate::parts::Parts;
use crate::reasons::{Mistake, Operand, Reason};
use arrayvec::ArrayVec;
use asset_names::{MOST_OBJECTS, Ob, ObList};

/// The word for reading.
const READ: &[u8] = b"r";

/// The word for writing.
const WRITE: &[u8] = b"w";

/// The word for reading and writing.
const BOTH: &[u8] = b"rw";

/// The word for adding.
const ADD: &[u8] = b"a";

/// The word for reading and adding.
const READ_ADD: &[u8] = b"ra";

/// The word for writing and adding.
const WRITE_ADD: &[u8] = b"wa";

/// The word for all three operations.
const THREE: &[u8] = b"rwa";

/// The word for reading and writing with its letters exchanged.
const SWAPPED: &[u8] = b"wr";

/// The word for a commit dependency.
const COMMIT: &[u8] = b"cd";

/// The word for an abort dependency.
const ABORT: &[u8] = b"ad";

/// The word for a group commit.
const GROUP: &[u8] = b"gc";

/// The word for all objects.
const ALL: &[u8] = b"all";

/// The word for anybody.
pub(crate) const ANY: &[u8] = b"any";

/// Returns whether a word writes operations that have Add.
fn has_add(word: &[u8]) -> bool
    ensures { result ≡ (bytes_eq word.now (codes "a") || bytes_eq word.now (codes "ra") || bytes_eq word.now (codes "wa") || bytes_eq word.now (codes "rwa")) }
{
    word == ADD || word == READ_ADD || word == WRITE_ADD || word == THREE
}

/// Returns whether a word writes operations.
#[tactic(auto, unfolding(asset_grammar::specs::Sets::ops_of))]
fn is_ops(word: &[u8]) -> bool
    ensures { result ≡ is_some (ops_of word.now) }
{
    word == READ || word == WRITE || word == BOTH || has_add(word)
}

/// Returns what is wrong with a word that is to be operations.
#[tactic(auto, unfolding(crate::specs::Mistakes::ops_mistake))]
fn ops_mistake(word: &[u8]) -> Option<Reason>
    ensures { result ≡ ops_mistake word.now }
{
    if is_ops(word) {
        None
    } else if word == SWAPPED {
        Some(Reason::SwappedOperations)
    } else {
        Some(Reason::NoOperations)
    }
}

/// Returns what is wrong with a word that is to be a kind of dependency.
#[tactic(auto, unfolding(asset_grammar::specs::DependOperands::kind_of, crate::specs::Mistakes::kind_mistake))]
fn kind_mistake(word: &[u8]) -> Option<Reason>
    ensures { result ≡ kind_mistake word.now }
{
    if word == COMMIT || word == ABORT || word == GROUP {
        None
    } else {
        Some(Reason::NoKind)
    }
}

/// Appends an object, if there is room for it. Returns whether there was.
#[tactic(auto, unfolding(asset_grammar::specs::Sets::one_more_object))]
fn add(objects: &mut ArrayVec<Ob, MOST_OBJECTS>, x: Ob) -> bool
    ensures { one_more_object objects.old.items (Some x) ≡ cond result (Some objects.new.items) None }
{
    match objects.try_push(x) {
        Ok(()) => true,
        Err(_) => false,
    }
}

/// Returns the objects whose numbers are the parts. `None` if a part is no number, or there are more than 16.
fn objects_of(parts: &mut Parts<'_>) -> Option<ArrayVec<Ob, MOST_OBJECTS>>
    ensures { MatchOption result (gathered [] parts.old ≡ None) (λ objects. gathered [] parts.old ≡ Some objects.items) }
{
    let mut objects: ArrayVec<Ob, MOST_OBJECTS> = ArrayVec::new();
    'parts: while let Some(part) = parts.next() {
        let Some(number) = number_of(part) else {
            return None;
        };
        if !add(&mut objects, Ob(number)) {
            return None;
        }
    }
    Some(objects)
}

/// Returns whether objects make a list.
#[tactic(auto, using(asset_grammar::proofs::SetLemmas::makes_list, asset_grammar::proofs::SetLemmas::makes_none))]
fn is_list(objects: &[Ob]) -> bool
    ensures { result ≡ is_list objects.now }
{
    match ObList::of(objects) {
        Ok(_) => true,
        Err(_) => false,
    }
}

/// Returns whether a word writes a set of objects.
#[tactic(auto, unfolding(asset_grammar::specs::Sets::set_of, asset_grammar::specs::Sets::listed))]
fn is_set(word: &[u8]) -> bool
    ensures { result ≡ is_some (set_of word.now) }
{
    if word == ALL {
        return true;
    }
    let mut parts = Parts::new(word, b',');
    match objects_of(&mut parts) {
        Some(objects) => is_list(objects.as_slice()),
        None => false,
    }
}

/// Returns the first part that is no number, and why.
#[tactic(auto, unfolding(crate::specs::Mistakes::part_mistake))]
fn part_mistake<'a>(parts: &mut Parts<'a>) -> Option<Mistake<'a>>
    ensures { Finds result (part_mistake parts.old) }
{
    'parts: while let Some(part) = parts.next() {
        match number_of(part) {
            Some(_) => {}
            None => {
                return Some(Mistake {
                    reason: why_no_number(part),
                    word: part,
                });
            }
        }
    }
    None
}

/// Returns whether a part is empty.
#[tactic(auto, unfolding(crate::specs::Mistakes::has_empty))]
fn has_empty(parts: &mut Parts<'_>) -> bool
    ensures { result ≡ has_empty parts.old }
{
    'parts: while let Some(part) = parts.next() {
        if part.is_empty() {
            return true;
        }
    }
    false
}

/// Returns whether there are more than 16 parts.
fn has_many(parts: &mut Parts<'_>) -> bool
    ensures { result ≡ nat_lt 16 (length parts.old) }
{
    let mut count: usize = 0;
    'parts: while let Some(_) = parts.next() {
        if count == MOST_OBJECTS {
            return true;
        }
        count += 1;
    }
    false
}

/// Returns why a word is no set of objects.
#[tactic(auto, unfolding(crate::specs::Mistakes::why_no_set))]
fn why_no_set(word: &[u8]) -> Mistake<'_>
    ensures { (result.reason, result.word.now) ≡ why_no_set (parts 44 word.now) }
{
    if has_empty(&mut Parts::new(word, b',')) {
        return Mistake::bare(Reason::LoneComma);
    }
    if let Some(mistake) = part_mistake(&mut Parts::new(word, b',')) {
        return mistake;
    }
    if has_many(&mut Parts::new(word, b',')) {
        Mistake::bare(Reason::TooManyObjects)
    } else {
        Mistake::bare(Reason::TwiceInSet)
    }
}

/// Returns what is wrong with a word that is to be a set of objects.
#[tactic(auto, unfolding(crate::specs::Mistakes::set_mistake))]
fn set_mistake(word: &[u8]) -> Option<Mistake<'_>>
    ensures { Finds result (set_mistake word.now) }
{
    if is_set(word) {
        None
    } else {
        Some(why_no_set(word))
    }
}

/// Returns what is wrong with a word that is to be a set of objects other than `all`.
#[tactic(auto, unfolding(crate::specs::Mistakes::list_mistake))]
fn list_mistake(word: &[u8]) -> Option<Mistake<'_>>
    ensures { Finds result (list_mistake word.now) }
{
    if word != ALL && is_set(word) {
        None
    } else {
        Some(why_no_set(word))
    }
}

/// Returns what is wrong with a word that is to be a number or `any`.
#[tactic(auto, unfolding(crate::specs::Mistakes::taker_mistake))]
fn taker_mistake(word: &[u8]) -> Option<Reason>
    ensures { result ≡ taker_mistake word.now }
{
    if word == ANY {
        None
    } else {
        number_mistake(word)
    }
}

/// Returns a reason as one that is about the word.
fn about(word: &[u8], reason: Option<Reason>) -> Option<Mistake<'_>>
    ensures { Finds result (option_map (about word.now) reason) }
{
    match reason {
        Some(reason) => Some(Mistake { reason, word }),
        None => None,
    }
}

/// Returns what is wrong with a word that is to be such an operand.
#[tactic(auto, unfolding(crate::specs::Mistakes::operand_mistake))]
pub(crate) fn operand_mistake(operand: Operand, word: &[u8]) -> Option<Mistake<'_>>
    ensures { Finds result (operand_mistake operand word.now) }
{
    match operand {
        Operand::Number => about(word, number_mistake(word)),
        Operand::Taker => about(word, taker_mistake(word)),
        Operand::Value => about(word, value_mistake(word)),
        Operand::Operations => about(word, ops_mistake(word)),
        Operand::Set => set_mistake(word),
        Operand::List => list_mistake(word),
        Operand::Kind => about(word, kind_mistake(word)),
    }
}
