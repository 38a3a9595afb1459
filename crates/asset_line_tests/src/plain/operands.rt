//! The operands of lines, all of which are read.

use crate::plain::sets::{kind, ops, set};
use crate::plain::words::{Words, number, value};
use asset_names::{Ob, ObSet, Step, Txn};

/// The word for anybody.
const ANY: &[u8] = b"any";

/// Returns the next word as a transaction.
fn txn(words: &mut Words<'_>) -> Option<Txn> {
    let number = number(words.next_word()?)?;
    Some(Txn(number))
}

/// Returns the next word as an object.
fn ob(words: &mut Words<'_>) -> Option<Ob> {
    let number = number(words.next_word()?)?;
    Some(Ob(number))
}

/// Returns whether no word is left.
fn is_over(words: &mut Words<'_>) -> bool {
    words.next_word().is_none()
}

/// Returns one transaction.
pub(crate) fn one_txn(mut words: Words<'_>) -> Option<Txn> {
    let t = txn(&mut words)?;
    if is_over(&mut words) { Some(t) } else { None }
}

/// Returns an object and its value.
pub(crate) fn object(mut words: Words<'_>) -> Option<(Ob, i64)> {
    let x = ob(&mut words)?;
    let v = value(words.next_word()?)?;
    if is_over(&mut words) {
        Some((x, v))
    } else {
        None
    }
}

/// Returns an initiation, perhaps with a parent.
pub(crate) fn initiate(mut words: Words<'_>) -> Option<Step> {
    let t = txn(&mut words)?;
    let Some(word) = words.next_word() else {
        return Some(Step::Initiate { t, parent: None });
    };
    let parent = number(word)?;
    let parent = Some(Txn(parent));
    if !is_over(&mut words) {
        return None;
    }
    Some(Step::Initiate { t, parent })
}

/// Returns a read.
pub(crate) fn read(mut words: Words<'_>) -> Option<Step> {
    let t = txn(&mut words)?;
    let x = ob(&mut words)?;
    if !is_over(&mut words) {
        return None;
    }
    Some(Step::Read { t, x })
}

/// Returns a write.
pub(crate) fn write(mut words: Words<'_>) -> Option<Step> {
    let t = txn(&mut words)?;
    let x = ob(&mut words)?;
    let v = value(words.next_word()?)?;
    if !is_over(&mut words) {
        return None;
    }
    Some(Step::Write { t, x, v })
}

/// Returns an add.
pub(crate) fn add(mut words: Words<'_>) -> Option<Step> {
    let t = txn(&mut words)?;
    let x = ob(&mut words)?;
    let d = value(words.next_word()?)?;
    if !is_over(&mut words) {
        return None;
    }
    Some(Step::Add { t, x, d })
}

/// Returns a permit to anybody by the words after `any`.
fn permit_any(giver: Txn, mut words: Words<'_>) -> Option<Step> {
    let ops = ops(words.next_word()?)?;
    let ObSet::Listed(obs) = set(words.next_word()?)? else {
        return None;
    };
    if !is_over(&mut words) {
        return None;
    }
    Some(Step::PermitAny { giver, obs, ops })
}

/// Returns a permit.
pub(crate) fn permit(mut words: Words<'_>) -> Option<Step> {
    let giver = txn(&mut words)?;
    let word = words.next_word()?;
    if word == ANY {
        return permit_any(giver, words);
    }
    let taker = number(word)?;
    let ops = ops(words.next_word()?)?;
    let obs = set(words.next_word()?)?;
    if !is_over(&mut words) {
        return None;
    }
    Some(Step::Permit {
        giver,
        taker: Txn(taker),
        obs,
        ops,
    })
}

/// Returns a delegation.
pub(crate) fn delegate(mut words: Words<'_>) -> Option<Step> {
    let giver = txn(&mut words)?;
    let taker = txn(&mut words)?;
    let obs = set(words.next_word()?)?;
    if !is_over(&mut words) {
        return None;
    }
    Some(Step::Delegate { giver, taker, obs })
}

/// Returns a dependency.
pub(crate) fn depend(mut words: Words<'_>) -> Option<Step> {
    let kind = kind(words.next_word()?)?;
    let a = txn(&mut words)?;
    let b = txn(&mut words)?;
    if !is_over(&mut words) {
        return None;
    }
    Some(Step::Depend { kind, a, b })
}
