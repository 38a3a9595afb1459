//! What a facility answers to plain structs.

ghost use Rattle.std.specs.Prelude.{◌≡◌, MatchOption};
ghost use Rattle.asset_handle.specs.Codes.{number_of};
ghost use Rattle.asset_handle.specs.Calls.{IsAnswered, IsPlainlyAsked, IsEntry, IsGroup, IsLen, IsStatus, IsValueTold, IsWaiter};

use crate::asked::put_step;
use crate::codes::Code;
use crate::plain::{PlainAnswer, PlainStep, PlainWaiter};
use crate::told::{op_number, plain_answer, plain_step, status_number};
use asset_core::Core;
use asset_deletion::groups;
use asset_names::{Fault, Ob, Outcome, Step, Txn};
use std::alloc::Global;

/// Asks for a step, and tells the answer.
#[inline(always)]
fn answer_step(core: &mut Core, step: &Step, answer: &mut PlainAnswer) -> Code
    ensures { IsAnswered core.old step.now answer.old (number_of result) core.new answer.new }
{
    match core.step_lent(step) {
        Ok(outcome) => {
            *answer = plain_answer(outcome);
            Code::Done
        }
        Err(Fault::Full) => Code::Full,
        Err(Fault::NoMemory) => Code::NoMemory,
    }
}

/// Asks for the step of a plain step, and tells the answer.
#[inline(always)]
pub(crate) fn ask(core: &mut Core, asked: &PlainStep, answer: &mut PlainAnswer) -> Code
    ensures { IsPlainlyAsked core.old asked.now answer.old (number_of result) core.new answer.new }
{
    let mut step = Step::Begin { t: Txn(0) };
    if put_step(asked, &mut step) {
        answer_step(core, &step, answer)
    } else {
        Code::BadArgument
    }
}

/// Tells the status of a transaction.
pub(crate) fn tell_status(core: &Core, t: u64, status: &mut u32) -> Code
    ensures { IsStatus core.now t (number_of result) status.new }
{
    *status = status_number(core.status(Txn(t)));
    Code::Done
}

/// Tells the value of an object.
pub(crate) fn tell_value(core: &Core, x: u64, value: &mut i64) -> Code
    ensures { IsValueTold core.now x value.old (number_of result) value.new }
{
    match core.value(Ob(x)) {
        Some(found) => {
            *value = found;
            Code::Done
        }
        None => Code::Absent,
    }
}

/// Tells the waiter of an object at the index.
pub(crate) fn tell_waiter(core: &Core, x: u64, index: usize, waiter: &mut PlainWaiter) -> Code
    ensures { IsWaiter core.now x index waiter.old (number_of result) waiter.new }
{
    match core.waiters(Ob(x), index) {
        Some((t, op)) => {
            *waiter = PlainWaiter {
                name: t.0,
                op: op_number(op),
            };
            Code::Done
        }
        None => Code::Absent,
    }
}

/// Tells how many entries the history has.
pub(crate) fn tell_len(core: &Core, len: &mut usize) -> Code
    ensures { IsLen core.now (number_of result) len.new }
{
    *len = core.history().len();
    Code::Done
}

/// Tells the entry at the index.
pub(crate) fn tell_entry(
    core: &Core,
    index: usize,
    asked: &mut PlainStep,
    answer: &mut PlainAnswer,
) -> Code
    ensures { IsEntry core.now index asked.old answer.old (number_of result) asked.new answer.new }
{
    match core.history().entry(index) {
        Some((step, reply)) => {
            *asked = plain_step(&step);
            *answer = plain_answer(Outcome::Answer(reply));
            Code::Done
        }
        None => Code::Absent,
    }
}

/// Tells a number that may be there.
fn tell_number(found: Option<usize>, number: &mut usize) -> Code
    ensures { MatchOption found ((number_of result ≡ 8) × (number.new ≡ number.old)) (λ n. (number_of result ≡ 0) × (number.new ≡ n)) }
{
    match found {
        Some(n) => {
            *number = n;
            Code::Done
        }
        None => Code::Absent,
    }
}

/// Tells the number of the group of a transaction.
pub(crate) fn tell_group(alloc: Global, core: &Core, t: u64, group: &mut usize) -> Code
    ensures { IsGroup core.now t group.old (number_of result) group.new }
{
    match groups(alloc, core.history()) {
        Ok(groups) => tell_number(groups.of(Txn(t)), group),
        Err(_) => Code::NoMemory,
    }
}
