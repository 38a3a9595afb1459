//! The lines of steps and of objects. If memory runs out, a part of a line may have been appended to the text.
ghost use Rattle.std.specs.Prelude.{◌≡◌, ◌++◌, ◌<◌, ◌^◌, ◌||◌, true, [], ◌∷◌, OnOk, Some, codes, string_bytes};
ghost use Rattle.std.specs.Fmt.{decimal};
ghost use Rattle.asset_grammar.specs.Grammar.{command_of};
ghost use Rattle.asset_grammar.specs.declared.grammar.Command.TheVariants.{Ask, Object as ObjectOf};
ghost use Rattle.asset_names.specs.declared.steps.Step.TheVariants.{Initiate, Permit, PermitAny, Delegate};
ghost use Rattle.asset_printing.specs.Printed.{kind_text, object_text, ops_text, step_text};

use crate::numbers::{push_next_number, push_next_value};
use crate::sets::{push_objects, push_set};
use asset_names::{Kind, Ob, ObList, ObSet, Op, Ops, Step, Txn, value_asked};
use std::alloc::AllocError;

/// Appends a word and a number.
fn push_one(text: &mut String, word: &str, number: u64) -> Result<(), AllocError>
    ensures text { OnOk result (string_bytes text.new ≡ string_bytes text.old ++ word.now ++ 32 ∷ decimal number) }
    ensures small { number < 2 ^ 64 }
{
    text.push_str(word)?;
    push_next_number(text, number)
}

/// Appends a word and two numbers.
fn push_two(text: &mut String, word: &str, first: u64, second: u64) -> Result<(), AllocError>
    ensures text { OnOk result (string_bytes text.new ≡ string_bytes text.old ++ word.now ++ 32 ∷ decimal first ++ 32 ∷ decimal second) }
    ensures first { first < 2 ^ 64 }
    ensures second { second < 2 ^ 64 }
{
    push_one(text, word, first)?;
    push_next_number(text, second)
}

/// Appends the line of an object with its value, without a line feed. It reads back as that object with that value.
#[tactic(auto, unfolding(crate::specs::Printed::object_text))]
pub fn push_object(text: &mut String, x: Ob, v: i64) -> Result<(), AllocError>
    ensures text { OnOk result (string_bytes text.new ≡ string_bytes text.old ++ object_text x v) }
    ensures reads { OnOk result (command_of (object_text x v) ≡ Some (ObjectOf (x, v))) }
{
    push_one(text, "object", x.0)?;
    push_next_value(text, v)
}

/// Appends the line of an initiate.
#[tactic(auto, unfolding(crate::specs::Printed::step_text, crate::specs::Printed::step_words, crate::specs::Printed::parent_words))]
fn push_initiate(text: &mut String, t: Txn, parent: Option<Txn>) -> Result<(), AllocError>
    ensures text { OnOk result (string_bytes text.new ≡ string_bytes text.old ++ step_text (Initiate t parent)) }
    ensures reads { OnOk result (command_of (step_text (Initiate t parent)) ≡ Some (Ask (Initiate t parent))) }
{
    match parent {
        None => push_one(text, "initiate", t.0),
        Some(parent) => push_two(text, "initiate", t.0, parent.0),
    }
}

/// Returns the word of a set of operations, between spaces.
#[tactic(auto, unfolding(crate::specs::Printed::ops_text))]
fn ops_word(ops: Ops) -> &'static str
    ensures word { result.now ≡ 32 ∷ ops_text ops ++ 32 ∷ [] }
    ensures some { (ops.read || ops.write || ops.add) ≡ true }
{
    ops.laws();
    match (ops.has(Op::Read), ops.has(Op::Write), ops.has(Op::Add)) {
        (true, true, true) => " rwa ",
        (true, true, false) => " rw ",
        (true, false, true) => " ra ",
        (true, false, false) => " r ",
        (false, true, true) => " wa ",
        (false, true, false) => " w ",
        (false, false, _) => " a ",
    }
}

/// Returns the first two words of a dependency.
#[tactic(auto, unfolding(crate::specs::Printed::kind_text))]
fn depend_words(kind: Kind) -> &'static str
    ensures { result.now ≡ codes "depend " ++ kind_text kind }
{
    match kind {
        Kind::Cd => "depend cd",
        Kind::Ad => "depend ad",
        Kind::Gc => "depend gc",
    }
}

/// Appends the line of a permit.
#[tactic(auto, unfolding(crate::specs::Printed::step_text, crate::specs::Printed::step_words))]
fn push_permit(
    text: &mut String,
    giver: Txn,
    taker: Txn,
    obs: &ObSet,
    ops: Ops,
) -> Result<(), AllocError>
    ensures text { OnOk result (string_bytes text.new ≡ string_bytes text.old ++ step_text (Permit giver taker obs.now ops)) }
    ensures reads { OnOk result (command_of (step_text (Permit giver taker obs.now ops)) ≡ Some (Ask (Permit giver taker obs.now ops))) }
{
    push_two(text, "permit", giver.0, taker.0)?;
    text.push_str(ops_word(ops))?;
    push_set(text, obs)
}

/// Appends the line of an open permit.
#[tactic(auto, unfolding(crate::specs::Printed::step_text, crate::specs::Printed::step_words))]
fn push_open_permit(text: &mut String, giver: Txn, obs: &ObList, ops: Ops) -> Result<(), AllocError>
    ensures text { OnOk result (string_bytes text.new ≡ string_bytes text.old ++ step_text (PermitAny giver obs.now ops)) }
    ensures reads { OnOk result (command_of (step_text (PermitAny giver obs.now ops)) ≡ Some (Ask (PermitAny giver obs.now ops))) }
{
    push_one(text, "permit", giver.0)?;
    text.push_str(" any")?;
    text.push_str(ops_word(ops))?;
    push_objects(text, obs)
}

/// Appends the line of a delegation.
#[tactic(auto, unfolding(crate::specs::Printed::step_text, crate::specs::Printed::step_words))]
fn push_delegation(text: &mut String, giver: Txn, taker: Txn, obs: &ObSet) -> Result<(), AllocError>
    ensures text { OnOk result (string_bytes text.new ≡ string_bytes text.old ++ step_text (Delegate giver taker obs.now)) }
    ensures reads { OnOk result (command_of (step_text (Delegate giver taker obs.now)) ≡ Some (Ask (Delegate giver taker obs.now))) }
{
    push_two(text, "delegate", giver.0, taker.0)?;
    text.push_str(" ")?;
    push_set(text, obs)
}

/// Appends the line of a step, without a line feed. It reads back as that step.
#[tactic(auto, unfolding(crate::specs::Printed::step_text, crate::specs::Printed::step_words, asset_names::specs::Steps::value_asked))]
pub fn push_step(text: &mut String, step: &Step) -> Result<(), AllocError>
    ensures text { OnOk result (string_bytes text.new ≡ string_bytes text.old ++ step_text step.now) }
    ensures reads { OnOk result (command_of (step_text step.now) ≡ Some (Ask step.now)) }
{
    match *step {
        Step::Initiate { t, parent } => push_initiate(text, t, parent),
        Step::Begin { t } => push_one(text, "begin", t.0),
        Step::Read { t, x } => push_two(text, "read", t.0, x.0),
        Step::Write { t, x, .. } => {
            push_two(text, "write", t.0, x.0)?;
            push_next_value(text, value_asked(step))
        }
        Step::Add { t, x, .. } => {
            push_two(text, "add", t.0, x.0)?;
            push_next_value(text, value_asked(step))
        }
        Step::Complete { t } => push_one(text, "complete", t.0),
        Step::Permit {
            giver,
            taker,
            obs,
            ops,
        } => push_permit(text, giver, taker, &obs, ops),
        Step::PermitAny { giver, obs, ops } => push_open_permit(text, giver, &obs, ops),
        Step::Delegate { giver, taker, obs } => push_delegation(text, giver, taker, &obs),
        Step::Depend { kind, a, b } => push_two(text, depend_words(kind), a.0, b.0),
        Step::Commit { t } => push_one(text, "commit", t.0),
        Step::Abort { t } => push_one(text, "abort", t.0),
        Step::WaitFor { t } => push_one(text, "wait", t.0),
    }
}
