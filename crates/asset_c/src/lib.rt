//! The functions that C calls. Each is the call of `asset_handle` of the same name, and answers the number of its code. A
//! parameter of type `Global` takes no bytes, so a caller in C passes nothing for it.
#![tactic(auto)]

ghost use Rattle.std.specs.Prelude.{◌≡◌, ◌≢◌};
ghost use Rattle.asset_handle.specs.Calls.{IsPlainlyAsked, IsHandleClosed, IsEntry, IsGroup, IsLen, IsHandleOpened, IsStatus, IsValueTold, IsWaiter, Keeps, opening_of};

use asset_handle::{Handle, PlainAnswer, PlainObject, PlainStep, PlainWaiter};
use std::alloc::Global;

/// Opens a facility over these objects with their values, with room for `capacity` entries.
#[unsafe(no_mangle)]
pub extern "C" fn asset_open(
    alloc: Global,
    asset: &mut Handle,
    objects: &[PlainObject],
    capacity: usize,
    double: &mut u64,
) -> u32
    ensures { IsHandleOpened asset.old.held.facility (opening_of objects.now) capacity double.old result asset.new.held.facility double.new }
{
    asset.open(alloc, objects, capacity, double).number()
}

/// Asks for a step.
#[unsafe(no_mangle)]
pub extern "C" fn asset_step(
    alloc: Global,
    asset: &mut Handle,
    asked: &PlainStep,
    answer: &mut PlainAnswer,
) -> u32
    ensures step { Keeps asset.old.held.facility result asset.new.held.facility (λ f g. IsPlainlyAsked f asked.now answer.old result g answer.new) }
    ensures kept { result ≢ 0 → answer.new ≡ answer.old }
{
    asset.step(alloc, asked, answer).number()
}

/// Tells the status of a transaction.
#[unsafe(no_mangle)]
pub extern "C" fn asset_status(alloc: Global, asset: &mut Handle, t: u64, status: &mut u32) -> u32
    ensures status { Keeps asset.old.held.facility result asset.new.held.facility (λ f g. (g ≡ f) × IsStatus f t result status.new) }
    ensures kept { result ≢ 0 → status.new ≡ status.old }
{
    asset.status(alloc, t, status).number()
}

/// Tells the value of an object.
#[unsafe(no_mangle)]
pub extern "C" fn asset_value(alloc: Global, asset: &mut Handle, x: u64, value: &mut i64) -> u32
    ensures value { Keeps asset.old.held.facility result asset.new.held.facility (λ f g. (g ≡ f) × IsValueTold f x value.old result value.new) }
    ensures kept { result ≢ 0 → value.new ≡ value.old }
{
    asset.value(alloc, x, value).number()
}

/// Tells the waiter of an object at the index.
#[unsafe(no_mangle)]
pub extern "C" fn asset_waiter(
    alloc: Global,
    asset: &mut Handle,
    x: u64,
    index: usize,
    waiter: &mut PlainWaiter,
) -> u32
    ensures waiter { Keeps asset.old.held.facility result asset.new.held.facility (λ f g. (g ≡ f) × IsWaiter f x index waiter.old result waiter.new) }
    ensures kept { result ≢ 0 → waiter.new ≡ waiter.old }
{
    asset.waiter(alloc, x, index, waiter).number()
}

/// Tells how many entries the history has.
#[unsafe(no_mangle)]
pub extern "C" fn asset_len(alloc: Global, asset: &mut Handle, len: &mut usize) -> u32
    ensures len { Keeps asset.old.held.facility result asset.new.held.facility (λ f g. (g ≡ f) × IsLen f result len.new) }
    ensures kept { result ≢ 0 → len.new ≡ len.old }
{
    asset.len(alloc, len).number()
}

/// Tells the entry at the index.
#[unsafe(no_mangle)]
pub extern "C" fn asset_entry(
    alloc: Global,
    asset: &mut Handle,
    index: usize,
    asked: &mut PlainStep,
    answer: &mut PlainAnswer,
) -> u32
    ensures entry { Keeps asset.old.held.facility result asset.new.held.facility (λ f g. (g ≡ f) × IsEntry f index asked.old answer.old result asked.new answer.new) }
    ensures step_kept { result ≢ 0 → asked.new ≡ asked.old }
    ensures answer_kept { result ≢ 0 → answer.new ≡ answer.old }
{
    asset.entry(alloc, index, asked, answer).number()
}

/// Tells the number of the group of a transaction.
#[unsafe(no_mangle)]
pub extern "C" fn asset_group_of(
    alloc: Global,
    asset: &mut Handle,
    t: u64,
    group: &mut usize,
) -> u32
    ensures group { Keeps asset.old.held.facility result asset.new.held.facility (λ f g. (g ≡ f) × IsGroup f t group.old result group.new) }
    ensures kept { result ≢ 0 → group.new ≡ group.old }
{
    asset.group_of(alloc, t, group).number()
}

/// Closes the handle and frees what it holds.
#[unsafe(no_mangle)]
pub extern "C" fn asset_close(alloc: Global, asset: &mut Handle) -> u32
    ensures { IsHandleClosed asset.old.held.facility result asset.new.held.facility }
{
    asset.close(alloc).number()
}
