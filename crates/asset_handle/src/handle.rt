//! The handle that a caller keeps.

ghost use Rattle.std.specs.Prelude.{◌≡◌, ◌≢◌, Option, Some, None, true, is_some, ◌↔◌, IfSome, IsNone};
ghost use Rattle.asset_handle.specs.Calls.{IsPlainlyAsked, IsHandleClosed, IsEntry, IsGroup, IsLen, IsHandleOpened, IsStatus, IsValueTold, IsWaiter, Keeps, opening_of};
ghost use Rattle.asset_handle.specs.Codes.{number_of};
ghost use Rattle.asset_handle.specs.Handle.{held_coded, handle_owns, IsTied};
ghost use Rattle.asset_core.specs.declared.facility.Core.{Core};

use crate::calls::{ask, tell_entry, tell_group, tell_len, tell_status, tell_value, tell_waiter};
use crate::codes::Code;
use crate::opening::open_core;
use crate::parts::Parts;
use crate::plain::{PlainAnswer, PlainObject, PlainStep, PlainWaiter};
use asset_core::Core;
use std::alloc::Global;
use std::marker::Model;
use std::mem::replace;

/// A pointer that owns a facility, or nothing.
#[repr(C)]
#[derive(Drop)]
pub struct Held {
    at: *mut u8,
    alloc: Global,
    pub ghost facility: { Option Core } by { held_coded },
}

impl Model for Held {
    ghost also_owns = { λ h. handle_owns h.alloc h.at h.facility };
}

impl Held {
    /// Returns one that owns nothing.
    fn none(at: *mut u8, alloc: Global) -> Held
        ensures { result.facility ≡ None }
    {
        Held { at, alloc }
    }

    /// Returns one that owns what these parts own.
    fn of_parts(parts: Parts<Core, Global>) -> Held
        ensures { result.facility ≡ Some parts.value }
    {
        let Parts { ptr, alloc } = parts;
        let at = ptr as *mut u8;
        Held { at, alloc }
    }

    /// Returns the parts that it owns.
    fn into_parts(self) -> Parts<Core, Global>
        requires { is_some self.facility ≡ true }
        ensures { self.facility ≡ Some result.value }
    {
        let Held { at, alloc } = self;
        let ptr = at as *mut Core;
        Parts { ptr, alloc }
    }
}

/// Returns a pointer to nothing.
fn nowhere() -> *mut u8 {
    std::ptr::null_mut()
}

/// A handle: closed, or open with a facility that it owns. Contracts see the facility as `held.facility`. Its bytes are a flag
/// and a pointer: a handle of zero bytes is closed. It stays on one thread, and a copy of its bytes is no second handle.
#[repr(C)]
#[derive(Drop)]
pub struct Handle {
    is_open: bool,
    pub held: Held,
    ghost tied: { IsTied is_open held.facility },
}

impl Handle {
    /// Returns a closed handle.
    pub fn closed(alloc: Global) -> Handle
        ensures { result.held.facility ≡ None }
    {
        Handle {
            is_open: false,
            held: Held::none(nowhere(), alloc),
        }
    }

    /// Returns an open handle of this facility.
    fn over(core: Box<Core>) -> Handle
        ensures { result.held.facility ≡ Some core.value }
    {
        Handle {
            is_open: true,
            held: Held::of_parts(Parts::of(core)),
        }
    }

    /// Returns the facility, if the handle is open.
    fn into_core(self) -> Option<Box<Core>>
        ensures some { IfSome result (λ core. self.held.facility ≡ Some core.value) }
        ensures none { IsNone result ↔ (self.held.facility ≡ None) }
    {
        if self.is_open {
            Some(self.held.into_parts().into_box())
        } else {
            None
        }
    }

    /// Takes the facility out of the handle, which is closed until it is given back.
    fn take(&mut self, alloc: Global) -> Option<Box<Core>>
        ensures closed { self.new.held.facility ≡ None }
        ensures some { IfSome result (λ core. self.old.held.facility ≡ Some core.value) }
        ensures none { IsNone result ↔ (self.old.held.facility ≡ None) }
    {
        replace(self, Handle::closed(alloc)).into_core()
    }

    /// Gives a facility to a closed handle.
    fn give(&mut self, core: Box<Core>)
        requires { self.old.held.facility ≡ None }
        ensures { self.new.held.facility ≡ Some core.value }
    {
        let _ = replace(self, Handle::over(core));
    }

    /// Opens a facility over these objects with their values, with room for `capacity` entries.
    ///
    /// It answers `IsOpen` if the handle is open; otherwise `BadCapacity` unless the capacity is from 1 to 1,000,000; otherwise
    /// `DoubleObject`, with the least object that is given twice in `double`. `NoMemory` comes if memory runs out, perhaps before the
    /// capacity and the objects are looked at. An open handle that is dropped keeps its memory: it has to be closed.
    pub fn open(
        &mut self,
        alloc: Global,
        objects: &[PlainObject],
        capacity: usize,
        double: &mut u64,
    ) -> Code
        ensures { IsHandleOpened self.old.held.facility (opening_of objects.now) capacity double.old (number_of result) self.new.held.facility double.new }
    {
        if self.is_open {
            return Code::IsOpen;
        }
        match open_core(alloc, objects, capacity, double) {
            Ok(core) => {
                self.give(core);
                Code::Done
            }
            Err(code) => code,
        }
    }

    /// Asks for a step. An answer, a refusal or a wait among them, is `Done`.
    ///
    /// It answers `Closed` if the handle is closed, and `BadArgument` if the plain step asks for no step. `Full` comes exactly if
    /// the history has no room for the entry with those that live transactions are owed after it, and `NoMemory` only if a step
    /// that may need memory would take effect. A complete, a commit or an abort that changes a status meets neither.
    #[inline(always)]
    pub fn step(&mut self, alloc: Global, asked: &PlainStep, answer: &mut PlainAnswer) -> Code
        ensures step { Keeps self.old.held.facility (number_of result) self.new.held.facility (λ f g. IsPlainlyAsked f asked.now answer.old (number_of result) g answer.new) }
        ensures kept { number_of result ≢ 0 → answer.new ≡ answer.old }
    {
        match self.take(alloc) {
            Some(mut core) => {
                let code = ask(&mut core, asked, answer);
                self.give(core);
                code
            }
            None => Code::Closed,
        }
    }

    /// Tells the status of a transaction: 0 unknown, 1 initiated, 2 running, 3 completed, 4 committed, 5 aborted. It answers
    /// `Closed` if the handle is closed.
    pub fn status(&mut self, alloc: Global, t: u64, status: &mut u32) -> Code
        ensures status { Keeps self.old.held.facility (number_of result) self.new.held.facility (λ f g. (g ≡ f) × IsStatus f t (number_of result) status.new) }
        ensures kept { number_of result ≢ 0 → status.new ≡ status.old }
    {
        match self.take(alloc) {
            Some(core) => {
                let code = tell_status(&core, t, status);
                self.give(core);
                code
            }
            None => Code::Closed,
        }
    }

    /// Tells the value of an object. It answers `Closed` if the handle is closed, and `Absent` if there is no such object.
    pub fn value(&mut self, alloc: Global, x: u64, value: &mut i64) -> Code
        ensures value { Keeps self.old.held.facility (number_of result) self.new.held.facility (λ f g. (g ≡ f) × IsValueTold f x value.old (number_of result) value.new) }
        ensures kept { number_of result ≢ 0 → value.new ≡ value.old }
    {
        match self.take(alloc) {
            Some(core) => {
                let code = tell_value(&core, x, value);
                self.give(core);
                code
            }
            None => Code::Closed,
        }
    }

    /// Tells the waiter at the index among the live transactions whose pending request is on the object, in order of initiation
    /// from 0. It answers `Closed` if the handle is closed, and `Absent` past the end.
    pub fn waiter(&mut self, alloc: Global, x: u64, index: usize, waiter: &mut PlainWaiter) -> Code
        ensures waiter { Keeps self.old.held.facility (number_of result) self.new.held.facility (λ f g. (g ≡ f) × IsWaiter f x index waiter.old (number_of result) waiter.new) }
        ensures kept { number_of result ≢ 0 → waiter.new ≡ waiter.old }
    {
        match self.take(alloc) {
            Some(core) => {
                let code = tell_waiter(&core, x, index, waiter);
                self.give(core);
                code
            }
            None => Code::Closed,
        }
    }

    /// Tells how many entries the history has. It answers `Closed` if the handle is closed.
    pub fn len(&mut self, alloc: Global, len: &mut usize) -> Code
        ensures len { Keeps self.old.held.facility (number_of result) self.new.held.facility (λ f g. (g ≡ f) × IsLen f (number_of result) len.new) }
        ensures kept { number_of result ≢ 0 → len.new ≡ len.old }
    {
        match self.take(alloc) {
            Some(core) => {
                let code = tell_len(&core, len);
                self.give(core);
                code
            }
            None => Code::Closed,
        }
    }

    /// Tells the entry at the index, oldest first from 0: a plain step that asks for its step, and its reply. It answers `Closed`
    /// if the handle is closed, and `Absent` past the end.
    pub fn entry(
        &mut self,
        alloc: Global,
        index: usize,
        asked: &mut PlainStep,
        answer: &mut PlainAnswer,
    ) -> Code
        ensures entry { Keeps self.old.held.facility (number_of result) self.new.held.facility (λ f g. (g ≡ f) × IsEntry f index asked.old answer.old (number_of result) asked.new answer.new) }
        ensures step_kept { number_of result ≢ 0 → asked.new ≡ asked.old }
        ensures answer_kept { number_of result ≢ 0 → answer.new ≡ answer.old }
    {
        match self.take(alloc) {
            Some(core) => {
                let code = tell_entry(&core, index, asked, answer);
                self.give(core);
                code
            }
            None => Code::Closed,
        }
    }

    /// Tells the number of the group of a transaction. Groups are numbered from 0 in order of their first transactions. It
    /// answers `Closed` if the handle is closed, `Absent` if no step acts on the transaction, and `NoMemory` if memory runs out.
    /// It goes over the transactions on whom steps act, once.
    pub fn group_of(&mut self, alloc: Global, t: u64, group: &mut usize) -> Code
        ensures group { Keeps self.old.held.facility (number_of result) self.new.held.facility (λ f g. (g ≡ f) × IsGroup f t group.old (number_of result) group.new) }
        ensures kept { number_of result ≢ 0 → group.new ≡ group.old }
    {
        match self.take(alloc) {
            Some(core) => {
                let code = tell_group(alloc, &core, t, group);
                self.give(core);
                code
            }
            None => Code::Closed,
        }
    }

    /// Closes the handle and frees what it holds. It answers `Closed` if it was closed already.
    pub fn close(&mut self, alloc: Global) -> Code
        ensures { IsHandleClosed self.old.held.facility (number_of result) self.new.held.facility }
    {
        match self.take(alloc) {
            Some(core) => {
                drop(core);
                Code::Done
            }
            None => Code::Closed,
        }
    }
}
