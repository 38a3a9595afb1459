//! A reader or a writer that is watched: whether a call of it failed, and how much it did.
ghost use Rattle.std.specs.Prelude.{◌≡◌, ◌<◌, ◌≤◌, ℕ, Bool, true, false, length, take, IfSome, IfNone, MatchOption, is_none, ◌||◌};
ghost use Rattle.std.specs.Io.KnownBytes.{Appends, Consumes, IsAtEnd, Keeps};
ghost use Rattle.asset_scripts.specs.Device.{DeviceState, IsUnused, counted};

use std::io::{Read, Write};
use std::marker::Model;

/// A reader or a writer, with the number of calls made of it, the number of bytes that they moved, and
/// whether one of them failed. A number stays at its greatest value. A device that was asked nothing has
/// moved nothing.
#[derive(Drop)]
pub struct Device<D> {
    inner: D,
    failed: bool,
    asked: u64,
    moved: u64,
}

impl<D> Model for Device<D> {
    ghost use Rattle.asset_scripts.specs.Device.{DeviceState, device_code};
    ghost use Rattle.std.specs.Prelude.{◌≡◌};

    ghost Value = { DeviceState D };

    ghost coded = { device_code D.code };

    ghost view = { λ d. record { inner = d.inner; failed = d.failed; asked = d.asked; moved = d.moved } };

    ghost invariant = { λ d. d.asked ≡ 0 → d.moved ≡ 0 };
}

impl<D> Device<D> {
    /// Returns a device over `inner`, which was asked nothing yet.
    pub fn new(inner: D) -> Self
        ensures inner { result.inner ≡ inner }
        ensures unused { IsUnused result }
    {
        Device {
            inner,
            failed: false,
            asked: 0,
            moved: 0,
        }
    }

    /// Returns whether a call failed. Once true, it stays true.
    pub fn failed(&self) -> bool
        ensures { result ≡ self.now.failed }
    {
        self.failed
    }

    /// Returns how many calls were made of the reader or the writer.
    pub fn asked(&self) -> u64
        ensures { result ≡ self.now.asked }
    {
        self.asked
    }

    /// Counts a call that moved `count` bytes, or failed at `None`.
    #[tactic(auto, unfolding(crate::specs::Device::counted))]
    fn note(&mut self, count: Option<usize>)
        ensures inner { self.new.inner ≡ self.old.inner }
        ensures failed { self.new.failed ≡ (self.old.failed || is_none count) }
        ensures asked { self.new.asked ≡ counted self.old.asked 1 }
        ensures moved { MatchOption count (self.new.moved ≡ self.old.moved)
            (λ n. self.new.moved ≡ counted self.old.moved n) }
    {
        self.asked = self.asked.saturating_add(1);
        match count {
            Some(n) => self.moved = self.moved.saturating_add(n as u64),
            None => self.failed = true,
        }
    }
}

impl<D: Read> Device<D> {
    /// Asks the reader once, and returns how many bytes it gave. `None` if it failed.
    pub fn read(&mut self, buf: &mut [u8]) -> Option<usize>
        ensures bound { IfSome result (λ n. n ≤ length buf.new) }
        ensures gave { IfSome result (λ n.
            Consumes (D.remaining self.old.inner) (D.remaining self.new.inner) (take n buf.new)) }
        ensures unmoved { self.old.asked ≡ 0 → self.old.moved ≡ 0 }
        ensures end { IfSome result (λ n.
            n ≡ 0 → 0 < length buf.new → IsAtEnd (D.remaining self.new.inner)) }
        ensures gave_nothing { IfNone result
            (Keeps (D.remaining self.old.inner) (D.remaining self.new.inner)) }
        ensures failed { self.new.failed ≡ (self.old.failed || is_none result) }
        ensures asked { self.new.asked ≡ counted self.old.asked 1 }
        ensures moved { MatchOption result (self.new.moved ≡ self.old.moved)
            (λ n. self.new.moved ≡ counted self.old.moved n) }
    {
        let count = self.inner.read(buf).ok();
        self.note(count);
        count
    }
}

impl<D: Write> Device<D> {
    /// Offers the writer a text once, and returns how many bytes it took. `None` if it failed; taking no
    /// byte of a text that is not empty is a failure too.
    pub(crate) fn write(&mut self, text: &[u8]) -> Option<usize>
        ensures bound { IfSome result (λ n. n ≤ length text.now) }
        ensures progress { IfSome result (λ n. 0 < length text.now → 0 < n) }
        ensures took { IfSome result (λ n.
            Appends (D.contents self.old.inner) (D.contents self.new.inner) (take n text.now)) }
        ensures took_nothing { IfNone result
            (Keeps (D.contents self.old.inner) (D.contents self.new.inner)) }
        ensures failed { self.new.failed ≡ (self.old.failed || is_none result) }
        ensures asked { self.new.asked ≡ counted self.old.asked 1 }
        ensures moved { MatchOption result (self.new.moved ≡ self.old.moved)
            (λ n. self.new.moved ≡ counted self.old.moved n) }
    {
        let count = match self.inner.write(text) {
            Ok(0) if !text.is_empty() => None,
            Ok(n) => Some(n),
            Err(_) => None,
        };
        self.note(count);
        count
    }
}
