//! Room for keys and lists of known numbers.

use crate::table::KeyLists;
use std::alloc::AllocError;

impl KeyLists {
    ghost use Rattle.std.specs.Prelude.{◌≡◌, ℕ, ◌+◌, ◌<◌, ◌≤◌, max, length, IsOk, OnOk};
    ghost use Rattle.asset_lists.specs.Parted.{part_of};

    /// Adds keys, in no list, until the key is there, and no more. If memory or the numbers run out, some may have been
    /// added.
    pub fn add_keys(&mut self, key: usize) -> Result<(), AllocError>
        ensures there { OnOk result (key < length self.new.parts) }
        ensures standing { key < length self.old.parts → IsOk result }
        ensures more { length self.old.parts ≤ length self.new.parts }
        ensures no_more { length self.new.parts ≤ max (length self.old.parts) (key + 1) }
        ensures lists { self.new.lists ≡ self.old.lists }
        ensures parts { (k : ℕ) → part_of self.new k ≡ part_of self.old k }
    {
        'keys: while self.key_count() <= key {
            match self.add_key() {
                Ok(()) => {}
                Err(_) => return Err(AllocError),
            }
        }
        Ok(())
    }

    /// Adds lists, without keys, until the list is there, and no more. If memory or the numbers run out, some may have been
    /// added.
    pub fn add_lists(&mut self, list: usize) -> Result<(), AllocError>
        ensures there { OnOk result (list < self.new.lists) }
        ensures standing { list < self.old.lists → IsOk result }
        ensures more { self.old.lists ≤ self.new.lists }
        ensures no_more { self.new.lists ≤ max self.old.lists (list + 1) }
        ensures parts { self.new.parts ≡ self.old.parts }
    {
        'lists: while self.list_count() <= list {
            match self.add_list() {
                Ok(()) => {}
                Err(_) => return Err(AllocError),
            }
        }
        Ok(())
    }
}
