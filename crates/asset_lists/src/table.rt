//! The lists and their calls.

ghost use Rattle.std.specs.Prelude.{◌≡◌};
ghost use Rattle.asset_lists.specs.Placed.{section_at};

use crate::moves::swap;
use crate::part::{Part, Section};
use crate::rows::{Place, Row};
use smallvec::SmallVec;
use std::alloc::{AllocError, Global};
use std::marker::Model;

/// Keys in lists. Keys and lists are numbers from 0 on, such as a slab gives, and each key is in one list at most, in one
/// of its three parts. Contracts see the part of each key, and no order among the keys of a part.
///
/// A key takes 8 bytes, and 4 more while it is in a list. A list stores up to four keys in itself, and more of them in
/// memory of its own. Only `push` and the calls that add keys or lists take memory; each other call takes constant time.
pub struct KeyLists {
    alloc: Global,
    rows: Vec<Row>,
    places: Vec<Place>,
}

impl Drop for KeyLists {
    fn drop(self) {
        let KeyLists {
            alloc: _,
            rows,
            places,
        } = self;
        drop(rows);
        drop(places);
    }
}

impl Model for KeyLists {
    ghost use Rattle.asset_lists.specs.Parted.{Parted};
    ghost use Rattle.asset_lists.specs.Placed.{seen, IsValid};

    ghost Value = { Parted };

    ghost view = { λ table. seen table.rows.items table.places.items };

    ghost invariant = { λ table. IsValid table.rows.items table.places.items };
}

/// Returns the part of a list that the position is in.
#[tactic(auto, unfolding(crate::specs::Placed::section_in))]
fn section_at(row: &Row, position: usize) -> Section
    ensures { result ≡ section_at row.now position }
{
    if position < row.front {
        Section::Front
    } else if position < row.back {
        Section::Middle
    } else {
        Section::Back
    }
}

impl KeyLists {
    ghost use Rattle.std.specs.Prelude.{◌≡◌, ℕ, ◌<◌, ◌^◌, [], length, None, Some, OnOk, OnErr};
    ghost use Rattle.asset_lists.specs.declared.part.Section.TheVariants.{Front, Middle, Back};
    ghost use Rattle.asset_lists.specs.Parted.{part_of, advanced, one_key_more, one_list_more, AreKeys, AreKeysUpTo, IsChangedAt};

    /// Returns no lists and no keys. It does not allocate.
    pub fn new(alloc: Global) -> KeyLists
        ensures lists { result.lists ≡ 0 }
        ensures parts { result.parts ≡ [] }
    {
        KeyLists {
            alloc,
            rows: Vec::new(alloc),
            places: Vec::new(alloc),
        }
    }

    /// Adds a key, which is in no list. Its number is how many keys there were.
    ///
    /// If memory runs out, or the number is above 2^32 - 2, nothing changes. The cost is that of a push to a vector.
    pub fn add_key(&mut self) -> Result<(), AllocError>
        ensures added { OnOk result (self.new ≡ one_key_more self.old) }
        ensures unchanged { OnErr result (self.new ≡ self.old) }
    {
        if self.places.len() >= u32::MAX as usize || self.places.push(Place::NONE).is_err() {
            return Err(AllocError);
        }
        Ok(())
    }

    /// Adds a list without keys. Its number is how many lists there were.
    ///
    /// If memory runs out, or the number is above 2^32 - 2, nothing changes. The cost is that of a push to a vector.
    pub fn add_list(&mut self) -> Result<(), AllocError>
        ensures added { OnOk result (self.new ≡ one_list_more self.old) }
        ensures unchanged { OnErr result (self.new ≡ self.old) }
    {
        let row = Row {
            keys: SmallVec::new(self.alloc),
            front: 0,
            back: 0,
        };
        if self.rows.len() >= u32::MAX as usize || self.rows.push(row).is_err() {
            return Err(AllocError);
        }
        Ok(())
    }

    /// Puts a key that is in no list into a part of a list.
    ///
    /// If memory runs out, or the list has 2^32 - 1 keys, nothing changes. The cost is that of a push to a vector.
    pub fn push(&mut self, part: Part, key: usize) -> Result<(), AllocError>
        requires list { part.list < self.old.lists }
        requires key { key < length self.old.parts }
        requires free { part_of self.old key ≡ None }
        ensures pushed { OnOk result (IsChangedAt key (Some part) self.old self.new) }
        ensures unchanged { OnErr result (self.new ≡ self.old) }
    {
        match self.append(part.list, key) {
            Ok(()) => {}
            Err(_) => return Err(AllocError),
        }
        match part.section {
            Section::Front => {
                self.raise(key, part.list);
                self.raise_again(key, part.list);
            }
            Section::Middle => self.raise(key, part.list),
            Section::Back => {}
        }
        Ok(())
    }

    /// Moves a key to the front part of its list. If it is in no list, nothing changes.
    pub fn advance(&mut self, key: usize)
        ensures { IsChangedAt key (advanced (part_of self.old key)) self.old self.new }
    {
        if let Some(part) = self.part(key) {
            match part.section {
                Section::Front => {}
                Section::Middle => self.raise_again(key, part.list),
                Section::Back => {
                    self.raise(key, part.list);
                    self.raise_again(key, part.list);
                }
            }
        }
    }

    /// Takes a key out of its list. If it is in none, nothing changes.
    pub fn remove(&mut self, key: usize)
        ensures { IsChangedAt key None self.old self.new }
    {
        if let Some(part) = self.part(key) {
            self.lower_to_back(key, part);
            self.cut(key, part.list);
        }
    }

    /// Returns the part that the key is in, if it is in one.
    pub fn part(&self, key: usize) -> Option<Part>
        ensures { result ≡ part_of self.now key }
    {
        if key >= self.places.len() {
            return None;
        }
        let place = self.places[key];
        if place.home == 0 {
            return None;
        }
        let list = place.home as usize - 1;
        let section = section_at(&self.rows[list], place.position as usize);
        Some(Part { list, section })
    }

    /// Returns the keys of a part, each once, in no order that a caller may rely on. Past the last list there are none.
    pub fn keys(&self, part: Part) -> &[u32]
        ensures { AreKeys self.now part result.now }
    {
        if part.list >= self.rows.len() {
            return &[];
        }
        let row = &self.rows[part.list];
        let keys = row.keys.as_slice();
        match part.section {
            Section::Front => &keys[..row.front],
            Section::Middle => &keys[row.front..row.back],
            Section::Back => &keys[row.back..],
        }
    }

    /// Returns the keys of a part and of the parts before it in its list, each once, in no order that a caller may rely on.
    /// Past the last list there are none.
    pub fn keys_up_to(&self, last: Part) -> &[u32]
        ensures { AreKeysUpTo self.now last result.now }
    {
        if last.list >= self.rows.len() {
            return &[];
        }
        let row = &self.rows[last.list];
        let keys = row.keys.as_slice();
        match last.section {
            Section::Front => &keys[..row.front],
            Section::Middle => &keys[..row.back],
            Section::Back => keys,
        }
    }

    /// Returns how many keys there are.
    pub fn key_count(&self) -> usize
        ensures { result ≡ length self.now.parts }
    {
        self.places.len()
    }

    /// Returns how many lists there are.
    pub fn list_count(&self) -> usize
        ensures { result ≡ self.now.lists }
    {
        self.rows.len()
    }

    /// Puts a key that is in no list at the end of the list. If memory runs out, or the list has 2^32 - 1 keys, nothing changes.
    fn append(&mut self, list: usize, key: usize) -> Result<(), AllocError>
        requires list { list < self.old.lists }
        requires key { key < length self.old.parts }
        requires free { part_of self.old key ≡ None }
        ensures pushed { OnOk result (IsChangedAt key (Some (record { list = list; section = Back })) self.old self.new) }
        ensures unchanged { OnErr result (self.new ≡ self.old) }
    {
        let row = &mut self.rows[list];
        let position = row.keys.len();
        if position >= u32::MAX as usize || row.keys.push(key as u32).is_err() {
            return Err(AllocError);
        }
        self.places[key] = Place {
            home: list as u32 + 1,
            position: position as u32,
        };
        Ok(())
    }

    /// Moves a key from the back part of its list to the middle part.
    fn raise(&mut self, key: usize, list: usize)
        requires { part_of self.old key ≡ Some (record { list = list; section = Back }) }
        ensures { IsChangedAt key (Some (record { list = list; section = Middle })) self.old self.new }
    {
        let position = self.places[key].position as usize;
        let row = &mut self.rows[list];
        let back = row.back;
        swap(row.keys.as_mut_slice(), &mut self.places, position, back);
        row.back = back + 1;
    }

    /// Moves a key from the middle part of its list to the front part.
    fn raise_again(&mut self, key: usize, list: usize)
        requires { part_of self.old key ≡ Some (record { list = list; section = Middle }) }
        ensures { IsChangedAt key (Some (record { list = list; section = Front })) self.old self.new }
    {
        let position = self.places[key].position as usize;
        let row = &mut self.rows[list];
        let front = row.front;
        swap(row.keys.as_mut_slice(), &mut self.places, position, front);
        row.front = front + 1;
    }

    /// Moves a key from its part to the back part of its list.
    fn lower_to_back(&mut self, key: usize, part: Part)
        requires { part_of self.old key ≡ Some part }
        ensures { IsChangedAt key (Some (record { list = part.list; section = Back })) self.old self.new }
    {
        match part.section {
            Section::Front => {
                self.lower(key, part.list);
                self.lower_again(key, part.list);
            }
            Section::Middle => self.lower_again(key, part.list),
            Section::Back => {}
        }
    }

    /// Moves a key from the front part of its list to the middle part.
    fn lower(&mut self, key: usize, list: usize)
        requires { part_of self.old key ≡ Some (record { list = list; section = Front }) }
        ensures { IsChangedAt key (Some (record { list = list; section = Middle })) self.old self.new }
    {
        let position = self.places[key].position as usize;
        let row = &mut self.rows[list];
        let last = row.front - 1;
        swap(row.keys.as_mut_slice(), &mut self.places, position, last);
        row.front = last;
    }

    /// Moves a key from the middle part of its list to the back part.
    fn lower_again(&mut self, key: usize, list: usize)
        requires { part_of self.old key ≡ Some (record { list = list; section = Middle }) }
        ensures { IsChangedAt key (Some (record { list = list; section = Back })) self.old self.new }
    {
        let position = self.places[key].position as usize;
        let row = &mut self.rows[list];
        let last = row.back - 1;
        swap(row.keys.as_mut_slice(), &mut self.places, position, last);
        row.back = last;
    }

    /// Takes a key out of the back part of its list. The last key of the list takes its position.
    fn cut(&mut self, key: usize, list: usize)
        requires { part_of self.old key ≡ Some (record { list = list; section = Back }) }
        ensures { IsChangedAt key None self.old self.new }
    {
        let position = self.places[key].position as usize;
        let row = &mut self.rows[list];
        let last = row.keys.len() - 1;
        swap(row.keys.as_mut_slice(), &mut self.places, position, last);
        row.keys.pop();
        self.places[key] = Place::NONE;
    }
}
