ghost use Rattle.lab_index.specs.Lists.{AreGoneFrom, IsNextFrom, change_numbered, joined, numbered};
ghost use Rattle.lab_index.specs.RowLending.{LendsNumbered};
ghost use Rattle.std.specs.Borrow.{sem};
ghost use Rattle.std.specs.Prelude.{◌≡◌, ◌+◌, ◌^◌, ◌<◌, ◌≤◌, ◌++◌, ◌∷◌, [], IfNone, IfSome, IsOk};
ghost use Rattle.std.specs.Prelude.{IsSome, OnOk};
ghost use Rattle.std.specs.Prelude.{None, Some, length, option_copied};

use crate::rows::{count_next, give_back, make_room, place_of};
use lab_sector::NoMemory;
use std::alloc::Global;
use std::marker::Model;

/// The greatest number of an item: numbers and places are kept in 32 bits, and behind each number
/// comes another.
const LAST: usize = 0xffff_fffe;

/// Items by number, counted from 1 in the order in which they are made. An item that is removed
/// is gone for ever, and its number is never used again.
///
/// Inside it the items that aren't gone lie side by side, in no order. Of one that is gone nothing
/// is kept but that it is gone: its memory goes to items to come, or is given back.
#[derive(Debug, Drop)]
pub struct Numbered<T: Drop> {
    /// By number: the place of its item, counted from 1; 0 where it is gone.
    places: Vec<u32>,
    /// How many of each 64 numbers aren't gone.
    left: Vec<u8>,
    /// The number of the item at each place.
    numbers: Vec<u32>,
    /// The items that aren't gone.
    items: Vec<T>,
}

impl<T: Drop> Model for Numbered<T> {
    ghost use Rattle.std.specs.Prelude.{vec_capacity, vec_len};
    ghost use Rattle.lab_index.specs.Rows.{IsKept, ItemRow, room_of, shown};

    ghost Value = { ItemRow T };

    ghost view = { λ row. record {
      items = shown row.places.items row.items.items;
      room = room_of (vec_len row.places) (vec_len row.items) (vec_capacity row.places)
          (vec_capacity row.left) (vec_capacity row.items) (vec_capacity row.numbers);
    } };

    ghost invariant = { λ row. IsKept row.places.items row.left.items row.numbers.items
        row.items.items };
}

impl<T: Drop> Numbered<T> {
    /// No items, which take no memory.
    pub fn new(alloc: Global) -> Numbered<T>
        ensures { result.items ≡ [] }
    {
        Numbered {
            places: Vec::new(alloc),
            left: Vec::new(alloc),
            numbers: Vec::new(alloc),
            items: Vec::new(alloc),
        }
    }

    /// How many were ever made: the number of the last one.
    pub fn made(&self) -> u64
        ensures made { result ≡ length self.now.items }
        ensures fits { result + self.now.room + 1 < 2 ^ 64 }
    {
        self.places.len() as u64
    }

    /// The item of this number, if it isn't gone.
    #[inline(always)]
    pub fn get(&self, number: u64) -> Option<&T>
        ensures { option_copied result ≡ joined (numbered self.now.items number) }
    {
        let place = place_of(&self.places, number);
        if place == 0 {
            return None;
        }
        Some(&self.items[place - 1])
    }

    /// The least number from `from` on whose item isn't gone.
    pub fn next(&self, from: u64) -> Option<u64>
        ensures next { IfSome result (IsNextFrom self.now.items from) }
        ensures none { IfNone result (AreGoneFrom self.now.items from) }
        ensures made { IfSome result (λ number. number ≤ length self.now.items) }
        ensures fits { IfSome result (λ number. number + 1 < 2 ^ 64) }
    {
        let mut index = from.saturating_sub(1) as usize;
        while index < self.places.len() {
            if self.left[index / 64] == 0 {
                index = (index / 64 + 1) * 64;
            } else if self.places[index] == 0 {
                index += 1;
            } else {
                return Some(index as u64 + 1);
            }
        }
        None
    }

    /// The item of this number, to be changed.
    #[inline(always)]
    pub fn get_mut(&mut self, number: u64) -> &mut T
        requires { IsSome (joined (numbered self.old.items number)) }
        ensures* lends { sem 𝓛 (LendsNumbered T.row self.entry number result) }
        ensures item { joined (numbered self.old.items number) ≡ Some result.now }
    {
        let place = self.places[number as usize - 1];
        &mut self.items[place as usize - 1]
    }

    /// The item of this number, if it isn't gone, is gone for ever, and is handed over.
    #[inline(always)]
    pub fn remove(&mut self, number: u64) -> Option<T>
        ensures item { result ≡ joined (numbered self.old.items number) }
        ensures gone { self.new.items ≡ change_numbered self.old.items number (λ _. None) }
        ensures room { self.old.room ≤ self.new.room }
    {
        let place = place_of(&self.places, number);
        if place == 0 {
            return None;
        }
        let last = self.numbers[self.numbers.len() - 1];
        self.places[last as usize - 1] = place as u32;
        self.places[number as usize - 1] = 0;
        self.left[(number as usize - 1) / 64] -= 1;
        self.numbers.swap_remove(place - 1);
        Some(self.items.swap_remove(place - 1))
    }

    /// So many more items need no more memory. Numbers from the greatest of 32 bits on are refused
    /// as memory is. Memory is given back where far too much is held for the items.
    pub fn reserve(&mut self, count: usize) -> Result<(), NoMemory>
        ensures room { OnOk result (count ≤ self.new.room) }
        ensures items { self.new.items ≡ self.old.items }
        ensures succeeds { count ≤ self.old.room → IsOk result }
    {
        let made = self.places.len();
        if count > LAST - made {
            return Err(NoMemory);
        }
        self.places.reserve(count)?;
        self.left
            .reserve((made + count).div_ceil(64) - self.left.len())?;
        make_room(&mut self.numbers, count)?;
        make_room(&mut self.items, count)?;
        let wanted = self.items.len() + count;
        give_back(&mut self.numbers, wanted);
        give_back(&mut self.items, wanted);
        Ok(())
    }

    /// The next number gets an item, for which there is room.
    #[inline(always)]
    pub fn push_in_room(&mut self, item: T)
        requires { 0 < self.old.room }
        ensures items { self.new.items ≡ self.old.items ++ Some item ∷ [] }
        ensures room { self.old.room ≤ self.new.room + 1 }
    {
        count_next(&mut self.left, &self.places);
        self.items.push_reserved(item);
        self.numbers.push_reserved(self.places.len() as u32 + 1);
        self.places.push_reserved(self.items.len() as u32);
    }
}
