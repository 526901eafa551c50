ghost use Rattle.std.specs.Prelude.{◌≡◌, ◌<◌, ◌≤◌, ℕ, [], IfNone, IfSome, OnErr, OnOk, false, length, replicate, true};
ghost use Rattle.lab_index.specs.Groups.{IsNext, Keeps, is_in};

use lab_sector::NoMemory;
use std::alloc::Global;
use std::collections::BTreeSet;
use std::marker::Model;

/// Numbers in groups, which are counted from 0. A number may be in several.
///
/// Callers see the numbers of each group, rising.
#[derive(Drop)]
pub struct Groups {
    /// Where the groups are made.
    alloc: Global,
    sets: Vec<BTreeSet<u64>>,
}

impl Model for Groups {
    ghost use Rattle.std.specs.Prelude.{map};
    ghost use Rattle.lab_index.specs.Groups as group;

    ghost Value = { group.Groups };

    ghost view = { λ groups. map (λ set. set.keys) groups.sets.items };
}

impl Groups {
    /// No group. It takes no memory.
    pub fn new(alloc: Global) -> Groups
        ensures { result ≡ [] }
    {
        Groups {
            alloc,
            sets: Vec::new(alloc),
        }
    }

    /// How many groups there are.
    pub fn count(&self) -> usize
        ensures { result ≡ length self.now }
    {
        self.sets.len()
    }

    /// There are so many groups from now on, and each is empty.
    pub fn open(&mut self, count: usize) -> Result<(), NoMemory>
        ensures ok { OnOk result (self.new ≡ replicate count []) }
        ensures err { OnErr result (self.new ≡ self.old) }
    {
        let mut sets = Vec::with_capacity(self.alloc, count)?;
        for _ in 0..count {
            sets.push(BTreeSet::new(self.alloc))?;
        }
        self.sets = sets;
        Ok(())
    }

    /// There is no group from now on.
    pub fn close(&mut self)
        ensures { self.new ≡ [] }
    {
        self.sets.clear();
    }

    /// Puts a number into a group. One that is there stays.
    pub fn insert(&mut self, group: usize, number: u64) -> Result<(), NoMemory>
        requires { group < length self.old }
        ensures here { OnOk result (is_in self.new group number ≡ true) }
        ensures keeps { Keeps self.old self.new group number }
        ensures err { OnErr result (self.new ≡ self.old) }
    {
        self.sets[group].insert(number)?;
        Ok(())
    }

    /// Takes a number out of a group. One that isn't there stays out.
    pub fn remove(&mut self, group: usize, number: u64)
        ensures here { is_in self.new group number ≡ false }
        ensures keeps { Keeps self.old self.new group number }
    {
        if let Some(set) = self.sets.get_mut(group) {
            set.remove(&number);
        }
    }

    /// The least number from `from` on that is in a group.
    pub fn next(&self, group: usize, from: u64) -> Option<u64>
        ensures some { IfSome result (IsNext self.now group from) }
        ensures none { IfNone result ((number : ℕ) → from ≤ number
            → is_in self.now group number ≡ false) }
    {
        let set = self.sets.get(group)?;
        set.range(from..).next().copied()
    }
}
