ghost use Rattle.std.specs.Prelude.{◌≡◌, ℕ, ◌+◌, ◌<◌, ◌≤◌, ◌↔◌, Contains, IfNone, IfOk, IfSome};
ghost use Rattle.std.specs.Prelude.{IsOk, IsSome, IsTrue, None, OnErr, OnOk, Some};
ghost use Rattle.std.specs.Bool.{OnFalse};
ghost use Rattle.std.specs.FinMap as map;
ghost use Rattle.std.specs.List.Sorted.{IsStrictlyIncreasing};

use crate::ranking::{Ranked, Ranking};
use lab_sector::NoMemory;
use std::alloc::Global;
use std::collections::HashMap;
use std::marker::Model;

/// What a queue holds of a number.
#[derive(Clone, Copy, Debug, PartialEq, Eq)]
pub struct Held {
    /// The moment at which it is due, in microseconds.
    pub due: u64,
    /// The number of the device that holds it.
    pub holder: u32,
}

/// Numbers that wait, each for its due moment and at the device that holds it.
///
/// Room for more is reserved ahead, so that a number can be held without memory.
#[derive(Drop)]
pub struct DelayQueue {
    /// What is held of each number.
    held: HashMap<u64, Held>,
    /// For how many more each of the collections has room.
    spare: usize,
    /// The numbers ranked by their moments.
    by_moment: Ranking,
    /// The numbers ranked by their holders.
    by_device: Ranking,
}

impl Model for DelayQueue {
    ghost use Rattle.lab_queue.specs.Queue.{Waiting, waiting_code};

    ghost Value = { Waiting };

    ghost coded = { waiting_code };

    ghost use Rattle.std.specs.FinMap as map;
    ghost use Rattle.std.specs.HashMap as hash;
    ghost use Rattle.lab_queue.specs.Indexed.{IsIndexed};

    ghost view = { λ q. record { held = map.from_entries q.held.entries; spare = q.spare } };

    ghost invariant = { λ q. IsIndexed (map.from_entries q.held.entries) (hash.spare q.held)
        q.spare q.by_moment q.by_device };
}

impl DelayQueue {
    ghost use Rattle.lab_queue.specs.Queue.{IsFirstDue, IsLeastDue, IsNextAfter, due_of, holder_of};

    /// An empty queue, with no room.
    #[tactic(auto, using(crate::proofs::Rulesets::new))]
    pub fn new(alloc: Global) -> DelayQueue
        ensures held { result.held ≡ map.empty }
        ensures spare { result.spare ≡ 0 }
    {
        DelayQueue {
            held: HashMap::new(alloc),
            spare: 0,
            by_moment: Ranking::new(alloc),
            by_device: Ranking::new(alloc),
        }
    }

    /// Makes room for at least `n` more numbers.
    pub fn reserve(&mut self, n: usize) -> Result<(), NoMemory>
        ensures held { self.new.held ≡ self.old.held }
        ensures ok { OnOk result (n ≤ self.new.spare) }
        ensures spare { self.old.spare ≤ self.new.spare }
        ensures err { OnErr result (self.new ≡ self.old) }
        ensures succeeds { n ≤ self.old.spare → IsOk result }
    {
        if n <= self.spare {
            return Ok(());
        }
        self.held.reserve(n)?;
        self.by_moment.reserve(n)?;
        self.by_device.reserve(n)?;
        self.spare = n;
        Ok(())
    }

    /// Holds a number that isn't held, until it is due, in reserved room.
    pub fn hold(&mut self, id: u64, due: u64, holder: u32)
        requires room { 0 < self.old.spare }
        requires free { map.get self.old.held id ≡ None }
        ensures held { self.new.held
            ≡ map.insert self.old.held id (record { due = due; holder = holder }) }
        ensures spare { self.old.spare ≡ self.new.spare + 1 }
    {
        let Ok(_none) = self.held.insert(id, Held { due, holder }) else {
            unreachable!();
        };
        self.by_moment.insert(Ranked { rank: due, id });
        self.by_device.insert(Ranked {
            rank: u64::from(holder),
            id,
        });
        self.spare -= 1;
    }

    /// Takes a number out, and says whether it was held.
    pub fn take(&mut self, id: u64) -> bool
        ensures found { IsTrue result ↔ IsSome (map.get self.old.held id) }
        ensures held { self.new.held ≡ map.remove self.old.held id }
        ensures spare { self.new.spare ≡ self.old.spare }
        ensures unchanged { OnFalse result (self.new ≡ self.old) }
    {
        let Some(held) = self.held.remove(&id) else {
            return false;
        };
        self.by_moment.remove(Ranked { rank: held.due, id });
        self.by_device.remove(Ranked {
            rank: u64::from(held.holder),
            id,
        });
        true
    }

    /// The least due moment of all that is held.
    #[inline]
    pub fn first_due(&self) -> Option<u64>
        ensures some { IfSome result (IsFirstDue self.now.held) }
        ensures none { IfNone result ((id : ℕ) → due_of self.now.held id ≡ None) }
    {
        let lowest = self.by_moment.first()?;
        Some(lowest.rank)
    }

    /// The least due moment that is later than `now`.
    pub fn next_after(&self, now: u64) -> Option<u64>
        ensures some { IfSome result (IsNextAfter self.now.held now) }
        ensures none { IfNone result ((id due : ℕ)
            → due_of self.now.held id ≡ Some due → due ≤ now) }
    {
        let above = self.by_moment.first_above(now)?;
        Some(above.rank)
    }

    /// The number with the least moment, and then the least number, of those due by `now`.
    pub fn least_due(&self, now: u64) -> Option<u64>
        ensures some { IfSome result (IsLeastDue self.now.held now) }
        ensures none { IfNone result ((id due : ℕ)
            → due_of self.now.held id ≡ Some due → now < due) }
    {
        let first = self.by_moment.first()?;
        if first.rank > now {
            return None;
        }
        Some(first.id)
    }

    /// The numbers that the device `holder` holds, rising.
    pub fn of_device(&self, alloc: Global, holder: u32) -> Result<Vec<u64>, NoMemory>
        ensures rising { IfOk result (λ ids. IsStrictlyIncreasing ids.items) }
        ensures holder { IfOk result (λ ids. (id : ℕ)
            → Contains ids.items id ↔ (holder_of self.now.held id ≡ Some holder)) }
    {
        self.by_device.with_rank(alloc, u64::from(holder))
    }
}
