ghost use Rattle.std.specs.Prelude.{◌≡◌, ◌≢◌, ℕ, ◌+◌, ◌<◌, ◌≤◌, ◌↔◌, ◌⊎◌, [], Contains};
ghost use Rattle.std.specs.Prelude.{IfOk, IfSome, IfNone, IsOk, OnOk};
ghost use Rattle.std.specs.List.Sorted.{IsStrictlyIncreasing};
ghost use Rattle.lab_queue.specs.Ranking.{NotAfter, is_before};

use crate::rows::Rows;
use crate::search::{first_from, ids_from, spot, spot_from_front};
use lab_sector::NoMemory;
use std::alloc::Global;
use std::marker::Model;

/// A number with its rank.
#[derive(Clone, Copy, Debug, PartialEq, Eq)]
pub(crate) struct Ranked {
    /// The rank: a moment, or a device's number.
    pub(crate) rank: u64,
    /// The number that has it.
    pub(crate) id: u64,
}

impl Ranked {
    /// The rank, which its caller then knows to have 64 bits.
    fn rank(self) -> u64
        ensures { result ≡ self.rank }
    {
        self.rank
    }

    /// Whether it stands before `bound`.
    pub(crate) fn is_before(self, bound: Ranked) -> bool
        ensures { result ≡ is_before bound self }
    {
        self.rank < bound.rank || (self.rank == bound.rank && self.id < bound.id)
    }
}

/// Ranked numbers in order: by rank, then by number.
#[derive(Drop)]
pub(crate) struct Ranking {
    /// The numbers with their ranks, rising.
    rows: Rows,
}

impl Model for Ranking {
    ghost use Rattle.lab_queue.specs.Ranking.{RankedRow, IsRow};
    ghost use Rattle.lab_queue.specs.Rows.{flat};

    ghost Value = { RankedRow };

    ghost view = { λ r. record { row = flat r.rows.rows; spare = r.rows.spare } };

    ghost invariant = { λ r. IsRow (flat r.rows.rows) };
}

impl Ranking {
    /// An empty ranking.
    pub(crate) fn new(alloc: Global) -> Ranking
        ensures { result.row ≡ [] }
    {
        Ranking {
            rows: Rows::new(alloc),
        }
    }

    /// Makes room for `n` more.
    pub(crate) fn reserve(&mut self, n: usize) -> Result<(), NoMemory>
        ensures same { self.new.row ≡ self.old.row }
        ensures ok { OnOk result (n ≤ self.new.spare) }
        ensures spare { self.old.spare ≤ self.new.spare }
        ensures succeeds { n ≤ self.old.spare → IsOk result }
    {
        self.rows.reserve(n)
    }

    /// Puts in a number that isn't there with that rank.
    pub(crate) fn insert(&mut self, new: Ranked)
        requires room { 0 < self.old.spare }
        requires absent { ¬ Contains self.old.row new }
        ensures contains { (x : Ranked)
            → Contains self.new.row x ↔ ((x ≡ new) ⊎ Contains self.old.row x) }
        ensures spare { self.old.spare ≤ self.new.spare + 1 }
    {
        let _known = new.rank();
        let spot = spot(&self.rows, new);
        self.rows.insert(spot, new);
    }

    /// Takes out a number that is there with that rank.
    pub(crate) fn remove(&mut self, old: Ranked)
        requires { Contains self.old.row old }
        ensures contains { (x : Ranked)
            → Contains self.new.row x ↔ (Contains self.old.row x × (x ≢ old)) }
        ensures spare { self.old.spare ≤ self.new.spare }
    {
        let spot = spot_from_front(&self.rows, old);
        self.rows.remove(spot);
    }

    /// The first of all.
    #[inline]
    pub(crate) fn first(&self) -> Option<Ranked>
        ensures some { IfSome result (Contains self.now.row) }
        ensures first { IfSome result (λ x. (y : Ranked) → Contains self.now.row y → NotAfter x y) }
        ensures none { IfNone result ((y : Ranked) → ¬ Contains self.now.row y) }
    {
        self.rows.first()
    }

    /// The first with a rank above `rank`.
    pub(crate) fn first_above(&self, rank: u64) -> Option<Ranked>
        ensures some { IfSome result (λ x. Contains self.now.row x × (rank < x.rank)) }
        ensures first { IfSome result (λ x. (y : Ranked)
            → Contains self.now.row y → rank < y.rank → x.rank ≤ y.rank) }
        ensures none { IfNone result ((y : Ranked) → Contains self.now.row y → y.rank ≤ rank) }
    {
        let rows = &self.rows;
        let above = rank.checked_add(1)?;
        first_from(rows, Ranked { rank: above, id: 0 })
    }

    /// The numbers with that rank, rising.
    pub(crate) fn with_rank(&self, alloc: Global, rank: u64) -> Result<Vec<u64>, NoMemory>
        ensures rising { IfOk result (λ ids. IsStrictlyIncreasing ids.items) }
        ensures contains { IfOk result (λ ids. (id : ℕ)
            → Contains ids.items id ↔ Contains self.now.row (record { rank = rank; id = id })) }
    {
        let spot = spot(&self.rows, Ranked { rank, id: 0 });
        Ok(ids_from(alloc, self.rows.rows(), spot, rank)?)
    }
}
