ghost use Rattle.std.specs.Prelude.{◌≡◌, ◌+◌, ◌<◌, ◌≤◌, ◌↔◌, [], length, take, drop, get_or};
ghost use Rattle.std.specs.Prelude.{IfOk, IsTrue, slice_get};
ghost use Rattle.std.specs.List.{insert, remove};
ghost use Rattle.lab_queue.specs.Ranking.{IsPlace, IsRanked, is_before, ends_before};

use crate::ranking::Ranked;
use std::alloc::{AllocError, Global};
use std::marker::Model;

/// How many entries a row has room for.
const ROW: usize = 128;

/// How many of a full row's entries stay when it splits, and how many go.
pub(crate) const HALF: usize = 64;

/// Ranked numbers that stand together, with room for a whole row of them.
#[derive(Drop)]
pub(crate) struct Row {
    /// The entries in their order.
    entries: Vec<Ranked>,
}

impl Model for Row {
    ghost use Rattle.std.specs.Prelude.{List, ◌≤◌, vec_capacity};
    ghost use Rattle.lab_queue.specs.declared.ranking.Ranked.{Ranked};

    ghost Value = { List Ranked };

    ghost view = { λ r. r.entries.items };

    ghost invariant = { λ r. 128 ≤ vec_capacity r.entries };
}

impl Row {
    /// An empty row.
    pub(crate) fn new(alloc: Global) -> Result<Row, AllocError>
        ensures { IfOk result (λ row. row ≡ []) }
    {
        Ok(Row {
            entries: Vec::with_capacity(alloc, ROW)?,
        })
    }

    /// How many entries it has.
    pub(crate) fn len(&self) -> usize
        ensures { result ≡ length self.now }
    {
        self.entries.len()
    }

    /// The entries in their order.
    pub(crate) fn entries(&self) -> &[Ranked]
        ensures { result.now ≡ self.now }
    {
        &self.entries
    }

    /// Its first entry.
    #[inline]
    pub(crate) fn first(&self) -> Option<Ranked>
        ensures { result ≡ slice_get self.now 0 }
    {
        self.entries.first().copied()
    }

    /// Whether its last entry stands before `bound`.
    pub(crate) fn ends_before(&self, bound: Ranked) -> bool
        ensures { result ≡ ends_before bound self.now }
    {
        let Some(last) = self.entries.last() else {
            return false;
        };
        last.is_before(bound)
    }

    /// Whether its first entry has the rank.
    pub(crate) fn begins_with(&self, rank: u64) -> bool
        ensures { IsTrue result ↔ ((get_or self.now 0 (record { rank = rank + 1; id = 0 })).rank
            ≡ rank) }
    {
        match self.entries.first() {
            Some(first) => first.rank == rank,
            None => false,
        }
    }

    /// How many of its entries stand before `bound`.
    pub(crate) fn place(&self, bound: Ranked) -> usize
        requires { IsRanked self.now }
        ensures { IsPlace self.now bound result }
    {
        self.entries.partition_point(|x| x.is_before(bound))
    }

    /// Puts an entry in at a place.
    pub(crate) fn insert(&mut self, place: usize, new: Ranked)
        requires place { place ≤ length self.old }
        requires room { length self.old < 128 }
        ensures { self.new ≡ insert self.old place new }
    {
        let Ok(()) = self.entries.insert(place, new) else {
            unreachable!();
        };
    }

    /// Takes the entry at a place out.
    pub(crate) fn remove(&mut self, place: usize)
        requires { place < length self.old }
        ensures { self.new ≡ remove self.old place }
    {
        self.entries.remove(place);
    }

    /// Moves the upper half of a full row to an empty one.
    pub(crate) fn split(&mut self, upper: &mut Row)
        requires full { length self.old ≡ 128 }
        requires empty { upper.old ≡ [] }
        ensures lower { self.new ≡ take 64 self.old }
        ensures upper { upper.new ≡ drop 64 self.old }
    {
        let Ok(()) = upper.entries.extend_from_slice(&self.entries[HALF..]) else {
            unreachable!();
        };
        self.entries.truncate(HALF);
    }
}
