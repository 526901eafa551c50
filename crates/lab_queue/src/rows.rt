ghost use Rattle.std.specs.Prelude.{◌≡◌, ◌+◌, ◌-◌, ◌<◌, ◌≤◌, [], ◌∷◌, ◌++◌, All, length, get_or};
ghost use Rattle.std.specs.Prelude.{false, slice_get, take, vec_capacity, IsOk, OnErr, OnOk};
ghost use Rattle.std.specs.List.{insert, remove};
ghost use Rattle.std.specs.VecDeque.{deque_capacity};
ghost use Rattle.lab_queue.specs.Rows.{flat, start, split_at_half, IsSpot, IsWithin};

use crate::ranking::Ranked;
use crate::row::{HALF, Row};
use lab_sector::NoMemory;
use std::alloc::Global;
use std::collections::VecDeque;
use std::marker::Model;

/// Where an entry stands.
#[derive(Clone, Copy, Debug, PartialEq, Eq)]
pub(crate) struct Spot {
    /// The number of its row.
    pub(crate) row: usize,
    /// How many stand before it in the row.
    pub(crate) place: usize,
}

/// A list of ranked numbers, in rows: an entry comes and goes without a move of the whole list. A row that goes at
/// the front, as where numbers come due, moves no other.
///
/// Empty rows lie ready, one for each entry that is promised room, so that a full row can be split without memory. A
/// list that grows at its end fills its rows.
#[derive(Drop)]
pub(crate) struct Rows {
    /// The allocator that gives the rows.
    alloc: Global,
    /// The rows with entries, in order.
    rows: VecDeque<Row>,
    /// The rows that lie ready: an entry takes at most one of them.
    spares: Vec<Row>,
}

impl Model for Rows {
    ghost use Rattle.std.specs.Prelude.{length, vec_capacity};
    ghost use Rattle.std.specs.VecDeque.{deque_capacity};
    ghost use Rattle.lab_queue.specs.Rows.{ManyRows, IsStocked};

    ghost Value = { ManyRows };

    ghost view = { λ r. record { rows = r.rows.items; spare = length r.spares.items } };

    ghost invariant = { λ r. IsStocked r.rows.items r.spares.items
        (deque_capacity r.rows) (vec_capacity r.spares) };
}

impl Rows {
    /// No rows, and no room.
    pub(crate) fn new(alloc: Global) -> Rows
        ensures { result.rows ≡ [] }
    {
        Rows {
            alloc,
            rows: VecDeque::new(alloc),
            spares: Vec::new(alloc),
        }
    }

    /// For how many more entries there is room.
    fn spare(&self) -> usize
        ensures { result ≡ self.now.spare }
    {
        self.spares.len()
    }

    /// The rows in their order.
    pub(crate) fn rows(&self) -> &VecDeque<Row>
        ensures rows { result.now.items ≡ self.now.rows }
        ensures filled { All (λ r. 0 < length r) self.now.rows }
    {
        &self.rows
    }

    /// The first entry of all.
    #[inline]
    #[tactic(auto, using(crate::proofs::Rulesets::first))]
    pub(crate) fn first(&self) -> Option<Ranked>
        ensures first { result ≡ slice_get (flat self.now.rows) 0 }
        ensures filled { All (λ r. 0 < length r) self.now.rows }
    {
        let row = self.rows.front()?;
        row.first()
    }

    /// Makes room for `n` more.
    pub(crate) fn reserve(&mut self, n: usize) -> Result<(), NoMemory>
        ensures same { self.new.rows ≡ self.old.rows }
        ensures ok { OnOk result (n ≤ self.new.spare) }
        ensures spare { self.old.spare ≤ self.new.spare }
        ensures succeeds { n ≤ self.old.spare → IsOk result }
    {
        while self.spare() < n {
            self.add_spare()?;
        }
        Ok(())
    }

    /// Lays one more row ready.
    fn add_spare(&mut self) -> Result<(), NoMemory>
        ensures same { self.new.rows ≡ self.old.rows }
        ensures ok { OnOk result (self.new.spare ≡ self.old.spare + 1) }
        ensures err { OnErr result (self.new.spare ≡ self.old.spare) }
    {
        self.rows.reserve(self.spares.len() + 1)?;
        self.spares.reserve(self.rows.len() + 1)?;
        let row = Row::new(self.alloc)?;
        let Ok(()) = self.spares.push(row) else {
            unreachable!();
        };
        Ok(())
    }

    /// Puts an entry in at a spot.
    pub(crate) fn insert(&mut self, spot: Spot, new: Ranked)
        requires room { 0 < self.old.spare }
        requires spot { IsSpot self.old.rows spot }
        ensures flat { flat self.new.rows
            ≡ insert (flat self.old.rows) (start self.old.rows spot.row + spot.place) new }
        ensures spare { self.old.spare ≤ self.new.spare + 1 }
    {
        if spot.row == self.rows.len() && self.ends_full() {
            self.push_row(new);
            return;
        }
        let spot = self.spot_within(spot);
        let spot = self.spot_with_room(spot);
        self.insert_within(spot, new);
    }

    /// Whether its last row is full, or it has none.
    fn ends_full(&self) -> bool
        ensures { result ≡ false → 0 < length self.now.rows }
    {
        match self.rows.back() {
            Some(row) => row.len() == 2 * HALF,
            None => true,
        }
    }

    /// Puts an entry in behind all others, in a row of its own.
    fn push_row(&mut self, new: Ranked)
        requires room { 0 < self.old.spare }
        ensures rows { self.new.rows ≡ self.old.rows ++ (new ∷ []) ∷ [] }
        ensures spare { self.old.spare ≤ self.new.spare + 1 }
    {
        let Some(mut row) = self.spares.pop() else {
            unreachable!();
        };
        row.insert(0, new);
        let Ok(()) = self.rows.push_back(row) else {
            unreachable!();
        };
    }

    /// The spot, where one behind the last row is taken as the end of that row.
    fn spot_within(&self, spot: Spot) -> Spot
        requires some { 0 < length self.now.rows }
        requires spot { IsSpot self.now.rows spot }
        ensures within { IsWithin self.now.rows result }
        ensures same { start self.now.rows result.row + result.place
            ≡ start self.now.rows spot.row + spot.place }
    {
        if spot.row < self.rows.len() {
            return spot;
        }
        let row = self.rows.len() - 1;
        Spot {
            row,
            place: self.rows[row].len(),
        }
    }

    /// The spot, after its row was split if it is full.
    fn spot_with_room(&mut self, spot: Spot) -> Spot
        requires room { 0 < self.old.spare }
        requires within { IsWithin self.old.rows spot }
        ensures flat { flat self.new.rows ≡ flat self.old.rows }
        ensures within { IsWithin self.new.rows result }
        ensures same { start self.new.rows result.row + result.place
            ≡ start self.old.rows spot.row + spot.place }
        ensures room { length (get_or self.new.rows result.row []) < 128 }
        ensures spare { self.old.spare ≤ self.new.spare + 1 }
    {
        if self.rows[spot.row].len() < 2 * HALF {
            return spot;
        }
        split_row(&mut self.rows, &mut self.spares, spot.row);
        if spot.place <= HALF {
            return spot;
        }
        Spot {
            row: spot.row + 1,
            place: spot.place - HALF,
        }
    }

    /// Puts an entry into a row that has room.
    #[tactic(auto, using(crate::proofs::Rulesets::insert_within))]
    fn insert_within(&mut self, spot: Spot, new: Ranked)
        requires within { IsWithin self.old.rows spot }
        requires room { length (get_or self.old.rows spot.row []) < 128 }
        ensures flat { flat self.new.rows
            ≡ insert (flat self.old.rows) (start self.old.rows spot.row + spot.place) new }
        ensures spare { self.new.spare ≡ self.old.spare }
    {
        self.rows[spot.row].insert(spot.place, new);
    }

    /// Takes the entry at a spot out.
    #[tactic(auto, using(crate::proofs::Rulesets::remove))]
    pub(crate) fn remove(&mut self, spot: Spot)
        requires row { spot.row < length self.old.rows }
        requires place { spot.place < length (get_or self.old.rows spot.row []) }
        ensures flat { flat self.new.rows
            ≡ remove (flat self.old.rows) (start self.old.rows spot.row + spot.place) }
        ensures spare { self.old.spare ≤ self.new.spare }
    {
        if self.rows[spot.row].len() == 1 {
            self.remove_row(spot.row);
            return;
        }
        self.rows[spot.row].remove(spot.place);
    }

    /// Takes out a row of one entry, which then lies ready.
    fn remove_row(&mut self, at: usize)
        requires row { at < length self.old.rows }
        requires one { length (get_or self.old.rows at []) ≡ 1 }
        ensures rows { self.new.rows ≡ remove self.old.rows at }
        ensures spare { self.old.spare ≤ self.new.spare }
    {
        let Some(mut row) = self.rows.remove(at) else {
            unreachable!();
        };
        row.remove(0);
        let Ok(()) = self.spares.push(row) else {
            unreachable!();
        };
    }
}

/// Splits a full row in two, by one that lies ready.
fn split_row(rows: &mut VecDeque<Row>, spares: &mut Vec<Row>, at: usize)
    requires row { at < length rows.old.items }
    requires full { length (get_or rows.old.items at []) ≡ 128 }
    requires spares { 0 < length spares.old.items }
    requires empty { All (λ r. r ≡ []) spares.old.items }
    requires reach { length rows.old.items < deque_capacity rows.old }
    ensures rows { rows.new.items ≡ split_at_half rows.old.items at }
    ensures spares { spares.new.items ≡ take (length spares.old.items - 1) spares.old.items }
    ensures reach { deque_capacity rows.old ≤ deque_capacity rows.new }
    ensures reach_spares { vec_capacity spares.new ≡ vec_capacity spares.old }
{
    let Some(mut upper) = spares.pop() else {
        unreachable!();
    };
    rows[at].split(&mut upper);
    let Ok(()) = rows.insert(at + 1, upper) else {
        unreachable!();
    };
}
