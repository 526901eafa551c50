ghost use Rattle.std.specs.Prelude.{◌≡◌, ◌≤◌, ℕ, [], IfOk, OnOk, Some, get_or, length, map, replicate, take};
ghost use Rattle.lab_state.specs.HeldRows.{AreEmpty, AreHeldCounted, HaveRoom, change_place};
ghost use Rattle.lab_state.specs.HeldRows.{nothing, place_of as place_among, with_kind, without_kind};

use crate::dependents::DEVICES;
use crate::held_place::{HeldPlace, lower_in, place_of, raise_in};
use lab_bios::Bios;
use lab_sector::NoMemory;
use lab_target::Held;
use std::alloc::Global;
use std::marker::Model;

/// Rows are made of at least so many lines, as many as a table may have: no later table is longer.
const LINES: usize = 64;

/// Nothing is held.
const NOTHING: Held = Held {
    reads: 0,
    writes: 0,
    flushes: 0,
};

/// How many bios are held for each line of each device. They are counted once a device's counts are asked for, and from
/// then on as bios come and go; before that there is no row.
#[derive(Drop)]
pub(crate) struct HeldRows {
    rows: Vec<Vec<Held>>,
}

impl Model for HeldRows {
    ghost use Rattle.std.specs.Prelude.{map};
    ghost use Rattle.lab_state.specs.HeldRows.{HeldRows as Rows};

    ghost Value = { Rows };

    ghost view = { λ held. map (λ row. row.items) held.rows.items };
}

/// So many rows of so many lines, for which nothing is held.
fn empty_rows(alloc: Global, count: usize, lines: usize) -> Result<Vec<Vec<Held>>, NoMemory>
    ensures { IfOk result (λ rows. map (λ row. row.items) rows.items
        ≡ replicate count (replicate lines nothing)) }
{
    let mut rows = Vec::with_capacity(alloc, count)?;
    for _ in 0..count {
        rows.push(vec![in alloc; NOTHING; lines]?)?;
    }
    Ok(rows)
}

impl HeldRows {
    /// Nothing is counted yet.
    pub(crate) fn new(alloc: Global) -> HeldRows
        ensures { result ≡ [] }
    {
        HeldRows {
            rows: Vec::new(alloc),
        }
    }

    /// The bio of this number is counted, if it is held.
    #[inline(always)]
    pub(crate) fn take_in(&mut self, bios: &Bios, number: u64)
        requires { HaveRoom self.old }
        ensures { self.new ≡ change_place with_kind (place_among bios.now.items number) self.old }
    {
        if !self.rows.is_empty() {
            self.raise_at(bios, number);
        }
    }

    /// The bio of this number is counted no more, if it is held.
    #[inline(always)]
    pub(crate) fn let_go(&mut self, bios: &Bios, number: u64)
        ensures { self.new
            ≡ change_place without_kind (place_among bios.now.items number) self.old }
    {
        if !self.rows.is_empty() {
            self.lower_at(bios, number);
        }
    }

    /// The bio of this number is counted as `take_in` says, where rows are kept.
    #[inline(never)]
    fn raise_at(&mut self, bios: &Bios, number: u64)
        requires { HaveRoom self.old }
        ensures { self.new ≡ change_place with_kind (place_among bios.now.items number) self.old }
    {
        if let Some(place) = place_of(bios, number) {
            self.raise(place);
        }
    }

    /// The bio of this number is counted no more, as `let_go` says, where rows are kept.
    #[inline(never)]
    fn lower_at(&mut self, bios: &Bios, number: u64)
        ensures { self.new
            ≡ change_place without_kind (place_among bios.now.items number) self.old }
    {
        if let Some(place) = place_of(bios, number) {
            self.lower(place);
        }
    }

    /// One bio more is counted at a place.
    fn raise(&mut self, place: HeldPlace)
        requires { HaveRoom self.old }
        ensures { self.new ≡ change_place with_kind (Some place) self.old }
    {
        let device = place.device as usize;
        if device < self.rows.len() {
            raise_in(&mut self.rows[device], place.line, place.kind);
        }
    }

    /// One bio less is counted at a place.
    fn lower(&mut self, place: HeldPlace)
        ensures { self.new ≡ change_place without_kind (Some place) self.old }
    {
        let device = place.device as usize;
        if device < self.rows.len() {
            lower_in(&mut self.rows[device], place.line, place.kind);
        }
    }

    /// The counts of a device's lines, as far as they are kept.
    fn row(&self, device: u32) -> &[Held]
        ensures { result.now ≡ get_or self.now device [] }
    {
        match self.rows.get(device as usize) {
            Some(row) => row,
            None => &[],
        }
    }

    /// The counts of the first lines of a device, so many, which are kept.
    pub(crate) fn counts(
        &self,
        alloc: Global,
        device: u32,
        lines: usize,
    ) -> Result<Vec<Held>, NoMemory>
        requires { lines ≤ length (get_or self.now device []) }
        ensures { IfOk result (λ held. held.items ≡ take lines (get_or self.now device [])) }
    {
        Ok(self.row(device)[..lines].to_vec(alloc)?)
    }

    /// From now on the counts of each device's lines are kept, of this one's for at least so many. All bios are looked at
    /// once where they aren't yet.
    pub(crate) fn keep(
        &mut self,
        alloc: Global,
        bios: &Bios,
        device: u32,
        lines: usize,
    ) -> Result<(), NoMemory>
        requires { AreHeldCounted bios.now.items self.old }
        ensures counted { AreHeldCounted bios.now.items self.new }
        ensures lines { OnOk result (lines ≤ length (get_or self.new device [])) }
    {
        if lines <= self.row(device).len() {
            return Ok(());
        }
        let count = DEVICES.max((device as usize).saturating_add(1));
        self.rows = empty_rows(alloc, count, LINES.max(lines))?;
        self.count(bios);
        Ok(())
    }

    /// All bios are counted, where none was.
    fn count(&mut self, bios: &Bios)
        requires { AreEmpty self.old }
        ensures counted { AreHeldCounted bios.now.items self.new }
        ensures lines { (device : ℕ)
            → length (get_or self.new device []) ≡ length (get_or self.old device []) }
    {
        let mut from = 1;
        while let Some(number) = bios.next_living(from) {
            self.take_in(bios, number);
            from = number + 1;
        }
    }
}
