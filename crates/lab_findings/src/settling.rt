ghost use Rattle.std.specs.Prelude.{◌≡◌, OnOk, IfOk, option_map};
ghost use Rattle.lab_model.specs.State.{bio_of};
ghost use Rattle.lab_next.specs.Answering.{kind_answered, number_answered, origin_answered};
ghost use Rattle.lab_watch.specs.Grids.{writers_in};
ghost use Rattle.lab_findings.specs.Judged.{written_hits};
ghost use Rattle.lab_findings.specs.Wrongs.{wrong_from};
ghost use Rattle.lab_findings.specs.Settled.{closed, closed_by, first_lost};
ghost use Rattle.lab_findings.specs.Settled.{lapsed_by, put_down, raised_by, raised_if, raised_on, risen, unclaimed};

use crate::issuing::grid_number;
use crate::newer::{all_newer, claims_over, newer_row};
use crate::reach::device_reach;
use crate::watch::Watch;
use crate::written::written_in;
use lab_bios::Bio;
use lab_model::Event;
use lab_next::{Origin, Writer, kind_answered, number_answered, origin_answered};
use lab_sector::{Kind, NoMemory, Span};
use lab_state::State;
use lab_target::Target;
use lab_watch::{Grid, Row};
use std::alloc::Global;

impl Watch {
    /// The event answers an operation of a log, if it answers one, in the state in which it comes.
    pub(crate) fn close<T: Target>(
        &mut self,
        alloc: Global,
        state: &State<T>,
        event: Event,
    ) -> Result<(), NoMemory>
        ensures { OnOk result (self.new ≡ closed state.now event self.old (number_answered event)
            (origin_answered state.now event) (bio_of state.now (number_answered event))) }
    {
        let Some(origin) = origin_answered(state, event) else {
            return Ok(());
        };
        let number = number_answered(event);
        let made = state.traffic.count();
        match state.traffic.get(number) {
            Some(bio) => {
                self.close_by(
                    alloc,
                    number,
                    origin,
                    bio,
                    kind_answered(state, event),
                    made,
                )
            }
            None => Ok(()),
        }
    }

    /// An operation is answered, by the kind of its bio.
    fn close_by(
        &mut self,
        alloc: Global,
        number: u64,
        origin: Origin,
        bio: &Bio,
        kind: Option<Kind>,
        made: u64,
    ) -> Result<(), NoMemory>
        ensures { OnOk result (self.new
            ≡ closed_by self.old number origin bio.now bio.now.kind kind made) }
    {
        match bio.kind {
            Kind::Read => self.unclaim(number, bio.span.len),
            Kind::Flush => self.unclaim(number, device_reach()),
            Kind::Write | Kind::Trim => {
                self.raise_if(alloc, number, origin, bio, kind)?;
                self.put_down(alloc, number, bio.span.len, origin, made, kind)
            }
        }
    }

    /// A write or trim is answered: where claims are needed and it hasn't failed, it is the newest.
    fn raise_if(
        &mut self,
        alloc: Global,
        number: u64,
        origin: Origin,
        bio: &Bio,
        kind: Option<Kind>,
    ) -> Result<(), NoMemory>
        ensures { OnOk result (self.new ≡ raised_if self.old number origin bio.now kind) }
    {
        if kind.is_some() && self.sought.keeps_claims() {
            self.raise(alloc, number, origin, bio)?;
        }
        Ok(())
    }

    /// A write or trim is answered without failure: it is the newest where it claims to be, and what it lost stands lost.
    fn raise(
        &mut self,
        alloc: Global,
        number: u64,
        origin: Origin,
        bio: &Bio,
    ) -> Result<(), NoMemory>
        ensures { OnOk result (self.new ≡ raised_by self.old number origin bio.now) }
    {
        let device = grid_number(bio.device);
        self.rise(alloc, number, origin, device, bio.span)?;
        self.lapse(alloc, number, device, bio.span)
    }

    /// An operation at these sectors of a device is answered without failure: it is the newest where it claims to be. Where
    /// no sector of any is void and none was issued after it, it is so at all of them.
    fn rise(
        &mut self,
        alloc: Global,
        number: u64,
        origin: Origin,
        device: u64,
        span: Span,
    ) -> Result<(), NoMemory>
        ensures { OnOk result (self.new ≡ raised_on self.old number origin device span) }
    {
        if self.voids.is_empty() && self.deeds.is_latest(number) {
            let writer = Writer { origin, sector: 0 };
            return self.newest.spread(device, span.first, span.len, writer);
        }
        let row = self.risen(alloc, number, origin, device, span)?;
        self.newest.put(device, span.first, &row)
    }

    /// The newest at these sectors of a device once an operation there is answered without failure. Where no sector of any
    /// is void, it claims all.
    fn risen(
        &self,
        alloc: Global,
        number: u64,
        origin: Origin,
        device: u64,
        span: Span,
    ) -> Result<Row, NoMemory>
        ensures { IfOk result (λ row. row ≡ risen self.now number origin device span) }
    {
        let (deeds, newest) = (&self.deeds, &self.newest);
        if self.voids.is_empty() {
            return newer_row(alloc, deeds, newest, number, origin, device, span);
        }
        let voids = self.voids.part(alloc, number, 0, span.len)?;
        let claims = claims_over(alloc, origin, &voids)?;
        all_newer(alloc, deeds, newest, number, device, span.first, &claims)
    }

    /// What a write or trim lost stands lost on its device, and what was lost there before doesn't any more.
    fn lapse(&mut self, alloc: Global, number: u64, device: u64, span: Span) -> Result<(), NoMemory>
        ensures { OnOk result (self.new ≡ lapsed_by self.old number device span) }
    {
        if self.writers.drops().is_empty() && self.lapses.is_empty() {
            return Ok(());
        }
        let drops = self.writers.drop_row(alloc, number, span.len)?;
        self.lapses.put(device, span.first, &drops)
    }

    /// It is put down that an operation is answered once so many bios are made.
    fn put_down(
        &mut self,
        alloc: Global,
        number: u64,
        count: u64,
        origin: Origin,
        made: u64,
        kind: Option<Kind>,
    ) -> Result<(), NoMemory>
        ensures { OnOk result (self.new ≡ put_down self.old number count origin made kind) }
    {
        let lost = self.first_lost(alloc, number, count, kind)?;
        self.deeds.close(origin, made, lost);
        Ok(())
    }

    /// The first lost sector of a write or trim, counted from its first, where it hasn't failed.
    fn first_lost(
        &self,
        alloc: Global,
        number: u64,
        count: u64,
        kind: Option<Kind>,
    ) -> Result<Option<u64>, NoMemory>
        ensures { IfOk result (λ lost. lost ≡ first_lost self.now number count kind) }
    {
        match kind {
            Some(_) => first_in(alloc, self.writers.drops(), number, count),
            None => Ok(None),
        }
    }

    /// Nothing is claimed any more by the operation of a number, of so many sectors.
    fn unclaim(&mut self, number: u64, count: u64) -> Result<(), NoMemory>
        ensures { OnOk result (self.new ≡ unclaimed self.old number count) }
    {
        if self.sought.keeps_claims() {
            self.claims.clear(number, 0, count)?;
        }
        Ok(())
    }
}

/// The first sector of an operation that has a writer in a grid.
fn first_in(alloc: Global, grid: &Grid, number: u64, count: u64) -> Result<Option<u64>, NoMemory>
    ensures { IfOk result (λ lost. lost ≡ option_map (λ wrong. wrong.first)
        (wrong_from 0 (written_hits (writers_in grid.now number 0 count)))) }
{
    if grid.is_empty() {
        return Ok(None);
    }
    let row = grid.part(alloc, number, 0, count)?;
    match written_in(&row, 0)? {
        Some(wrong) => Ok(Some(wrong.first)),
        None => Ok(None),
    }
}
