ghost use Rattle.std.specs.Prelude.{◌≡◌, IfOk};
ghost use Rattle.lab_findings.specs.Judged.{corrupt_wrong, lapsed_wrong, lost_wrong, misplaced_wrong};
ghost use Rattle.lab_findings.specs.Judged.{spoiled_wrong, stale_pairs, stale_wrong, written_hits};
ghost use Rattle.lab_watch.specs.Grids.{writers_in};
ghost use Rattle.lab_findings.specs.Wrongs.{wrong_from};

use crate::answered::Answered;
use crate::changed::changed_in;
use crate::found::Wrong;
use crate::issuing::grid_number;
use crate::misplaced::misplaced_in;
use crate::reach::device_reach;
use crate::stale::stale_in;
use crate::watch::Watch;
use crate::written::written_in;
use lab_disk::Sector;
use lab_sector::NoMemory;
use lab_watch::{Grid, Row};
use std::alloc::Global;

impl Watch {
    /// The sectors of a write or trim that lines dropped.
    pub(crate) fn lost_wrong(&self, alloc: Global, op: Answered) -> Result<Option<Wrong>, NoMemory>
        ensures { IfOk result (λ wrong. wrong ≡ lost_wrong self.now op) }
    {
        written_at(alloc, self.writers.drops(), op)
    }

    /// The sectors of a write that reached a disk with another byte.
    pub(crate) fn spoiled_wrong(
        &self,
        alloc: Global,
        op: Answered,
    ) -> Result<Option<Wrong>, NoMemory>
        ensures { IfOk result (λ wrong. wrong ≡ spoiled_wrong self.now op) }
    {
        written_at(alloc, &self.spoiled, op)
    }

    /// The sectors of a read that were answered another byte than was written, where these are answered.
    pub(crate) fn corrupt_wrong(
        &self,
        alloc: Global,
        op: Answered,
        sectors: &[Sector],
    ) -> Result<Option<Wrong>, NoMemory>
        ensures { IfOk result (λ wrong. wrong ≡ corrupt_wrong self.now op sectors.now) }
    {
        let (len, first) = (op.span.len, op.span.first);
        match self.writers.reads().whole(op.number, len) {
            Some(row) => changed_in(&self.deeds, row, sectors, first),
            None => {
                let row = self.writers.read_row(alloc, op.number, len)?;
                changed_in(&self.deeds, &row, sectors, first)
            }
        }
    }

    /// The sectors of a read that are stale.
    pub(crate) fn stale_wrong(&self, alloc: Global, op: Answered) -> Result<Option<Wrong>, NoMemory>
        ensures { IfOk result (λ wrong. wrong ≡ stale_wrong self.now op) }
    {
        let len = op.span.len;
        match self.claims.whole(op.number, len) {
            Some(claims) => self.stale_by(alloc, op, claims),
            None => self.stale_by(alloc, op, &self.claims.part(alloc, op.number, len)?),
        }
    }

    /// The sectors of a read that are stale, where these are its claims.
    fn stale_by(&self, alloc: Global, op: Answered, claims: &Row) -> Result<Option<Wrong>, NoMemory>
        ensures { IfOk result (λ wrong. wrong
            ≡ wrong_from op.span.first (stale_pairs self.now.deeds claims.now
            (writers_in self.now.writers.reads op.number 0 op.span.len))) }
    {
        let (len, first) = (op.span.len, op.span.first);
        match self.writers.reads().whole(op.number, len) {
            Some(row) => stale_in(&self.deeds, claims, row, first),
            None => {
                let row = self.writers.read_row(alloc, op.number, len)?;
                stale_in(&self.deeds, claims, &row, first)
            }
        }
    }

    /// The sectors of a read that are misplaced.
    pub(crate) fn misplaced_wrong(
        &self,
        alloc: Global,
        op: Answered,
    ) -> Result<Option<Wrong>, NoMemory>
        ensures { IfOk result (λ wrong. wrong ≡ misplaced_wrong self.now op) }
    {
        let (device, first) = (grid_number(op.device), op.span.first);
        match self.writers.reads().whole(op.number, op.span.len) {
            Some(row) => misplaced_in(&self.deeds, device, row, first),
            None => {
                let row = self.writers.read_row(alloc, op.number, op.span.len)?;
                misplaced_in(&self.deeds, device, &row, first)
            }
        }
    }

    /// The sectors of a sync's device that stood lost when it was issued.
    pub(crate) fn lapsed_wrong(
        &self,
        alloc: Global,
        op: Answered,
    ) -> Result<Option<Wrong>, NoMemory>
        ensures { IfOk result (λ wrong. wrong ≡ lapsed_wrong self.now op) }
    {
        if self.claims.is_empty() {
            return Ok(None);
        }
        match self.claims.whole(op.number, device_reach()) {
            Some(row) => written_in(row, 0),
            None => written_in(&self.claims.part(alloc, op.number, device_reach())?, 0),
        }
    }
}

/// The sectors of an operation that have a writer in a grid.
fn written_at(alloc: Global, grid: &Grid, op: Answered) -> Result<Option<Wrong>, NoMemory>
    ensures { IfOk result (λ wrong. wrong
        ≡ wrong_from op.span.first (written_hits (writers_in grid.now op.number 0 op.span.len))) }
{
    if grid.is_empty() {
        return Ok(None);
    }
    let row = grid.part(alloc, op.number, 0, op.span.len)?;
    written_in(&row, op.span.first)
}
