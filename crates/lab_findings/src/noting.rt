ghost use Rattle.std.specs.Prelude.{◌≡◌, ◌++◌, OnOk};
ghost use Rattle.lab_findings.specs.Judged.{broken_noted, corrupt_noted, eio_noted, found_of};
ghost use Rattle.lab_findings.specs.Judged.{lost_noted, misplaced_noted, spoiled_noted, stale_noted, synced_noted};

use crate::answered::Answered;
use crate::finding::Finding;
use crate::found::{Found, Wrong};
use crate::noted::{Noted, Synced};
use crate::watch::Watch;
use crate::why::Why;
use lab_disk::Sector;
use lab_sector::NoMemory;
use std::alloc::Global;

impl Watch {
    /// Adds a failed operation, where it is asked for.
    pub(crate) fn note_eio(&self, noted: &mut Vec<Noted>, op: Answered) -> Result<(), NoMemory>
        ensures { OnOk result (noted.new.items ≡ noted.old.items ++ eio_noted self.now op) }
    {
        if self.sought.eio {
            let found = self.found_of(op, Finding::Eio, None, Why::NONE);
            noted.push(found)?;
        }
        Ok(())
    }

    /// Adds a write or trim that is lost, where it is asked for.
    pub(crate) fn note_lost(
        &self,
        noted: &mut Vec<Noted>,
        alloc: Global,
        op: Answered,
    ) -> Result<(), NoMemory>
        ensures { OnOk result (noted.new.items ≡ noted.old.items ++ lost_noted self.now op) }
    {
        if !self.sought.lost {
            return Ok(());
        }
        if let Some(wrong) = self.lost_wrong(alloc, op)? {
            let why = self.why_written(op, wrong.first.saturating_sub(op.span.first));
            noted.push(self.found_of(op, Finding::Lost, Some(wrong), why))?;
        }
        Ok(())
    }

    /// Adds a write that reached its disk with other bytes, where it is asked for.
    pub(crate) fn note_spoiled(
        &self,
        noted: &mut Vec<Noted>,
        alloc: Global,
        op: Answered,
    ) -> Result<(), NoMemory>
        ensures { OnOk result (noted.new.items ≡ noted.old.items ++ spoiled_noted self.now op) }
    {
        if !self.sought.corrupt {
            return Ok(());
        }
        if let Some(wrong) = self.spoiled_wrong(alloc, op)? {
            let why = self.why_written(op, wrong.first.saturating_sub(op.span.first));
            noted.push(self.found_of(op, Finding::Corrupt, Some(wrong), why))?;
        }
        Ok(())
    }

    /// Adds a read that is answered other bytes than were written, where these sectors are answered and it is asked for.
    pub(crate) fn note_corrupt(
        &self,
        noted: &mut Vec<Noted>,
        alloc: Global,
        op: Answered,
        sectors: &[Sector],
    ) -> Result<(), NoMemory>
        ensures { OnOk result (noted.new.items
            ≡ noted.old.items ++ corrupt_noted self.now op sectors.now) }
    {
        if !self.sought.corrupt {
            return Ok(());
        }
        if let Some(wrong) = self.corrupt_wrong(alloc, op, sectors)? {
            let why = self.why_corrupt(op, wrong.first.saturating_sub(op.span.first))?;
            noted.push(self.found_of(op, Finding::Corrupt, Some(wrong), why))?;
        }
        Ok(())
    }

    /// Adds a read that is stale, where it is asked for.
    pub(crate) fn note_stale(
        &self,
        noted: &mut Vec<Noted>,
        alloc: Global,
        op: Answered,
    ) -> Result<(), NoMemory>
        ensures { OnOk result (noted.new.items ≡ noted.old.items ++ stale_noted self.now op) }
    {
        if !self.sought.stale {
            return Ok(());
        }
        if let Some(wrong) = self.stale_wrong(alloc, op)? {
            let why = self.why_stale(op, wrong.first.saturating_sub(op.span.first))?;
            noted.push(self.found_of(op, Finding::Stale, Some(wrong), why))?;
        }
        Ok(())
    }

    /// Adds a read that is misplaced, where it is asked for.
    pub(crate) fn note_misplaced(
        &self,
        noted: &mut Vec<Noted>,
        alloc: Global,
        op: Answered,
    ) -> Result<(), NoMemory>
        ensures { OnOk result (noted.new.items ≡ noted.old.items ++ misplaced_noted self.now op) }
    {
        if !self.sought.misplaced {
            return Ok(());
        }
        if let Some(wrong) = self.misplaced_wrong(alloc, op)? {
            let why = self.why_misplaced(op, wrong.first.saturating_sub(op.span.first))?;
            noted.push(self.found_of(op, Finding::Misplaced, Some(wrong), why))?;
        }
        Ok(())
    }

    /// Adds a sync that is broken, where it is asked for.
    pub(crate) fn note_broken(
        &self,
        noted: &mut Vec<Noted>,
        alloc: Global,
        op: Answered,
    ) -> Result<(), NoMemory>
        ensures { OnOk result (noted.new.items ≡ noted.old.items ++ broken_noted self.now op) }
    {
        if !self.sought.broken_sync {
            return Ok(());
        }
        if let Some(wrong) = self.lapsed_wrong(alloc, op)? {
            let why = self.why_broken(op, wrong.first)?;
            noted.push(self.found_of(op, Finding::BrokenSync, Some(wrong), why))?;
        }
        Ok(())
    }

    /// Adds a sync that was answered, where lost writes are asked for.
    pub(crate) fn note_synced(&self, noted: &mut Vec<Noted>, op: Answered) -> Result<(), NoMemory>
        ensures { OnOk result (noted.new.items ≡ noted.old.items ++ synced_noted self.now op) }
    {
        if self.sought.lost {
            noted.push(Noted::Synced(Synced {
                origin: op.origin,
                device: op.device,
            }))?;
        }
        Ok(())
    }

    /// What is found of an operation, and why.
    fn found_of(&self, op: Answered, finding: Finding, wrong: Option<Wrong>, why: Why) -> Noted
        ensures { result ≡ found_of self.now op finding wrong why }
    {
        let issued = match self.deeds.get(op.origin) {
            Some(deed) => deed.issued,
            None => op.moment,
        };
        Noted::Found(Found {
            finding,
            origin: op.origin,
            action: op.action,
            device: op.device,
            span: op.span,
            issued,
            answered: op.moment,
            wrong,
            culprit: why.culprit,
            got: why.got,
            wanted: why.wanted,
        })
    }
}
