ghost use Rattle.std.specs.Prelude.{◌≡◌, OnOk};
ghost use Rattle.lab_model.specs.State.{bio_of};
ghost use Rattle.lab_next.specs.Answering.{own_origin};
ghost use Rattle.lab_findings.specs.Issuing.{claimed, claimed_lapses, is_trim, issued_at, issued_by};
ghost use Rattle.lab_findings.specs.Issuing.{new_deed, watch_issued};
ghost use Rattle.lab_findings.specs.Watched.{grid_number};

use crate::deed::Deed;
use crate::reach::device_reach;
use crate::watch::Watch;
use lab_bios::Bio;
use lab_next::own_origin;
use lab_sector::{DevNo, Kind, NoMemory};
use lab_state::State;
use lab_target::Target;
use std::alloc::Global;

impl Watch {
    /// In the state after a log's line, before which so many bios were made: where it made one more, that is issued now.
    pub(crate) fn issue<T: Target>(
        &mut self,
        alloc: Global,
        made: u64,
        state: &State<T>,
    ) -> Result<(), NoMemory>
        ensures { OnOk result (self.new ≡ watch_issued made state.now self.old) }
    {
        let number = state.traffic.count();
        if made < number {
            self.issue_at(alloc, state, number)?;
        }
        Ok(())
    }

    /// The bio of this number is issued by a log, if it lives.
    fn issue_at<T: Target>(
        &mut self,
        alloc: Global,
        state: &State<T>,
        number: u64,
    ) -> Result<(), NoMemory>
        ensures { OnOk result (self.new
            ≡ issued_at self.old number state.now.clock (bio_of state.now number)) }
    {
        match state.traffic.get(number) {
            Some(bio) => self.issue_by(alloc, number, state.traffic.clock(), bio),
            None => Ok(()),
        }
    }

    /// An operation is issued by this bio, at a moment.
    fn issue_by(
        &mut self,
        alloc: Global,
        number: u64,
        moment: u64,
        bio: &Bio,
    ) -> Result<(), NoMemory>
        ensures { OnOk result (self.new
            ≡ issued_by self.old number moment bio.now (own_origin bio.now.parent)) }
    {
        let Some(origin) = own_origin(bio.parent) else {
            return Ok(());
        };
        self.deeds.set(origin, new_deed(number, moment, bio))?;
        if self.sought.keeps_claims() {
            self.claim(alloc, number, bio)?;
        }
        Ok(())
    }

    /// What the operation that this bio issues claims is put down.
    fn claim(&mut self, alloc: Global, number: u64, bio: &Bio) -> Result<(), NoMemory>
        ensures { OnOk result (self.new ≡ claimed self.old number bio.now bio.now.kind) }
    {
        let device = grid_number(bio.device);
        match bio.kind {
            Kind::Read => {
                let row = self
                    .newest
                    .part(alloc, device, bio.span.first, bio.span.len)?;
                self.claims.put(number, row)
            }
            Kind::Flush => self.claim_lapses(alloc, number, device),
            Kind::Write | Kind::Trim => Ok(()),
        }
    }

    /// The sync of a number claims what stands lost on this device. Where nothing does, and nothing is claimed, nothing is
    /// put down.
    fn claim_lapses(&mut self, alloc: Global, number: u64, device: u64) -> Result<(), NoMemory>
        ensures { OnOk result (self.new ≡ claimed_lapses self.old number device) }
    {
        if self.lapses.is_empty() && self.claims.is_empty() {
            return Ok(());
        }
        let row = self.lapses.part(alloc, device, 0, device_reach())?;
        self.claims.put(number, row)
    }
}

/// What is known of an operation that the bio of a number issues at a moment.
fn new_deed(number: u64, moment: u64, bio: &Bio) -> Deed
    ensures { result ≡ new_deed number moment bio.now }
{
    Deed {
        bio: number,
        device: grid_number(bio.device),
        first: bio.span.first,
        trims: is_trim(bio.kind),
        issued: moment,
        made: None,
        lost: None,
    }
}

/// Whether a bio is a trim.
fn is_trim(kind: Kind) -> bool
    ensures { result ≡ is_trim kind }
{
    matches!(kind, Kind::Trim)
}

/// A device as the number of a grid: disks have the even numbers, mapped devices the odd ones.
pub(crate) fn grid_number(device: DevNo) -> u64
    ensures { result ≡ grid_number device }
{
    match device {
        DevNo::Ram(number) => u64::from(number) * 2,
        DevNo::Dm(number) => u64::from(number) * 2 + 1,
    }
}
