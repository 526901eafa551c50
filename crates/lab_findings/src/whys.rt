ghost use Rattle.std.specs.Prelude.{◌≡◌, IfOk};
ghost use Rattle.lab_findings.specs.Judged.{changer_of, claim_at, got_at, loser_of};
ghost use Rattle.lab_findings.specs.Judged.{why_broken, why_corrupt, why_misplaced, why_stale, why_written};

use crate::answered::Answered;
use crate::culprit::Culprit;
use crate::watch::Watch;
use crate::why::Why;
use lab_next::Writer;
use lab_sector::NoMemory;

impl Watch {
    /// Why a sector of a write or trim is wrong: the line that dropped or changed it.
    pub(crate) fn why_written(&self, op: Answered, sector: u64) -> Why
        ensures { result ≡ why_written self.now op sector }
    {
        Why {
            culprit: self.culprits.get(op.number, u128::from(sector)),
            got: None,
            wanted: None,
        }
    }

    /// Why a sector of a read is corrupt: the line that changed it on its way back, or else on its way to the disk.
    pub(crate) fn why_corrupt(&self, op: Answered, sector: u64) -> Result<Why, NoMemory>
        ensures { IfOk result (λ why. why ≡ why_corrupt self.now op sector) }
    {
        let got = self.got_at(op, sector)?;
        let culprit = match self.culprits.get(op.number, u128::from(sector)) {
            Some(culprit) => Some(culprit),
            None => self.changer_of(got),
        };
        Ok(Why {
            culprit,
            got,
            wanted: got,
        })
    }

    /// Why a sector of a read is stale: the line that lost what should have been there.
    pub(crate) fn why_stale(&self, op: Answered, sector: u64) -> Result<Why, NoMemory>
        ensures { IfOk result (λ why. why ≡ why_stale self.now op sector) }
    {
        let wanted = self.claim_at(op, sector)?;
        Ok(Why {
            culprit: self.loser_of(wanted),
            got: self.got_at(op, sector)?,
            wanted,
        })
    }

    /// Where a misplaced sector comes from.
    pub(crate) fn why_misplaced(&self, op: Answered, sector: u64) -> Result<Why, NoMemory>
        ensures { IfOk result (λ why. why ≡ why_misplaced self.now op sector) }
    {
        Ok(Why {
            culprit: None,
            got: self.got_at(op, sector)?,
            wanted: self.claim_at(op, sector)?,
        })
    }

    /// Why a sync is broken: the line that lost what stands lost at a sector of its device.
    pub(crate) fn why_broken(&self, op: Answered, sector: u64) -> Result<Why, NoMemory>
        ensures { IfOk result (λ why. why ≡ why_broken self.now op sector) }
    {
        let wanted = self.claim_at(op, sector)?;
        Ok(Why {
            culprit: self.loser_of(wanted),
            got: None,
            wanted,
        })
    }

    /// Who wrote what a read is answered at a sector of it.
    fn got_at(&self, op: Answered, sector: u64) -> Result<Option<Writer>, NoMemory>
        ensures { IfOk result (λ writer. writer ≡ got_at self.now op sector) }
    {
        self.writers.reads().get(op.number, u128::from(sector))
    }

    /// Who claims a sector.
    fn claim_at(&self, op: Answered, sector: u64) -> Result<Option<Writer>, NoMemory>
        ensures { IfOk result (λ writer. writer ≡ claim_at self.now op sector) }
    {
        self.claims.get(op.number, u128::from(sector))
    }

    /// Which line dropped the first lost sector of a writer's operation.
    fn loser_of(&self, writer: Option<Writer>) -> Option<Culprit>
        ensures { (op : Answered) → result ≡ loser_of self.now op writer }
    {
        let deed = self.deeds.get(writer?.origin)?;
        self.culprits.get(deed.bio, u128::from(deed.lost?))
    }

    /// Which line changed a writer's sector on its way to a disk.
    fn changer_of(&self, writer: Option<Writer>) -> Option<Culprit>
        ensures { (op : Answered) → result ≡ changer_of self.now op writer }
    {
        let writer = writer?;
        let deed = self.deeds.get(writer.origin)?;
        self.culprits.get(deed.bio, writer.sector)
    }
}
