ghost use Rattle.std.specs.Prelude.{◌≡◌, OnOk};
ghost use Rattle.lab_findings.specs.Mapped.{owned, owned_by, voided, watch_mapped};

use crate::hearing::{blame, sector_at};
use crate::lines::culprit_on;
use crate::watch::Watch;
use lab_next::{Own, Root, Writer, own_parts, root_of};
use lab_sector::{DevNo, Kind, NoMemory};
use lab_state::State;
use lab_target::Target;
use std::alloc::Global;

impl Watch {
    /// In the state after a device has cut the bio of this number, before which so many bios were made.
    pub(crate) fn map<T: Target>(
        &mut self,
        alloc: Global,
        made: u64,
        state: &State<T>,
        number: u64,
    ) -> Result<(), NoMemory>
        ensures { OnOk result (self.new ≡ watch_mapped T.meaning made state.now number self.old) }
    {
        let parts = own_parts(alloc, state, made, number)?;
        let Some(bio) = state.traffic.get(number) else {
            return Ok(());
        };
        if parts.is_empty() {
            return Ok(());
        }
        let root = root_of(state, number);
        self.writers.drop_own(bio.kind, root, &parts)?;
        self.own(alloc, state, bio.device, bio.kind, root, &parts)
    }

    /// The lines of a device answered these parts of a bio of this kind, with this root, themselves.
    fn own<T: Target>(
        &mut self,
        alloc: Global,
        state: &State<T>,
        device: DevNo,
        kind: Kind,
        root: Option<Root>,
        parts: &[Own],
    ) -> Result<(), NoMemory>
        ensures { OnOk result (self.new
            ≡ owned_by T.meaning state.now device kind root self.old parts.now) }
    {
        let Some(root) = root else {
            return Ok(());
        };
        for part in parts {
            self.own_part(alloc, state, device, kind, root, *part)?;
        }
        Ok(())
    }

    /// A line of a device answered these sectors itself: where it has a reference it dropped them, and is blamed.
    fn own_part<T: Target>(
        &mut self,
        alloc: Global,
        state: &State<T>,
        device: DevNo,
        kind: Kind,
        root: Root,
        own: Own,
    ) -> Result<(), NoMemory>
        ensures { OnOk result (self.new ≡ owned T.meaning state.now device kind root self.old own) }
    {
        if own.hands_on {
            if self.sought.keeps_drops() {
                let culprit = culprit_on(alloc, state, device, own.line)?;
                blame(&mut self.culprits, root, own.first, culprit)?;
            }
        } else if self.sought.keeps_claims() {
            self.void(root, own, kind)?;
        }
        Ok(())
    }

    /// A line without a reference answered sectors of an operation of this kind: nothing is claimed of a read's, and a
    /// write's or trim's are void.
    fn void(&mut self, root: Root, own: Own, kind: Kind) -> Result<(), NoMemory>
        ensures { OnOk result (self.new ≡ voided self.old root own kind) }
    {
        let first = sector_at(root, own.first)?;
        match kind {
            Kind::Read => self.claims.clear(root.number, first, own.count),
            Kind::Write | Kind::Trim | Kind::Flush => {
                let sector = u128::from(first);
                let writer = Writer {
                    sector,
                    ..root.writer
                };
                self.voids.spread(root.number, first, own.count, writer)
            }
        }
    }
}
