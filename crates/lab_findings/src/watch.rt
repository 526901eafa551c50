ghost use Rattle.std.specs.Prelude.{◌≡◌, OnOk};
ghost use Rattle.lab_findings.specs.Heard.{watch_heard};
ghost use Rattle.lab_findings.specs.Searched.{watch_seen};
ghost use Rattle.lab_findings.specs.Settled.{watch_settled};
ghost use Rattle.lab_findings.specs.Watched.{unwatched};

use crate::culprits::Culprits;
use crate::deed::Deeds;
use crate::sought::Sought;
use lab_model::Event;
use lab_sector::NoMemory;
use lab_state::State;
use lab_target::Target;
use lab_watch::{Grid, Sheets, Writers};
use std::alloc::Global;
use std::marker::Model;

/// What is watched from event to event of a run, so that what is wrong with an answer is known; of what is asked for
/// alone. A call that changes it keeps nothing if it is refused.
#[derive(Drop)]
pub struct Watch {
    /// What is asked for.
    pub(crate) sought: Sought,
    /// Who wrote what stands on the disks and what reads are answered, and what lines dropped.
    pub(crate) writers: Writers,
    /// What is known of the operations that were issued.
    pub(crate) deeds: Deeds,
    /// By an operation and a sector of it: which line dropped it, or changed a byte of it last.
    pub(crate) culprits: Culprits,
    /// By a device and a sector of it: the write or trim of a log that was answered without failure and issued last.
    pub(crate) newest: Grid,
    /// By a read or sync that isn't answered and a sector of it: what may stand there at least, or stood lost.
    pub(crate) claims: Sheets,
    /// By a write or trim and a sector of it: that sector of it, where a line without a reference answered.
    pub(crate) voids: Grid,
    /// By a device and a sector of it: the write or trim that was answered last there, where it was lost.
    pub(crate) lapses: Grid,
    /// By a write and a sector of it: that sector of it, where another byte reached a disk.
    pub(crate) spoiled: Grid,
}

impl Model for Watch {
    ghost use Rattle.lab_findings.specs.Watched.{Watched, watched_code};

    ghost Value = { Watched };

    ghost coded = { watched_code };

    ghost view = { λ watch. record {
      sought = watch.sought;
      writers = watch.writers;
      deeds = watch.deeds;
      culprits = watch.culprits;
      newest = watch.newest;
      claims = watch.claims;
      voids = watch.voids;
      lapses = watch.lapses;
      spoiled = watch.spoiled;
    } };
}

impl Watch {
    /// Before the first event; what is asked for from then on.
    pub fn new(alloc: Global, sought: Sought) -> Watch
        ensures nothing { result ≡ unwatched sought }
    {
        Watch {
            sought,
            writers: Writers::new(alloc, sought.kept()),
            deeds: Deeds::new(alloc),
            culprits: Culprits::new(alloc),
            newest: Grid::new(alloc),
            claims: Sheets::new(alloc),
            voids: Grid::new(alloc),
            lapses: Grid::new(alloc),
            spoiled: Grid::new(alloc),
        }
    }

    /// Hears of an event in the state in which it comes: a disk serves the event's bio, or a byte of its answer changes.
    pub fn hear<T: Target>(
        &mut self,
        alloc: Global,
        state: &State<T>,
        event: Event,
    ) -> Result<(), NoMemory>
        ensures heard { OnOk result (self.new ≡ watch_heard T.meaning state.now event self.old) }
    {
        self.writers.hear(alloc, state, event)?;
        if self.sought.corrupt {
            self.hear_changes(alloc, state, event)?;
        }
        Ok(())
    }

    /// Settles what the event answers, in the state in which it comes.
    pub fn settle<T: Target>(
        &mut self,
        alloc: Global,
        state: &State<T>,
        event: Event,
    ) -> Result<(), NoMemory>
        ensures settled { OnOk result (self.new ≡ watch_settled state.now event self.old) }
    {
        self.close(alloc, state, event)?;
        self.writers.settle(state, event)
    }

    /// Sees the state after an event, before which so many bios were made: a log's line issued the next one, or a
    /// device's lines answered sectors themselves.
    pub fn see<T: Target>(
        &mut self,
        alloc: Global,
        made: u64,
        state: &State<T>,
        event: Event,
    ) -> Result<(), NoMemory>
        ensures seen { OnOk result (self.new ≡ watch_seen T.meaning made state.now event self.old) }
    {
        match event {
            Event::Line(_) => self.issue(alloc, made, state),
            Event::Map(number) => self.map(alloc, made, state, number),
            _ => Ok(()),
        }
    }
}
