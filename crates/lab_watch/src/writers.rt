ghost use Rattle.std.specs.Prelude.{◌≡◌, IfOk, OnOk};
ghost use Rattle.lab_watch.specs.Grids.{writers_in};
ghost use Rattle.lab_watch.specs.Heard.{heard};
ghost use Rattle.lab_watch.specs.Known.{nothing_known};
ghost use Rattle.lab_watch.specs.Settled.{known_answered, settled, told};

use crate::grid::Grid;
use crate::kept::Kept;
use crate::row::Row;
use crate::sheets::Sheets;
use lab_model::Event;
use lab_next::{bio_of, kind_answered, kind_if_own, number_answered, sectors_in};
use lab_sector::{Kind, NoMemory};
use lab_state::State;
use lab_target::Target;
use std::alloc::Global;
use std::marker::Model;

/// What is known of who wrote what, and of what lines dropped. A call that changes it keeps nothing if it is refused.
#[derive(Drop)]
pub struct Writers {
    /// What is kept.
    pub(crate) kept: Kept,
    /// By a disk and a sector of it: who wrote or trimmed it last; where reads are kept.
    pub(crate) disks: Grid,
    /// By a read of a log that isn't answered and a sector of it, counted from its first: who wrote what it is answered
    /// there.
    pub(crate) reads: Sheets,
    /// By a write or a trim of a log that isn't answered and a sector of it, counted from its first: it itself, where
    /// a line dropped it.
    pub(crate) drops: Grid,
}

impl Model for Writers {
    ghost use Rattle.lab_watch.specs.Known.{Known, known_code};

    ghost Value = { Known };

    ghost coded = { known_code };

    ghost view = { λ writers. record {
      kept = writers.kept;
      disks = writers.disks;
      reads = writers.reads;
      drops = writers.drops;
    } };
}

impl Writers {
    /// Before the first event nobody wrote anything; what is kept from then on.
    pub fn new(alloc: Global, kept: Kept) -> Writers
        ensures nothing { result ≡ nothing_known kept }
    {
        Writers {
            kept,
            disks: Grid::new(alloc),
            reads: Sheets::new(alloc),
            drops: Grid::new(alloc),
        }
    }

    /// Hears of an event in the state in which it comes: a disk serves the event's bio.
    pub fn hear<T: Target>(
        &mut self,
        alloc: Global,
        state: &State<T>,
        event: Event,
    ) -> Result<(), NoMemory>
        ensures heard { OnOk result (self.new ≡ heard state.now event self.old) }
    {
        match event {
            Event::Serve(number) => self.serve(alloc, state, number),
            _ => Ok(()),
        }
    }

    /// What is told of the operation of a log that an event answers without a failure, sector by sector: of a read who
    /// wrote what it is answered, of a write or a trim it itself, where a line dropped it. Nothing is told of another
    /// event.
    pub fn told<T: Target>(
        &self,
        alloc: Global,
        state: &State<T>,
        event: Event,
    ) -> Result<Row, NoMemory>
        ensures told { IfOk result (λ row. row ≡ told state.now event self.now) }
    {
        let number = number_answered(event);
        let count = sectors_in(bio_of(state, number));
        match kind_answered(state, event) {
            Some(Kind::Read) => self.read_row(alloc, number, count),
            Some(Kind::Write | Kind::Trim) => self.drop_row(alloc, number, count),
            Some(Kind::Flush) | None => Ok(Row::new(alloc)),
        }
    }

    /// Who wrote what reads are answered so far, by the number of a read's bio and a sector, counted from its first.
    pub fn reads(&self) -> &Sheets
        ensures reads { result.now ≡ self.now.reads }
    {
        &self.reads
    }

    /// Which sectors of writes and trims lines dropped so far, by the number of a bio and a sector, counted from its first.
    pub fn drops(&self) -> &Grid
        ensures drops { result.now ≡ self.now.drops }
    {
        &self.drops
    }

    /// Who wrote what each of so many sectors of the read of this number is answered so far.
    pub fn read_row(&self, alloc: Global, number: u64, count: u64) -> Result<Row, NoMemory>
        ensures row { IfOk result (λ row. row ≡ writers_in self.now.reads number 0 count) }
    {
        self.reads.part(alloc, number, count)
    }

    /// Which of so many sectors of the write or the trim of this number a line dropped so far: each of them has itself
    /// there.
    pub fn drop_row(&self, alloc: Global, number: u64, count: u64) -> Result<Row, NoMemory>
        ensures row { IfOk result (λ row. row ≡ writers_in self.now.drops number 0 count) }
    {
        self.drops.part(alloc, number, 0, count)
    }

    /// Settles what an event answers, in the state in which it comes: nothing is kept of an operation that is answered.
    pub fn settle<T: Target>(&mut self, state: &State<T>, event: Event) -> Result<(), NoMemory>
        ensures settled { OnOk result (self.new ≡ settled state.now event self.old) }
    {
        match event {
            Event::Serve(number) | Event::Finish(number) => self.answer(state, number),
            _ => Ok(()),
        }
    }

    /// The bio of this number is answered.
    fn answer<T: Target>(&mut self, state: &State<T>, number: u64) -> Result<(), NoMemory>
        ensures { OnOk result (self.new ≡ known_answered state.now self.old number) }
    {
        let bio = bio_of(state, number);
        match kind_if_own(bio) {
            Some(Kind::Read) if self.kept.reads => self.reads.clear(number, 0, sectors_in(bio)),
            Some(Kind::Write | Kind::Trim) if self.kept.drops => {
                self.drops.clear(number, 0, sectors_in(bio))
            }
            _ => Ok(()),
        }
    }
}
