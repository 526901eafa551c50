ghost use Rattle.std.specs.Prelude.{◌≡◌, ◌&&◌, IfOk, OnOk, fold};
ghost use Rattle.lab_model.specs.ControlEffect.{is_change};
ghost use Rattle.lab_model.specs.State.{bio_of};
ghost use Rattle.lab_watch.specs.Drops.{mapped, mapped_by, with_drop, with_drops};
ghost use Rattle.lab_watch.specs.Grids.{writer_from};

use crate::grid::Grid;
use crate::writers::Writers;
use lab_model::Event;
use lab_next::{Own, Root, Writer, bio_of, own_parts, root_of};
use lab_sector::{Kind, NoMemory};
use lab_state::State;
use lab_target::Target;
use std::alloc::Global;

impl Writers {
    /// Sees the state after an event, before which so many bios were made: where lines of a table judged a bio, what
    /// they dropped of it is known from then on.
    pub fn map<T: Target>(
        &mut self,
        alloc: Global,
        state: &State<T>,
        made: u64,
        event: Event,
    ) -> Result<(), NoMemory>
        ensures mapped { OnOk result (self.new ≡ mapped T.meaning made state.now event self.old) }
    {
        match event {
            Event::Map(number) => self.map_by(alloc, state, made, number),
            _ => Ok(()),
        }
    }

    /// Lines judged the bio of this number.
    fn map_by<T: Target>(
        &mut self,
        alloc: Global,
        state: &State<T>,
        made: u64,
        number: u64,
    ) -> Result<(), NoMemory>
        ensures { OnOk result (self.new
            ≡ mapped_by T.meaning made state.now number self.old (bio_of state.now number)) }
    {
        let Some(bio) = bio_of(state, number) else {
            return Ok(());
        };
        if !self.keeps_drops(bio.kind) {
            return Ok(());
        }
        let own = own_parts(alloc, state, made, number)?;
        if own.is_empty() {
            return Ok(());
        }
        self.drop_own(bio.kind, root_of(state, number), &own)
    }

    /// Lines answered these parts of a bio of this kind with this root themselves.
    pub fn drop_own(&mut self, kind: Kind, root: Option<Root>, own: &[Own]) -> Result<(), NoMemory>
        ensures dropped { OnOk result (self.new ≡ with_drops self.old kind root own.now) }
    {
        match root {
            Some(root) if self.keeps_drops(kind) => drop_each(&mut self.drops, root, own),
            _ => Ok(()),
        }
    }

    /// Whether it is kept what lines drop of bios of this kind.
    fn keeps_drops(&self, kind: Kind) -> bool
        ensures { result ≡ (self.now.kept.drops && is_change kind) }
    {
        self.kept.drops && is_change(kind)
    }
}

/// Whether it is a write or a trim.
fn is_change(kind: Kind) -> bool
    ensures { result ≡ is_change kind }
{
    match kind {
        Kind::Write | Kind::Trim => true,
        Kind::Read | Kind::Flush => false,
    }
}

/// Lines answered these parts of a bio with this root themselves.
fn drop_each(drops: &mut Grid, root: Root, own: &[Own]) -> Result<(), NoMemory>
    ensures { OnOk result (drops.new ≡ fold (with_drop root) drops.old own.now) }
{
    for part in own {
        drop_part(drops, root, *part)?;
    }
    Ok(())
}

/// A line answered a part of a bio with this root itself: it dropped the part, where it hands others on.
fn drop_part(drops: &mut Grid, root: Root, own: Own) -> Result<(), NoMemory>
    ensures { OnOk result (drops.new ≡ with_drop root drops.old own) }
{
    if !own.hands_on {
        return Ok(());
    }
    let writer = writer_from(root.writer, own.first)?;
    drops.spread_from(root.number, writer.sector, own.count, writer)
}

/// The same operation's sector that comes so far behind. There is no memory for more than a number counts.
fn writer_from(writer: Writer, more: u64) -> Result<Writer, NoMemory>
    ensures { IfOk result (λ other. other ≡ writer_from writer more) }
{
    match writer.sector.checked_add(u128::from(more)) {
        Some(sector) => Ok(Writer { sector, ..writer }),
        None => Err(NoMemory),
    }
}
