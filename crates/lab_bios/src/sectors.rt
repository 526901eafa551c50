ghost use Rattle.std.specs.Prelude.{◌≡◌, ◌+◌, ◌≤◌, IfOk, OnOk, length, vec_capacity, vec_len};
ghost use Rattle.lab_model.specs.Sectors.{filled, marked, marked_by, put};

use lab_disk::Sector;
use lab_sector::{NoMemory, SECTOR_BYTES};
use lab_target::{Mark, Marks};
use std::alloc::Global;

/// The bytes of some sectors in order, 512 each.
pub type Sectors = Vec<Sector>;

/// So many sectors of one byte.
pub fn filled(alloc: Global, count: u64, byte: u8) -> Result<Sectors, NoMemory>
    ensures { IfOk result (λ out. out.items ≡ filled count byte) }
{
    let mut sectors = Vec::with_capacity(alloc, count as usize)?;
    fill_room(&mut sectors, count as usize, byte);
    Ok(sectors)
}

/// Writes so many sectors of one byte, where none is and there is room for them.
#[inline]
#[tactic(auto, using(std::proofs::lemmas::List::replicate_more))]
pub(crate) fn fill_room(sectors: &mut Sectors, count: usize, byte: u8)
    requires none { vec_len sectors.old ≡ 0 }
    requires room { count ≤ vec_capacity sectors.old }
    ensures { sectors.new.items ≡ filled count byte }
{
    while sectors.len() < count {
        sectors.push_reserved(Sector::of(byte));
    }
}

/// The same sectors once more.
pub(crate) fn copied(alloc: Global, sectors: &[Sector]) -> Result<Sectors, NoMemory>
    ensures { IfOk result (λ out. out.items ≡ sectors.now) }
{
    let mut out = Vec::with_capacity(alloc, sectors.len())?;
    for sector in sectors {
        out.push(sector.copy()?)?;
    }
    Ok(out)
}

/// Puts sectors in place of those from one on, where there are as many. The last is put first.
pub(crate) fn put(all: &mut Sectors, first: u64, others: Sectors)
    ensures { first + length others.items ≤ length all.old.items
        → all.new.items ≡ put all.old.items first others.items }
{
    let start = first as usize;
    if start > all.len() || others.len() > all.len() - start {
        return;
    }
    let mut others = others;
    while let Some(sector) = others.pop() {
        all[start + others.len()] = sector;
    }
}

/// Replaces both marked bytes, the fixed one first.
#[inline(always)]
pub fn mark(alloc: Global, sectors: &mut Sectors, marks: Marks) -> Result<(), NoMemory>
    ensures { OnOk result (sectors.new.items ≡ marked marks sectors.old.items) }
{
    mark_by(alloc, sectors, marks.fixed)?;
    mark_by(alloc, sectors, marks.random)
}

/// Replaces a marked byte; its place is counted from the first sector's first byte.
#[inline]
#[tactic(auto, using(crate::proofs::SectorLemmas::change_past))]
pub(crate) fn mark_by(
    alloc: Global,
    sectors: &mut Sectors,
    mark: Option<Mark>,
) -> Result<(), NoMemory>
    ensures { OnOk result (sectors.new.items ≡ marked_by mark sectors.old.items) }
{
    let Some(mark) = mark else {
        return Ok(());
    };
    if let Some(sector) = sectors.get_mut((mark.place / SECTOR_BYTES) as usize) {
        sector.set(alloc, (mark.place % SECTOR_BYTES) as usize, mark.value)?;
    }
    Ok(())
}
