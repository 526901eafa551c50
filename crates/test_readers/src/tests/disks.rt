ghost use Rattle.std.specs.Prelude.{length};
ghost use Rattle.lab_disk.specs.Disk.{IsInside};

use lab_disk::{Disk, Sector};
use lab_sector::{NoMemory, Span};
use std::alloc::Global;
use std::test::Fail;

/// Whether these sectors of a disk have these bytes.
fn has(alloc: Global, disk: &Disk, span: Span, wanted: &[u8]) -> Result<bool, NoMemory>
    requires { IsInside span (length disk.now) }
{
    let bytes = disk.read(alloc, span)?;
    Ok(bytes.as_slice() == wanted)
}

/// The last sector of a page, and the first one of the next.
const OVER_TWO_PAGES: Span = Span { first: 63, len: 2 };

/// Whether a write over two pages is read back from a disk of two pages.
fn is_read_back(alloc: Global) -> Result<bool, NoMemory> {
    let mut disk = Disk::new(alloc, 128)?;
    disk.write(OVER_TWO_PAGES, &[0x14; 1024])?;
    let is_back = has(alloc, &disk, OVER_TWO_PAGES, &[0x14; 1024])?;
    Ok(is_back && disk.size() == 128)
}

#[test]
fn a_write_over_two_pages_is_read_back(rt: HostRuntime) -> Result<(), Fail> {
    assert!(rt; is_read_back(rt.alloc())?);
    Ok(())
}

/// The bytes of sectors, one after another.
fn bytes_of(alloc: Global, sectors: &[Sector]) -> Result<Vec<u8>, NoMemory> {
    let mut bytes = Vec::new(alloc);
    for sector in sectors {
        sector.push_to(&mut bytes)?;
    }
    Ok(bytes)
}

/// Whether the sectors of two pages, of which the second is missing, are given in order.
fn is_given(alloc: Global) -> Result<bool, NoMemory> {
    let mut disk = Disk::new(alloc, 128)?;
    disk.write(Span { first: 63, len: 1 }, &[0x14; 512])?;
    let sectors = disk.sectors(alloc, OVER_TWO_PAGES)?;
    let wanted = [[0x14; 512], [0; 512]];
    Ok(bytes_of(alloc, &sectors)?.as_slice() == wanted.as_flattened())
}

#[test]
fn sectors_of_two_pages_are_given_in_order(rt: HostRuntime) -> Result<(), Fail> {
    assert!(rt; is_given(rt.alloc())?);
    Ok(())
}

/// Whether sectors that are put over two pages are read back, a changed byte among them, and so is a fill behind them.
fn are_set(alloc: Global) -> Result<bool, NoMemory> {
    let mut disk = Disk::new(alloc, 128)?;
    let mut sectors = Vec::with_capacity(alloc, 2)?;
    let mut changed = Sector::of(0x14);
    changed.set(alloc, 511, 0xa5)?;
    sectors.push(changed)?;
    sectors.push(Sector::of(0x24))?;
    disk.set(OVER_TWO_PAGES, sectors)?;
    disk.fill(Span { first: 65, len: 1 }, 0x34)?;
    let mut wanted = [[0x14; 512], [0x24; 512], [0x34; 512]];
    wanted[0][511] = 0xa5;
    has(
        alloc,
        &disk,
        Span { first: 63, len: 3 },
        wanted.as_flattened(),
    )
}

#[test]
fn sectors_put_over_two_pages_are_read_back(rt: HostRuntime) -> Result<(), Fail> {
    assert!(rt; are_set(rt.alloc())?);
    Ok(())
}

/// Whether a write over two pages is read back, or neither page has changed where it was refused.
fn is_whole(alloc: Global) -> Result<bool, NoMemory> {
    let mut disk = Disk::new(alloc, 128)?;
    let byte = if disk.write(OVER_TWO_PAGES, &[0x14; 1024]).is_ok() {
        0x14
    } else {
        0
    };
    has(alloc, &disk, OVER_TWO_PAGES, &[byte; 1024])
}

// With the second page's memory refused (`rt try --test --fail-alloc 7`) neither sector is written.
#[test]
fn a_refused_write_changes_neither_page(rt: HostRuntime) -> Result<(), Fail> {
    assert!(rt; is_whole(rt.alloc())?);
    Ok(())
}

/// Whether a sector that is trimmed between two others is zero, and they stay, as does the one before.
fn is_trimmed_alone(alloc: Global) -> Result<bool, NoMemory> {
    let mut disk = Disk::new(alloc, 66)?;
    disk.write(Span { first: 63, len: 3 }, &[0xa5; 1536])?;
    disk.trim(Span { first: 64, len: 1 });
    let wanted = [[0; 512], [0xa5; 512], [0; 512], [0xa5; 512]];
    has(
        alloc,
        &disk,
        Span { first: 62, len: 4 },
        wanted.as_flattened(),
    )
}

#[test]
fn a_trimmed_sector_is_zero_and_its_neighbours_stay(rt: HostRuntime) -> Result<(), Fail> {
    assert!(rt; is_trimmed_alone(rt.alloc())?);
    Ok(())
}

/// Whether an empty span past the end of a disk of one sector has no bytes.
fn is_empty_past_the_end(alloc: Global) -> Result<bool, NoMemory> {
    let disk = Disk::new(alloc, 1)?;
    has(alloc, &disk, Span { first: 9, len: 0 }, &[])
}

#[test]
fn an_empty_span_past_the_end_has_no_bytes(rt: HostRuntime) -> Result<(), Fail> {
    assert!(rt; is_empty_past_the_end(rt.alloc())?);
    Ok(())
}
