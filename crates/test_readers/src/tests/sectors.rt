use lab_disk::{Sector, runs_of_sectors, runs_of_zeroes};
use lab_sector::NoMemory;
use lab_text::push_runs;
use std::alloc::Global;
use std::test::Fail;

/// Whether a sector has these bytes.
fn has(alloc: Global, sector: &Sector, wanted: &[u8; 512]) -> Result<bool, NoMemory> {
    let mut bytes = Vec::new(alloc);
    sector.push_to(&mut bytes)?;
    Ok(bytes.as_slice() == wanted.as_slice() && sector.len() == 512)
}

/// Whether a byte that is changed is another one, in the sector that was changed and not in its copy.
fn is_changed_alone(alloc: Global) -> Result<bool, NoMemory> {
    let mut sector = Sector::of(0x14);
    let copy = sector.copy()?;
    sector.set(alloc, 7, 0xa5)?;
    sector.set(alloc, 8, 0xa6)?;
    let mut wanted = [0x14; 512];
    wanted[7] = 0xa5;
    wanted[8] = 0xa6;
    let has_both = has(alloc, &sector, &wanted)?;
    let shared = sector.copy()?;
    sector.set(alloc, 9, 0xa7)?;
    Ok(
        has_both
            && has(alloc, &copy, &[0x14; 512])?
            && has(alloc, &shared, &wanted)?
            && sector.byte(7) == 0xa5
            && sector.byte(9) == 0xa7
            && sector.byte(10) == 0x14
            && copy.fill() == Some(0x14),
    )
}

#[test]
fn a_changed_byte_is_not_changed_in_a_copy(rt: HostRuntime) -> Result<(), Fail> {
    assert!(rt; is_changed_alone(rt.alloc())?);
    Ok(())
}

/// Whether a sector of these bytes has them.
fn is_of_bytes(alloc: Global) -> Result<bool, NoMemory> {
    let mut wanted = [0x24; 512];
    wanted[511] = 0x34;
    let sector = Sector::of_bytes(alloc, &wanted)?;
    has(alloc, &sector, &wanted)
}

#[test]
fn a_sector_of_bytes_has_them(rt: HostRuntime) -> Result<(), Fail> {
    assert!(rt; is_of_bytes(rt.alloc())?);
    Ok(())
}

/// The text of the runs of two sectors of one byte, one with a byte changed, and two of zeroes.
fn runs_text(alloc: Global) -> Result<Vec<u8>, NoMemory> {
    let mut sectors = Vec::with_capacity(alloc, 3)?;
    sectors.push(Sector::of(0x14))?;
    sectors.push(Sector::of(0x14))?;
    let mut changed = Sector::of(0x24);
    changed.set(alloc, 1, 0xa5)?;
    sectors.push(changed)?;
    let mut text = Vec::new(alloc);
    push_runs(&mut text, &runs_of_sectors(alloc, &sectors)?)?;
    text.push(b';')?;
    push_runs(&mut text, &runs_of_zeroes(alloc, 2)?)?;
    Ok(text)
}

#[test]
fn the_runs_of_sectors_go_on_from_one_to_the_next(rt: HostRuntime) -> Result<(), Fail> {
    let text = runs_text(rt.alloc())?;
    assert!(rt; text.as_slice() == b"1024x14 1x24 1xa5 510x24;1024x00".as_slice());
    Ok(())
}
