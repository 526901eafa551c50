ghost use Rattle.std.specs.Prelude.{◌≡◌, ◌+◌, ◌*◌, ◌≤◌, ◌++◌, All, IfOk, OnOk, length, replicate};
ghost use Rattle.std.specs.Prelude.{vec_capacity, vec_len};
ghost use Rattle.std.specs.List.{concat};
ghost use Rattle.lab_disk.specs.Disk.{IsSector, put, zero_sector};
ghost use Rattle.lab_disk.specs.Pages.{sectors_in};

use crate::sector::Sector;
use lab_sector::NoMemory;
use std::alloc::Global;

/// How many sectors a page has.
pub(crate) const PAGE_SECTORS: u64 = 64;

/// The sectors of a page: 64 of them.
pub(crate) type Page = Vec<Sector>;

/// A page of zero bytes.
pub(crate) fn blank_page(alloc: Global) -> Result<Page, NoMemory>
    ensures { IfOk result (λ page. page.items ≡ replicate 64 zero_sector) }
{
    let mut page = Vec::with_capacity(alloc, PAGE_SECTORS as usize)?;
    for _i in 0..PAGE_SECTORS {
        page.push_reserved(Sector::of(0));
    }
    Ok(page)
}

/// The page of a slot, or the blank one where it has none.
#[inline]
pub(crate) fn page_of<'a>(slot: &'a Option<Page>, blank: &'a Page) -> &'a Page
    requires { blank.now.items ≡ replicate 64 zero_sector }
    ensures { result.now.items ≡ sectors_in slot.now }
{
    match slot {
        Some(page) => page,
        None => blank,
    }
}

/// Fills so many sectors of the page with one byte, from a place on.
#[inline]
pub(crate) fn fill_in(page: &mut Page, from: usize, len: usize, byte: u8)
    requires { from + len ≤ vec_len page.old }
    ensures { page.new.items ≡ put page.old.items from (replicate len (replicate 512 byte)) }
{
    fill_all(&mut page[from..from + len], byte);
}

/// Fills all of these sectors with one byte.
#[inline]
fn fill_all(sectors: &mut [Sector], byte: u8)
    ensures { sectors.new ≡ replicate (length sectors.old) (replicate 512 byte) }
{
    for sector in sectors.iter_mut() {
        *sector = Sector::of(byte);
    }
}

/// Puts these sectors on the page, from a place on, and gives those that stood there for them.
#[inline]
pub(crate) fn swap_in(page: &mut Page, from: usize, sectors: &mut [Sector])
    requires { from + length sectors.old ≤ vec_len page.old }
    ensures { page.new.items ≡ put page.old.items from sectors.old }
{
    page[from..from + sectors.len()].swap_with_slice(sectors);
}

/// Puts copies of these sectors behind others, for which there is room.
#[inline]
pub(crate) fn copy_all(sectors: &[Sector], copies: &mut Vec<Sector>) -> Result<(), NoMemory>
    requires { vec_len copies.old + length sectors.now ≤ vec_capacity copies.old }
    ensures copied { OnOk result (copies.new.items ≡ copies.old.items ++ sectors.now) }
    ensures len { OnOk result (vec_len copies.new ≡ vec_len copies.old + length sectors.now) }
    ensures room { OnOk result (vec_capacity copies.new ≡ vec_capacity copies.old) }
{
    for sector in sectors {
        copies.push_reserved(sector.copy()?);
    }
    Ok(())
}

/// Puts the bytes of these sectors behind others.
#[inline]
#[tactic(auto, using(crate::proofs::Spans::bytes_more))]
pub(crate) fn push_all(sectors: &[Sector], bytes: &mut Vec<u8>) -> Result<(), NoMemory>
    ensures { OnOk result (bytes.new.items ≡ bytes.old.items ++ concat sectors.now) }
{
    for sector in sectors {
        sector.push_to(bytes)?;
    }
    Ok(())
}

/// So many sectors of these bytes, in order.
#[tactic(auto, using(crate::proofs::Spans::sectors_more))]
pub(crate) fn sectors_of(alloc: Global, bytes: &[u8], count: usize) -> Result<Vec<Sector>, NoMemory>
    requires { length bytes.now ≡ 512 * count }
    ensures bytes { IfOk result (λ sectors. concat sectors.items ≡ bytes.now) }
    ensures length { IfOk result (λ sectors. length sectors.items ≡ count) }
{
    let mut sectors = Vec::with_capacity(alloc, count)?;
    for i in 0..count {
        sectors.push_reserved(Sector::of_bytes(alloc, &bytes[512 * i..512 * i + 512])?);
    }
    Ok(sectors)
}

/// Tells of each of these sectors that it has 512 bytes.
#[inline]
pub(crate) fn are_sectors(sectors: &[Sector])
    ensures { All IsSector sectors.now }
{
    for sector in sectors {
        let _len = sector.len();
    }
}
