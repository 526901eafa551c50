ghost use Rattle.std.specs.Prelude.{◌≡◌, ℕ, ◌<◌, drop, length, replicate, take};
ghost use Rattle.std.specs.Prelude.{IfOk, OnOk};
ghost use Rattle.lab_disk.specs.Disk.{put, zero_sector};
ghost use Rattle.lab_disk.specs.Pages.{IsMade, IsPart};

use crate::page::{PAGE_SECTORS, Page, blank_page, fill_in, page_of, swap_in};
use crate::sector::Sector;
use lab_sector::{NoMemory, Span};
use std::alloc::Global;
use std::marker::Model;

/// The sectors of a disk, in a row of slots: each has a page, or none while its sectors are zero.
#[derive(Drop)]
pub(crate) struct Pages {
    /// Where pages are made.
    alloc: Global,
    /// The number of sectors.
    size: u64,
    /// One for each 64 sectors.
    slots: Vec<Option<Page>>,
    /// What is read where a page is missing: zero sectors.
    blank: Page,
}

impl Model for Pages {
    ghost use Rattle.std.specs.Prelude.{map, take, is_some};
    ghost use Rattle.std.specs.List.{flat_map};
    ghost use Rattle.lab_disk.specs.Pages.{PageRow, sectors_in, IsKept};

    ghost Value = { PageRow };

    ghost view = { λ p. record {
      sectors = take p.size (flat_map sectors_in p.slots.items);
      made = map is_some p.slots.items;
    } };

    ghost invariant = { λ p. IsKept p.slots.items p.blank.items p.size };
}

impl Pages {
    /// `size` sectors of zero bytes, with no page yet.
    pub(crate) fn new(alloc: Global, size: u64) -> Result<Pages, NoMemory>
        ensures { IfOk result (λ pages. pages.sectors ≡ replicate size zero_sector) }
    {
        let blank = blank_page(alloc)?;
        let count = size.div_ceil(PAGE_SECTORS) as usize;
        let mut slots = Vec::with_capacity(alloc, count)?;
        for _i in 0..count {
            slots.push(None)?;
        }
        Ok(Pages {
            alloc,
            size,
            slots,
            blank,
        })
    }

    /// The number of sectors.
    #[inline]
    pub(crate) fn size(&self) -> u64
        ensures { result ≡ length self.now.sectors }
    {
        self.size
    }

    /// Where pages are made.
    #[inline]
    pub(crate) fn allocator(&self) -> Global {
        self.alloc
    }

    /// These sectors, which lie on one page.
    #[inline]
    pub(crate) fn part(&self, part: Span) -> &[Sector]
        requires { IsPart part (length self.now.sectors) }
        ensures { result.now ≡ take part.len (drop part.first self.now.sectors) }
    {
        let from = (part.first % PAGE_SECTORS) as usize;
        let slot = &self.slots[(part.first / PAGE_SECTORS) as usize];
        let page = page_of(slot, &self.blank);
        &page[from..from + part.len as usize]
    }

    /// Makes the page of the sector `at`, where it is missing.
    pub(crate) fn make(&mut self, at: u64) -> Result<(), NoMemory>
        requires { at < length self.old.sectors }
        ensures same { self.new.sectors ≡ self.old.sectors }
        ensures made { OnOk result (IsMade self.new at) }
        ensures kept { (k : ℕ) → IsMade self.old k → IsMade self.new k }
    {
        let slot = &mut self.slots[(at / PAGE_SECTORS) as usize];
        if slot.is_some() {
            return Ok(());
        }
        *slot = Some(blank_page(self.alloc)?);
        Ok(())
    }

    /// Puts other sectors in place of these, which lie on one page, and gives the old for them.
    #[tactic(auto, using(crate::proofs::Rulesets::put))]
    pub(crate) fn put(&mut self, part: Span, sectors: &mut [Sector])
        requires part { IsPart part (length self.old.sectors) }
        requires made { IsMade self.old part.first }
        requires fills { length sectors.old ≡ part.len }
        ensures put { self.new.sectors ≡ put self.old.sectors part.first sectors.old }
        ensures same_pages { self.new.made ≡ self.old.made }
    {
        let Some(page) = &mut self.slots[(part.first / PAGE_SECTORS) as usize] else {
            unreachable!();
        };
        swap_in(page, (part.first % PAGE_SECTORS) as usize, sectors);
    }

    /// Fills these sectors, which lie on one page, with one byte.
    #[tactic(auto, using(crate::proofs::Rulesets::pages_fill))]
    pub(crate) fn fill(&mut self, part: Span, byte: u8)
        requires part { IsPart part (length self.old.sectors) }
        requires made { IsMade self.old part.first }
        ensures filled { self.new.sectors
            ≡ put self.old.sectors part.first (replicate part.len (replicate 512 byte)) }
        ensures same_pages { self.new.made ≡ self.old.made }
    {
        let Some(page) = &mut self.slots[(part.first / PAGE_SECTORS) as usize] else {
            unreachable!();
        };
        let from = (part.first % PAGE_SECTORS) as usize;
        fill_in(page, from, part.len as usize, byte);
    }

    /// Makes these sectors, which lie on one page, zero. A missing page stays missing, since it is
    /// zero already.
    pub(crate) fn clear(&mut self, part: Span)
        requires { IsPart part (length self.old.sectors) }
        ensures zero { self.new.sectors
            ≡ put self.old.sectors part.first (replicate part.len zero_sector) }
        ensures same_pages { self.new.made ≡ self.old.made }
    {
        let Some(page) = &mut self.slots[(part.first / PAGE_SECTORS) as usize] else {
            return;
        };
        let from = (part.first % PAGE_SECTORS) as usize;
        fill_in(page, from, part.len as usize, 0);
    }
}
