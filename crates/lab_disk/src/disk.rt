ghost use Rattle.std.specs.Prelude.{◌≡◌, ℕ, ◌+◌, ◌*◌, ◌%◌, ◌<◌, ◌≤◌, ◌++◌, All, IfOk, OnErr, OnOk};
ghost use Rattle.std.specs.Prelude.{drop, length, replicate, take};
ghost use Rattle.lab_disk.specs.Disk.{Filled, IsInside, IsSector, WritesOnly, Zeroed, bytes_in};
ghost use Rattle.lab_disk.specs.Disk.{put, zero_sector};
ghost use Rattle.lab_disk.specs.Pages.{IsMade};
ghost use Rattle.lab_sector.specs.Span.{Holds};

use crate::page::{PAGE_SECTORS, are_sectors, copy_all, push_all, sectors_of};
use crate::pages::Pages;
use crate::sector::Sector;
use lab_sector::{NoMemory, Span};
use std::alloc::Global;
use std::marker::Model;

/// A disk in memory, which its callers see as the list of its sectors of 512 bytes.
///
/// Inside it is a row of slots, one for each 64 sectors. A page is made at the first write into it;
/// until then its sectors read as zero bytes and take no memory.
#[derive(Drop)]
pub struct Disk {
    /// The sectors, and which pages are made.
    pages: Pages,
}

impl Model for Disk {
    ghost use Rattle.std.specs.Prelude.{All};
    ghost use Rattle.lab_disk.specs.Disk.{IsSector, Sectors};

    ghost Value = { Sectors };

    ghost view = { λ d. d.pages.sectors };

    ghost invariant = { λ d. All IsSector d.pages.sectors };
}

impl Disk {
    /// A disk of `sectors` sectors, all of them zero. A size whose slots no vector can number is refused as memory is.
    pub fn new(alloc: Global, sectors: u64) -> Result<Disk, NoMemory>
        ensures { IfOk result (λ disk. disk ≡ replicate sectors zero_sector) }
    {
        let pages = Pages::new(alloc, sectors)?;
        Ok(Disk { pages })
    }

    /// The number of sectors.
    pub fn size(&self) -> u64
        ensures size { result ≡ length self.now }
        ensures full { All IsSector self.now }
    {
        self.pages.size()
    }

    /// The bytes of the span's sectors, in order: 512 for each. Bytes that no 64 bits count are refused as memory is.
    pub fn read(&self, alloc: Global, span: Span) -> Result<Vec<u8>, NoMemory>
        requires { IsInside span (length self.now) }
        ensures bytes { IfOk result (λ bytes. bytes.items ≡ bytes_in self.now span) }
        ensures length { IfOk result (λ bytes. length bytes.items ≡ 512 * span.len) }
    {
        let len = (span.len as usize).checked_mul(512).ok_or(NoMemory)?;
        let mut bytes = Vec::with_capacity(alloc, len)?;
        let end = end_of(span, &self.pages);
        let mut at = span.first;
        while at < end {
            let part = part_at(at, end);
            push_all(self.pages.part(part), &mut bytes)?;
            at += part.len;
        }
        Ok(bytes)
    }

    /// The span's sectors, in order, in memory for all of them that is taken before the first is
    /// copied. Sectors that no vector can hold are refused as memory is.
    #[tactic(auto, using(crate::proofs::Rulesets::sectors))]
    pub fn sectors(&self, alloc: Global, span: Span) -> Result<Vec<Sector>, NoMemory>
        requires { IsInside span (length self.now) }
        ensures { IfOk result (λ sectors. sectors.items
            ≡ take span.len (drop span.first self.now)) }
    {
        let mut sectors = Vec::with_capacity(alloc, span.len as usize)?;
        let end = end_of(span, &self.pages);
        let mut at = span.first;
        while at < end {
            let part = part_at(at, end);
            copy_all(self.pages.part(part), &mut sectors)?;
            at += part.len;
        }
        Ok(sectors)
    }

    /// Puts these sectors in place of the span's. All missing pages are made first, so a refusal
    /// changes nothing.
    #[tactic(auto, using(crate::proofs::Rulesets::set))]
    pub fn set(&mut self, span: Span, sectors: Vec<Sector>) -> Result<(), NoMemory>
        requires inside { IsInside span (length self.old) }
        requires fills { length sectors.items ≡ span.len }
        ensures ok { OnOk result (self.new ≡ take span.first self.old
            ++ (sectors.items ++ drop (span.first + length sectors.items) self.old)) }
        ensures err { OnErr result (self.new ≡ self.old) }
        ensures full { All IsSector self.new }
    {
        make_pages(&mut self.pages, span)?;
        are_sectors(&sectors);
        let mut sectors = sectors;
        put_sectors(&mut self.pages, span, &mut sectors);
        Ok(())
    }

    /// Writes the span's sectors. All memory is taken first, so a refusal changes nothing.
    #[tactic(auto, using(crate::proofs::Rulesets::write))]
    pub fn write(&mut self, span: Span, bytes: &[u8]) -> Result<(), NoMemory>
        requires inside { IsInside span (length self.old) }
        requires fills { length bytes.now ≡ 512 * span.len }
        ensures ok { OnOk result (WritesOnly self.old self.new span bytes.now) }
        ensures err { OnErr result (self.new ≡ self.old) }
        ensures full { All IsSector self.new }
    {
        let sectors = sectors_of(self.pages.allocator(), bytes, span.len as usize)?;
        self.set(span, sectors)
    }

    /// Writes one byte all over the span's sectors. All missing pages are made first, so a refusal changes nothing.
    #[tactic(auto, using(crate::proofs::Rulesets::fill))]
    pub fn fill(&mut self, span: Span, byte: u8) -> Result<(), NoMemory>
        requires { IsInside span (length self.old) }
        ensures ok { OnOk result (Filled self.old self.new span (replicate 512 byte)) }
        ensures err { OnErr result (self.new ≡ self.old) }
        ensures full { All IsSector self.new }
    {
        let made = make_pages(&mut self.pages, span);
        if made.is_ok() {
            fill_sectors(&mut self.pages, span, byte);
        }
        made
    }

    /// Makes the span's sectors zero. It takes no memory and makes no page.
    #[tactic(auto, using(crate::proofs::Rulesets::fill))]
    pub fn trim(&mut self, span: Span)
        requires { IsInside span (length self.old) }
        ensures zeroed { Zeroed self.old self.new span }
        ensures full { All IsSector self.new }
    {
        clear_sectors(&mut self.pages, span);
    }
}

/// The sector behind the span's last one. It fits, since the span is inside.
fn end_of(span: Span, pages: &Pages) -> u64
    requires { IsInside span (length pages.now.sectors) }
    ensures { result ≡ span.first + span.len }
{
    prove!(span.inside(pages.size()));
    span.first + span.len
}

/// The sectors from one on, up to an end, that lie on one page.
#[inline]
fn part_at(at: u64, end: u64) -> Span
    requires { at < end }
    ensures first { result.first ≡ at }
    ensures some { 0 < result.len }
    ensures on_page { at % 64 + result.len ≤ 64 }
    ensures within { at + result.len ≤ end }
{
    let len = (PAGE_SECTORS - at % PAGE_SECTORS).min(end - at);
    Span { first: at, len }
}

/// Makes each missing page that the span meets.
fn make_pages(pages: &mut Pages, span: Span) -> Result<(), NoMemory>
    requires { IsInside span (length pages.old.sectors) }
    ensures same { pages.new.sectors ≡ pages.old.sectors }
    ensures made { OnOk result ((k : ℕ) → Holds span k → IsMade pages.new k) }
{
    let end = end_of(span, pages);
    let mut at = span.first;
    while at < end {
        pages.make(at)?;
        at += part_at(at, end).len;
    }
    Ok(())
}

/// Puts these sectors in place of the span's, whose pages are made, and gives the old for them.
fn put_sectors(pages: &mut Pages, span: Span, sectors: &mut [Sector])
    requires inside { IsInside span (length pages.old.sectors) }
    requires made { (k : ℕ) → Holds span k → IsMade pages.old k }
    requires fills { length sectors.old ≡ span.len }
    ensures { pages.new.sectors ≡ put pages.old.sectors span.first sectors.old }
{
    let end = end_of(span, pages);
    let mut at = span.first;
    while at < end {
        let part = part_at(at, end);
        let from = (at - span.first) as usize;
        pages.put(part, &mut sectors[from..from + part.len as usize]);
        at += part.len;
    }
}

/// Fills the span, whose pages are made, with one byte.
fn fill_sectors(pages: &mut Pages, span: Span, byte: u8)
    requires inside { IsInside span (length pages.old.sectors) }
    requires made { (k : ℕ) → Holds span k → IsMade pages.old k }
    ensures { pages.new.sectors
        ≡ put pages.old.sectors span.first (replicate span.len (replicate 512 byte)) }
{
    let end = end_of(span, pages);
    let mut at = span.first;
    while at < end {
        let part = part_at(at, end);
        pages.fill(part, byte);
        at += part.len;
    }
}

/// Makes the span's sectors zero, and makes no page.
fn clear_sectors(pages: &mut Pages, span: Span)
    requires { IsInside span (length pages.old.sectors) }
    ensures zero { pages.new.sectors
        ≡ put pages.old.sectors span.first (replicate span.len zero_sector) }
    ensures same_pages { pages.new.made ≡ pages.old.made }
{
    let end = end_of(span, pages);
    let mut at = span.first;
    while at < end {
        let part = part_at(at, end);
        pages.clear(part);
        at += part.len;
    }
}
