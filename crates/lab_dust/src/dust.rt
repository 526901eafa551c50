ghost use Rattle.std.specs.Prelude.{◌≡◌, ◌≤◌, ◌<◌, ◌*◌, ◌^◌, true};
ghost use Rattle.std.specs.Int.{is_power_of_two};
ghost use Rattle.lab_target.specs.Laws.{greatest_sector};
ghost use Rattle.lab_dust.specs.Dust.{block_at, block_count, opening_line};

use crate::given::read_given;
use crate::list::BlockList;
use crate::message::Message;
use lab_sector::{DevNo, Kind, NoMemory, SECTOR_BYTES, Span};
use lab_target::{
    Held, Marks, Ref, Target, TargetFault, Unbound, Verdict, after_type, only_device, push_device,
};
use lab_text::{Words, push_number};
use std::alloc::Global;
use std::marker::Model;

/// The type word of the target.
const TYPE: &[u8] = b"dust";

/// Reads of listed blocks fail, and a write takes its block off the list (dm-dust).
#[derive(Drop)]
pub struct Dust {
    /// Where the line's first sector goes.
    reference: Ref,
    /// How often a sector is doubled to a block.
    shift: u32,
    /// The line's length in sectors.
    len: u64,
    /// The bad blocks.
    list: BlockList,
}

impl Model for Dust {
    ghost use Rattle.std.specs.Prelude.{◌≤◌, ◌*◌, ◌^◌};
    ghost use Rattle.lab_target.specs.Laws.{greatest_sector};
    ghost use Rattle.lab_dust.specs.Dust.{DustLine};

    ghost Value = { DustLine };

    ghost view = { λ dust. record {
      reference = dust.reference;
      size = 512 * 2 ^ dust.shift;
      len = dust.len;
      list = dust.list;
    } };

    ghost invariant = { λ dust. (dust.reference.first ≤ greatest_sector)
        × (dust.shift ≤ 21) × (dust.len ≤ greatest_sector) };
}

impl Target for Dust {
    ghost use Rattle.lab_target.specs.Types.{only_device};
    ghost use Rattle.lab_dust.specs.Dust.{dust_target};
    ghost use Rattle.lab_dust.specs.DustLaws.{dust-lawful};

    ghost meaning = { dust_target };

    ghost bound = { λ line devices. opening_line
        (record { dev = only_device devices; first = line.reference.first }) line.size line.len };

    ghost lawful = { dust-lawful };

    fn read_unbound<'a>(
        alloc: Global,
        words: Words<'a>,
        len: u64,
    ) -> Result<Unbound<'a, Self>, TargetFault> {
        let Some(words) = after_type(words, TYPE) else {
            return Err(TargetFault::Unknown);
        };
        let line = read_given(words)?;
        let (dev, first) = (DevNo::Ram(0), line.first);
        let target = Dust::opening(alloc, Ref { dev, first }, line.shift, len);
        let Ok(devices) = Vec::from_slice(alloc, &[line.device]) else {
            return Err(TargetFault::NoMemory);
        };
        Ok(Unbound { devices, target })
    }

    fn bind(&self, alloc: Global, devices: &[DevNo]) -> Result<Self, NoMemory> {
        let (dev, first) = (only_device(devices), self.reference.first);
        Ok(Dust::opening(alloc, Ref { dev, first }, self.shift, self.len))
    }

    fn fresh(&self, alloc: Global) -> Result<Self, NoMemory> {
        Ok(Dust::opening(alloc, self.reference, self.shift, self.len))
    }

    fn start(&mut self, _now: u64) {}

    fn reference(&self, _kind: Kind) -> Option<Ref> {
        Some(self.reference)
    }

    fn may_hold(&self, _kind: Kind) -> bool {
        false
    }

    #[inline]
    fn cut(&self, place: u64, left: u64) -> u64 {
        let sectors = self.sectors();
        left.min(sectors - (place & (sectors - 1)))
    }

    #[inline]
    fn judge(&mut self, kind: Kind, piece: Span, _now: u64) -> Verdict {
        let block = self.block_at(piece.first);
        match kind {
            Kind::Read if self.list.is_bad(block) => return Verdict::Fail,
            Kind::Write | Kind::Trim => self.list.overwrite(block),
            Kind::Read | Kind::Flush => {}
        }
        self.reference.pass(piece, 0, Marks::NONE)
    }

    fn takes(&self, words: Words<'_>) -> bool {
        Message::of(words, self.block_count()).is_some()
    }

    fn message(&mut self, alloc: Global, words: Words<'_>) -> Result<Vec<u8>, NoMemory> {
        match Message::of(words, self.block_count()) {
            Some(message) => self.list.answer(alloc, message),
            None => Ok(Vec::new(alloc)),
        }
    }

    fn status(&self, alloc: Global, _now: u64, _held: Held) -> Result<Vec<u8>, NoMemory> {
        let mut out = Vec::from_slice(alloc, b"dust ")?;
        push_device(&mut out, self.reference.dev)?;
        out.push(b' ')?;
        out.extend_from_slice(self.list.mode())?;
        out.push(b' ')?;
        out.extend_from_slice(self.list.loudness())?;
        Ok(out)
    }

    fn print(&self, alloc: Global) -> Result<Vec<u8>, NoMemory> {
        let mut out = Vec::from_slice(alloc, b"dust ")?;
        push_device(&mut out, self.reference.dev)?;
        out.push(b' ')?;
        push_number(&mut out, self.reference.first)?;
        out.push(b' ')?;
        push_number(&mut out, self.size())?;
        Ok(out)
    }
}

impl Dust {
    /// A line in its opening state.
    fn opening(alloc: Global, reference: Ref, shift: u32, len: u64) -> Dust
        requires near { reference.first ≤ greatest_sector }
        requires sized { shift ≤ 21 }
        requires len { len ≤ greatest_sector }
        ensures { result ≡ opening_line reference (512 * 2 ^ shift) len }
    {
        Dust {
            reference,
            shift,
            len,
            list: BlockList::opening(alloc),
        }
    }

    /// How many bytes a block has.
    fn size(&self) -> u64
        ensures { result ≡ self.now.size }
    {
        SECTOR_BYTES << self.shift
    }

    /// How many sectors a block has.
    #[inline]
    #[tactic(auto, using(crate::proofs::Rulesets::sectors))]
    fn sectors(&self) -> u64
        ensures some { 0 < result }
        ensures power { is_power_of_two result ≡ true }
        ensures all { 512 * result ≡ self.now.size }
    {
        1 << self.shift
    }

    /// The block that a place is in, counted from the line's first sector.
    #[inline]
    #[tactic(auto, using(crate::proofs::Rulesets::block_at))]
    fn block_at(&self, place: u64) -> u64
        ensures { result ≡ block_at self.now.size place }
    {
        place >> self.shift
    }

    /// How many blocks the line has.
    fn block_count(&self) -> u64
        ensures { result ≡ block_count self.now }
    {
        self.len.div_ceil(self.sectors())
    }
}
