ghost use Rattle.std.specs.Prelude.{◌≡◌, ◌≤◌, ◌<◌, ◌+◌, ◌^◌, List, Ok, IfOk, OnOk, OnErr};
ghost use Rattle.lab_sector.specs.declared.device.DevNo.{DevNo};
ghost use Rattle.lab_text.specs.Words.{words_left};
ghost use Rattle.lab_target.specs.Laws.{Bounded, CutsAt, IsPiece, Lawful, greatest_sector};
ghost use Rattle.lab_target.specs.Meaning.{Meaning};
ghost use Rattle.lab_target.specs.Reading.{Reads, ReadsUnbound, draft_of, resolved};

use crate::fault::TargetFault;
use crate::names::Names;
use crate::unbound::{Unbound, find_devices};
use crate::verdict::{Held, Ref, Verdict};
use lab_sector::{DevNo, Kind, NoMemory, Span};
use lab_text::Words;
use std::alloc::Global;

/// A type of device-mapper target. Sectors are counted in the table's line, moments in microseconds.
pub trait Target: Drop {
    /// What the type is, as functions of a target's state.
    ghost meaning: { Meaning Self };

    /// A target in its opening state, on other devices.
    ghost bound: { Self → List DevNo → Self };

    /// The target of a line's words from its type on, before its devices are known. The line has `len` sectors.
    fn read_unbound<'a>(
        alloc: Global,
        words: Words<'a>,
        len: u64,
    ) -> Result<Unbound<'a, Self>, TargetFault>
        requires { len ≤ greatest_sector }
        ensures { ReadsUnbound bound (meaning.parsed (words_left words.entry) len) result };

    /// The same target in its opening state, on these devices in the places of its device words.
    fn bind(&self, alloc: Global, devices: &[DevNo]) -> Result<Self, NoMemory>
        ensures { IfOk result (λ target. target ≡ bound self.now devices.now) };

    /// A target with the devices that `names` gives its device words, in its opening state.
    fn bind_words<N: Names>(
        unbound: &Unbound<'_, Self>,
        alloc: Global,
        names: &N,
    ) -> Result<Self, TargetFault>
        ensures { Reads (resolved (N.found names.now) (Ok (draft_of bound unbound.now))) result }
    {
        let devices = find_devices(alloc, &unbound.devices, names)?;
        match unbound.target.bind(alloc, &devices) {
            Ok(target) => Ok(target),
            Err(NoMemory) => Err(TargetFault::NoMemory),
        }
    }

    /// The target of a line's words from its type on, in its opening state. The line has `len` sectors.
    fn read<N: Names>(
        alloc: Global,
        words: Words<'_>,
        len: u64,
        names: &N,
    ) -> Result<Self, TargetFault>
        requires { len ≤ greatest_sector }
        ensures { Reads (resolved (N.found names.now) (meaning.parsed (words_left words.entry) len)) result }
    {
        let unbound = Self::read_unbound(alloc, words, len)?;
        Self::bind_words(&unbound, alloc, names)
    }

    /// The same target in its opening state.
    fn fresh(&self, alloc: Global) -> Result<Self, NoMemory>
        ensures { IfOk result (λ target. target ≡ (meaning.shape self.now).opening) };

    /// The target's table is loaded at this moment.
    fn start(&mut self, now: u64)
        ensures { self.new ≡ meaning.started self.old now };

    /// Where a bio of this kind goes, if this kind goes anywhere.
    fn reference(&self, kind: Kind) -> Option<Ref>
        ensures { result ≡ (meaning.shape self.now).reference kind };

    /// Whether a piece of this kind may be held.
    fn may_hold(&self, kind: Kind) -> bool
        ensures { result ≡ (meaning.shape self.now).may_hold kind };

    /// How many of `left` sectors from `place` on are taken at once: those in the block of the first.
    fn cut(&self, place: u64, left: u64) -> u64
        requires some { 0 < left }
        requires fits { place + left < 2 ^ 64 }
        ensures { CutsAt (meaning.shape self.now).block place left result };

    /// What becomes of a piece at this moment. The piece ends within the sectors that a table may name.
    fn judge(&mut self, kind: Kind, piece: Span, now: u64) -> Verdict
        requires piece { IsPiece kind piece }
        requires near { piece.first + piece.len ≤ greatest_sector }
        ensures verdict { result ≡ meaning.verdict self.old kind piece now }
        ensures bounded { Bounded result }
        ensures state { self.new ≡ meaning.judged self.old kind piece now };

    /// Whether these words are a message to it.
    fn takes(&self, words: Words<'_>) -> bool
        ensures { result ≡ (meaning.shape self.now).takes (words_left words.entry) };

    /// Takes a message, and answers the reply. Only words that are a message to it are meant for it.
    fn message(&mut self, alloc: Global, words: Words<'_>) -> Result<Vec<u8>, NoMemory>
        ensures reply { IfOk result (λ reply. reply.items ≡ meaning.reply self.old (words_left words.entry)) }
        ensures state { OnOk result (self.new ≡ meaning.messaged self.old (words_left words.entry)) }
        ensures err { OnErr result (self.new ≡ self.old) };

    /// The words of its status, from the type on, where so many of its pieces are held.
    fn status(&self, alloc: Global, now: u64, held: Held) -> Result<Vec<u8>, NoMemory>
        ensures { IfOk result (λ text. text.items ≡ meaning.status self.now now held) };

    /// The words that make it, from the type on.
    fn print(&self, alloc: Global) -> Result<Vec<u8>, NoMemory>
        ensures { IfOk result (λ text. text.items ≡ (meaning.shape self.now).printed) };

    /// The laws that the type keeps.
    ghost lawful: { Lawful meaning };
}
