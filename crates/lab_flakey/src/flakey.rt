ghost use Rattle.std.specs.Prelude.{◌≡◌, ◌+◌, ◌-◌, ◌/◌, ◌%◌, ◌≤◌, codes, if◌then◌else◌};
ghost use Rattle.lab_target.specs.Laws.{Bounded, IsPiece, greatest_sector};
ghost use Rattle.lab_target.specs.Types.{passed_to};
ghost use Rattle.lab_flakey.specs.Flakey.{draw, is_down};
ghost use Rattle.lab_flakey.specs.Features.{chance_of, fixed_mark};
ghost use Rattle.lab_flakey.specs.Intervals.{IsInterval};
ghost use Rattle.lab_flakey.specs.Words.{pcg_words};

use crate::draw::{draw, fixed_mark, seeded};
use crate::feature::Features;
use crate::line::{Counts, read_line};
use crate::print::{push_count, push_features};
use crate::rules::{chance_of, drops, fails};
use lab_sector::{DevNo, Kind, NoMemory, Span};
use lab_target::{
    Held, Marks, Ref, Target, TargetFault, Unbound, Verdict, after_type, only_device, push_device,
};
use lab_text::{Words, push_number};
use rand_pcg::Pcg32;
use std::alloc::Global;
use std::marker::Model;

/// The type word of the target.
const TYPE: &[u8] = b"flakey";

/// How many microseconds a second has.
const SECOND: u64 = 1_000_000;

/// All bios go on while it is up; while it is down its features say what becomes of them
/// (dm-flakey).
#[derive(Debug, PartialEq, Eq, Drop)]
pub struct Flakey {
    reference: Ref,
    up: u32,
    down: u32,
    features: Features,
    loaded: u64,
    generator: Pcg32,
}

impl Model for Flakey {
    ghost use Rattle.std.specs.Prelude.{◌≤◌};
    ghost use Rattle.rand_pcg.specs.Lcg.{Lcg};
    ghost use Rattle.lab_target.specs.Laws.{greatest_sector};
    ghost use Rattle.lab_flakey.specs.Flakey.{FlakeyLine};
    ghost use Rattle.lab_flakey.specs.Intervals.{IsInterval};

    ghost Value = { FlakeyLine Lcg };

    ghost view = { λ line. record {
      reference = line.reference;
      up = line.up;
      down = line.down;
      features = line.features;
      loaded = line.loaded;
      generator = line.generator;
    } };

    ghost invariant = { λ line. (line.reference.first ≤ greatest_sector)
        × IsInterval line.up line.down };

    ghost inverse = { λ line. record {
      reference = line.reference;
      up = line.up;
      down = line.down;
      features = line.features;
      loaded = line.loaded;
      generator = line.generator;
    } };
}

impl Flakey {
    /// Whether the line is down at this moment: it is up first, then down, and so on from the
    /// moment that it was loaded.
    pub fn down(&self, now: u64) -> bool
        ensures { result ≡ is_down self.now now }
    {
        self.second_of_cycle(now) >= u64::from(self.up)
    }

    /// The second of its cycle that the line is in.
    fn second_of_cycle(&self, now: u64) -> u64
        ensures { result
            ≡ (now - self.now.loaded) / 1000000 % (self.now.up + self.now.down) }
    {
        let seconds = now.saturating_sub(self.loaded) / SECOND;
        seconds % (u64::from(self.up) + u64::from(self.down))
    }

    /// A line in its opening state.
    fn opened(reference: Ref, up: u32, down: u32, features: Features) -> Flakey
        requires near { reference.first ≤ greatest_sector }
        requires interval { IsInterval up down }
        ensures { result ≡ record {
          reference = reference;
          up = up;
          down = down;
          features = features;
          loaded = 0;
          generator = pcg_words.seeded reference.first;
        } }
    {
        Flakey {
            reference,
            up,
            down,
            features,
            loaded: 0,
            generator: seeded(reference.first),
        }
    }

    /// The marks of a piece that passes while the line is down: its draw comes after the fixed one.
    fn marks(&mut self, kind: Kind, piece: Span) -> Marks
        requires piece { IsPiece kind piece }
        requires near { piece.first + piece.len ≤ greatest_sector }
        ensures fixed { result.fixed ≡ fixed_mark self.old.features.corrupt kind piece }
        ensures random { result.random ≡ (draw pcg_words (chance_of self.old.features kind) piece
            self.old.generator).0 }
        ensures state { self.new ≡ record self.old {
          generator
              = (draw pcg_words (chance_of self.old.features kind) piece self.old.generator).1;
        } }
    {
        let chance = chance_of(&self.features, kind);
        Marks {
            fixed: fixed_mark(self.features.corrupt, kind, piece),
            random: draw(chance, piece, &mut self.generator),
        }
    }

    /// A piece that goes on with these marks.
    fn passed(&self, piece: Span, marks: Marks) -> Verdict
        requires { piece.first + piece.len ≤ greatest_sector }
        ensures passed { result ≡ passed_to self.now.reference piece 0 marks }
        ensures bounded { Bounded result }
    {
        self.reference.pass(piece, 0, marks)
    }
}

impl Target for Flakey {
    ghost use Rattle.lab_flakey.specs.Flakey.{bound, flakey};
    ghost use Rattle.lab_flakey.specs.FlakeyLaws.{flakey-lawful};
    ghost use Rattle.lab_flakey.specs.Words.{pcg_words};

    ghost meaning = { flakey pcg_words };

    ghost bound = { bound pcg_words };

    ghost lawful = { flakey-lawful pcg_words };

    fn read_unbound<'a>(
        alloc: Global,
        words: Words<'a>,
        _len: u64,
    ) -> Result<Unbound<'a, Self>, TargetFault> {
        let Some(words) = after_type(words, TYPE) else {
            return Err(TargetFault::Unknown);
        };
        let line = read_line(words)?;
        let Counts { up, down, .. } = line.counts;
        let (dev, first) = (DevNo::Ram(0), line.counts.first);
        let target = Flakey::opened(Ref { dev, first }, up, down, line.features);
        Unbound::new(alloc, &[line.device], target)
    }

    fn bind(&self, _alloc: Global, devices: &[DevNo]) -> Result<Self, NoMemory> {
        let (dev, first) = (only_device(devices), self.reference.first);
        Ok(Flakey::opened(Ref { dev, first }, self.up, self.down, self.features))
    }

    fn fresh(&self, _alloc: Global) -> Result<Self, NoMemory> {
        Ok(Flakey::opened(self.reference, self.up, self.down, self.features))
    }

    fn start(&mut self, now: u64) {
        self.loaded = now;
        self.generator = seeded(now.wrapping_add(self.reference.first));
    }

    fn reference(&self, _kind: Kind) -> Option<Ref> {
        Some(self.reference)
    }

    fn may_hold(&self, _kind: Kind) -> bool {
        false
    }

    fn cut(&self, _place: u64, left: u64) -> u64 {
        left
    }

    fn judge(&mut self, kind: Kind, piece: Span, now: u64) -> Verdict {
        if self.down(now) {
            if fails(&self.features, kind) {
                return Verdict::Fail;
            }
            if drops(&self.features, kind) {
                return Verdict::Done;
            }
            let marks = self.marks(kind, piece);
            self.passed(piece, marks)
        } else {
            self.passed(piece, Marks::NONE)
        }
    }

    fn takes(&self, _words: Words<'_>) -> bool {
        false
    }

    fn message(&mut self, alloc: Global, _words: Words<'_>) -> Result<Vec<u8>, NoMemory> {
        Ok(Vec::new(alloc))
    }

    fn status(&self, alloc: Global, now: u64, _held: Held) -> Result<Vec<u8>, NoMemory> {
        let text = status_text(self.down(now));
        Ok(Vec::from_slice(alloc, text)?)
    }

    fn print(&self, alloc: Global) -> Result<Vec<u8>, NoMemory> {
        let mut out = Vec::from_slice(alloc, b"flakey ")?;
        push_device(&mut out, self.reference.dev)?;
        out.push(b' ')?;
        push_number(&mut out, self.reference.first)?;
        push_count(&mut out, self.up)?;
        push_count(&mut out, self.down)?;
        push_features(&mut out, &self.features)?;
        Ok(out)
    }
}

/// The text of a line's status.
fn status_text(down: bool) -> &'static [u8]
    ensures { result.now ≡ (if down then codes "flakey down" else codes "flakey up") }
{
    if down { b"flakey down" } else { b"flakey up" }
}
