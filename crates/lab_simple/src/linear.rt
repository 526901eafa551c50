ghost use Rattle.std.specs.Prelude.{◌≡◌, ◌≤◌, IfOk, MatchResult, Ok, Err};
ghost use Rattle.lab_text.specs.Words.{words_left};
ghost use Rattle.lab_target.specs.Laws.{greatest_sector};
ghost use Rattle.lab_simple.specs.Linear.{arguments, drafted};

use lab_sector::{DevNo, Kind, MAX_SECTOR, NoMemory, Span};
use lab_target::{
    Held, Marks, Ref, Target, TargetFault, Unbound, Verdict, after_type, only_device, push_device,
};
use lab_text::{Words, number, push_number};
use std::alloc::Global;
use std::marker::Model;

/// The type word of the target, and the bytes of its status.
const TYPE: &[u8] = b"linear";

/// All bios go on to a run of sectors of another device (dm-linear).
#[derive(Clone, Copy, Debug, PartialEq, Eq)]
pub struct Linear {
    reference: Ref,
}

impl Model for Linear {
    ghost use Rattle.std.specs.Prelude.{◌≤◌};
    ghost use Rattle.lab_target.specs.declared.verdict.Ref.{Ref};
    ghost use Rattle.lab_target.specs.Laws.{greatest_sector};

    ghost Value = { Ref };

    ghost view = { λ target. target.reference };

    ghost invariant = { λ target. target.reference.first ≤ greatest_sector };

    ghost inverse = { λ reference. record { reference = reference } };
}

impl Target for Linear {
    ghost use Rattle.lab_simple.specs.Linear.{linear};
    ghost use Rattle.lab_simple.specs.LinearLaws.{linear-lawful};
    ghost use Rattle.lab_target.specs.Types.{only_device};

    ghost meaning = { linear };

    ghost bound = { λ target devices. record { dev = only_device devices; first = target.first } };

    ghost lawful = { linear-lawful };

    fn read_unbound<'a>(
        alloc: Global,
        words: Words<'a>,
        _len: u64,
    ) -> Result<Unbound<'a, Self>, TargetFault> {
        let Some(words) = after_type(words, TYPE) else {
            return Err(TargetFault::Unknown);
        };
        let (device, first) = device_and_offset(words)?;
        let dev = DevNo::Ram(0);
        let target = Linear {
            reference: Ref { dev, first },
        };
        Unbound::new(alloc, &[device], target)
    }

    fn bind(&self, _alloc: Global, devices: &[DevNo]) -> Result<Self, NoMemory> {
        let dev = only_device(devices);
        let first = self.reference.first;
        Ok(Linear {
            reference: Ref { dev, first },
        })
    }

    fn fresh(&self, _alloc: Global) -> Result<Self, NoMemory> {
        Ok(*self)
    }

    fn start(&mut self, _now: u64) {}

    fn reference(&self, _kind: Kind) -> Option<Ref> {
        Some(self.reference)
    }

    fn may_hold(&self, _kind: Kind) -> bool {
        false
    }

    fn cut(&self, _place: u64, left: u64) -> u64 {
        left
    }

    fn judge(&mut self, _kind: Kind, piece: Span, _now: u64) -> Verdict {
        self.reference.pass(piece, 0, Marks::NONE)
    }

    fn takes(&self, _words: Words<'_>) -> bool {
        false
    }

    fn message(&mut self, alloc: Global, _words: Words<'_>) -> Result<Vec<u8>, NoMemory> {
        Ok(Vec::new(alloc))
    }

    fn status(&self, alloc: Global, _now: u64, _held: Held) -> Result<Vec<u8>, NoMemory> {
        Ok(Vec::from_slice(alloc, TYPE)?)
    }

    fn print(&self, alloc: Global) -> Result<Vec<u8>, NoMemory> {
        let mut out = Vec::from_slice(alloc, b"linear ")?;
        push_device(&mut out, self.reference.dev)?;
        out.push(b' ')?;
        push_number(&mut out, self.reference.first)?;
        Ok(out)
    }
}

/// The device word and the offset, in sectors, of a line's words after its type.
fn device_and_offset<'a>(mut words: Words<'a>) -> Result<(&'a [u8], u64), TargetFault>
    ensures near { IfOk result (λ line. line.1 ≤ greatest_sector) }
    ensures line { MatchResult result
        (λ line. arguments (words_left words.entry) ≡ Ok (drafted line.0.now line.1))
        (λ fault. arguments (words_left words.entry) ≡ Err fault) }
{
    let (Some(device), Some(offset), None) = (words.next(), words.next(), words.next()) else {
        return Err(TargetFault::Args);
    };
    match number(offset, MAX_SECTOR) {
        Ok(first) => Ok((device, first)),
        Err(_) => Err(TargetFault::Number),
    }
}
