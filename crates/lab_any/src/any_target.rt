use crate::type_name::{TypeName, type_of};
use lab_delay::Delay;
use lab_dust::Dust;
use lab_flakey::Flakey;
use lab_sector::{DevNo, Kind, NoMemory, Span};
use lab_simple::{ErrorTarget, Linear, Zero};
use lab_target::{Held, Ref, Target, TargetFault, Unbound, Verdict};
use lab_text::Words;
use std::alloc::Global;

/// A target of any of the types that a table may name.
#[derive(Drop)]
pub enum AnyTarget {
    /// All bios go on.
    Linear(Linear),
    /// Reads give zeroes, and writes go nowhere.
    Zero(Zero),
    /// All bios fail.
    Error(ErrorTarget),
    /// All bios go on while it is up, and while it is down its features decide.
    Flakey(Flakey),
    /// All bios go on, but for reads of bad blocks.
    Dust(Dust),
    /// Bios go on after some time.
    Delay(Delay),
}

// What the line's own type gives, whichever it is.
macro_rules! on_each {
    ($any:expr, $target:ident => $given:expr) => {
        match $any {
            AnyTarget::Linear($target) => $given,
            AnyTarget::Zero($target) => $given,
            AnyTarget::Error($target) => $given,
            AnyTarget::Flakey($target) => $given,
            AnyTarget::Dust($target) => $given,
            AnyTarget::Delay($target) => $given,
        }
    };
}

// The same, as a line of that type.
macro_rules! map_each {
    ($any:expr, $target:ident => $given:expr) => {
        match $any {
            AnyTarget::Linear($target) => AnyTarget::Linear($given),
            AnyTarget::Zero($target) => AnyTarget::Zero($given),
            AnyTarget::Error($target) => AnyTarget::Error($given),
            AnyTarget::Flakey($target) => AnyTarget::Flakey($given),
            AnyTarget::Dust($target) => AnyTarget::Dust($given),
            AnyTarget::Delay($target) => AnyTarget::Delay($given),
        }
    };
}

impl Target for AnyTarget {
    ghost use Rattle.lab_any.specs.declared.any_target.AnyTarget.TheVariants as any;
    ghost use Rattle.lab_any.specs.Any.{any_meaning};
    ghost use Rattle.lab_any.specs.AnyLaws.{any-lawful};

    ghost meaning = { any_meaning };

    ghost bound = { λ target devices. elim target [
      | any.Linear t ↦ any.Linear (⟦<Linear as Target>⟧.bound t devices)
      | any.Zero t ↦ any.Zero (⟦<Zero as Target>⟧.bound t devices)
      | any.Error t ↦ any.Error (⟦<ErrorTarget as Target>⟧.bound t devices)
      | any.Flakey t ↦ any.Flakey (⟦<Flakey as Target>⟧.bound t devices)
      | any.Dust t ↦ any.Dust (⟦<Dust as Target>⟧.bound t devices)
      | any.Delay t ↦ any.Delay (⟦<Delay as Target>⟧.bound t devices)
    ] };

    ghost lawful = { any-lawful };

    fn read_unbound<'a>(
        alloc: Global,
        words: Words<'a>,
        len: u64,
    ) -> Result<Unbound<'a, Self>, TargetFault> {
        let Some(name) = type_of(words) else {
            return Err(TargetFault::Unknown);
        };
        let (devices, target) = match name {
            TypeName::Linear => {
                let line = Linear::read_unbound(alloc, words, len)?;
                (line.devices, AnyTarget::Linear(line.target))
            }
            TypeName::Zero => {
                let line = Zero::read_unbound(alloc, words, len)?;
                (line.devices, AnyTarget::Zero(line.target))
            }
            TypeName::Error => {
                let line = ErrorTarget::read_unbound(alloc, words, len)?;
                (line.devices, AnyTarget::Error(line.target))
            }
            TypeName::Flakey => {
                let line = Flakey::read_unbound(alloc, words, len)?;
                (line.devices, AnyTarget::Flakey(line.target))
            }
            TypeName::Dust => {
                let line = Dust::read_unbound(alloc, words, len)?;
                (line.devices, AnyTarget::Dust(line.target))
            }
            TypeName::Delay => {
                let line = Delay::read_unbound(alloc, words, len)?;
                (line.devices, AnyTarget::Delay(line.target))
            }
        };
        Ok(Unbound { devices, target })
    }

    fn bind(&self, alloc: Global, devices: &[DevNo]) -> Result<Self, NoMemory> {
        Ok(map_each!(self, target => target.bind(alloc, devices)?))
    }

    fn fresh(&self, alloc: Global) -> Result<Self, NoMemory> {
        Ok(map_each!(self, target => target.fresh(alloc)?))
    }

    fn start(&mut self, now: u64) {
        on_each!(self, target => target.start(now))
    }

    fn reference(&self, kind: Kind) -> Option<Ref> {
        on_each!(self, target => target.reference(kind))
    }

    fn may_hold(&self, kind: Kind) -> bool {
        on_each!(self, target => target.may_hold(kind))
    }

    fn cut(&self, place: u64, left: u64) -> u64 {
        on_each!(self, target => target.cut(place, left))
    }

    fn judge(&mut self, kind: Kind, piece: Span, now: u64) -> Verdict {
        on_each!(self, target => target.judge(kind, piece, now))
    }

    fn takes(&self, words: Words<'_>) -> bool {
        on_each!(self, target => target.takes(words))
    }

    fn message(&mut self, alloc: Global, words: Words<'_>) -> Result<Vec<u8>, NoMemory> {
        on_each!(self, target => target.message(alloc, words))
    }

    fn status(&self, alloc: Global, now: u64, held: Held) -> Result<Vec<u8>, NoMemory> {
        on_each!(self, target => target.status(alloc, now, held))
    }

    fn print(&self, alloc: Global) -> Result<Vec<u8>, NoMemory> {
        on_each!(self, target => target.print(alloc))
    }
}
