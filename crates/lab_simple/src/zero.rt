use lab_sector::{DevNo, Kind, NoMemory, Span};
use lab_target::{Held, Ref, Target, TargetFault, Unbound, Verdict, after_type};
use lab_text::Words;
use std::alloc::Global;
use std::marker::Model;

/// The type word of the target, and the bytes of its status and its printed text.
const TYPE: &[u8] = b"zero";

/// Reads give zeroes, and writes, trims and flushes succeed and do nothing (dm-zero).
#[derive(Clone, Copy, Debug, PartialEq, Eq)]
pub struct Zero;

impl Model for Zero {
    ghost Value = { Unit {0} };

    ghost view = { λ _. tt };

    ghost inverse = { λ _. record {} };
}

impl Target for Zero {
    ghost use Rattle.lab_simple.specs.Zero.{zero_target};
    ghost use Rattle.lab_simple.specs.ZeroLaws.{zero-lawful};

    ghost meaning = { zero_target };

    ghost bound = { λ target devices. tt };

    ghost lawful = { zero-lawful };

    fn read_unbound<'a>(
        alloc: Global,
        words: Words<'a>,
        _len: u64,
    ) -> Result<Unbound<'a, Self>, TargetFault> {
        let Some(mut words) = after_type(words, TYPE) else {
            return Err(TargetFault::Unknown);
        };
        match words.next() {
            None => Ok(Unbound {
                devices: Vec::new(alloc),
                target: Zero,
            }),
            Some(_) => Err(TargetFault::Args),
        }
    }

    fn bind(&self, _alloc: Global, _devices: &[DevNo]) -> Result<Self, NoMemory> {
        Ok(Zero)
    }

    fn fresh(&self, _alloc: Global) -> Result<Self, NoMemory> {
        Ok(Zero)
    }

    fn start(&mut self, _now: u64) {}

    fn reference(&self, _kind: Kind) -> Option<Ref> {
        None
    }

    fn may_hold(&self, _kind: Kind) -> bool {
        false
    }

    fn cut(&self, _place: u64, left: u64) -> u64 {
        left
    }

    fn judge(&mut self, kind: Kind, _piece: Span, _now: u64) -> Verdict {
        match kind {
            Kind::Read => Verdict::Zeroes,
            Kind::Write | Kind::Trim | Kind::Flush => Verdict::Done,
        }
    }

    fn takes(&self, _words: Words<'_>) -> bool {
        false
    }

    fn message(&mut self, alloc: Global, _words: Words<'_>) -> Result<Vec<u8>, NoMemory> {
        Ok(Vec::new(alloc))
    }

    fn status(&self, alloc: Global, _now: u64, _held: Held) -> Result<Vec<u8>, NoMemory> {
        Ok(Vec::from_slice(alloc, TYPE)?)
    }

    fn print(&self, alloc: Global) -> Result<Vec<u8>, NoMemory> {
        Ok(Vec::from_slice(alloc, TYPE)?)
    }
}
