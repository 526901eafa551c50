use lab_sector::{DevNo, Kind, NoMemory, Span};
use lab_target::{Held, Ref, Target, TargetFault, Unbound, Verdict, after_type};
use lab_text::Words;
use std::alloc::Global;
use std::marker::Model;

/// The type word of the target, and the bytes of its status and its printed text.
const TYPE: &[u8] = b"error";

/// All bios fail (dm-error).
#[derive(Clone, Copy, Debug, PartialEq, Eq)]
pub struct ErrorTarget;

impl Model for ErrorTarget {
    ghost Value = { Unit {0} };

    ghost view = { λ _. tt };

    ghost inverse = { λ _. record {} };
}

impl Target for ErrorTarget {
    ghost use Rattle.lab_simple.specs.ErrorTarget.{error_target};
    ghost use Rattle.lab_simple.specs.ErrorTargetLaws.{error-lawful};

    ghost meaning = { error_target };

    ghost bound = { λ target devices. tt };

    ghost lawful = { error-lawful };

    fn read_unbound<'a>(
        alloc: Global,
        words: Words<'a>,
        _len: u64,
    ) -> Result<Unbound<'a, Self>, TargetFault> {
        let Some(mut words) = after_type(words, TYPE) else {
            return Err(TargetFault::Unknown);
        };
        match words.next() {
            None => Ok(Unbound {
                devices: Vec::new(alloc),
                target: ErrorTarget,
            }),
            Some(_) => Err(TargetFault::Args),
        }
    }

    fn bind(&self, _alloc: Global, _devices: &[DevNo]) -> Result<Self, NoMemory> {
        Ok(ErrorTarget)
    }

    fn fresh(&self, _alloc: Global) -> Result<Self, NoMemory> {
        Ok(ErrorTarget)
    }

    fn start(&mut self, _now: u64) {}

    fn reference(&self, _kind: Kind) -> Option<Ref> {
        None
    }

    fn may_hold(&self, _kind: Kind) -> bool {
        false
    }

    fn cut(&self, _place: u64, left: u64) -> u64 {
        left
    }

    fn judge(&mut self, _kind: Kind, _piece: Span, _now: u64) -> Verdict {
        Verdict::Fail
    }

    fn takes(&self, _words: Words<'_>) -> bool {
        false
    }

    fn message(&mut self, alloc: Global, _words: Words<'_>) -> Result<Vec<u8>, NoMemory> {
        Ok(Vec::new(alloc))
    }

    fn status(&self, alloc: Global, _now: u64, _held: Held) -> Result<Vec<u8>, NoMemory> {
        Ok(Vec::from_slice(alloc, TYPE)?)
    }

    fn print(&self, alloc: Global) -> Result<Vec<u8>, NoMemory> {
        Ok(Vec::from_slice(alloc, TYPE)?)
    }
}
