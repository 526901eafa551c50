ghost use Rattle.std.specs.Prelude.{◌≡◌};
ghost use Rattle.lab_delay.specs.Delay.{group_for};

use crate::group::DelayGroup;
use crate::grouped::Grouped;
use crate::line::{line_groups, placed_groups};
use lab_sector::{DevNo, Kind, NoMemory, Span};
use lab_target::{
    Held, Ref, Target, TargetFault, Unbound, Verdict, after_type, later_devices, only_device,
};
use lab_text::{Words, push_number};
use std::alloc::Global;
use std::marker::Model;

/// The type word of the target.
const TYPE: &[u8] = b"delay";

/// Bios go on to other devices after some time (dm-delay).
#[derive(Clone, Copy, Debug, PartialEq, Eq)]
pub struct Delay {
    /// The groups as the line gave them.
    groups: Grouped<DelayGroup>,
}

impl Model for Delay {
    ghost use Rattle.std.specs.Prelude.{List};
    ghost use Rattle.lab_delay.specs.Delay.{Group};
    ghost use Rattle.lab_delay.specs.Groups.{grouped_of, members};

    ghost Value = { List Group };

    ghost view = { λ target. members target.groups };

    ghost inverse = { λ groups. record { groups = grouped_of groups } };
}

impl Target for Delay {
    ghost use Rattle.lab_delay.specs.Delay.{delay_target};
    ghost use Rattle.lab_delay.specs.DelayLaws.{delay-lawful};
    ghost use Rattle.lab_delay.specs.Groups.{bound};

    ghost meaning = { delay_target };

    ghost bound = { bound };

    ghost lawful = { delay-lawful };

    fn read_unbound<'a>(
        alloc: Global,
        words: Words<'a>,
        _len: u64,
    ) -> Result<Unbound<'a, Self>, TargetFault> {
        let Some(words) = after_type(words, TYPE) else {
            return Err(TargetFault::Unknown);
        };
        let groups = line_groups(words)?;
        let target = Delay {
            groups: placed_groups(groups),
        };
        match groups {
            Grouped::One(all) => Unbound::new(alloc, &[all.device], target),
            Grouped::Two(reads, others) => {
                Unbound::new(alloc, &[reads.device, others.device], target)
            }
            Grouped::Three(reads, writes, flushes) => Unbound::new(
                alloc,
                &[reads.device, writes.device, flushes.device],
                target,
            ),
        }
    }

    fn bind(&self, _alloc: Global, devices: &[DevNo]) -> Result<Self, NoMemory> {
        let first = only_device(devices);
        let later = later_devices(devices);
        let second = only_device(later);
        let third = only_device(later_devices(later));
        let groups = match self.groups {
            Grouped::One(all) => Grouped::One(all.on(first)),
            Grouped::Two(reads, others) => Grouped::Two(reads.on(first), others.on(second)),
            Grouped::Three(reads, writes, flushes) => {
                Grouped::Three(reads.on(first), writes.on(second), flushes.on(third))
            }
        };
        Ok(Delay { groups })
    }

    fn fresh(&self, _alloc: Global) -> Result<Self, NoMemory> {
        Ok(*self)
    }

    fn start(&mut self, _now: u64) {}

    fn reference(&self, kind: Kind) -> Option<Ref> {
        Some(self.group_for(kind).reference())
    }

    fn may_hold(&self, kind: Kind) -> bool {
        self.group_for(kind).holds()
    }

    fn cut(&self, _place: u64, left: u64) -> u64 {
        left
    }

    fn judge(&mut self, kind: Kind, piece: Span, _now: u64) -> Verdict {
        self.group_for(kind).pass(piece)
    }

    fn takes(&self, _words: Words<'_>) -> bool {
        false
    }

    fn message(&mut self, alloc: Global, _words: Words<'_>) -> Result<Vec<u8>, NoMemory> {
        Ok(Vec::new(alloc))
    }

    fn status(&self, alloc: Global, _now: u64, held: Held) -> Result<Vec<u8>, NoMemory> {
        let mut out = Vec::from_slice(alloc, b"delay ")?;
        push_number(&mut out, held.reads)?;
        out.push(b' ')?;
        push_number(&mut out, held.writes)?;
        out.push(b' ')?;
        push_number(&mut out, held.flushes)?;
        Ok(out)
    }

    fn print(&self, alloc: Global) -> Result<Vec<u8>, NoMemory> {
        let mut out = Vec::from_slice(alloc, b"delay ")?;
        match self.groups {
            Grouped::One(all) => all.push_to(&mut out)?,
            Grouped::Two(reads, others) => {
                reads.push_to(&mut out)?;
                others.push_after_space(&mut out)?;
            }
            Grouped::Three(reads, writes, flushes) => {
                reads.push_to(&mut out)?;
                writes.push_after_space(&mut out)?;
                flushes.push_after_space(&mut out)?;
            }
        }
        Ok(out)
    }
}

impl Delay {
    /// The group of a kind. Trims go with writes.
    fn group_for(&self, kind: Kind) -> DelayGroup
        ensures { result ≡ group_for self.now kind }
    {
        match (self.groups, kind) {
            (Grouped::One(all), _) => all,
            (Grouped::Two(reads, _) | Grouped::Three(reads, _, _), Kind::Read) => reads,
            (Grouped::Two(_, others), _) => others,
            (Grouped::Three(_, writes, _), Kind::Write | Kind::Trim) => writes,
            (Grouped::Three(_, _, flushes), Kind::Flush) => flushes,
        }
    }
}
