ghost use Rattle.std.specs.Prelude.{◌≡◌, ◌++◌, ◌∷◌, ◌+◌, ◌≤◌, OnOk, nat_lt};
ghost use Rattle.std.specs.Prelude.{◌*◌};
ghost use Rattle.lab_target.specs.Laws.{Bounded, greatest_sector};
ghost use Rattle.lab_target.specs.Types.{no_marks, passed_to};
ghost use Rattle.lab_delay.specs.Delay.{group_text, longest_delay};
ghost use Rattle.lab_delay.specs.Groups.{group_on};

use lab_sector::{DevNo, NoMemory, Span};
use lab_target::{Marks, Ref, Verdict, push_device};
use lab_text::push_number;
use std::marker::Model;

/// The microseconds of a millisecond.
const MILLISECOND: u64 = 1_000;

/// Where some kinds of bios go, and how long they are held.
#[derive(Clone, Copy, Debug, PartialEq, Eq)]
pub(crate) struct DelayGroup {
    /// Where they go.
    reference: Ref,
    /// How long they are held, in milliseconds.
    delay: u64,
}

impl Model for DelayGroup {
    ghost use Rattle.std.specs.Prelude.{◌≤◌};
    ghost use Rattle.lab_target.specs.Laws.{greatest_sector};
    ghost use Rattle.lab_delay.specs.Delay.{Group, longest_delay};

    ghost Value = { Group };

    ghost view = { λ group. record { reference = group.reference; delay = group.delay } };

    ghost invariant = { λ group.
        (group.reference.first ≤ greatest_sector) × (group.delay ≤ longest_delay) };

    ghost inverse = { λ group. record { reference = group.reference; delay = group.delay } };
}

impl DelayGroup {
    /// The group of a reference and a delay in milliseconds.
    pub(crate) fn new(reference: Ref, delay: u64) -> DelayGroup
        requires near { reference.first ≤ greatest_sector }
        requires timely { delay ≤ longest_delay }
        ensures { result ≡ record { reference = reference; delay = delay } }
    {
        DelayGroup { reference, delay }
    }

    /// The group on another device.
    pub(crate) fn on(&self, dev: DevNo) -> DelayGroup
        ensures { result ≡ group_on self.now dev }
    {
        let Ref { first, .. } = self.reference;
        DelayGroup::new(Ref { dev, first }, self.delay)
    }

    /// Where the kinds go.
    pub(crate) fn reference(&self) -> Ref
        ensures { result ≡ self.now.reference }
    {
        self.reference
    }

    /// Whether the kinds are held at all.
    pub(crate) fn holds(&self) -> bool
        ensures { result ≡ nat_lt 0 self.now.delay }
    {
        self.delay > 0
    }

    /// The verdict on a piece: it goes on after the delay.
    pub(crate) fn pass(&self, piece: Span) -> Verdict
        requires near { piece.first + piece.len ≤ greatest_sector }
        ensures passed { result
            ≡ passed_to self.now.reference piece (1000 * self.now.delay) no_marks }
        ensures bounded { Bounded result }
    {
        self.reference
            .pass(piece, MILLISECOND * self.delay, Marks::NONE)
    }

    /// Prints the group as `DEV OFFSET DELAY`. A refusal may leave a part of it.
    pub(crate) fn push_to(&self, out: &mut Vec<u8>) -> Result<(), NoMemory>
        ensures { OnOk result (out.new.items ≡ out.old.items ++ group_text self.now) }
    {
        push_device(out, self.reference.dev)?;
        out.push(b' ')?;
        push_number(out, self.reference.first)?;
        out.push(b' ')?;
        push_number(out, self.delay)
    }

    /// Prints a space and the group. A refusal may leave a part of it.
    pub(crate) fn push_after_space(&self, out: &mut Vec<u8>) -> Result<(), NoMemory>
        ensures { OnOk result (out.new.items ≡ out.old.items ++ 32 ∷ group_text self.now) }
    {
        out.push(b' ')?;
        self.push_to(out)
    }
}
