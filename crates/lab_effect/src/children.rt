ghost use Rattle.std.specs.Prelude.{◌≡◌, ◌+◌, ◌<◌, ◌≤◌, ◌++◌, ◌∷◌, [], Some, map, option_map};
ghost use Rattle.lab_target.specs.Laws.{longest_hold};
ghost use Rattle.lab_model.specs.Bios.{Bio as Request};
ghost use Rattle.lab_model.specs.MapEffect.{child_stage, children, mark_in, marks_in};
ghost use Rattle.lab_bios.specs.Views.{stage_of};
ghost use Rattle.lab_model.specs.Bounds.{latest_moment};
ghost use Rattle.lab_effect.specs.Mapping.{part_of};

use crate::judgement::Judgement;
use lab_sector::{Kind, SECTOR_BYTES, Span};
use lab_state::{Bio, MarkPlaces, MarkValues, Parent, Stage, Traffic, Written};
use lab_target::{Mark, Marks, Target, Verdict};

/// Who judges a bio, and when: its number, its mapped device's number, and the moment.
#[derive(Clone, Copy, Debug)]
pub(crate) struct Mapped {
    pub(crate) number: u64,
    pub(crate) device: u32,
    pub(crate) now: u64,
}

/// Puts the child, of a bio of this kind, of a piece that passes behind all bios, among which there is room for it. It
/// writes this part with a write's marks in it.
#[inline]
pub(crate) fn push_child<T: Target>(
    traffic: &mut Traffic<T>,
    mapped: Mapped,
    kind: Kind,
    judgement: &Judgement,
    part: Written,
)
    requires moment { mapped.now ≤ latest_moment }
    requires room { 0 < traffic.old.room }
    ensures clock { traffic.new.clock ≡ traffic.old.clock }
    ensures bios { (bio : Request) → bio.kind ≡ kind
        → part ≡ part_of bio judgement.now.piece
        → traffic.new.bios ≡ traffic.old.bios ++ map (λ child. Some child)
        (children mapped.now mapped.device mapped.number bio (judgement.now ∷ [])) }
    ensures devices { traffic.new.devices ≡ traffic.old.devices }
    ensures room { traffic.old.room ≤ traffic.new.room + 1 }
{
    if let Verdict::Pass(below, span, hold, marks) = judgement.verdict {
        let marks = marks_in(judgement.span, marks);
        traffic.push_in_room(Bio {
            kind,
            device: below,
            values: MarkValues::of(marks),
            parent: Parent::FromBio(mapped.number, judgement.piece),
            written: part,
            stage: child_stage(mapped.now, mapped.device, hold),
            span,
            places: MarkPlaces::of(marks),
        });
    }
}

/// Both marks, counted from the first byte of the piece.
#[inline(always)]
fn marks_in(span: Span, marks: Marks) -> Marks
    ensures { result ≡ marks_in span marks }
{
    Marks {
        fixed: mark_in(span, marks.fixed),
        random: mark_in(span, marks.random),
    }
}

/// A mark counted from the first byte of the piece that it is in.
#[inline(always)]
fn mark_in(span: Span, mark: Option<Mark>) -> Option<Mark>
    ensures { result ≡ option_map (mark_in span) mark }
{
    let mark = mark?;
    let before = span.first.saturating_mul(SECTOR_BYTES);
    Some(Mark {
        place: mark.place.saturating_sub(before),
        value: mark.value,
    })
}

/// A child is held where the hold is above 0, until its moment, by the device that cut it.
#[inline(always)]
fn child_stage(now: u64, device: u32, hold: u64) -> Stage
    requires moment { now ≤ latest_moment }
    requires hold { hold ≤ longest_hold }
    ensures { stage_of result ≡ child_stage now device hold }
{
    if hold > 0 {
        Stage::Held(now + hold, device)
    } else {
        Stage::Entering
    }
}
