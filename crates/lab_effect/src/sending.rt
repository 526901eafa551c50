ghost use Rattle.std.specs.Prelude.{◌≡◌, ◌+◌, ◌<◌, ◌≤◌, ◌++◌, ◌∷◌, [], IfSome, IsSome, Some, option_map};
ghost use Rattle.std.specs.Prelude.{length, map};
ghost use Rattle.std.specs.List.{list_any};
ghost use Rattle.std.specs.Vec.Iter.{into_iter_items, into_iter_len};
ghost use Rattle.lab_model.specs.Slots.{live_at};
ghost use Rattle.lab_model.specs.Bios.{Bio as Request};
ghost use Rattle.lab_model.specs.Lists.{change};
ghost use Rattle.lab_model.specs.MapEffect.{all_judged, children, fails, judgement, judgements};
ghost use Rattle.lab_model.specs.MapEffect.{table_judged, with_live};
ghost use Rattle.lab_model.specs.Bounds.{latest_moment};
ghost use Rattle.lab_effect.specs.Mapping.{FitsLine, IfMaps, IsReady, TakesPart, part_of};

use crate::children::{Mapped, push_child};
use crate::judgement::{Judgement, fails, judge_piece};
use lab_model::Piece;
use lab_sector::Kind;
use lab_state::{Traffic, Written};
use lab_target::Target;
use std::alloc::Global;
use std::vec::IntoIter;

/// Judges the pieces of a bio of this kind in order, each by its line of the device's live table, and puts the children
/// of those that pass behind all bios, which have room for them: each writes its part. Whether a piece fails is
/// returned.
pub(crate) fn send_pieces<T: Target>(
    traffic: &mut Traffic<T>,
    alloc: Global,
    mapped: Mapped,
    kind: Kind,
    pieces: &[Piece],
    parts: Vec<Written>,
) -> bool
    requires moment { mapped.now ≤ latest_moment }
    requires ready { IsReady kind mapped.number mapped.device pieces.now
        parts.items traffic.old }
    requires room { length pieces.now ≤ traffic.old.room }
    ensures clock { traffic.new.clock ≡ traffic.old.clock }
    ensures failed { IfSome (live_at traffic.old.devices mapped.device) (λ table. result
        ≡ list_any (λ j. fails j.verdict)
        (judgements T.meaning kind mapped.now table pieces.now)) }
    ensures bios { IfMaps traffic.old mapped.number mapped.device (λ bio table.
        traffic.new.bios ≡ traffic.old.bios ++ map (λ child. Some child)
        (children mapped.now mapped.device mapped.number bio
        (judgements T.meaning kind mapped.now table pieces.now))) }
    ensures devices { IfSome (live_at traffic.old.devices mapped.device) (λ table.
        traffic.new.devices ≡ change traffic.old.devices mapped.device (option_map (with_live
        (all_judged T.meaning kind mapped.now table pieces.now)))) }
{
    let mut parts = parts.into_iter();
    let mut failed = false;
    for piece in pieces {
        let part = next_part(alloc, &mut parts);
        failed |= send_piece(traffic, mapped, kind, *piece, part);
    }
    failed
}

/// The next of the parts; past the last an empty one.
#[inline(always)]
fn next_part(alloc: Global, parts: &mut IntoIter<Written>) -> Written
    requires { into_iter_len parts.old ≡ length (into_iter_items parts.old) }
    ensures part { TakesPart (into_iter_items parts.old) result (into_iter_items parts.new) }
    ensures len { into_iter_len parts.new ≡ length (into_iter_items parts.new) }
{
    match parts.next() {
        Some(part) => part,
        None => Written::none(alloc),
    }
}

/// Judges a piece of a bio of this kind by its line of the device's live table, and puts its child, if it passes,
/// behind all bios, which have room for it: it writes this part. Whether the piece fails is returned.
#[inline]
fn send_piece<T: Target>(
    traffic: &mut Traffic<T>,
    mapped: Mapped,
    kind: Kind,
    piece: Piece,
    part: Written,
) -> bool
    requires moment { mapped.now ≤ latest_moment }
    requires live { IsSome (live_at traffic.old.devices mapped.device) }
    requires fits { IfSome (live_at traffic.old.devices mapped.device)
        (λ table. FitsLine kind table piece) }
    requires room { 0 < traffic.old.room }
    ensures clock { traffic.new.clock ≡ traffic.old.clock }
    ensures failed { IfSome (live_at traffic.old.devices mapped.device)
        (λ table. result ≡ fails (judgement T.meaning kind mapped.now table piece).verdict) }
    ensures bios { IfSome (live_at traffic.old.devices mapped.device) (λ table.
        (bio : Request) → bio.kind ≡ kind → part ≡ part_of bio piece
        → traffic.new.bios ≡ traffic.old.bios ++ map (λ child. Some child)
        (children mapped.now mapped.device mapped.number bio
        (judgement T.meaning kind mapped.now table piece ∷ []))) }
    ensures devices { IfSome (live_at traffic.old.devices mapped.device) (λ table.
        traffic.new.devices ≡ change traffic.old.devices mapped.device (option_map (with_live
        (table_judged T.meaning kind mapped.now table piece)))) }
    ensures room { traffic.old.room ≤ traffic.new.room + 1 }
{
    let judgement = judge_at(traffic, mapped, kind, piece);
    push_child(traffic, mapped, kind, &judgement, part);
    fails(judgement.verdict)
}

/// The device's live table judges a piece by its line.
#[inline]
fn judge_at<T: Target>(
    traffic: &mut Traffic<T>,
    mapped: Mapped,
    kind: Kind,
    piece: Piece,
) -> Judgement
    requires live { IsSome (live_at traffic.old.devices mapped.device) }
    requires fits { IfSome (live_at traffic.old.devices mapped.device)
        (λ table. FitsLine kind table piece) }
    ensures judged { IfSome (live_at traffic.old.devices mapped.device)
        (λ table. result ≡ judgement T.meaning kind mapped.now table piece) }
    ensures clock { traffic.new.clock ≡ traffic.old.clock }
    ensures bios { traffic.new.bios ≡ traffic.old.bios }
    ensures devices { IfSome (live_at traffic.old.devices mapped.device) (λ table.
        traffic.new.devices ≡ change traffic.old.devices mapped.device (option_map (with_live
        (table_judged T.meaning kind mapped.now table piece)))) }
    ensures room { traffic.new.room ≡ traffic.old.room }
{
    let Some(table) = traffic.live_mut(mapped.device) else {
        unreachable!();
    };
    judge_piece(table, kind, mapped.now, piece)
}
