ghost use Rattle.std.specs.Prelude.{◌≡◌, ◌≤◌, IsSome, OnErr, OnOk, true, option_map};
ghost use Rattle.lab_model.specs.Slots.{live_at};
ghost use Rattle.lab_model.specs.After.{Next};
ghost use Rattle.lab_model.specs.Lists.{change};
ghost use Rattle.lab_model.specs.MapEffect.{all_judged, fits_table, judgements, map_bio, with_live};
ghost use Rattle.lab_model.specs.Pieces.{pieces};
ghost use Rattle.lab_model.specs.Moves.{Moves};
ghost use Rattle.lab_model.specs.Bounds.{HasMoments, latest_moment};
ghost use Rattle.lab_effect.specs.Mapping.{IfMaps, bios_sent};

use crate::children::Mapped;
use crate::pieces::{answer_room, parts_of, pieces_of};
use crate::sending::send_pieces;
use lab_sector::{DevNo, NoMemory};
use lab_state::{Stage, State, Traffic};
use lab_target::Target;
use std::alloc::Global;

/// The mapped device judges the bio of this number: it is cut, and each piece is judged in order by its line.
pub fn map_bio<T: Target>(state: &mut State<T>, alloc: Global, number: u64) -> Result<(), NoMemory>
    requires moves { Moves (map_bio T.meaning state.old number) }
    requires moments { HasMoments state.old }
    ensures next { OnOk result (map_bio T.meaning state.old number ≡ Next state.new) }
    ensures err { OnErr result (state.new ≡ state.old) }
{
    let Some(bio) = state.traffic.get(number) else {
        return Ok(());
    };
    let DevNo::Dm(device) = bio.device else {
        return Ok(());
    };
    let now = state.traffic.clock();
    let mapped = Mapped {
        number,
        device,
        now,
    };
    map_by(&mut state.traffic, alloc, mapped)
}

/// The device's live table judges a bio. All room is made before the first piece is judged, since a judgement
/// changes the line's state.
fn map_by<T: Target>(
    traffic: &mut Traffic<T>,
    alloc: Global,
    mapped: Mapped,
) -> Result<(), NoMemory>
    requires live { IsSome (live_at traffic.old.devices mapped.device) }
    requires fits { IfMaps traffic.old mapped.number mapped.device
        (λ bio table. fits_table table bio.kind bio.span ≡ true) }
    requires moment { mapped.now ≤ latest_moment }
    ensures clock { traffic.new.clock ≡ traffic.old.clock }
    ensures bios { OnOk result (IfMaps traffic.old mapped.number mapped.device (λ bio table.
        traffic.new.bios ≡ bios_sent traffic.old.bios mapped.now mapped.device mapped.number bio
        (judgements T.meaning bio.kind mapped.now table
        (pieces T.meaning table bio.kind bio.span)))) }
    ensures devices { OnOk result (IfMaps traffic.old mapped.number mapped.device (λ bio table.
        traffic.new.devices ≡ change traffic.old.devices mapped.device (option_map (with_live
        (all_judged T.meaning bio.kind mapped.now table
        (pieces T.meaning table bio.kind bio.span)))))) }
    ensures err_bios { OnErr result (traffic.new.bios ≡ traffic.old.bios) }
    ensures err_devices { OnErr result (traffic.new.devices ≡ traffic.old.devices) }
{
    let Some(bio) = traffic.get(mapped.number) else {
        return Ok(());
    };
    let Some(table) = traffic.live(mapped.device) else {
        unreachable!();
    };
    let kind = bio.kind;
    let pieces = pieces_of(alloc, table, kind, bio.span)?;
    let parts = parts_of(alloc, bio, &pieces)?;
    let answered = answer_room(alloc, kind, bio.span.len)?;
    traffic.reserve(pieces.len())?;
    let failed = send_pieces(traffic, alloc, mapped, kind, &pieces, parts);
    traffic.set_stage(mapped.number, Stage::InFlight(failed, answered));
    Ok(())
}
