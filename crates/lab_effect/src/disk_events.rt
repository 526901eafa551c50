ghost use Rattle.std.specs.Prelude.{◌≡◌, IfSome, OnErr, OnOk};
ghost use Rattle.lab_model.specs.After.{Next};
ghost use Rattle.lab_model.specs.DiskEffect.{finish, release, serve};
ghost use Rattle.lab_model.specs.State.{bio_of};
ghost use Rattle.lab_model.specs.Moves.{Moves};
ghost use Rattle.lab_model.specs.Given.{Fills, HasRoom, NumbersDiffer, given_len, recorded_len};

use crate::answers::tell_landed;
use crate::disk_effect::serve_at;
use crate::parents::{changed_answer, land, leave};
use lab_sector::{DevNo, NoMemory};
use lab_state::{Stage, State};
use lab_target::Target;
use std::alloc::Global;

/// The disk that the bio of this number enters serves it.
pub fn serve<T: Target>(state: &mut State<T>, alloc: Global, number: u64) -> Result<(), NoMemory>
    requires moves { Moves (serve state.old number) }
    requires fills { IfSome (bio_of state.old number) Fills }
    requires room { HasRoom state.old.bios number (λ bio. given_len bio.kind bio.span) }
    requires differ { NumbersDiffer state.old.disks }
    ensures next { OnOk result (serve state.old number ≡ Next state.new) }
    ensures err { OnErr result (state.new ≡ state.old) }
{
    let Some(bio) = state.traffic.get(number) else {
        return Ok(());
    };
    let DevNo::Ram(disk) = bio.device else {
        return Ok(());
    };
    let handed = serve_at(alloc, &mut state.disks, disk, &mut state.logs, bio)?;
    leave(&mut state.traffic, number, handed);
    Ok(())
}

/// The held bio of this number goes on.
pub fn release<T: Target>(state: &mut State<T>, number: u64)
    ensures { release state.old number ≡ Next state.new }
{
    state.traffic.set_stage(number, Stage::Entering);
}

/// The bio of this number, which has no living child any more, is answered: it failed if a piece has, else it gives
/// what was recorded.
pub fn finish<T: Target>(state: &mut State<T>, alloc: Global, number: u64) -> Result<(), NoMemory>
    requires room { HasRoom state.old.bios number (λ bio. recorded_len bio.stage) }
    ensures next { OnOk result (finish state.old number ≡ Next state.new) }
    ensures err { OnErr result (state.new ≡ state.old) }
{
    let Some(bio) = state.traffic.get(number) else {
        return Ok(());
    };
    let Stage::InFlight(failed, answered) = &bio.stage else {
        return Ok(());
    };
    let changed = changed_answer(alloc, bio, *failed, answered)?;
    tell_landed(alloc, &mut state.logs, bio, *failed, answered)?;
    land(alloc, &mut state.traffic, number, changed);
    Ok(())
}
