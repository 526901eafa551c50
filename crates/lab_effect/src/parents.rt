ghost use Rattle.std.specs.Prelude.{◌≡◌, IfOk, IfSome, None, length};
ghost use Rattle.std.specs.Option.{option_flatten};
ghost use Rattle.lab_model.specs.Answers.{Gave};
ghost use Rattle.lab_model.specs.Bios.{Bio as Request};
ghost use Rattle.lab_model.specs.Lists.{change_numbered, numbered};
ghost use Rattle.lab_model.specs.Sectors.{Sectors as Bytes};
ghost use Rattle.lab_bios.specs.Recording.{told};
ghost use Rattle.lab_model.specs.Given.{HasPlace, HasRoom, recorded_len};
ghost use Rattle.lab_effect.specs.Telling.{IsHanded, LandsWith, handed_to, landed_bios};
ghost use Rattle.lab_effect.specs.Telling.{landed_with, told_bios};

use lab_sector::NoMemory;
use lab_state::{Answered, Bio, Changed, Parent, Sectors, Stage, Traffic};
use lab_target::Target;
use std::alloc::Global;

/// The living bio of this number, if there is one, lives no more, and the bio that it is a piece of, if it is one,
/// records these sectors.
#[tactic(auto, using(crate::proofs::HandedLemmas::place_if_taken))]
pub(crate) fn leave<T: Target>(traffic: &mut Traffic<T>, number: u64, sectors: Sectors)
    requires { HasRoom traffic.old.bios number (λ _. length sectors.items) }
    ensures clock { traffic.new.clock ≡ traffic.old.clock }
    ensures bios { (given : Bytes) → IfSome (option_flatten (numbered traffic.old.bios number)) (λ bio.
        sectors.items ≡ handed_to bio given bio.parent → traffic.new.bios
        ≡ told_bios (change_numbered traffic.old.bios number (λ _. None)) bio (Gave given)
        bio.parent) }
    ensures devices { traffic.new.devices ≡ traffic.old.devices }
{
    if let Some((parent, _)) = traffic.end(number) {
        tell_bio(traffic, parent, false, sectors);
    }
}

/// The bio in flight of this number, if there is one, lives no more, and the bio that it is a piece of, if it is
/// one, records that it failed, where there are no changes, or gave what it has recorded with these changes.
#[tactic(auto, using(crate::proofs::Rulesets::land))]
pub(crate) fn land<T: Target>(
    alloc: Global,
    traffic: &mut Traffic<T>,
    number: u64,
    changed: Option<Changed>,
)
    requires room { HasRoom traffic.old.bios number (λ bio. recorded_len bio.stage) }
    requires lands { IfSome (option_flatten (numbered traffic.old.bios number))
        (λ bio. LandsWith changed bio bio.stage) }
    ensures clock { traffic.new.clock ≡ traffic.old.clock }
    ensures bios { IfSome (option_flatten (numbered traffic.old.bios number)) (λ bio. traffic.new.bios
        ≡ landed_bios (change_numbered traffic.old.bios number (λ _. None)) bio bio.stage) }
    ensures devices { traffic.new.devices ≡ traffic.old.devices }
{
    let Some((parent, stage)) = traffic.end(number) else {
        return;
    };
    if let Stage::InFlight(failed, answered) = stage {
        // A log has been told, and needs no sectors.
        if let Parent::FromBio(_, _) = parent {
            let sectors = landed_with(alloc, changed, answered);
            tell_bio(traffic, parent, failed, sectors);
        }
    }
}

/// What a bio in flight changes in what it has recorded, where it hands that to another bio: what its own marks do. Nothing
/// where it failed, since it hands on no sectors then.
pub(crate) fn changed_answer(
    alloc: Global,
    bio: &Bio,
    failed: bool,
    answered: &Answered,
) -> Result<Option<Changed>, NoMemory>
    ensures { IfOk result (λ changed. IsHanded bio.now (told failed answered.now)
        (landed_with changed answered.now) bio.now.parent) }
{
    if failed {
        return Ok(None);
    }
    let Parent::FromBio(_, _) = bio.parent else {
        return Ok(Some((None, None)));
    };
    let marks = bio.marks();
    if let (None, None) = (marks.fixed, marks.random) {
        return Ok(Some((None, None)));
    }
    Ok(Some(answered.changed(alloc, marks)?))
}

/// What was recorded with these changes, and no sectors where there are none.
fn landed_with(alloc: Global, changed: Option<Changed>, answered: Answered) -> Sectors
    ensures { result.items ≡ landed_with changed answered }
{
    match changed {
        Some(changed) => answered.into_changed(changed),
        None => Vec::new(alloc),
    }
}

/// The bio that another, which lives no more, is a piece of records that it failed, or these sectors, which it is
/// handed.
#[inline(always)]
fn tell_bio<T: Target>(traffic: &mut Traffic<T>, parent: Parent, failed: bool, sectors: Sectors)
    requires { HasPlace traffic.old.bios (length sectors.items) parent }
    ensures clock { traffic.new.clock ≡ traffic.old.clock }
    ensures bios { (bio : Request) → (given : Bytes)
        → IsHanded bio (told failed given) sectors.items parent → traffic.new.bios
        ≡ told_bios traffic.old.bios bio (told failed given) parent }
    ensures devices { traffic.new.devices ≡ traffic.old.devices }
{
    if let Parent::FromBio(number, piece) = parent {
        traffic.record(number, piece, failed, sectors);
    }
}
