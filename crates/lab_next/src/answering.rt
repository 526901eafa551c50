ghost use Rattle.std.specs.Prelude.{◌≡◌, None, if◌then◌else◌, option_copied};
ghost use Rattle.lab_bios.specs.Views.{stage_of};
ghost use Rattle.lab_model.specs.Bios.{stage_failed};
ghost use Rattle.lab_next.specs.Answering.{has_failed, kind_answered, kind_if_own, number_answered};
ghost use Rattle.lab_next.specs.Answering.{origin_answered, origin_if_own, own_kind, own_origin};

use crate::bios::bio_of;
use crate::origin::Origin;
use lab_bios::{Bio, Parent, Stage};
use lab_model::Event;
use lab_sector::Kind;
use lab_state::State;
use lab_target::Target;

/// The number of the bio that the event answers; 0, which no bio has, where it answers none.
pub fn number_answered(event: Event) -> u64
    ensures number { result ≡ number_answered event }
{
    match event {
        Event::Serve(number) | Event::Finish(number) => number,
        _ => 0,
    }
}

/// Whether the bio lives and has failed.
pub fn has_failed(bio: Option<&Bio>) -> bool
    ensures failed { result ≡ has_failed (option_copied bio.entry) }
{
    match bio {
        Some(bio) => stage_failed(&bio.stage),
        None => false,
    }
}

/// Whether a bio that has come this far has failed.
pub fn stage_failed(stage: &Stage) -> bool
    ensures failed { result ≡ stage_failed (stage_of stage.now) }
{
    match stage {
        Stage::InFlight(failed, _) => *failed,
        Stage::Entering | Stage::Held(_, _) => false,
    }
}

/// The kind of the operation that the event answers without a failure, if it answers one so.
pub fn kind_answered<T: Target>(state: &State<T>, event: Event) -> Option<Kind>
    ensures kind { result ≡ kind_answered state.now event }
{
    match event {
        Event::Serve(number) => kind_if_own(bio_of(state, number)),
        Event::Finish(number) => kind_finished(bio_of(state, number)),
        _ => None,
    }
}

/// The kind of a bio that hasn't failed, where it answers to a log.
fn kind_finished(bio: Option<&Bio>) -> Option<Kind>
    ensures { result ≡ (if has_failed (option_copied bio.entry) then None
        else kind_if_own (option_copied bio.entry)) }
{
    if has_failed(bio) {
        None
    } else {
        kind_if_own(bio)
    }
}

/// The kind of a bio, where it lives and answers to a log.
pub fn kind_if_own(bio: Option<&Bio>) -> Option<Kind>
    ensures { result ≡ kind_if_own (option_copied bio.entry) }
{
    match bio {
        Some(bio) => own_kind(bio.kind, bio.parent),
        None => None,
    }
}

/// The kind, where the parent is a log.
fn own_kind(kind: Kind, parent: Parent) -> Option<Kind>
    ensures { result ≡ own_kind kind parent }
{
    match parent {
        Parent::FromLog(_, _, _) => Some(kind),
        Parent::FromBio(_, _) => None,
    }
}

/// The operation of a log that the event answers, if it answers one.
pub fn origin_answered<T: Target>(state: &State<T>, event: Event) -> Option<Origin>
    ensures origin { result ≡ origin_answered state.now event }
{
    match event {
        Event::Serve(number) | Event::Finish(number) => origin_if_own(bio_of(state, number)),
        _ => None,
    }
}

/// The operation that a bio answers, where it lives and answers to a log.
fn origin_if_own(bio: Option<&Bio>) -> Option<Origin>
    ensures { result ≡ origin_if_own (option_copied bio.entry) }
{
    match bio {
        Some(bio) => own_origin(bio.parent),
        None => None,
    }
}

/// The operation of a log that is this parent.
pub fn own_origin(parent: Parent) -> Option<Origin>
    ensures origin { result ≡ own_origin parent }
{
    match parent {
        Parent::FromLog(log, line, _) => Some(Origin { log, line }),
        Parent::FromBio(_, _) => None,
    }
}
