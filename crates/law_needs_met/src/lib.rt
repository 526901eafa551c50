//! Each event that may come in a run of an accepted scenario finds what its effect needs, the numbers
//! of the run fit, and no silent default of the machine's definition is met.
#![tactic(auto)]

ghost use Rattle.law_needs_met.specs.Law.{NumbersFit, RunsAreReady, TextsAreInHours};
ghost use Rattle.law_needs_met.specs.NoDefault.{AcceptedFindsAll, EventsFind, ParentsFly};
ghost use Rattle.law_needs_met.specs.NoDefault.{PiecesNameLines};

use lab_target::Target;

/// No sleep and no wait that is read of any texts is longer than an hour.
pub fn texts_are_in_hours<T: Target>()
    ensures { TextsAreInHours T.meaning }
{}

/// After each run of what texts say and is accepted, each event that may come finds what it needs:
/// it isn't wrong, tables are in their opening state, and moments, modes, disks and bios are as
/// its effect asks for.
pub fn runs_are_ready<T: Target>()
    ensures { RunsAreReady T.meaning }
{}

/// The numbers of each such run fit: its logs, bios, devices, done steps, and events.
pub fn numbers_fit<T: Target>()
    ensures { NumbersFit T.meaning }
{}

/// After each run of a fine scenario, what an event that may come names is found; the bio or the
/// log that a living bio answers to is there, and a bio waits for its children; and each piece that
/// a bio is cut into names a line of the table that judges it, and sectors within that line. So it
/// is after each run of an accepted scenario, since that is fine.
pub fn no_default<T: Target>()
    ensures event { EventsFind T.meaning }
    ensures parent { ParentsFly T.meaning }
    ensures piece { PiecesNameLines T.meaning }
    ensures accepted { AcceptedFindsAll T.meaning }
{}
