ghost use Rattle.std.specs.Prelude.{◌≡◌, IfOk, OnErr, OnOk};
ghost use Rattle.std.specs.List.{concat};
ghost use Rattle.lab_model.specs.Answers.{Gave, outcome_of};
ghost use Rattle.lab_text.specs.Runs.{runs_list};
ghost use Rattle.lab_bios.specs.Recording.{told};
ghost use Rattle.lab_effect.specs.Telling.{handed_to, told_logs, untold_logs};

use lab_bios::mark;
use lab_disk::{Sector, runs_of_sectors, runs_of_zeroes};
use lab_model::{Answer, Outcome};
use lab_sector::{Kind, NoMemory};
use lab_state::{Answered, Bio, Logs, Parent, Sectors};
use lab_text::Runs;
use std::alloc::Global;

/// Tells the log of a bio's operation, if it is one, what the bio gives. Another bio is to get that with the bio's own
/// marks, which are set in it.
pub(crate) fn answer(
    alloc: Global,
    logs: &mut Logs,
    bio: &Bio,
    given: Sectors,
) -> Result<Sectors, NoMemory>
    ensures handed { IfOk result (λ handed. handed.items
        ≡ handed_to bio.now given.items bio.now.parent) }
    ensures logs { OnOk result (logs.new
        ≡ told_logs logs.old bio.now (Gave given.items) bio.now.parent) }
    ensures err { OnErr result (logs.new ≡ logs.old) }
{
    if let Parent::FromLog(_, _, _) = bio.parent {
        tell_log(alloc, logs, bio, &given)?;
        return Ok(given);
    }
    let mut given = given;
    mark(alloc, &mut given, bio.marks())?;
    Ok(given)
}

/// The log of a bio's operation, if it is one, gets the answer of one that gave these sectors.
pub(crate) fn tell_log(
    alloc: Global,
    logs: &mut Logs,
    bio: &Bio,
    sectors: &[Sector],
) -> Result<(), NoMemory>
    ensures ok { OnOk result
        (logs.new ≡ told_logs logs.old bio.now (Gave sectors.now) bio.now.parent) }
    ensures err { OnErr result (logs.new ≡ logs.old) }
{
    let Parent::FromLog(number, line, action) = bio.parent else {
        return Ok(());
    };
    let outcome = match bio.kind {
        Kind::Read => Outcome::Runs(runs_of_sectors(alloc, sectors)?),
        Kind::Write | Kind::Trim | Kind::Flush => Outcome::Fine,
    };
    let answer = Answer {
        line,
        action,
        outcome,
    };
    logs.answer(number, answer)
}

/// The log of a bio's operation, if it is one, gets the answer of one in flight: that it failed, or gave what it has
/// recorded.
pub(crate) fn tell_landed(
    alloc: Global,
    logs: &mut Logs,
    bio: &Bio,
    failed: bool,
    answered: &Answered,
) -> Result<(), NoMemory>
    ensures ok { OnOk result (logs.new
        ≡ told_logs logs.old bio.now (told failed answered.now) bio.now.parent) }
    ensures err { OnErr result (logs.new ≡ logs.old) }
{
    let Parent::FromLog(number, line, action) = bio.parent else {
        return Ok(());
    };
    let outcome = landed_outcome(alloc, bio.kind, failed, answered)?;
    let answer = Answer {
        line,
        action,
        outcome,
    };
    logs.answer(number, answer)
}

/// The log of a bio's operation, if it is one, loses its last answer.
pub(crate) fn untell_log(logs: &mut Logs, bio: &Bio)
    ensures { logs.new ≡ untold_logs logs.old bio.now.parent }
{
    if let Parent::FromLog(number, _, _) = bio.parent {
        logs.take_back(number);
    }
}

/// What a log is told of a bio in flight: that it failed, or gave what it has recorded.
fn landed_outcome(
    alloc: Global,
    kind: Kind,
    failed: bool,
    answered: &Answered,
) -> Result<Outcome, NoMemory>
    ensures { IfOk result (λ outcome. outcome ≡ outcome_of kind (told failed answered.now)) }
{
    if failed {
        return Ok(Outcome::Eio);
    }
    match kind {
        Kind::Read => Ok(Outcome::Runs(answered_runs(alloc, answered)?)),
        Kind::Write | Kind::Trim | Kind::Flush => Ok(Outcome::Fine),
    }
}

/// The runs of what a read in flight has recorded. Zero bytes that aren't written yet are not made for it.
fn answered_runs(alloc: Global, answered: &Answered) -> Result<Runs, NoMemory>
    ensures { IfOk result (λ runs. runs ≡ runs_list (concat answered.now)) }
{
    match answered.kept() {
        Some(sectors) => runs_of_sectors(alloc, sectors),
        None => runs_of_zeroes(alloc, answered.count() as u64),
    }
}
