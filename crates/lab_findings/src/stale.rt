ghost use Rattle.std.specs.Prelude.{◌≡◌, ◌++◌, ◌≤◌, [], ◌∷◌, IfOk};
ghost use Rattle.lab_watch.specs.Grids.{side_by_side, spelled_writers};
ghost use Rattle.lab_findings.specs.Judged.{answered_before, is_older, is_older_deed, is_older_than};
ghost use Rattle.lab_findings.specs.Judged.{is_stale, stale_pairs};
ghost use Rattle.lab_findings.specs.Wrongs.{wrong_from};

use crate::deed::{Deed, Deeds};
use crate::found::Wrong;
use crate::newer::behind;
use crate::wrong::{all_wrong, joined};
use lab_next::Writer;
use lab_sector::NoMemory;
use lab_watch::{Row, Run};

/// Of the sectors of a read, those that are stale, where these are its claims, it is answered so, and its first sector
/// has this number. There is no memory for more than a number counts.
pub(crate) fn stale_in(
    deeds: &Deeds,
    claims: &Row,
    answers: &Row,
    first: u64,
) -> Result<Option<Wrong>, NoMemory>
    ensures { IfOk result (λ wrong. wrong
        ≡ wrong_from first (stale_pairs deeds.now claims.now answers.now)) }
{
    let mut wrong = None;
    let mut place = first;
    let (mut claim, mut claims_left) = front(claims.runs());
    let (mut got, mut answers_left) = front(answers.runs());
    while claim.count > 0 && got.count > 0 {
        let count = claim.count.min(got.count);
        let hit = is_stale(deeds, claim.writer, got.writer);
        wrong = joined(wrong, all_wrong(place, count, hit))?;
        place = place.checked_add(count).ok_or(NoMemory)?;
        (claim, claims_left) = past(claim, claims_left, count)?;
        (got, answers_left) = past(got, answers_left, count)?;
    }
    Ok(wrong)
}

/// The first of some runs that has a sector, and the runs behind it; a run without one, where none has.
fn front(runs: &[Run]) -> (Run, &[Run])
    ensures same { spelled_writers (result.0 ∷ result.1.now) ≡ spelled_writers runs.now }
    ensures none { result.0.count ≡ 0 → spelled_writers runs.now ≡ [] }
{
    let mut rest = runs;
    while let Some((run, others)) = rest.split_first() {
        if run.count > 0 {
            return (*run, others);
        }
        rest = others;
    }
    let none = Run {
        count: 0,
        writer: None,
    };
    (none, rest)
}

/// What is left of a run and of the runs behind it, without so many of its first sectors.
fn past<'a>(run: Run, rest: &'a [Run], count: u64) -> Result<(Run, &'a [Run]), NoMemory>
    ensures same { IfOk result (λ left. count ≤ run.count → spelled_writers (run ∷ rest.now)
        ≡ side_by_side count run.writer ++ spelled_writers (left.0 ∷ left.1.now)) }
    ensures none { IfOk result (λ left. left.0.count ≡ 0
        → spelled_writers (left.0 ∷ left.1.now) ≡ []) }
{
    if count < run.count {
        let left = Run {
            count: run.count - count,
            writer: behind(run.writer, count)?,
        };
        return Ok((left, rest));
    }
    Ok(front(rest))
}

/// Whether a sector is stale that has this claim and was answered so.
fn is_stale(deeds: &Deeds, claim: Option<Writer>, got: Option<Writer>) -> bool
    ensures { result ≡ is_stale deeds.now claim got }
{
    match claim {
        Some(claim) => is_older_than(deeds, got, deeds.get(claim.origin)),
        None => false,
    }
}

/// Whether what a sector was answered is older than the claim of an operation that is known so.
fn is_older_than(deeds: &Deeds, got: Option<Writer>, claim: Option<Deed>) -> bool
    ensures { result ≡ is_older_than deeds.now got claim }
{
    match claim {
        Some(claim) => is_older(deeds, claim, got),
        None => false,
    }
}

/// Whether what a sector was answered is older than a claim to it: nobody's zeroes are, but not where the claim's are a
/// trim's zeroes too.
fn is_older(deeds: &Deeds, claim: Deed, got: Option<Writer>) -> bool
    ensures { result ≡ is_older deeds.now claim got }
{
    match got {
        Some(writer) => is_older_deed(claim, deeds.get(writer.origin)),
        None => !claim.trims,
    }
}

/// Whether what an operation that is known so wrote is older than a claim: it was answered before the claim's operation
/// was issued, and not both are the zeroes of trims.
fn is_older_deed(claim: Deed, deed: Option<Deed>) -> bool
    ensures { result ≡ is_older_deed claim deed }
{
    match deed {
        Some(deed) => answered_before(claim.bio, deed.made) && !(claim.trims && deed.trims),
        None => false,
    }
}

/// Whether an operation that is known so was answered before the bio of a number was made.
fn answered_before(number: u64, made: Option<u64>) -> bool
    ensures { result ≡ answered_before number made }
{
    match made {
        Some(made) => made < number,
        None => false,
    }
}
