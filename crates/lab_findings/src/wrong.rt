ghost use Rattle.std.specs.Prelude.{◌≡◌, IfOk};
ghost use Rattle.lab_findings.specs.Wrongs.{all_wrong, count_in, joined};

use crate::found::Wrong;
use lab_sector::NoMemory;

/// The wrong ones of some sectors, and of others behind them. There is no memory for more than a number counts.
pub(crate) fn joined(wrong: Option<Wrong>, more: Option<Wrong>) -> Result<Option<Wrong>, NoMemory>
    ensures { IfOk result (λ both. both ≡ joined wrong more) }
{
    let Some(wrong) = wrong else {
        return Ok(more);
    };
    let count = wrong.count.checked_add(count_in(more)).ok_or(NoMemory)?;
    Ok(Some(Wrong { count, ..wrong }))
}

/// How many are wrong.
fn count_in(wrong: Option<Wrong>) -> u64
    ensures { result ≡ count_in wrong }
{
    match wrong {
        Some(wrong) => wrong.count,
        None => 0,
    }
}

/// So many sectors from a place on, of which all are wrong, or none.
pub(crate) fn all_wrong(first: u64, count: u64, hit: bool) -> Option<Wrong>
    ensures { result ≡ all_wrong first count hit }
{
    if hit && count > 0 {
        Some(Wrong { first, count })
    } else {
        None
    }
}
