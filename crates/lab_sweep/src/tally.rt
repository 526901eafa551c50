ghost use Rattle.std.specs.Prelude.{◌≡◌, IfOk, OnOk};
ghost use Rattle.std.specs.Str.{bytes_eq};
ghost use Rattle.lab_sweep.specs.Tally.{count_after, counted_seed, tally};

use crate::outcome::SeedOutcome;
use indexmap::IndexMap;
use lab_sector::NoMemory;
use std::alloc::Global;

/// How many seeds have something, and which is the first.
#[derive(Clone, Copy, Debug)]
pub struct SeedCount {
    /// The first seed that has it.
    pub first: u64,
    /// How many seeds have it.
    pub count: u64,
}

/// How many outcomes have each digest, in the order of the first that has it.
pub(crate) fn tally_of(
    alloc: Global,
    outcomes: &[SeedOutcome],
) -> Result<IndexMap<[u8; 16], SeedCount>, NoMemory>
    ensures { IfOk result (λ map. map.entries ≡ tally outcomes.now) }
{
    let mut counts = IndexMap::new(alloc);
    for outcome in outcomes {
        count_in(&mut counts, outcome)?;
    }
    Ok(counts)
}

/// Counts one outcome more.
fn count_in(
    counts: &mut IndexMap<[u8; 16], SeedCount>,
    outcome: &SeedOutcome,
) -> Result<(), NoMemory>
    ensures { OnOk result (counts.new.entries
        ≡ counted_seed bytes_eq counts.old.entries outcome.now.digest outcome.now.seed) }
{
    let count = count_with(counts.get(&outcome.digest).copied(), outcome.seed)?;
    counts.insert(outcome.digest, count)?;
    Ok(())
}

/// A count with one seed more, which is its first where nothing was counted.
pub(crate) fn count_with(count: Option<SeedCount>, seed: u64) -> Result<SeedCount, NoMemory>
    ensures { IfOk result (λ more. more ≡ count_after count seed) }
{
    match count {
        Some(SeedCount { first, count }) => Ok(SeedCount {
            first,
            count: count.checked_add(1).ok_or(NoMemory)?,
        }),
        None => Ok(SeedCount {
            first: seed,
            count: 1,
        }),
    }
}
